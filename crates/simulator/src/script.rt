//! Scripts, in the simulator's own format: a step a line.
ghost use Rattle.std.specs.Prelude.{◌≡◌, ◌+◌, ◌++◌, ◌∷◌, [], ℕ, vec_len, map, option_map, Some, Err, IfOk};
ghost use Rattle.std.specs.List.{list_all};
ghost use Rattle.command_table.specs.Numbers.{count_of};
ghost use Rattle.simulator.specs.Lines.{is_plain, lines, words};
ghost use Rattle.simulator.specs.Script.{IsFirstUnreadable, admin_of, call_of, node_of, number_of, only, request_of, step_as, step_in, step_of};
ghost use Rattle.simulator.specs.declared.fault.ScriptFault.TheVariants.{Line};
ghost use Rattle.world.specs.declared.step.Step.TheVariants as step;

use crate::fault::ScriptFault;
use crate::form::StepForm;
use crate::lines::{split_line, split_word};
use byte_string::ByteString;
use command_table::{number_in, positive_in};
use resp2::Words;
use std::alloc::{AllocError, Global};
use world::Step;

/// Reads a script, a step a line.
///
/// Words are separated by one blank and have bytes from 33 to 126; only those of a request may be empty. Numbers are decimal
/// texts without a plus and without a leading zero; that of a client or a message is at least 1. A newline ends each line, and the last
/// one may go without. The fault Line names the first line that is no step.
pub fn read_script(alloc: Global, text: &[u8]) -> Result<Vec<Step>, ScriptFault>
    ensures steps { IfOk result (λ steps. map Some steps.items ≡ map step_in (lines text.now)) }
    ensures line { (number : ℕ) → result ≡ Err (Line number) → IsFirstUnreadable number text.now }
{
    let mut steps = Vec::new(alloc);
    let mut rest = text;
    while let Some((line, behind)) = split_line(rest) {
        let Some(step) = step_in(alloc, line)? else {
            return Err(ScriptFault::Line(steps.len() as u64 + 1));
        };
        add(&mut steps, step)?;
        rest = behind;
    }
    Ok(steps)
}

// Adds a step behind the others.
fn add(steps: &mut Vec<Step>, step: Step) -> Result<(), AllocError>
    ensures items { IfOk result (λ _. steps.new.items ≡ steps.old.items ++ step ∷ []) }
    ensures len { IfOk result (λ _. vec_len steps.new ≡ vec_len steps.old + 1) }
{
    Ok(steps.push(step)?)
}

// The step that the line is, or None.
fn step_in(alloc: Global, line: &[u8]) -> Result<Option<Step>, AllocError>
    ensures { IfOk result (λ step. step ≡ step_in line.now) }
{
    if !is_plain(line) {
        return Ok(None);
    }
    let (name, Some(arguments)) = split_word(line) else {
        return Ok(None);
    };
    step_of(alloc, name, arguments)
}

// Whether the line has blanks and bytes of words alone.
fn is_plain(line: &[u8]) -> bool
    ensures { result ≡ list_all is_plain line.now }
{
    line.iter().all(|byte| matches!(*byte, b' '..=b'~'))
}

// The step of that name with these arguments.
fn step_of(alloc: Global, name: &[u8], arguments: &[u8]) -> Result<Option<Step>, AllocError>
    ensures { IfOk result (λ step. step ≡ step_of (name.now ∷ words arguments.now)) }
{
    match StepForm::of(name) {
        Some(form) => step_as(alloc, form, arguments),
        None => Ok(None),
    }
}

// The step of that form with these arguments.
fn step_as(alloc: Global, form: StepForm, arguments: &[u8]) -> Result<Option<Step>, AllocError>
    ensures { IfOk result (λ step. step ≡ step_as form (words arguments.now)) }
{
    match form {
        StepForm::Call => call_of(alloc, arguments),
        StepForm::Carry => Ok(carry_of(arguments)),
        StepForm::Return => Ok(return_of(arguments)),
        StepForm::Cut => Ok(cut_of(arguments)),
        StepForm::Late => Ok(late_of(arguments)),
        StepForm::Admin => admin_of(alloc, arguments),
        StepForm::Tick => Ok(tick_of(arguments)),
        StepForm::Stop => Ok(stop_of(arguments)),
        StepForm::Deliver => Ok(delivery_of(arguments)),
    }
}

fn call_of(alloc: Global, arguments: &[u8]) -> Result<Option<Step>, AllocError>
    ensures { IfOk result (λ step. step ≡ call_of (words arguments.now)) }
{
    let (client, Some(request)) = split_word(arguments) else {
        return Ok(None);
    };
    let Some(client) = positive_in(client) else {
        return Ok(None);
    };
    match request_of(alloc, request)? {
        Some(words) => Ok(Some(Step::Call { client, words })),
        None => Ok(None),
    }
}

fn admin_of(alloc: Global, arguments: &[u8]) -> Result<Option<Step>, AllocError>
    ensures { IfOk result (λ step. step ≡ admin_of (words arguments.now)) }
{
    let (node, Some(request)) = split_word(arguments) else {
        return Ok(None);
    };
    let Some(node) = count_in(node) else {
        return Ok(None);
    };
    match request_of(alloc, request)? {
        Some(words) => Ok(Some(Step::Admin { node, words })),
        None => Ok(None),
    }
}

// The request that the words are, or None where they are more than a request may have.
fn request_of(alloc: Global, request: &[u8]) -> Result<Option<Words>, AllocError>
    ensures { IfOk result (λ request_words. request_words ≡ request_of (words request.now)) }
{
    Ok(Words::new(words_in(alloc, request)?))
}

// The words of a request.
fn words_in(alloc: Global, request: &[u8]) -> Result<Vec<ByteString>, AllocError>
    ensures { IfOk result (λ all. all.items ≡ words request.now) }
{
    let mut all = Vec::new(alloc);
    let mut rest = Some(request);
    while let Some(line) = rest {
        let (word, behind) = split_word(line);
        all.push(ByteString::copy_from_slice(alloc, word)?)?;
        rest = behind;
    }
    Ok(all)
}

fn tick_of(arguments: &[u8]) -> Option<Step>
    ensures { result ≡ option_map step.Tick (node_of (words arguments.now)) }
{
    let node = count_in(only_word(arguments)?)?;
    Some(Step::Tick { node })
}

fn stop_of(arguments: &[u8]) -> Option<Step>
    ensures { result ≡ option_map step.Stop (node_of (words arguments.now)) }
{
    let node = count_in(only_word(arguments)?)?;
    Some(Step::Stop { node })
}

fn delivery_of(arguments: &[u8]) -> Option<Step>
    ensures { result ≡ option_map step.Deliver (number_of (words arguments.now)) }
{
    let message = number_of(arguments)?;
    Some(Step::Deliver { message })
}

fn carry_of(arguments: &[u8]) -> Option<Step>
    ensures { result ≡ option_map step.Carry (number_of (words arguments.now)) }
{
    let client = number_of(arguments)?;
    Some(Step::Carry { client })
}

fn return_of(arguments: &[u8]) -> Option<Step>
    ensures { result ≡ option_map step.Return (number_of (words arguments.now)) }
{
    let client = number_of(arguments)?;
    Some(Step::Return { client })
}

fn cut_of(arguments: &[u8]) -> Option<Step>
    ensures { result ≡ option_map step.Cut (number_of (words arguments.now)) }
{
    let client = number_of(arguments)?;
    Some(Step::Cut { client })
}

fn late_of(arguments: &[u8]) -> Option<Step>
    ensures { result ≡ option_map step.Late (number_of (words arguments.now)) }
{
    let client = number_of(arguments)?;
    Some(Step::Late { client })
}

// The number of a client or a message, which is at least 1.
fn number_of(arguments: &[u8]) -> Option<u64>
    ensures { result ≡ number_of (words arguments.now) }
{
    positive_in(only_word(arguments)?)
}

// The word, where it is the only one.
fn only_word(arguments: &[u8]) -> Option<&[u8]>
    ensures { option_map (λ word. word.now) result ≡ only (words arguments.now) }
{
    match split_word(arguments) {
        (word, None) => Some(word),
        (_, Some(_)) => None,
    }
}

// The number of at least 0 that the text is, or None.
fn count_in(text: &[u8]) -> Option<u64>
    ensures { result ≡ count_of text.now }
{
    u64::try_from(number_in(text)?).ok()
}
