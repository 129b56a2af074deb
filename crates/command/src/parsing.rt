//! From the words of a request to a command.
ghost use Rattle.std.specs.Prelude.{◌≡◌, ◌∷◌, [], IfOk, IfErr, Ok, Err, List, ℕ};
ghost use Rattle.command_table.specs.Pairs.{pairs_of};
ghost use Rattle.command_table.specs.Table.{command_of, with_arguments, with_field_pairs, with_fields, with_keys, with_message, with_one, with_option, with_pairs, with_three, with_two};

use crate::cluster_parsing::{with_import, with_migration, with_subcommands};
use byte_string::ByteString;
use command_table::{
    Command, CommandFault, Condition, DataCommand, Name, PairList, Word, WordList, commands,
};
use resp_values::Words;

/// The command that the words ask for. It borrows them, and takes no memory.
///
/// A fault means that the words are not a command. Of several the first is told: an unknown name or subcommand, a wrong number
/// of arguments, and then the faults of the arguments.
pub fn parse<'w>(words: &'w Words) -> Result<Command<'w>, CommandFault>
    ensures { result ≡ command_of words.now }
{
    let Some((name, arguments)) = words.as_slice().split_first() else {
        return Err(CommandFault::Unknown);
    };
    let Some(name) = Name::of(name.as_slice()) else {
        return Err(CommandFault::Unknown);
    };
    with_arguments(name, arguments)
}

// A row for each name of the command table, and one for each command about the cluster.
macro_rules! command_of {
    (
        ($name:expr, $words:expr)
        data { $($data:ident $data_text:literal $kind:ident ($($word:tt)*);)* }
        cluster { $($other:ident $other_text:literal;)* }
    ) => {
        match $name {
            $(Name::$data => reading!($data $name, $words, $($word)*),)*
            $(Name::$other => reading!($other $words),)*
        }
    };
}

// How the words are read, which are those behind the name.
macro_rules! reading {
    (Set $name:expr, $words:expr, $($word:ident)*) => {
        with_option($words)
    };
    (Ping $name:expr, $words:expr,) => {
        with_message($words)
    };
    (Hset $name:expr, $words:expr, $key:ident pairs ..) => {
        with_field_pairs($words)
    };
    (Cluster $words:expr) => {
        with_subcommands($words)
    };
    (Asking $words:expr) => {
        with_import($words)
    };
    (Migrate $words:expr) => {
        with_migration($words)
    };
    ($data:ident $name:expr, $words:expr, keys ..) => {
        with_keys($name, $words, |keys| DataCommand::$data { keys })
    };
    ($data:ident $name:expr, $words:expr, pairs ..) => {
        with_pairs($name, $words, |pairs| DataCommand::$data { pairs })
    };
    ($data:ident $name:expr, $words:expr, $key:ident fields ..) => {
        with_fields($name, $words, |$key, fields| DataCommand::$data { $key, fields })
    };
    ($data:ident $name:expr, $words:expr, $one:ident) => {
        with_one($name, $words, |$one| DataCommand::$data { $one })
    };
    ($data:ident $name:expr, $words:expr, $one:ident $two:ident) => {
        with_two($name, $words, |$one, $two| DataCommand::$data { $one, $two })
    };
    ($data:ident $name:expr, $words:expr, $one:ident $two:ident $three:ident) => {
        with_three($name, $words, |$one, $two, $three| DataCommand::$data { $one, $two, $three })
    };
}

fn with_arguments<'w>(name: Name, words: &'w [ByteString]) -> Result<Command<'w>, CommandFault>
    ensures { result ≡ with_arguments name words.now }
{
    commands!(command_of(name, words))
}

fn with_message<'w>(arguments: &'w [ByteString]) -> Result<Command<'w>, CommandFault>
    ensures { result ≡ with_message arguments.now }
{
    match arguments {
        [] => Ok(Command::Data(DataCommand::Ping)),
        [message] => Ok(Command::Data(DataCommand::Echo {
            message: Word::new(message),
        })),
        _ => Err(CommandFault::Arity(Name::Ping)),
    }
}

// SET takes a key, a value and at most one option.
#[inline(never)]
fn with_option<'w>(arguments: &'w [ByteString]) -> Result<Command<'w>, CommandFault>
    ensures { result ≡ with_option arguments.now }
{
    let (key, value, condition) = match arguments {
        [key, value] => (key, value, Condition::Always),
        [key, value, word] => {
            let condition = Condition::of(word.as_slice()).ok_or(CommandFault::Syntax)?;
            (key, value, condition)
        }
        [] | [_] => return Err(CommandFault::Arity(Name::Set)),
        _ => return Err(CommandFault::Syntax),
    };
    Ok(Command::Data(DataCommand::Set {
        key: Word::new(key),
        value: Word::new(value),
        condition,
    }))
}

// HSET takes a key, and one or more pairs of a field and its value.
#[inline(never)]
fn with_field_pairs<'w>(arguments: &'w [ByteString]) -> Result<Command<'w>, CommandFault>
    ensures command { IfOk result (λ command. with_field_pairs arguments.now ≡ Ok command) }
    ensures fault { IfErr result (λ fault. with_field_pairs arguments.now ≡ Err fault) }
{
    let Some((key, words)) = arguments.split_first() else {
        return Err(CommandFault::Arity(Name::Hset));
    };
    with_pairs(
        Name::Hset,
        words,
        |pairs| DataCommand::Hset {
            key: Word::new(key),
            pairs,
        },
    )
}

// A command that takes one or more pairs.

fn with_pairs<'w, F: FnOnce(PairList<'w>) -> DataCommand<'w>>(
    name: Name,
    words: &'w [ByteString],
    make: F,
) -> Result<Command<'w>, CommandFault>
    requires { F.IsAlwaysCallable make }
    ensures command { IfOk result (λ command. (pairs : List (List ℕ × List ℕ)) × (made : DataCommand)
        × F.post make pairs made × (command ≡ Command.Data made)
        × ((make : List (List ℕ × List ℕ) → DataCommand) → with_pairs name make (pairs_of words.now) ≡ Ok (Command.Data (make pairs)))) }
    ensures fault { IfErr result (λ fault.
        (make : List (List ℕ × List ℕ) → DataCommand) → with_pairs name make (pairs_of words.now) ≡ Err fault) }
{
    match PairList::new(words) {
        Some(pairs) => Ok(Command::Data(make(pairs))),
        None => Err(CommandFault::Arity(name)),
    }
}

// A command that takes one argument.
fn with_one<'w, F: FnOnce(Word<'w>) -> DataCommand<'w>>(
    name: Name,
    arguments: &'w [ByteString],
    make: F,
) -> Result<Command<'w>, CommandFault>
    requires { F.IsAlwaysCallable make }
    ensures command { IfOk result (λ command. (word : List ℕ) × (made : DataCommand)
        × (arguments.now ≡ word ∷ []) × F.post make word made × (command ≡ Command.Data made)) }
    ensures fault { IfErr result (λ fault.
        (make : List ℕ → DataCommand) → with_one name make arguments.now ≡ Err fault) }
{
    match arguments {
        [word] => Ok(Command::Data(make(Word::new(word)))),
        _ => Err(CommandFault::Arity(name)),
    }
}

// A command that takes two.
fn with_two<'w, F: FnOnce(Word<'w>, Word<'w>) -> DataCommand<'w>>(
    name: Name,
    arguments: &'w [ByteString],
    make: F,
) -> Result<Command<'w>, CommandFault>
    requires { F.IsAlwaysCallable make }
    ensures command { IfOk result (λ command. (first : List ℕ) × (second : List ℕ) × (made : DataCommand)
        × (arguments.now ≡ first ∷ second ∷ []) × F.post make first second made × (command ≡ Command.Data made)) }
    ensures fault { IfErr result (λ fault.
        (make : List ℕ → List ℕ → DataCommand) → with_two name make arguments.now ≡ Err fault) }
{
    match arguments {
        [first, second] => Ok(Command::Data(make(Word::new(first), Word::new(second)))),
        _ => Err(CommandFault::Arity(name)),
    }
}

// A command that takes three.
fn with_three<'w, F: FnOnce(Word<'w>, Word<'w>, Word<'w>) -> DataCommand<'w>>(
    name: Name,
    arguments: &'w [ByteString],
    make: F,
) -> Result<Command<'w>, CommandFault>
    requires { F.IsAlwaysCallable make }
    ensures command { IfOk result (λ command. (first : List ℕ) × (second : List ℕ) × (third : List ℕ) × (made : DataCommand)
        × (arguments.now ≡ first ∷ second ∷ third ∷ []) × F.post make first second third made × (command ≡ Command.Data made)) }
    ensures fault { IfErr result (λ fault.
        (make : List ℕ → List ℕ → List ℕ → DataCommand) → with_three name make arguments.now ≡ Err fault) }
{
    match arguments {
        [first, second, third] => {
            let made = make(Word::new(first), Word::new(second), Word::new(third));
            Ok(Command::Data(made))
        }
        _ => Err(CommandFault::Arity(name)),
    }
}

// A command that takes one or more keys.
fn with_keys<'w, F: FnOnce(WordList<'w>) -> DataCommand<'w>>(
    name: Name,
    arguments: &'w [ByteString],
    make: F,
) -> Result<Command<'w>, CommandFault>
    requires { F.IsAlwaysCallable make }
    ensures command { IfOk result (λ command. (made : DataCommand) × F.post make arguments.now made × (command ≡ Command.Data made)
        × ((make : List (List ℕ) → DataCommand) → with_keys name make arguments.now ≡ Ok (Command.Data (make arguments.now)))) }
    ensures fault { IfErr result (λ fault.
        (make : List (List ℕ) → DataCommand) → with_keys name make arguments.now ≡ Err fault) }
{
    match WordList::new(arguments) {
        Some(keys) => Ok(Command::Data(make(keys))),
        None => Err(CommandFault::Arity(name)),
    }
}

// A command that takes a key, and one or more fields of its hash.
fn with_fields<'w, F: FnOnce(Word<'w>, WordList<'w>) -> DataCommand<'w>>(
    name: Name,
    arguments: &'w [ByteString],
    make: F,
) -> Result<Command<'w>, CommandFault>
    requires { F.IsAlwaysCallable make }
    ensures command { IfOk result (λ command. (key : List ℕ) × (fields : List (List ℕ)) × (made : DataCommand)
        × (arguments.now ≡ key ∷ fields) × F.post make key fields made × (command ≡ Command.Data made)
        × ((make : List ℕ → List (List ℕ) → DataCommand) → with_fields name make arguments.now ≡ Ok (Command.Data (make key fields)))) }
    ensures fault { IfErr result (λ fault.
        (make : List ℕ → List (List ℕ) → DataCommand) → with_fields name make arguments.now ≡ Err fault) }
{
    let Some((key, fields)) = arguments.split_first() else {
        return Err(CommandFault::Arity(name));
    };
    match WordList::new(fields) {
        Some(fields) => Ok(Command::Data(make(Word::new(key), fields))),
        None => Err(CommandFault::Arity(name)),
    }
}
