//! The requests that a client sends, and where they go.
ghost use Rattle.std.specs.Prelude.{◌≡◌, ◌≤◌, ◌∷◌, [], IfOk, None, length, option_copied, slice_get};
ghost use Rattle.command_table.specs.Keys.{data_keys, keys_of, only_data_key};
ghost use Rattle.smart_client.specs.Words.{asking_words, first_slot, is_refused, numbered_words};

use byte_string::ByteString;
use command_table::{Command, DataCommand, Name, split_pair};
use itoa::Buffer;
use key_slot::{MoveNo, Slot, slot};
use resp2::Words;
use std::alloc::{AllocError, Global};

/// Whether the command is about the cluster, by its name, and not about data.
pub(crate) fn is_refused(words: &Words) -> bool
    ensures { result ≡ is_refused words.now }
{
    matches!(
        Name::of(words.name().as_slice()),
        Some(Name::Cluster | Name::Asking | Name::Migrate)
    )
}

/// The slot of the first key, if the words are a command that has one.
pub(crate) fn first_slot(words: &Words) -> Option<Slot>
    ensures { result ≡ first_slot words.now }
{
    let command = command::parse(words).ok()?;
    let key = first_key(&command)?;
    Some(slot(key.as_slice()))
}

// The first key of the command.
fn first_key<'w>(command: &Command<'w>) -> Option<&'w ByteString>
    ensures { option_copied result ≡ slice_get (keys_of command.now) 0 }
{
    if let Some(key) = command.only_key() {
        return Some(key);
    }
    match command {
        Command::Data(command) => first_of_several(command),
        Command::Cluster(_) => None,
    }
}

// The first key of a command that may have several.
fn first_of_several<'w>(command: &DataCommand<'w>) -> Option<&'w ByteString>
    requires { only_data_key command.now ≡ None }
    ensures { option_copied result ≡ slice_get (data_keys command.now) 0 }
{
    match command {
        DataCommand::Mget { keys } | DataCommand::Del { keys } | DataCommand::Exists { keys } =>
            keys.as_slice().first(),
        DataCommand::Mset { pairs } => {
            let (key, _, _) = split_pair(pairs.words())?;
            Some(key)
        }
        _ => None,
    }
}

/// `CLUSTER NUMBERED`, with which a connection begins.
pub(crate) fn numbered_words(alloc: Global) -> Result<Words, AllocError>
    ensures { IfOk result (λ words. words ≡ numbered_words) }
{
    two_words(
        alloc,
        ByteString::inline(b"CLUSTER"),
        ByteString::inline(b"NUMBERED"),
    )
}

/// `ASKING number`, which stands in front of a command that ASK sent to the node.
pub(crate) fn asking_words(alloc: Global, number: MoveNo) -> Result<Words, AllocError>
    ensures { IfOk result (λ words. words ≡ asking_words number) }
{
    let mut buffer = Buffer::new();
    let text = buffer.format(number.get());
    let number = ByteString::copy_from_slice(alloc, text.as_bytes())?;
    two_words(alloc, ByteString::inline(b"ASKING"), number)
}

// Two short words.
fn two_words(alloc: Global, first: ByteString, second: ByteString) -> Result<Words, AllocError>
    requires { (length first ≤ 20) × (length second ≤ 20) }
    ensures { IfOk result (λ words. words ≡ first ∷ second ∷ []) }
{
    let mut words = Vec::with_capacity(alloc, 2)?;
    words.push(first)?;
    words.push(second)?;
    Ok(Words::new(words).unwrap())
}
