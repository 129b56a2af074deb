//! From the words of a request to a command about the cluster, or to one that moves keys.
ghost use Rattle.std.specs.Prelude.{◌≡◌, ◌≢◌, [], Some};
ghost use Rattle.std.specs.Option.{option_copied};
ghost use Rattle.command_table.specs.ClusterTable.{are_keys, keys_in_slot, migration, move_number, set_slot, slot_of, timeout_of, with_import, with_migration, with_subcommand, with_subcommands};
ghost use Rattle.command_table.specs.Numbers.{count_of, number_of};

use byte_string::ByteString;
use command_table::{
    ClusterCommand, Command, CommandFault, MOST_MIGRATED_KEYS, Name, SlotOrder, Subcommand, Word,
    WordList, count_in, move_no_in, number_in,
};
use key_slot::{MoveNo, Slot};

/// CLUSTER takes a subcommand with its arguments.
pub(crate) fn with_subcommands<'w>(words: &'w [ByteString]) -> Result<Command<'w>, CommandFault>
    ensures { result ≡ with_subcommands words.now }
{
    let Some((word, arguments)) = words.split_first() else {
        return Err(CommandFault::Arity(Name::Cluster));
    };
    let Some(subcommand) = Subcommand::of(word.as_slice()) else {
        return Err(CommandFault::UnknownSubcommand);
    };
    with_subcommand(subcommand, arguments)
}

// A row for each subcommand, with the arguments that it takes.
fn with_subcommand<'w>(
    subcommand: Subcommand,
    arguments: &'w [ByteString],
) -> Result<Command<'w>, CommandFault>
    ensures { result ≡ with_subcommand (Some subcommand) arguments.now }
{
    let command = match (subcommand, arguments) {
        (Subcommand::KeySlot, [key]) => ClusterCommand::KeySlot {
            key: Word::new(key),
        },
        (Subcommand::MyId, []) => ClusterCommand::MyId,
        (Subcommand::Slots, []) => ClusterCommand::Slots,
        (Subcommand::CountKeysInSlot, [slot]) => {
            let slot = slot_of(slot.as_slice()).ok_or(CommandFault::InvalidSlot)?;
            ClusterCommand::CountKeysInSlot { slot }
        }
        (Subcommand::GetKeysInSlot, [slot, count]) => {
            return keys_in_slot(slot.as_slice(), count.as_slice());
        }
        (Subcommand::SlotState, [slot]) => {
            let slot = slot_of(slot.as_slice()).ok_or(CommandFault::InvalidSlot)?;
            ClusterCommand::SlotState { slot }
        }
        (Subcommand::SetSlot, [slot, order, node]) => {
            return set_slot(slot.as_slice(), order.as_slice(), node, None);
        }
        (Subcommand::SetSlot, [slot, order, node, number]) => {
            return set_slot(
                slot.as_slice(),
                order.as_slice(),
                node,
                Some(number.as_slice()),
            );
        }
        (Subcommand::Numbered, []) => ClusterCommand::Numbered,
        (Subcommand::Failover, []) => ClusterCommand::Failover,
        _ => return Err(CommandFault::Arity(Name::Cluster)),
    };
    Ok(Command::Cluster(command))
}

fn keys_in_slot<'w>(slot: &[u8], count: &[u8]) -> Result<Command<'w>, CommandFault>
    ensures { result ≡ keys_in_slot (slot_of slot.now) (count_of count.now) }
{
    Ok(Command::Cluster(ClusterCommand::GetKeysInSlot {
        slot: slot_of(slot).ok_or(CommandFault::InvalidSlot)?,
        count: count_in(count).ok_or(CommandFault::NotAnInteger)?,
    }))
}

fn set_slot<'w>(
    slot: &[u8],
    order: &[u8],
    node: &'w ByteString,
    number: Option<&[u8]>,
) -> Result<Command<'w>, CommandFault>
    ensures { result ≡ set_slot slot.now order.now node.now (option_copied number.entry) }
{
    let slot = slot_of(slot).ok_or(CommandFault::InvalidSlot)?;
    let order = SlotOrder::of(order).ok_or(CommandFault::Syntax)?;
    let number = move_number(number)?;
    Ok(Command::Cluster(ClusterCommand::SetSlot {
        slot,
        order,
        node: Word::new(node),
        number,
    }))
}

/// ASKING takes the number of a move, or nothing.
pub(crate) fn with_import<'w>(arguments: &'w [ByteString]) -> Result<Command<'w>, CommandFault>
    ensures { result ≡ with_import arguments.now }
{
    let number = match arguments {
        [] => None,
        [number] => move_number(Some(number.as_slice()))?,
        _ => return Err(CommandFault::Arity(Name::Asking)),
    };
    Ok(Command::Cluster(ClusterCommand::Asking { number }))
}

/// MIGRATE takes a host, a port, a key, a database and a timeout, or behind an empty key and these the word KEYS with keys.
pub(crate) fn with_migration<'w>(arguments: &'w [ByteString]) -> Result<Command<'w>, CommandFault>
    ensures { result ≡ with_migration arguments.now }
{
    match arguments {
        [host, port, _, database, timeout] => {
            migration(
                host,
                port.as_slice(),
                &arguments[2..3],
                database.as_slice(),
                timeout.as_slice(),
            )
        }
        [host, port, place, database, timeout, word, keys @ ..] => {
            if !are_keys(place.as_slice(), word.as_slice(), keys) {
                return Err(CommandFault::Syntax);
            }
            migration(
                host,
                port.as_slice(),
                keys,
                database.as_slice(),
                timeout.as_slice(),
            )
        }
        _ => Err(CommandFault::Arity(Name::Migrate)),
    }
}

// Whether these are the word KEYS and some keys, but not too many, where an empty word stands in the place of the key.
fn are_keys(place: &[u8], word: &[u8], keys: &[ByteString]) -> bool
    ensures { result ≡ are_keys place.now word.now keys.now }
{
    place.is_empty()
        && word.eq_ignore_ascii_case(b"keys")
        && !keys.is_empty()
        && keys.len() <= MOST_MIGRATED_KEYS
}

fn migration<'w>(
    host: &'w ByteString,
    port: &[u8],
    keys: &'w [ByteString],
    database: &[u8],
    timeout: &[u8],
) -> Result<Command<'w>, CommandFault>
    requires { keys.now ≢ [] }
    ensures { result ≡ migration host.now (number_of port.now) keys.now (number_of database.now) (number_of timeout.now) }
{
    let port = number_in(port).ok_or(CommandFault::NotAnInteger)?;
    let database = number_in(database).ok_or(CommandFault::NotAnInteger)?;
    let timeout = number_in(timeout).ok_or(CommandFault::NotAnInteger)?;
    // There is one database.
    if database != 0 {
        return Err(CommandFault::Syntax);
    }
    let timeout = timeout_of(timeout).ok_or(CommandFault::Syntax)?;
    let keys = WordList::new(keys).ok_or(CommandFault::Syntax)?;
    Ok(Command::Cluster(ClusterCommand::Migrate {
        host: Word::new(host),
        port,
        keys,
        timeout,
    }))
}

fn slot_of(word: &[u8]) -> Option<Slot>
    ensures { result ≡ slot_of word.now }
{
    Slot::new(u16::try_from(count_in(word)?).ok()?)
}

// The number of a move, which may be left out.
fn move_number(word: Option<&[u8]>) -> Result<Option<MoveNo>, CommandFault>
    ensures { result ≡ move_number (option_copied word.entry) }
{
    let Some(word) = word else {
        return Ok(None);
    };
    match move_no_in(word) {
        Some(number) => Ok(Some(number)),
        None => Err(CommandFault::NotAnInteger),
    }
}

fn timeout_of(number: i64) -> Option<u32>
    ensures { result ≡ timeout_of number }
{
    if number < 1 || number > 1_000_000 {
        return None;
    }
    Some(number as u32)
}
