//! Two keys that are set together, or not at all.
ghost use Rattle.std.specs.Prelude.{◌≡◌, ◌≢◌, ℕ, List, Some, OnOk, OnErr};
ghost use Rattle.std.specs.FinMap as map;
ghost use Rattle.keyspace.specs.declared.value.Value.TheVariants.{Str};

use byte_string::ByteString;
use command_table::{Condition, DataCommand, Word};
use key_commands::plan;
use keyspace::{Store, commit};
use std::alloc::{AllocError, Global};

/// Sets both keys, or changes nothing where memory is refused.
pub fn set_both<'w, S: Store>(
    alloc: Global,
    store: &mut S,
    first: &'w (ByteString, ByteString),
    second: &'w (ByteString, ByteString),
) -> Result<(), AllocError>
    ensures first { OnOk result (first.now.0 ≢ second.now.0
        → map.get (S.contents store.new) first.now.0 ≡ Some (Str first.now.1)) }
    ensures second { OnOk result
        (map.get (S.contents store.new) second.now.0 ≡ Some (Str second.now.1)) }
    ensures others { OnOk result ((key : List ℕ) → key ≢ first.now.0 → key ≢ second.now.0
        → map.get (S.contents store.new) key ≡ map.get (S.contents store.old) key) }
    ensures err { OnErr result (S.contents store.new ≡ S.contents store.old) }
{
    let commands = [
        DataCommand::Set {
            key: Word::new(&first.0),
            value: Word::new(&first.1),
            condition: Condition::Always,
        },
        DataCommand::Set {
            key: Word::new(&second.0),
            value: Word::new(&second.1),
            condition: Condition::Always,
        },
    ];
    let (_replies, changes) = plan(alloc, store, &commands)?;
    commit(alloc, store, changes)
}
