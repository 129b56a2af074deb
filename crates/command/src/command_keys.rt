//! The keys of a command.
ghost use Rattle.std.specs.Prelude.{◌≡◌, IfOk, map};
ghost use Rattle.command_table.specs.Keys.{keys_of};

use command_table::Command;
use std::alloc::{AllocError, Global};

/// The keys that the command names, in its order.
pub fn keys<'w>(alloc: Global, command: &Command<'w>) -> Result<Vec<&'w [u8]>, AllocError>
    ensures { IfOk result (λ keys. map (λ key. key.now) keys.items ≡ keys_of command.now) }
{
    match command {
        Command::Data(command) => command.keys(alloc),
        Command::Cluster(_) => Ok(Vec::new(alloc)),
    }
}
