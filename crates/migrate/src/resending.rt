//! What is sent again of a move until it is answered.
ghost use Rattle.std.specs.Prelude.{◌≡◌};
ghost use Rattle.std.specs.Option.{option_map};
ghost use Rattle.migrate.specs.Resending.{resent, shown};

use slot_state::{Keys, Move, MoveNo};
use slot_table::NodeNo;

/// What is sent again of a slot that leaves.
#[derive(Clone, Copy, Debug)]
pub enum Resend<'m> {
    /// The copy that is not acknowledged yet.
    Copy {
        /// The node that the slot goes to.
        to: NodeNo,
        /// The number of the move.
        number: MoveNo,
        /// The number of the copy.
        copy: u64,
        /// The keys of the copy.
        keys: &'m Keys,
    },
    /// The word that the slot is drained, if no key of it is left.
    Drained {
        /// The node that the slot goes to.
        to: NodeNo,
        /// The number of the move.
        number: MoveNo,
    },
}

/// What is sent again of the move: nothing of a slot that comes. It takes no memory.
///
/// Whether a key of the slot is left is for the caller to know.
pub fn resent(running: &Move) -> Option<Resend<'_>>
    ensures { option_map shown result ≡ resent running.now }
{
    let Move::Leaves {
        to,
        number,
        copies,
        frozen,
    } = running
    else {
        return None;
    };
    let to = *to;
    let number = *number;
    match frozen {
        Some(keys) => Some(Resend::Copy {
            to,
            number,
            copy: *copies,
            keys,
        }),
        None => Some(Resend::Drained { to, number }),
    }
}
