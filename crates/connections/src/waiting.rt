//! Which of the connections that wait are meant.
ghost use Rattle.std.specs.Prelude.{◌≡◌, ◌==◌};
ghost use Rattle.std.specs.List.{list_any};
ghost use Rattle.connections.specs.Connections.{waits_so};
ghost use Rattle.connections.specs.Waiting.{test_of};

use crate::conn::Wait;
use key_slot::Slot;
use slot_state::CopyId;

/// Which of the connections that wait are meant.
#[derive(Clone, Copy, Debug)]
pub enum Waiting<'a> {
    /// Those whose time is over with this tick.
    Over,
    /// Those that wait for the acknowledgement of this copy.
    For(CopyId),
    /// Those that wait for the acknowledgement of any copy of a key in one of these slots.
    In(&'a [Slot]),
}

impl Waiting<'_> {
    // Whether a connection that waits for this is meant.
    pub(crate) fn is_meant(&self, waits: Option<Wait>) -> bool
        ensures { result ≡ waits_so (test_of self.now) waits }
    {
        let Some(wait) = waits else {
            return false;
        };
        match self {
            Waiting::Over => wait.ticks == 1,
            Waiting::For(id) => wait.id == *id,
            Waiting::In(slots) => is_one_of(wait.id.slot, slots),
        }
    }
}

// Whether the slot is one of these.
fn is_one_of(slot: Slot, slots: &[Slot]) -> bool
    ensures { result ≡ list_any (λ other. other == slot) slots.now }
{
    slots.iter().any(|other| *other == slot)
}
