//! A client's way to the nodes.
ghost use Rattle.std.specs.Prelude.{◌≡◌, ◌++◌, ◌∷◌, []};
ghost use Rattle.smart_client.specs.Calls.{IsDone, MayAnswer};
ghost use Rattle.smart_client.specs.Pool.{closed, pool_after};
ghost use Rattle.smart_client.specs.Wires.{Moves, wires_without};

use crate::action::{Action, Event};

/// A client's way to the nodes: it keeps the connections, one for each address, does what the client's core wants, and says
/// what came of it.
///
/// Clauses see all that was done, which connections there are and which were closed, and the bytes on them.
pub trait Network {
    ghost use Rattle.std.specs.Prelude.{List};
    ghost use Rattle.smart_client.specs.Calls.{Deed};
    ghost use Rattle.smart_client.specs.Pool.{Pool};
    ghost use Rattle.smart_client.specs.Wires.{Wires};

    ghost deeds: { Self → List Deed };

    ghost pool: { Self → Pool };

    ghost wires: { Self → Wires };

    /// Does what is wanted. For [`Action::Connect`] the connection to the address is in use from now on: the one that is
    /// kept, or else a new one. For [`Action::Send`] the words are sent there, and one reply is read.
    ///
    /// A connection that failed or ended, or on which bytes came that are no reply, isn't kept.
    fn perform(&mut self, action: Action) -> Event
        requires { ¬ IsDone action }
        ensures event { MayAnswer action result }
        ensures deeds { deeds self.new ≡ deeds self.old ++ record { action = action; event = result } ∷ [] }
        ensures pool { pool self.new ≡ pool_after action result (pool self.old) }
        ensures wires { Moves action result (pool self.old) (wires self.old) (wires self.new) };

    /// Closes the connection in use, if there is one.
    fn close(&mut self)
        ensures deeds { deeds self.new ≡ deeds self.old }
        ensures pool { pool self.new ≡ closed (pool self.old) }
        ensures wires { wires self.new ≡ wires_without (pool self.old).used (wires self.old) };
}
