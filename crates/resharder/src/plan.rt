//! What a run is to do.
ghost use Rattle.std.specs.Prelude.{◌≡◌};

use cluster_config::NodeId;
use key_slot::SlotRange;
use redirection::Address;

/// What a run is to do.
#[derive(Drop)]
pub struct Plan {
    /// The address of the node that is asked who the masters are.
    pub(crate) start: Address,
    /// The id of the master that the slots leave.
    pub(crate) from: NodeId,
    /// The id of the master that they come to.
    pub(crate) to: NodeId,
    /// The slots. They are moved one after another, by rising number.
    pub(crate) slots: SlotRange,
    /// One request is repeated so often at most, where the reply says that it is to be asked again.
    pub(crate) limit: u64,
}

impl Plan {
    /// The slots are to be moved from the one master to the other. The node at the address `start` is asked who they are, and
    /// one request is repeated `limit` times at most.
    pub fn new(start: Address, from: NodeId, to: NodeId, slots: SlotRange, limit: u64) -> Plan
        ensures { result ≡ record { start = start; from = from; to = to; slots = slots; limit = limit } }
    {
        Plan {
            start,
            from,
            to,
            slots,
            limit,
        }
    }
}
