//! Orders to move a slot, and what a node has to know to answer one.
use key_slot::{MoveNo, Slot};
use slot_table::NodeNo;

/// The words behind CLUSTER SETSLOT, without the one for IMPORTING, MIGRATING or NODE.
#[derive(Clone, Copy, PartialEq, Eq, Debug)]
pub struct Order {
    /// The slot.
    pub slot: Slot,
    /// The node with the id in the order, or `None` where no node has that id.
    pub node: Option<NodeNo>,
    /// The number of the move, if the order gives one.
    pub number: Option<MoveNo>,
}

/// What a node knows of itself and of the slot of an order.
#[derive(Clone, Copy, PartialEq, Eq, Debug)]
pub struct Standing {
    /// The node itself.
    pub node: NodeNo,
    /// The node is a replica.
    pub is_replica: bool,
    /// The node is a master that hands its slots over to a replica.
    pub is_paused: bool,
    /// The owner of the slot in the node's table.
    pub owner: Option<NodeNo>,
}
