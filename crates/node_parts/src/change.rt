//! What a step changes in its node, decided and not made yet.

use bus::Handing;
use connections::{Conn, Wait};
use key_slot::Slot;
use redirect::Asking;
use slot_state::{CopyId, Keys, MoveNo};
use slot_table::{Claim, Epoch, NodeNo};

/// What a step changes in its node, but for the epoch. It was decided before, and is made as it stands.
#[derive(Drop)]
pub enum Change {
    /// Nothing.
    Nothing,
    /// The asking of the connection is used up. So it is by each change below that names a connection.
    Asks {
        /// The connection.
        conn: Conn,
    },
    /// The next request of the connection has this asking.
    Allows {
        /// The connection.
        conn: Conn,
        /// What it may ask.
        asking: Asking,
    },
    /// From now on the ASK lines of the connection name the move.
    Numbers {
        /// The connection.
        conn: Conn,
    },
    /// Keys of the slot change by the plan that comes with the change.
    Keys {
        /// The connection.
        conn: Conn,
        /// The slot.
        slot: Slot,
    },
    /// The slot, which has no move, comes from that node.
    Imports {
        /// The connection.
        conn: Conn,
        /// The slot.
        slot: Slot,
        /// The node that it comes from.
        from: NodeNo,
        /// The number of the move.
        number: MoveNo,
    },
    /// The slot, which has no move, leaves to that node.
    Migrates {
        /// The connection.
        conn: Conn,
        /// The slot.
        slot: Slot,
        /// The node that it goes to.
        to: NodeNo,
        /// The number of the move.
        number: MoveNo,
    },
    /// The slot is the node's own in that epoch, and its import over.
    Ends {
        /// The connection.
        conn: Conn,
        /// The slot.
        slot: Slot,
        /// The epoch.
        epoch: Epoch,
    },
    /// The connection waits for the acknowledgement of a copy that was sent before.
    Parks {
        /// The connection.
        conn: Conn,
        /// What it waits for.
        wait: Wait,
    },
    /// The keys are frozen, and the connection waits for the acknowledgement of their copy.
    Freezes {
        /// The connection.
        conn: Conn,
        /// The keys.
        keys: Keys,
        /// What the connection waits for.
        wait: Wait,
    },
    /// The copy with that number is installed by the plan that comes with the change. It is the next one of the slot.
    Installs {
        /// The slot.
        slot: Slot,
        /// The number of the copy.
        copy: u64,
    },
    /// The frozen keys of the slot, whose copy was installed, are deleted. Who waited for that waits no more.
    Frees {
        /// The copy.
        id: CopyId,
    },
    /// A slot that comes is drained.
    Notes {
        /// The node that it comes from.
        from: NodeNo,
        /// The slot.
        slot: Slot,
        /// The number of the move.
        number: MoveNo,
        /// The epoch in which that node had it.
        drained: Epoch,
    },
    /// The slots of a claim are another node's, and those that were this node's leave with their keys.
    Loses {
        /// The node that claims them.
        from: NodeNo,
        /// The claim.
        claim: Claim,
        /// Of its slots those that were this node's.
        lost: Vec<Slot>,
    },
    /// The node asks its master to hand over, until it has noted what the master hands over.
    Wishes {
        /// The connection.
        conn: Conn,
    },
    /// The node hands its slots over to that replica, for good.
    Pauses {
        /// The replica.
        replica: NodeNo,
    },
    /// What the own master hands over is noted. It is taken out of the change.
    Learns {
        /// What it hands over.
        handing: Option<Handing>,
    },
    /// Time passes.
    Ages,
}
