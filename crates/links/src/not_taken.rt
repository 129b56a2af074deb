//! Why a node doesn't take a message that has come.

use node_cell::DeliveryFault;
use thiserror::Error;

/// Why a node doesn't take a message that has come. The node is as before, and the message is lost.
#[derive(Clone, Copy, PartialEq, Eq, Debug, Error)]
pub enum NotTaken {
    /// The cell refused it.
    #[error(transparent)]
    Refused(DeliveryFault),
    /// It is a sync of a replica that lacks nothing but what is on its way to it, or may be.
    #[error("the sync needs no answer")]
    Needless,
}
