//! A call that is under way.

use key_slot::MoveNo;
use resp2::Words;

/// What a call waits for.
#[derive(Clone, Copy, PartialEq, Eq, Debug)]
pub(crate) enum Stage {
    /// The connection.
    Connecting,
    /// The reply to CLUSTER NUMBERED, with which a new connection begins.
    Introducing,
    /// The reply to ASKING.
    Asking,
    /// The reply to the command.
    Sent,
}

/// A call that is under way.
#[derive(Debug, Drop)]
pub(crate) struct Call {
    /// The words of the command.
    pub words: Words,
    /// The place of the node, among the known ones, to which the command goes.
    pub to: usize,
    /// The number of the move for which ASK sent it there.
    pub asking: Option<MoveNo>,
    /// How many redirections were followed.
    pub redirections: usize,
    /// How often the call began again for TRYAGAIN.
    pub repeats: u64,
    /// What the call waits for.
    pub stage: Stage,
}
