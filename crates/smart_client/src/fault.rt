//! Why a call got no reply.
ghost use Rattle.std.specs.Prelude.{◌≡◌};
ghost use Rattle.smart_client.specs.Faults.{code_of};

/// Why a call got no reply to its command. It says what is known of the command's execution.
#[derive(Clone, Copy, PartialEq, Eq, Debug, thiserror::Error)]
pub enum ClientFault {
    /// The connection failed or ended after a byte of the command was handed to it, or memory was refused while the
    /// command was under way. Whether the command was executed isn't known, and it is never sent again.
    #[error("the reply was lost: whether the command was executed is unknown")]
    Lost,
    /// The call was redirected more often than [`MOST_REDIRECTIONS`](crate::MOST_REDIRECTIONS). The command was not executed.
    #[error("too many redirections")]
    TooManyRedirects,
    /// Nodes answered TRYAGAIN more often than the client's limit. The command was not executed.
    #[error("the keys are still being moved")]
    StillTryAgain,
    /// Memory was refused while the command was not under way. The command was not executed.
    #[error("out of memory")]
    Memory,
    /// The connection could not be made, or failed or ended before a byte of the command was handed to it. The command was
    /// not executed.
    #[error("not connected")]
    NotConnected,
    /// A reply is none that a node gives there: whether the command was executed isn't known, unless it was a redirection.
    #[error("a reply that no node gives")]
    BadReply,
    /// The words are a command about the cluster, not about data: CLUSTER, MIGRATE or ASKING. Nothing was sent.
    #[error("not a command about data")]
    NotData,
}

impl ClientFault {
    /// The code that a program prints.
    pub fn code(self) -> &'static str
        ensures { result.now ≡ code_of self }
    {
        match self {
            ClientFault::Lost => "C1",
            ClientFault::TooManyRedirects => "C2",
            ClientFault::StillTryAgain => "C3",
            ClientFault::Memory => "C4",
            ClientFault::NotConnected => "C5",
            ClientFault::BadReply => "C6",
            ClientFault::NotData => "C7",
        }
    }
}
