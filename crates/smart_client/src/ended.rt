//! How a call ends.
ghost use Rattle.std.specs.Prelude.{◌≡◌, Ok, Err};
ghost use Rattle.smart_client.specs.Step.{closes, is_last_line, loses};
ghost use Rattle.smart_client.specs.declared.fault.ClientFault.TheVariants.{Memory};

use crate::error_kind::ErrorKind;
use crate::fault::ClientFault;
use resp2::Reply;
use std::alloc::AllocError;

/// The end of a call: the reply to the command, or the reason why there is none.
#[derive(Debug, Drop)]
pub(crate) struct Ended {
    pub answer: Result<Reply, ClientFault>,
}

impl From<AllocError> for Ended {
    ghost from_gives = { λ _ ended. ended.answer ≡ Err Memory };

    fn from(_: AllocError) -> Ended {
        Ended {
            answer: Err(ClientFault::Memory),
        }
    }
}

impl From<ClientFault> for Ended {
    ghost from_gives = { λ fault ended. ended.answer ≡ Err fault };

    fn from(fault: ClientFault) -> Ended {
        Ended { answer: Err(fault) }
    }
}

impl From<Reply> for Ended {
    ghost from_gives = { λ reply ended. ended.answer ≡ Ok reply };

    fn from(reply: Reply) -> Ended {
        Ended { answer: Ok(reply) }
    }
}

/// Whether the node closes the connection behind this reply: OOM or EXHAUSTED.
pub(crate) fn is_last_line(reply: &Reply) -> bool
    ensures { result ≡ is_last_line reply.now }
{
    match reply {
        Reply::Error(text) => matches!(ErrorKind::of(text.as_slice()), ErrorKind::LastLine),
        _ => false,
    }
}

/// Whether the connection in use is to be closed after this answer.
pub(crate) fn closes(answer: &Result<Reply, ClientFault>) -> bool
    ensures { result ≡ closes answer.now }
{
    match answer {
        Ok(reply) => is_last_line(reply),
        Err(ClientFault::Lost | ClientFault::Memory | ClientFault::BadReply) => true,
        Err(_) => false,
    }
}

/// Whether there is no connection in use any more after this answer.
pub(crate) fn loses(answer: &Result<Reply, ClientFault>) -> bool
    ensures { result ≡ loses answer.now }
{
    match answer {
        Err(ClientFault::NotConnected) => true,
        _ => closes(answer),
    }
}
