//! Which requests a step writes.
ghost use Rattle.std.specs.Prelude.{◌≡◌, ◌&&◌};
ghost use Rattle.node_step.specs.Streams.{is_error, is_executed};
ghost use Rattle.replica_rows.specs.Adding.{is_done};

use node_step::{Response, Why};
use resp_values::Reply;

/// Whether a request is written: it is a write, and was executed without an error.
pub(crate) fn is_recorded(is_write: bool, response: &Response) -> bool
    ensures { result ≡ (is_write && is_done response.now) }
{
    is_write && is_done(response)
}

// Whether a command was executed without an error.
fn is_done(response: &Response) -> bool
    ensures { result ≡ is_done response.now }
{
    match response {
        Response::Replied(answer) => is_executed(&answer.why) && !is_error(&answer.reply),
        Response::Nothing | Response::Opened(_) | Response::Parked => false,
    }
}

fn is_executed(why: &Why) -> bool
    ensures { result ≡ is_executed why.now }
{
    match why {
        Why::Decided(decision) => decision.is_served(),
        Why::NotACommand(_)
        | Why::Reported
        | Why::Told
        | Why::Imports(_)
        | Why::Migrates(_)
        | Why::Ends(_)
        | Why::Copies(_)
        | Why::TakesOver => false,
    }
}

fn is_error(reply: &Reply) -> bool
    ensures { result ≡ is_error reply.now }
{
    matches!(reply, Reply::Error(_))
}
