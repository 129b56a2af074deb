//! A request that is asked over a way to the nodes.
ghost use Rattle.std.specs.Prelude.{◌≡◌};
ghost use Rattle.resharder.specs.Runs.{Asks, told_of};

use crate::action::Event;
use redirection::Address;
use resp_values::Words;
use smart_client::{Action as Wanted, Event as Came, Network};

/// Asks the node at the address, and gives what the run is told of it.
pub(crate) fn ask_node<N: Network>(network: &mut N, to: Address, words: Words) -> Event
    ensures { Asks to words (N.deeds network.old) result (N.deeds network.new) }
{
    match network.perform(Wanted::Connect(to)) {
        Came::Connected => told_of(network.perform(Wanted::Send(words))),
        event => told_of(event),
    }
}

// What the run is told where this came.
fn told_of(event: Came) -> Event
    ensures { result ≡ told_of event }
{
    match event {
        Came::Reply(reply) => Event::Reply(reply),
        Came::NoMemory { .. } => Event::NoMemory,
        Came::Call(_)
        | Came::Connected
        | Came::NotConnected
        | Came::BadReply
        | Came::Broken { .. } => Event::NotReached,
    }
}
