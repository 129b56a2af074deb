//! A node's links, as its threads use them.

use crate::station::Station;
use crate::web::Web;
use link_ends::{Act, PortEnd};
use node_cell::{Deployment, HasLinks, Log, Posted, Taken};
use std::alloc::AllocError;

impl<K: Deployment, W: Web, L: Log + Drop, E: PortEnd<Carried = Posted<K>>> HasLinks<E::Handle>
    for Station<K, W, L, E> {
    fn take_from(&mut self, from: usize) -> Taken {
        let received = self.receive(from);
        kind_of(&received)
    }

    fn lose_from(&mut self, from: usize) -> bool {
        self.lose(from).is_some()
    }

    fn is_half_full(&mut self, from: usize) -> bool {
        Station::is_half_full(self, from)
    }

    fn tell_act(&mut self, from: usize) -> Option<Act> {
        Station::tell_act(self, from)
    }

    fn is_behind(&self) -> bool {
        Station::is_behind(self)
    }

    fn send_out(&mut self, rt: &E::Handle, to: usize) -> Result<bool, AllocError> {
        Station::send_out(self, rt, to)
    }
}

// What was taken off a link, by what the node made of it.
fn kind_of<A, F>(received: &Option<Result<A, F>>) -> Taken {
    match received {
        None => Taken::Nothing,
        Some(Err(_)) => Taken::NoStep,
        Some(Ok(_)) => Taken::Step,
    }
}
