//! A client of a cluster.
ghost use Rattle.std.specs.Prelude.{◌≡◌, IfOk, [], None};
ghost use Rattle.smart_client.specs.Calls.{Calls};
ghost use Rattle.smart_client.specs.State.{first_client};

use crate::action::{Action, Event};
use crate::client_core::ClientCore;
use crate::fault::ClientFault;
use crate::network::Network;
use redirection::Address;
use resp2::{Reply, Words};
use std::alloc::{AllocError, Global};
use std::marker::Model;

/// A client of a cluster: it finds the node for each command, follows MOVED and ASK, and begins again for TRYAGAIN.
#[derive(Drop)]
pub struct Client<N: Network + Drop> {
    core: ClientCore,
    network: N,
}

impl<N: Network + Drop> Model for Client<N> {
    ghost use Rattle.std.specs.Prelude.{◌≡◌, None};
    ghost use Rattle.smart_client.specs.Calls.{ClientView};

    ghost Value = { ClientView };

    ghost view = { λ client. record { state = client.core; deeds = N.deeds client.network; pool = N.pool client.network; wires = N.wires client.network } };

    ghost invariant = { λ client. client.core.call ≡ None };
}

impl<N: Network + Drop> Client<N> {
    /// A client that begins at this address, and that begins a call again for TRYAGAIN so often at most.
    pub fn new(
        alloc: Global,
        network: N,
        start: Address,
        limit: u64,
    ) -> Result<Client<N>, AllocError>
        ensures { IfOk result (λ client. client ≡ record { state = first_client start limit; deeds = N.deeds network; pool = N.pool network; wires = N.wires network }) }
    {
        Ok(Client {
            core: ClientCore::new(alloc, start, limit)?,
            network,
        })
    }

    /// Has the node of the command's keys execute the command, and gives the node's reply.
    ///
    /// A reply was given by the node that executed the command, or that refused it: by CROSSSLOT, CLUSTERDOWN, OOM,
    /// EXHAUSTED or a line about the command's words. [`ClientFault::Lost`] and [`ClientFault::BadReply`] leave open whether
    /// the command was executed; all other faults say that it was not.
    pub fn call(&mut self, words: Words) -> Result<Reply, ClientFault>
        ensures { Calls words self.old result self.new }
    {
        let mut action = self.core.on(Event::Call(words));
        // The connection that the call before used is not in use by this one.
        let mut is_begun = false;
        'deeds: loop {
            match action {
                Action::Done { answer, close } => {
                    if is_begun && close {
                        self.network.close();
                    }
                    return answer;
                }
                wanted => {
                    let event = self.network.perform(wanted);
                    is_begun = true;
                    action = self.core.on(event);
                }
            }
        }
    }
}
