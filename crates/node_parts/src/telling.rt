//! What all other nodes are told, and who gave an order.
ghost use Rattle.std.specs.Prelude.{◌≡◌, ◌++◌, OnOk};
ghost use Rattle.node_step.specs.Orders.{done, others, to_all};

use crate::parts::NodeParts;
use bus::Body;
use repl_stream::Stream;
use resp_values::{Line, Reply};
use slot_store::SlotParts;
use slot_table::NodeNo;
use std::alloc::AllocError;

impl<S: SlotParts, T: Stream> NodeParts<S, T> {
    /// Puts this body for each other node behind these messages, by rising number.
    pub fn append_to_others(
        &self,
        body: &Body,
        bodies: &mut Vec<(NodeNo, Body)>,
    ) -> Result<(), AllocError>
        ensures { OnOk result
            (bodies.new.items ≡ bodies.old.items ++ to_all (others self.now) body.now) }
    {
        for place in 0..self.config.nodes().len() {
            let to = NodeNo::new(place as u8).unwrap();
            if to != self.number {
                bodies.push((to, body.clone()?))?;
            }
        }
        Ok(())
    }
}

/// The reply to an order that was obeyed.
pub fn done() -> Reply
    ensures { result ≡ done }
{
    Reply::Simple(Line::from_static(b"OK"))
}
