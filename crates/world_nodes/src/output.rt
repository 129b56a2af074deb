//! What comes out of a step of a world.
ghost use Rattle.std.specs.Prelude.{◌≡◌, ◌≤◌, ◌++◌, ◌∷◌, [], map, length, drop, IfOk, OnOk};
ghost use Rattle.node_step.specs.Outcome.{error};
ghost use Rattle.command_table.specs.declared.error_line.ErrorLine.TheVariants.{Exhausted};
ghost use Rattle.world_nodes.specs.Outputs.{numbered, own_reply, promotion_of, released_reply};
ghost use Rattle.world_nodes.specs.declared.output.Output.TheVariants.{Admin, Nothing};

use bus::Message;
use command_table::ErrorLine;
use node_core::{Release, Response};
use node_step::{Promoted, Promotion};
use resp_values::Reply;
use smart_client::ClientFault;
use std::alloc::{AllocError, Global};

/// What comes out of a step of a world.
#[derive(Drop)]
pub enum Output {
    /// A client's call is over.
    Answer {
        /// The client.
        client: u64,
        /// The reply to its command, or the reason why there is none.
        answer: Result<Reply, ClientFault>,
    },
    /// A request of an administrator is answered.
    Admin {
        /// The node that answers.
        node: u64,
        /// What the administrator reads.
        reply: Reply,
    },
    /// A node sends a message.
    Sent {
        /// The number of the message.
        number: u64,
        /// The message.
        message: Message,
    },
    /// A node became a master.
    Promoted {
        /// The node.
        node: u64,
        /// The stream that it followed, how much of it the node had, and the epoch of its election.
        promotion: Promotion,
    },
    /// There was nothing to do.
    Nothing,
}

/// Gives that output alone.
pub fn one(alloc: Global, output: Output) -> Result<Vec<Output>, AllocError>
    ensures { IfOk result (λ out. out.items ≡ output ∷ []) }
{
    let mut outputs = Vec::new(alloc);
    outputs.push(output)?;
    Ok(outputs)
}

/// Says that there was nothing to do.
pub fn nothing(alloc: Global) -> Result<Vec<Output>, AllocError>
    ensures { IfOk result (λ out. out.items ≡ Nothing ∷ []) }
{
    one(alloc, Output::Nothing)
}

/// The node needs a number that has no next one.
pub(crate) fn exhausted(alloc: Global, node: u64) -> Result<Vec<Output>, AllocError>
    ensures { IfOk result (λ out. out.items ≡ Admin node (error Exhausted) ∷ []) }
{
    let reply = ErrorLine::Exhausted.reply();
    one(alloc, Output::Admin { node, reply })
}

/// The reply to the request that the step was made for, if it came, and what comes out beside it.
pub(crate) fn with_own(
    alloc: Global,
    node: u64,
    response: &Response,
    mut beside: Vec<Output>,
) -> Result<Vec<Output>, AllocError>
    ensures { IfOk result (λ out. out.items ≡ own_reply node response.now ++ beside.items) }
{
    let mut outputs = Vec::new(alloc);
    if let Response::Replied(answer) = response {
        outputs.push(Output::Admin {
            node,
            reply: answer.reply.clone()?,
        })?;
    }
    outputs.append(&mut beside)?;
    Ok(outputs)
}

/// Adds the replies to requests that waited.
pub(crate) fn add_released(
    outputs: &mut Vec<Output>,
    node: u64,
    releases: &[Release],
) -> Result<(), AllocError>
    ensures { OnOk result
        (outputs.new.items ≡ outputs.old.items ++ map (released_reply node) releases.now) }
{
    for release in releases {
        outputs.push(Output::Admin {
            node,
            reply: release.reply.clone()?,
        })?;
    }
    Ok(())
}

/// Adds the messages from that place on.
pub(crate) fn add_sent(
    outputs: &mut Vec<Output>,
    sent: &[Message],
    first: usize,
) -> Result<(), AllocError>
    requires { first ≤ length sent.now }
    ensures { OnOk result
        (outputs.new.items ≡ outputs.old.items ++ numbered first (drop first sent.now)) }
{
    for at in first..sent.len() {
        outputs.push(Output::Sent {
            number: at as u64 + 1,
            message: sent[at].clone()?,
        })?;
    }
    Ok(())
}

/// Adds that the node became a master, if it did.
pub(crate) fn add_promotion(
    outputs: &mut Vec<Output>,
    node: u64,
    promoted: &Promoted,
) -> Result<(), AllocError>
    ensures { OnOk result
        (outputs.new.items ≡ outputs.old.items ++ promotion_of node promoted.now) }
{
    if let Some(promotion) = promoted.get() {
        outputs.push(Output::Promoted { node, promotion })?;
    }
    Ok(())
}
