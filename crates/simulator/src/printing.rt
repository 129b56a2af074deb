//! What comes out of a world as a text, in the simulator's own format: a line an output.
ghost use Rattle.std.specs.Prelude.{◌≡◌, ◌++◌, decimal, OnOk};
ghost use Rattle.std.specs.List.{flat_map};
ghost use Rattle.simulator.specs.Printing.{kind, kind_of_election, kind_of_slots, kind_of_stream, mark, printed, shown};
ghost use Rattle.world_nodes.specs.declared.output.Output.TheVariants as output;

use bus::{Body, ElectionBody, Message, SlotsBody, StreamBody};
use cli_text::print_reply;
use itoa::Buffer;
use node_step::Promotion;
use resp2::Reply;
use smart_client::ClientFault;
use std::alloc::AllocError;
use world::Output;

/// Puts the outputs behind the text, a line each: `answer CLIENT REPLY`, `fault CLIENT CODE`, `admin NODE REPLY`,
/// `sent MESSAGE FROM TO KIND`, `promoted NODE EPOCH OFFSET` or `none`.
///
/// A reply is shown as its bytes on the connection: CR as `\r`, LF as `\n`, a backslash as `\\`, and other bytes outside of
/// 32 to 126 as `\x` and two hexadecimal digits.
pub fn print_outputs(outputs: &[Output], out: &mut Vec<u8>) -> Result<(), AllocError>
    ensures { OnOk result (out.new.items ≡ out.old.items ++ flat_map printed outputs.now) }
{
    let mut spelling = Vec::new(*out.allocator());
    for output in outputs {
        print_output(output, &mut spelling, out)?;
    }
    Ok(())
}

// The output and the end of its line. A reply is spelled in the first list, whose room is used again.
fn print_output(
    output: &Output,
    spelling: &mut Vec<u8>,
    out: &mut Vec<u8>,
) -> Result<(), AllocError>
    ensures { OnOk result (out.new.items ≡ out.old.items ++ printed output.now) }
{
    match output {
        Output::Answer { client, answer } => print_answer(*client, answer, spelling, out)?,
        Output::Admin { node, reply } => print_admin(*node, reply, spelling, out)?,
        Output::Sent { number, message } => print_sent(*number, message, out)?,
        Output::Promoted { node, promotion } => print_promoted(*node, promotion, out)?,
        Output::Nothing => out.extend_from_slice(b"none")?,
    }
    out.extend_from_slice(b"\n")
}

fn print_answer(
    client: u64,
    answer: &Result<Reply, ClientFault>,
    spelling: &mut Vec<u8>,
    out: &mut Vec<u8>,
) -> Result<(), AllocError>
    ensures { OnOk result
        (out.new.items ≡ out.old.items ++ shown (output.Answer client answer.now)) }
{
    match answer {
        Ok(reply) => {
            out.extend_from_slice(b"answer ")?;
            print_number(client, out)?;
            out.extend_from_slice(b" ")?;
            print_reply(reply, spelling, out)
        }
        Err(fault) => {
            out.extend_from_slice(b"fault ")?;
            print_number(client, out)?;
            out.extend_from_slice(b" ")?;
            out.extend_from_slice(fault.code().as_bytes())
        }
    }
}

fn print_admin(
    node: u64,
    reply: &Reply,
    spelling: &mut Vec<u8>,
    out: &mut Vec<u8>,
) -> Result<(), AllocError>
    ensures { OnOk result (out.new.items ≡ out.old.items ++ shown (output.Admin node reply.now)) }
{
    out.extend_from_slice(b"admin ")?;
    print_number(node, out)?;
    out.extend_from_slice(b" ")?;
    print_reply(reply, spelling, out)
}

fn print_sent(number: u64, message: &Message, out: &mut Vec<u8>) -> Result<(), AllocError>
    ensures { OnOk result
        (out.new.items ≡ out.old.items ++ shown (output.Sent number message.now)) }
{
    out.extend_from_slice(b"sent ")?;
    print_number(number, out)?;
    out.extend_from_slice(b" ")?;
    print_number(u64::from(message.from.get()), out)?;
    out.extend_from_slice(b" ")?;
    print_number(u64::from(message.to.get()), out)?;
    out.extend_from_slice(b" ")?;
    out.extend_from_slice(kind(&message.body))
}

fn print_promoted(node: u64, promotion: &Promotion, out: &mut Vec<u8>) -> Result<(), AllocError>
    ensures { OnOk result
        (out.new.items ≡ out.old.items ++ shown (output.Promoted node promotion.now)) }
{
    out.extend_from_slice(b"promoted ")?;
    print_number(node, out)?;
    out.extend_from_slice(b" ")?;
    print_number(promotion.epoch.get(), out)?;
    out.extend_from_slice(b" ")?;
    print_number(promotion.offset, out)?;
    out.extend_from_slice(mark(promotion.planned))
}

// What stands behind a promotion by a handover.
fn mark(planned: bool) -> &'static [u8]
    ensures { result.now ≡ mark planned }
{
    if planned { b" planned" } else { b"" }
}

fn print_number(number: u64, out: &mut Vec<u8>) -> Result<(), AllocError>
    ensures { OnOk result (out.new.items ≡ out.old.items ++ decimal number) }
{
    out.extend_from_slice(Buffer::new().format(number).as_bytes())
}

// What a message says, by its kind.
fn kind(body: &Body) -> &'static [u8]
    ensures { result.now ≡ kind body.now }
{
    match body {
        Body::Slots(body) => kind_of_slots(body),
        Body::Stream(body) => kind_of_stream(body),
        Body::Election(body) => kind_of_election(body),
        Body::Report(_) => b"Report",
    }
}

fn kind_of_slots(body: &SlotsBody) -> &'static [u8]
    ensures { result.now ≡ kind_of_slots body.now }
{
    match body {
        SlotsBody::Copy { .. } => b"Copy",
        SlotsBody::Ack(_) => b"Ack",
        SlotsBody::Drained { .. } => b"Drained",
        SlotsBody::Claim(_, _) => b"Claim",
    }
}

fn kind_of_stream(body: &StreamBody) -> &'static [u8]
    ensures { result.now ≡ kind_of_stream body.now }
{
    match body {
        StreamBody::Sync(_) => b"Sync",
        StreamBody::Piece(_) => b"Piece",
        StreamBody::Snapshot(_) => b"Snapshot",
    }
}

fn kind_of_election(body: &ElectionBody) -> &'static [u8]
    ensures { result.now ≡ kind_of_election body.now }
{
    match body {
        ElectionBody::Candidacy(_) => b"Request",
        ElectionBody::Grant(_) => b"Grant",
        ElectionBody::Pause(_) => b"Pause",
        ElectionBody::Paused(_) => b"Paused",
    }
}
