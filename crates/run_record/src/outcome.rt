//! What came of a step.

use crate::message::write_body;
use crate::quoted::{Named, Quoted};
use bus::Message;
use node_step::{Answer, Outputs, Promotion, Release, Response};
use resp_values::Reply;
use resp2::append_reply;
use std::alloc::AllocError;
use std::fmt::Write;

// What stands before the first outcome of a step, and before the others.
const FIRST: &str = " -> ";

const NEXT: &str = "; ";

/// Puts what came of a step behind the text, if anything did.
pub(crate) fn write_outputs(text: &mut String, outputs: &Outputs) -> Result<(), AllocError> {
    let mut mark = FIRST;
    write_response(text, &mut mark, &outputs.response)?;
    for release in outputs.released.as_slice() {
        write_release(text, &mut mark, release)?;
    }
    if let Some(promotion) = outputs.promoted.get() {
        write_promotion(text, &mut mark, &promotion)?;
    }
    for message in outputs.sent.as_slice() {
        write_sent(text, &mut mark, message)?;
    }
    Ok(())
}

// Puts the mark there that is due.
fn write_mark(text: &mut String, mark: &mut &'static str) -> Result<(), AllocError> {
    text.push_str(*mark)?;
    *mark = NEXT;
    Ok(())
}

fn write_response(
    text: &mut String,
    mark: &mut &'static str,
    response: &Response,
) -> Result<(), AllocError> {
    match response {
        Response::Nothing => Ok(()),
        Response::Opened(conn) => {
            write_mark(text, mark)?;
            write!(text, "connection {}", Named(*conn))
        }
        Response::Replied(answer) => {
            write_mark(text, mark)?;
            write_answer(text, answer)
        }
        Response::Parked => {
            write_mark(text, mark)?;
            write!(text, "the reply waits")
        }
    }
}

fn write_answer(text: &mut String, answer: &Answer) -> Result<(), AllocError> {
    write!(text, "reply ")?;
    write_reply(text, &answer.reply)?;
    write!(text, " by {:?}", answer.why)
}

fn write_release(
    text: &mut String,
    mark: &mut &'static str,
    release: &Release,
) -> Result<(), AllocError> {
    write_mark(text, mark)?;
    write!(text, "reply to {} ", Named(release.conn))?;
    write_reply(text, &release.reply)
}

fn write_reply(text: &mut String, reply: &Reply) -> Result<(), AllocError> {
    let mut spelling = Vec::new(*text.allocator());
    append_reply(reply, &mut spelling)?;
    write!(text, "{}", Quoted(spelling.as_slice()))
}

fn write_promotion(
    text: &mut String,
    mark: &mut &'static str,
    promotion: &Promotion,
) -> Result<(), AllocError> {
    write_mark(text, mark)?;
    let how = if promotion.planned { " as planned" } else { "" };
    write!(
        text,
        "promoted{how} in epoch {} at {}",
        promotion.epoch.get(),
        promotion.offset
    )
}

fn write_sent(
    text: &mut String,
    mark: &mut &'static str,
    message: &Message,
) -> Result<(), AllocError> {
    write_mark(text, mark)?;
    write!(text, "to {}: ", message.to.get())?;
    write_body(text, &message.body)
}
