//! What happened to a node.

use crate::message::write_body;
use crate::quoted::{Named, Quoted};
use bus::Message;
use connections::Conn;
use node_step::Event;
use resp_values::Words;
use std::alloc::AllocError;
use std::fmt::Write;

/// Puts the event behind the text.
pub(crate) fn write_event(text: &mut String, event: &Event) -> Result<(), AllocError> {
    match event {
        Event::Open => write!(text, "open"),
        Event::Close(conn) => write!(text, "close {}", Named(*conn)),
        Event::Request(conn, words) => write_request(text, *conn, words),
        Event::Deliver(message) => write_delivery(text, message),
        Event::Tick => write!(text, "tick"),
    }
}

fn write_request(text: &mut String, conn: Conn, words: &Words) -> Result<(), AllocError> {
    write!(text, "request {}", Named(conn))?;
    for word in words.as_slice() {
        write!(text, " {}", Quoted(word.as_slice()))?;
    }
    Ok(())
}

fn write_delivery(text: &mut String, message: &Message) -> Result<(), AllocError> {
    write!(
        text,
        "message from {} of {}: ",
        message.from.get(),
        message.ticket
    )?;
    write_body(text, &message.body)
}
