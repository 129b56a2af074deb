//! The reply of a call, as it is printed.

use crate::failure::{ToolFailure, ToolFault};
use crate::output::write;
use cli_text::{print_reply, print_text};
use resp2::Reply;
use smart_client::ClientFault;
use std::alloc::{AllocError, Global};

/// How replies are printed.
#[derive(Clone, Copy)]
pub enum Style {
    /// Each as its bytes on a connection, which are shown on one line.
    Bytes,
    /// As redis-cli prints them on a terminal.
    Text,
}

/// Prints the reply at once.
pub fn print<R: AllocGlobal + Print>(
    rt: &R,
    reply: &Reply,
    style: Style,
) -> Result<(), ToolFailure> {
    // The command may have been executed, whether or not there is memory for its reply.
    let Ok(lines) = lines_of(rt.alloc(), reply, style) else {
        return Err(ToolFailure::from(ToolFault::Client(ClientFault::Lost)));
    };
    write(rt, lines.as_slice())
}

fn lines_of(alloc: Global, reply: &Reply, style: Style) -> Result<Vec<u8>, AllocError> {
    let mut lines = Vec::new(alloc);
    match style {
        Style::Bytes => print_line(reply, &mut lines)?,
        Style::Text => print_text(reply, &mut lines)?,
    }
    Ok(lines)
}

fn print_line(reply: &Reply, lines: &mut Vec<u8>) -> Result<(), AllocError> {
    let mut spelling = Vec::new(*lines.allocator());
    print_reply(reply, &mut spelling, lines)?;
    lines.extend_from_slice(b"\n")
}
