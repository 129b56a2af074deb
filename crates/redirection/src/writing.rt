//! The errors by which a node sends a client to another one, as it writes them.
ghost use Rattle.std.specs.Prelude.{◌≡◌, ◌++◌, IfOk, IsTrue, OnOk};
ghost use Rattle.redirection.specs.Texts.{ask_text, moved_text, place_text};
ghost use Rattle.resp_values.specs.Line.{is_one_line};

use bytes::Bytes;
use cluster_config::Host;
use itoa::Buffer;
use key_slot::{MoveNo, Slot};
use resp_values::{Line, Reply};
use std::alloc::{AllocError, Global};

/// The error that redirects a client to the owner of the slot, at the host and the port.
pub fn moved_reply(alloc: Global, slot: Slot, host: &Host, port: u16) -> Result<Reply, AllocError>
    ensures { IfOk result (λ reply. reply ≡ Reply.Error (moved_text slot host.now port)) }
{
    let text = moved_text(alloc, slot, host, port)?;
    Ok(Reply::Error(Line::of(text)))
}

#[tactic(auto, using(crate::proofs::LineLemmas::moved_is_one_line))]
fn moved_text(alloc: Global, slot: Slot, host: &Host, port: u16) -> Result<Bytes, AllocError>
    ensures text { IfOk result (λ text. text ≡ moved_text slot host.now port) }
    ensures line { IfOk result (λ text. IsTrue (is_one_line text)) }
{
    let host = host.as_slice();
    let room = host.len().saturating_add(b"MOVED 65535 :65535".len());
    let mut text = Vec::with_capacity(alloc, room)?;
    text.extend_from_slice(b"MOVED ")?;
    append_place(&mut text, slot, host, port)?;
    Ok(Bytes::from_vec(text)?)
}

/// The error that sends a client to the node at the host and the port for this one command.
///
/// With the number of the move the client can ask for that move alone.
pub fn ask_reply(
    alloc: Global,
    slot: Slot,
    host: &Host,
    port: u16,
    number: Option<MoveNo>,
) -> Result<Reply, AllocError>
    ensures { IfOk result (λ reply. reply ≡ Reply.Error (ask_text slot host.now port number)) }
{
    let text = ask_text(alloc, slot, host, port, number)?;
    Ok(Reply::Error(Line::of(text)))
}

#[tactic(auto, using(crate::proofs::LineLemmas::plain_ask_is_one_line, crate::proofs::LineLemmas::numbered_ask_is_one_line))]
fn ask_text(
    alloc: Global,
    slot: Slot,
    host: &Host,
    port: u16,
    number: Option<MoveNo>,
) -> Result<Bytes, AllocError>
    ensures text { IfOk result (λ text. text ≡ ask_text slot host.now port number) }
    ensures line { IfOk result (λ text. IsTrue (is_one_line text)) }
{
    let host = host.as_slice();
    let room = host
        .len()
        .saturating_add(b"ASK 65535 :65535 18446744073709551615".len());
    let mut text = Vec::with_capacity(alloc, room)?;
    text.extend_from_slice(b"ASK ")?;
    append_place(&mut text, slot, host, port)?;
    if let Some(number) = number {
        text.extend_from_slice(b" ")?;
        text.extend_from_slice(Buffer::new().format(number.get()).as_bytes())?;
    }
    Ok(Bytes::from_vec(text)?)
}

// Appends the slot, and the address of the node.
fn append_place(text: &mut Vec<u8>, slot: Slot, host: &[u8], port: u16) -> Result<(), AllocError>
    ensures { OnOk result (text.new.items ≡ text.old.items ++ place_text slot host.now port) }
{
    text.extend_from_slice(Buffer::new().format(slot.get()).as_bytes())?;
    text.extend_from_slice(b" ")?;
    text.extend_from_slice(host)?;
    text.extend_from_slice(b":")?;
    text.extend_from_slice(Buffer::new().format(port).as_bytes())
}
