//! A value that is set at a node is what the next GET is answered.
ghost use Rattle.std.specs.Prelude.{◌≡◌, ◌≤◌, ◌∷◌, [], length, ◌+◌, IfOk, OnOk, codes};
ghost use Rattle.resp_values.specs.Request.{IsRequest};
ghost use Rattle.resp_values.specs.declared.words.TheConstants.{MOST_WORD_BYTES};
ghost use Rattle.resp_values.specs.declared.reply.Reply.TheVariants.{Bulk};
ghost use Rattle.uses.specs.Serving.{IsServedBy, served};

use byte_string::ByteString;
use node_cell::{Asks, Deployment, Entered, Log, NodeCell};
use node_step::{Event, Response, StepFault};
use resp2::Words;
use std::alloc::{AllocError, Global};

/// Sets the key on a connection of its own, and asks for it. A node that serves the key answers its value.
pub fn set_then_get<K: Deployment, L: Log>(
    alloc: Global,
    asks: &mut Asks<K>,
    cell: &mut NodeCell<K, L>,
    key: &ByteString,
    value: &ByteString,
) -> Result<Entered<K>, StepFault>
    requires { IsRequest (codes "SET" ∷ key.now ∷ value.now ∷ []) }
    ensures answer { IfOk result (λ entered. IsServedBy cell.old.state (key.now ∷ [])
        → entered.outputs.response ≡ served (Bulk value.now)) }
    ensures entered { OnOk result (length cell.new.journal ≡ length cell.old.journal + 3) }
{
    let set = set_words(alloc, key, value)?;
    let get = get_words(alloc, key)?;
    let opened = asks.ask_node(cell, Event::Open)?;
    let Response::Opened(conn) = opened.response() else {
        unreachable!()
    };
    let conn = *conn;
    let _set = asks.ask_node(cell, Event::Request(conn, set))?;
    asks.ask_node(cell, Event::Request(conn, get))
}

fn set_words(alloc: Global, key: &ByteString, value: &ByteString) -> Result<Words, AllocError>
    requires { IsRequest (codes "SET" ∷ key.now ∷ value.now ∷ []) }
    ensures { IfOk result (λ words. words ≡ codes "SET" ∷ key.now ∷ value.now ∷ []) }
{
    let name = ByteString::inline(b"SET");
    let items = vec![in alloc; name, key.clone()?, value.clone()?]?;
    Ok(Words::new(items).unwrap())
}

fn get_words(alloc: Global, key: &ByteString) -> Result<Words, AllocError>
    requires { length key.now ≤ MOST_WORD_BYTES }
    ensures { IfOk result (λ words. words ≡ codes "GET" ∷ key.now ∷ []) }
{
    let items = vec![in alloc; ByteString::inline(b"GET"), key.clone()?]?;
    Ok(Words::new(items).unwrap())
}
