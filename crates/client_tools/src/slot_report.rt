//! What a master reports of a slot, as it answers CLUSTER SLOTSTATE.

use byte_string::ByteString;
use resp2::{Element, Reply};
use std::alloc::AllocError;

/// What a master reports of a slot of its own.
#[derive(Drop)]
pub(crate) struct SlotReport {
    /// The id of the node for which the slot leaves, if it is on the move.
    pub(crate) leaves_for: Option<ByteString>,
    /// Whether the master has keys of it.
    pub(crate) has_keys: bool,
}

impl SlotReport {
    /// The report that the reply is, or None where it is none.
    pub(crate) fn read(reply: &Reply) -> Result<Option<SlotReport>, AllocError> {
        match reply {
            Reply::Array(array) => report_in(array.as_slice()),
            _ => Ok(None),
        }
    }
}

fn report_in(elements: &[Element]) -> Result<Option<SlotReport>, AllocError> {
    match elements {
        [
            Element::Array(_),
            Element::Bulk(word),
            node,
            Element::Integer(_),
            Element::Integer(_),
            Element::Integer(keys),
            Element::Integer(_),
        ] => Ok(Some(SlotReport {
            leaves_for: target_in(word, node)?,
            has_keys: *keys > 0,
        })),
        _ => Ok(None),
    }
}

// The id of the node, where the word says that the slot leaves for it.
fn target_in(word: &ByteString, node: &Element) -> Result<Option<ByteString>, AllocError> {
    if word.as_slice() != b"migrating".as_slice() {
        return Ok(None);
    }
    match node {
        Element::Bulk(id) => Ok(Some(id.clone()?)),
        _ => Ok(None),
    }
}
