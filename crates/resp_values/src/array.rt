//! An array of replies, in the order of its bytes.
ghost use Rattle.std.specs.Prelude.{◌≡◌, ◌++◌, length, IfOk, OnOk, IsTrue};
ghost use Rattle.resp_values.specs.Array.{has_replies, is_array};
ghost use Rattle.resp_values.specs.Reply.{array_of, elements_of};

use crate::line::Line;
use crate::reply::Reply;
use byte_string::ByteString;
use std::alloc::{AllocError, Global};
use std::marker::Model;

/// An element of an array, by the kinds of the protocol.
#[derive(PartialEq, Eq, Debug, Drop)]
pub enum Element {
    /// A short text.
    Simple(Line),
    /// An error.
    Error(Line),
    /// A signed number of 64 bits.
    Integer(i64),
    /// Any bytes.
    Bulk(ByteString),
    /// The bulk string that isn't there.
    Null,
    /// The header of an array of this many replies, which follow.
    Array(usize),
}

/// An array of replies, whose elements may be arrays themselves.
///
/// All stand in one list: the number of the replies first, then one reply after another, of which
/// one that is an array is again a number before its replies. So an array is one block of memory
/// however deep it nests, and its bytes are those of its elements in order.
#[derive(Debug, Drop)]
pub struct Array {
    elements: Vec<Element>,
}

impl Model for Array {
    ghost use Rattle.std.specs.Prelude.{List, IsTrue};
    ghost use Rattle.resp_values.specs.Array.{is_array};
    ghost use Rattle.resp_values.specs.declared.array.Element.{Element as ArrayElement};

    ghost Value = { List ArrayElement };

    ghost view = { λ array. array.elements.items };

    ghost invariant = { λ array. IsTrue (is_array array.elements.items) };
}

impl Array {
    /// The array of these replies. It shares their bytes and takes one block of memory, whose size
    /// is counted first: so no element moves while the others come.
    pub fn of(alloc: Global, replies: Vec<Reply>) -> Result<Array, AllocError>
        ensures { IfOk result (λ array. array ≡ array_of replies.items) }
    {
        let room = replies
            .iter()
            .fold(1usize, |room, reply| room.saturating_add(len_of(reply)));
        let mut elements = Vec::with_capacity(alloc, room)?;
        elements.push(Element::Array(replies.len()))?;
        for reply in replies {
            push_reply(&mut elements, reply)?;
        }
        Ok(Array { elements })
    }

    /// The array that has these elements.
    pub fn of_elements(elements: Vec<Element>) -> Array
        requires { IsTrue (is_array elements.items) }
        ensures { result ≡ elements.items }
    {
        Array { elements }
    }

    /// The header of the array, and all that stands behind it.
    pub fn as_slice(&self) -> &[Element]
        ensures elements { result.now ≡ self.now }
        ensures array { IsTrue (is_array self.now) }
    {
        self.elements.as_slice()
    }
}

impl PartialEq for Array {
    ghost use Rattle.std.specs.Cmp.{partial_equiv_from_equiv};
    ghost use Rattle.std.specs.Cmp.Lexicographic.{pointwise, lists_equiv};
    ghost use Rattle.resp_values.specs.contracts.array.ElementEq.TheImpl.Laws.{lawful};

    ghost eq = { pointwise ⟦<Element as PartialEq>⟧.eq };

    ghost laws = { partial_equiv_from_equiv (lists_equiv lawful.laws) };

    fn eq(&self, other: &Array) -> bool {
        self.elements == other.elements
    }
}

impl Eq for Array {
    ghost use Rattle.std.specs.Cmp.Lexicographic.{lists_equiv};
    ghost use Rattle.resp_values.specs.contracts.array.ElementEq.TheImpl.Laws.{lawful};

    ghost laws = { lists_equiv lawful.laws };
}

impl Clone for Array {
    ghost is_clone = { λ array copy. copy ≡ array };

    fn clone(&self) -> Result<Array, AllocError> {
        let elements = self.elements.clone()?;
        Ok(Array { elements })
    }
}

impl Clone for Element {
    ghost is_clone = { λ element copy. copy ≡ element };

    fn clone(&self) -> Result<Element, AllocError> {
        match self {
            Element::Simple(text) => Ok(Element::Simple(text.clone()?)),
            Element::Error(text) => Ok(Element::Error(text.clone()?)),
            Element::Integer(number) => Ok(Element::Integer(*number)),
            Element::Bulk(bytes) => Ok(Element::Bulk(bytes.clone()?)),
            Element::Null => Ok(Element::Null),
            Element::Array(len) => Ok(Element::Array(*len)),
        }
    }
}

// How many elements the reply is in an array.
fn len_of(reply: &Reply) -> usize
    ensures { result ≡ length (elements_of reply.now) }
{
    match reply {
        Reply::Array(array) => array.elements.len(),
        Reply::Simple(_) | Reply::Error(_) | Reply::Integer(_) | Reply::Bulk(_) | Reply::Null => 1,
    }
}

// Moves the reply to the end of the elements.
fn push_reply(elements: &mut Vec<Element>, reply: Reply) -> Result<(), AllocError>
    ensures pushed { OnOk result (elements.new.items ≡ elements.old.items ++ elements_of reply) }
    ensures one { IsTrue (has_replies 1 (elements_of reply)) }
{
    match reply {
        Reply::Simple(text) => elements.push(Element::Simple(text))?,
        Reply::Error(text) => elements.push(Element::Error(text))?,
        Reply::Integer(number) => elements.push(Element::Integer(number))?,
        Reply::Bulk(bytes) => elements.push(Element::Bulk(bytes))?,
        Reply::Null => elements.push(Element::Null)?,
        Reply::Array(array) => {
            let mut inner = array.elements;
            elements.append(&mut inner)?;
        }
    }
    Ok(())
}
