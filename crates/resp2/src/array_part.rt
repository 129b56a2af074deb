//! An array of which some replies are still to come.
ghost use Rattle.std.specs.Bool.{OnTrue, OnFalse};
ghost use Rattle.std.specs.Prelude.{◌≡◌, ◌≢◌, ◌+◌, ◌<◌, [], OnErr, vec_len, vec_capacity};
ghost use Rattle.resp_header.specs.declared.fault.Fault.TheVariants.{Protocol};
ghost use Rattle.resp2.specs.declared.reply_reader.TheConstants.{MOST_DEPTH, MOST_COUNT};
ghost use Rattle.resp_header.specs.Header.{Gives};
ghost use Rattle.resp2.specs.Progress.{Takes, FailsFor};
ghost use Rattle.resp_header.specs.Reading.{header_at, Wants};
ghost use Rattle.resp2.specs.ReplyProgress.{IsArrayPart, IsReading, part_front, FewerBytes, BeginsArray, SamePart, reply_ahead, rest_ahead, HasEnded};
ghost use Rattle.resp2.specs.Answers.{IfOkSome, OnOkNone, OnOkTrue, OnOkFalse};

use crate::leaf::{Begun, take_leaf};
use crate::reply_reader::{MOST_COUNT, MOST_DEPTH};
use bytes::BytesMut;
use resp_header::{Bounds, Fault, Header, read_header};
use resp_values::{Array, Element};
use std::alloc::Global;
use std::mem;

/// An array of which some elements were taken, its header first, or none where no array was begun.
#[derive(Drop)]
pub(crate) struct ArrayPart {
    /// The elements that were taken.
    pub elements: Vec<Element>,
    /// How many replies are to come in the innermost array.
    pub left: usize,
    /// How many are to come behind it in each array around it, the outermost first.
    pub outer: Vec<usize>,
}

impl ArrayPart {
    /// No array was begun.
    pub fn nothing(alloc: Global) -> ArrayPart
        ensures elements { result.elements.items ≡ [] }
        ensures part { IsArrayPart result }
    {
        ArrayPart {
            elements: Vec::new(alloc),
            left: 0,
            outer: Vec::new(alloc),
        }
    }

    /// Takes the elements of the array in front that came whole, and hands it out where those are all.
    ///
    /// An error leaves what can be gone on with: nothing is lost.
    pub fn take(&mut self, input: &mut BytesMut, begun: &mut Begun) -> Result<Option<Array>, Fault>
        requires reading { IsReading self.old begun.old input.old.items }
        requires begins { self.old.elements.items ≡ [] → BeginsArray begun.old input.old.items }
        ensures takes { Takes result (reply_ahead self.old begun.old input.old.items) input.new.items }
        ensures reading { IsReading self.new begun.new input.new.items }
        ensures next { IfOkSome result (λ array. part_front self.new begun.new input.new.items ≡ input.new.items) }
        ensures unfinished { OnOkNone result (SamePart self.old begun.old input.old self.new begun.new input.new) }
        ensures err { OnErr result (SamePart self.old begun.old input.old self.new begun.new input.new) }
    {
        if self.elements.is_empty() && !self.begin(input, begun)? {
            return Ok(None);
        }
        if !self.take_elements(input, begun)? {
            return Ok(None);
        }
        Ok(Some(self.hand_out()))
    }

    // Takes the header of the array in front, and says whether it was whole.
    fn begin(&mut self, input: &mut BytesMut, begun: &mut Begun) -> Result<bool, Fault>
        requires reading { IsReading self.old begun.old input.old.items }
        requires none { self.old.elements.items ≡ [] }
        requires begins { BeginsArray begun.old input.old.items }
        ensures reading { IsReading self.new begun.new input.new.items }
        ensures some { OnOkTrue result (self.new.elements.items ≢ []) }
        ensures kept { SamePart self.old begun.old input.old self.new begun.new input.new }
        ensures unfinished { OnOkFalse result (reply_ahead self.old begun.old input.old.items ≡ Wants) }
        ensures err { FailsFor result (reply_ahead self.old begun.old input.old.items) }
    {
        self.elements.reserve(1)?;
        let Some(header) = read_count(input.as_slice())? else {
            return Ok(false);
        };
        input.advance(header.len);
        *begun = Begun::nothing();
        self.elements.push_reserved(Element::Array(header.number));
        self.left = header.number;
        Ok(true)
    }

    // Takes elements until the array is whole, and says whether it is.
    fn take_elements(&mut self, input: &mut BytesMut, begun: &mut Begun) -> Result<bool, Fault>
        requires reading { IsReading self.old begun.old input.old.items }
        requires some { self.old.elements.items ≢ [] }
        ensures reading { IsReading self.new begun.new input.new.items }
        ensures some { self.new.elements.items ≢ [] }
        ensures kept { SamePart self.old begun.old input.old self.new begun.new input.new }
        ensures whole { OnOkTrue result (HasEnded self.new) }
        ensures unfinished { OnOkFalse result (reply_ahead self.old begun.old input.old.items ≡ Wants) }
        ensures err { FailsFor result (reply_ahead self.old begun.old input.old.items) }
    {
        'elements: while !self.end_arrays() {
            if !self.take_element(input, begun)? {
                return Ok(false);
            }
        }
        Ok(true)
    }

    // Leaves the arrays of which no reply is to come, and says whether those are all.
    fn end_arrays(&mut self) -> bool
        requires part { IsArrayPart self.old }
        requires some { self.old.elements.items ≢ [] }
        ensures part { IsArrayPart self.new }
        ensures elements { self.new.elements.items ≡ self.old.elements.items }
        ensures all { OnTrue result (HasEnded self.new) }
        ensures was { OnTrue result (self.old.left ≡ 0) }
        ensures open { OnFalse result (0 < self.new.left) }
    {
        'arrays: while self.left == 0 {
            let Some(left) = self.outer.pop() else {
                return true;
            };
            self.left = left;
        }
        false
    }

    // Takes the next element, and says whether it was whole.
    fn take_element(&mut self, input: &mut BytesMut, begun: &mut Begun) -> Result<bool, Fault>
        requires reading { IsReading self.old begun.old input.old.items }
        requires some { self.old.elements.items ≢ [] }
        requires open { 0 < self.old.left }
        ensures reading { IsReading self.new begun.new input.new.items }
        ensures some { self.new.elements.items ≢ [] }
        ensures kept { SamePart self.old begun.old input.old self.new begun.new input.new }
        ensures unfinished { OnOkFalse result (rest_ahead self.old begun.old input.old.items ≡ Wants) }
        ensures err { FailsFor result (rest_ahead self.old begun.old input.old.items) }
        ensures shrinks { OnOkTrue result (FewerBytes begun.old input.old begun.new input.new) }
    {
        self.elements.reserve(1)?;
        if begun.begins_array(input) {
            return self.begin_inner(input, begun);
        }
        let Some(element) = take_leaf(input, begun)? else {
            return Ok(false);
        };
        self.elements.push_reserved(element);
        self.left -= 1;
        Ok(true)
    }

    // Takes the header of an array within the array, and says whether it was whole.
    fn begin_inner(&mut self, input: &mut BytesMut, begun: &mut Begun) -> Result<bool, Fault>
        requires reading { IsReading self.old begun.old input.old.items }
        requires some { self.old.elements.items ≢ [] }
        requires open { 0 < self.old.left }
        requires begins { BeginsArray begun.old input.old.items }
        requires room { vec_len self.old.elements < vec_capacity self.old.elements }
        ensures reading { IsReading self.new begun.new input.new.items }
        ensures some { self.new.elements.items ≢ [] }
        ensures kept { SamePart self.old begun.old input.old self.new begun.new input.new }
        ensures unfinished { OnOkFalse result (rest_ahead self.old begun.old input.old.items ≡ Wants) }
        ensures err { FailsFor result (rest_ahead self.old begun.old input.old.items) }
        ensures shrinks { OnOkTrue result (FewerBytes begun.old input.old begun.new input.new) }
    {
        if self.outer.len() + 1 == MOST_DEPTH {
            return Err(Fault::Protocol);
        }
        self.outer.reserve(1)?;
        let Some(header) = read_count(input.as_slice())? else {
            return Ok(false);
        };
        input.advance(header.len);
        *begun = Begun::nothing();
        self.elements.push_reserved(Element::Array(header.number));
        self.outer.push_reserved(self.left - 1);
        self.left = header.number;
        Ok(true)
    }

    // Hands out an array that is whole.
    fn hand_out(&mut self) -> Array
        requires part { IsArrayPart self.old }
        requires some { self.old.elements.items ≢ [] }
        requires whole { HasEnded self.old }
        ensures array { result ≡ self.old.elements.items }
        ensures elements { self.new.elements.items ≡ [] }
        ensures part { IsArrayPart self.new }
    {
        let alloc = *self.elements.allocator();
        let elements = mem::replace(&mut self.elements, Vec::new(alloc));
        Array::of_elements(elements)
    }
}

// The header of the array in front, or None where more bytes have to come.
fn read_count(bytes: &[u8]) -> Result<Option<Header>, Fault>
    ensures { Gives bytes.now result (header_at 42 Protocol 0 MOST_COUNT bytes.now) }
{
    let bounds = Bounds {
        least: 0,
        most: MOST_COUNT,
        above: Fault::Protocol,
    };
    read_header(bytes, b'*', bounds)
}
