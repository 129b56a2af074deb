//! A slot that was moved.
ghost use Rattle.std.specs.Prelude.{◌≡◌, ◌++◌, OnOk, decimal};
ghost use Rattle.resharder.specs.Printing.{line_of, shown_number};

use itoa::Buffer;
use key_slot::{MoveNo, Slot};
use std::alloc::AllocError;

/// A slot that is at its new master.
#[derive(Clone, Copy, PartialEq, Eq)]
pub struct MovedSlot {
    /// The slot.
    pub slot: Slot,
    /// The number of the move. There is none where the slot was there before any move of it.
    pub number: Option<MoveNo>,
    /// How many keys were moved in this run: those that are named in the orders to move keys that were obeyed.
    pub keys: u64,
}

impl MovedSlot {
    /// Puts the line that is printed of it behind the text: `slot SLOT move NUMBER keys KEYS`. The number is 0 where there is none.
    pub fn print(&self, out: &mut Vec<u8>) -> Result<(), AllocError>
        ensures { OnOk result (out.new.items ≡ out.old.items ++ line_of self.now) }
    {
        out.extend_from_slice(b"slot ")?;
        print_number(u64::from(self.slot.get()), out)?;
        out.extend_from_slice(b" move ")?;
        print_number(self.shown_number(), out)?;
        out.extend_from_slice(b" keys ")?;
        print_number(self.keys, out)?;
        out.extend_from_slice(b"\n")
    }

    fn shown_number(&self) -> u64
        ensures { result ≡ shown_number self.now.number }
    {
        match self.number {
            Some(number) => number.get(),
            None => 0,
        }
    }
}

fn print_number(number: u64, out: &mut Vec<u8>) -> Result<(), AllocError>
    ensures { OnOk result (out.new.items ≡ out.old.items ++ decimal number) }
{
    out.extend_from_slice(Buffer::new().format(number).as_bytes())
}
