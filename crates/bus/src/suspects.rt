//! Whom a node suspects.
ghost use Rattle.std.specs.Prelude.{◌≡◌, false, slice_index_or};

use slot_table::NodeNo;
use std::marker::Model;

/// For each node that there may be whether it is suspected. It takes no memory.
#[derive(Clone, Copy, Debug)]
pub struct Suspects {
    suspected: [bool; 16],
}

impl Model for Suspects {
    ghost use Rattle.std.specs.Prelude.{Bool, List};

    ghost Value = { List Bool };

    ghost view = { λ suspects. suspects.suspected };

    ghost inverse = { λ suspected. record { suspected = suspected } };
}

impl Suspects {
    /// Those for which the row has `true`, at their numbers.
    pub fn new(suspected: [bool; 16]) -> Suspects
        ensures { result ≡ suspected }
    {
        Suspects { suspected }
    }

    /// The row, by the numbers of the nodes.
    pub fn as_slice(&self) -> &[bool]
        ensures { result.now ≡ self.now }
    {
        self.suspected.as_slice()
    }

    /// The same row, with a place for each node that there may be.
    pub fn row(&self) -> [bool; 16]
        ensures { result ≡ self.now }
    {
        self.suspected
    }

    /// Whether the node is suspected.
    pub fn has(&self, node: NodeNo) -> bool
        ensures { result ≡ slice_index_or self.now node false }
    {
        self.suspected[node.index()]
    }
}
