//! The number of a node.
ghost use Rattle.std.specs.Prelude.{◌≡◌, ◌<◌, SomeIff};

use std::marker::Model;

/// A node's place in the configuration of its cluster, from 0 to 15.
#[derive(Clone, Copy, PartialEq, Eq, PartialOrd, Ord, Hash, Debug)]
pub struct NodeNo {
    number: u8,
}

impl Model for NodeNo {
    ghost use Rattle.std.specs.Prelude.{ℕ, ◌<◌};

    ghost Value = { ℕ };

    ghost view = { λ node. node.number };

    ghost invariant = { λ node. node.number < 16 };

    ghost inverse = { λ number. record { number = number } };
}

impl NodeNo {
    /// The most nodes that a cluster has.
    pub const COUNT: usize = 16;

    /// The node at that place, or `None` from 16 on.
    pub fn new(number: u8) -> Option<NodeNo>
        ensures { SomeIff result (number < 16) number }
    {
        if number as usize >= NodeNo::COUNT {
            return None;
        }
        Some(NodeNo { number })
    }

    /// The number.
    pub fn get(self) -> u8
        ensures same { result ≡ self }
        ensures below { result < 16 }
    {
        self.number
    }

    /// The number as an index, below [`NodeNo::COUNT`].
    pub fn index(self) -> usize
        ensures same { result ≡ self }
        ensures below { result < 16 }
    {
        self.number as usize
    }
}
