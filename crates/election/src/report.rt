//! What another node reported.
ghost use Rattle.std.specs.Bool.{OnTrue};
ghost use Rattle.std.specs.Prelude.{◌≡◌, Some};

use crate::ages::older;
use slot_table::NodeNo;

// The last report of a node.
#[derive(Clone, Copy, Debug)]
pub(crate) struct Report {
    // For each node whether it is suspected.
    suspects: [bool; 16],
    // How many ticks ago it came.
    age: u32,
}

impl Report {
    ghost use Rattle.election.specs.Failing.{names, older_report, without};

    // One that comes now.
    pub(crate) fn new(suspects: [bool; 16]) -> Report
        ensures { result ≡ record { suspects = suspects; age = 0 } }
    {
        Report { suspects, age: 0 }
    }

    // It is a tick older.
    pub(crate) fn older(self) -> Report
        ensures { result ≡ older_report self }
    {
        let suspects = self.suspects;
        Report {
            suspects,
            age: older(self.age),
        }
    }

    // It doesn't name the node any more.
    pub(crate) fn without(self, node: NodeNo) -> Report
        ensures { result ≡ without node self }
    {
        let mut suspects = self.suspects;
        suspects[node.index()] = false;
        Report {
            suspects,
            age: self.age,
        }
    }

    // Whether it doesn't name the node.
    pub(crate) fn is_without(self, node: NodeNo) -> bool
        ensures { OnTrue result (without node self ≡ self) }
    {
        !self.suspects[node.index()]
    }

    // Whether it names the node, and is not too old.
    pub(crate) fn names(self, timeout: u32, node: NodeNo) -> bool
        ensures { result ≡ names (Some self) timeout node }
    {
        self.age as u64 <= 2 * timeout as u64 && self.suspects[node.index()]
    }
}
