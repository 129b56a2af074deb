//! What was sent and received at the ends of all nodes, once nobody sends or receives any more.
ghost use Rattle.std.specs.Prelude.{◌≡◌, ◌+◌, ◌++◌, ◌∷◌, [], length, map, take};
ghost use Rattle.link_ends.specs.Ends.{AllArrived, AreWired};
ghost use Rattle.link_ends.specs.Comparing.{AreAcross, EachArrived, FaceEachOther, HasArrived};

use crate::end::LinkEnd;
use crate::halves::compare;
use crate::node_ends::NodeEnds;
use std::sync::Wait;

/// Takes the ends of all nodes together, once nobody sends or receives any more. What each node received from another is a beginning of
/// what that one sent it.
pub fn compare_all<T: Drop, R: Wait + Drop>(ends: Vec<NodeEnds<T, R>>)
    requires { AreWired (length ends.items) ends.items }
    ensures { AllArrived (length ends.items) ends.items }
{
    let mut all = ends;
    while let Some(last) = all.pop() {
        compare_last(all.as_mut_slice(), last);
    }
}

// Takes the ends of the last node together with those of the others for it.
fn compare_last<T: Drop, R: Wait + Drop>(others: &mut [NodeEnds<T, R>], last: NodeEnds<T, R>)
    requires { AreWired (length others.old + 1) (others.old ++ last ∷ []) }
    ensures wired { AreWired (length others.old) others.new }
    ensures arrived { AllArrived (length others.old) others.new
        → AllArrived (length others.old + 1) (others.old ++ last ∷ []) }
{
    let mut last = last;
    compare_to_itself(last.take_last());
    compare_each(others, last.into_vec());
}

// Takes a node's ends for the others together with the last end of each, which is that for this node.
fn compare_each<T: Drop, R: Wait + Drop>(others: &mut [NodeEnds<T, R>], row: Vec<LinkEnd<T, R>>)
    requires { AreAcross others.old row.items }
    ensures shorter { others.new ≡ map (take (length others.old)) others.old }
    ensures arrived { EachArrived 0 others.old row.items }
{
    let mut row = row;
    while let Some(here) = row.pop() {
        let there = others[row.len()].take_last();
        compare_both(here, there);
    }
}

// Takes both ends of two nodes together.
fn compare_both<T: Drop, R: Wait + Drop>(here: LinkEnd<T, R>, there: LinkEnd<T, R>)
    requires { FaceEachOther here there }
    ensures sent { HasArrived here there }
    ensures received { HasArrived there here }
{
    let (sender, receiver) = here.into_halves();
    let (other_sender, other_receiver) = there.into_halves();
    compare(sender, other_receiver);
    compare(other_sender, receiver);
}

// Takes the end by which a node sends to itself.
fn compare_to_itself<T: Drop, R: Wait + Drop>(own: LinkEnd<T, R>)
    requires { own.to ≡ own.from }
    ensures { HasArrived own own }
{
    let (sender, receiver) = own.into_halves();
    compare(sender, receiver);
}
