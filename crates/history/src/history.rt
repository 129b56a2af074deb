//! A list that only proofs read. It takes no memory, and nothing of it is left in the compiled program.
ghost use Rattle.std.specs.Prelude.{◌≡◌, ◌++◌, ◌∷◌, []};

use std::marker::Model;
use std::snapshot::Snapshot;

// A history up to some moment: nothing, or a shorter history and one item more.
#[cycle(history)]
#[derive(Drop)]
struct Past<A> {
    last: Last<A>,
}

#[cycle(history)]
#[derive(Drop)]
enum Last<A> {
    Nothing,
    More(Snapshot<Past<A>>, Snapshot<A>),
}

impl<A> Model for Past<A> {
    ghost use Rattle.std.specs.Prelude.{List, length};

    ghost Value = { List A };

    ghost use Rattle.history.specs.History.{items};

    ghost view = { λ past. items past.last };

    ghost size = { length };

    ghost use Rattle.std.proofs.Common.{arith, length-append};

    ghost size_decreases = { λ past h. Prim.grind (arith, length-append) };
}

/// A list of items that clauses see, in the order in which they were added.
#[derive(Drop)]
pub struct History<A> {
    past: Snapshot<Past<A>>,
}

impl<A> Model for History<A> {
    ghost use Rattle.std.specs.Prelude.{List};

    ghost Value = { List A };

    ghost view = { λ history. history.past.value };
}

impl<A> History<A> {
    /// No item.
    pub fn new() -> History<A>
        ensures { result ≡ [] }
    {
        History {
            past: Snapshot::of(&Past {
                last: Last::Nothing,
            }),
        }
    }

    /// Adds an item, which the program keeps elsewhere or not at all.
    pub fn push(&mut self, item: &A)
        ensures { self.new ≡ self.old ++ item.now ∷ [] }
    {
        let History { past: before } = std::mem::replace(self, History::new());
        self.past = Snapshot::of(&Past {
            last: Last::More(before, Snapshot::of(item)),
        });
    }
}
