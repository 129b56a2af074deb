//! What a bad network does to messages, one after another.
ghost use Rattle.std.specs.Prelude.{◌≡◌};
ghost use Rattle.link_ends.specs.Acts.{after_one, act_of};

use std::marker::Model;

/// What becomes of a message that has come.
#[derive(Clone, Copy, PartialEq, Eq, Debug)]
pub enum Act {
    /// It is given.
    Pass,
    /// It is given to nobody.
    Lose,
    /// It is given so many times more than once, in a row.
    Repeat(u32),
    /// It is given once so many further messages have come, and never if fewer come.
    Hold(u32),
}

/// Acts, the first of them for the first message, and how many are done. What comes behind the last act is passed.
#[derive(Drop)]
pub(crate) struct Acts {
    all: Vec<Act>,
    done: usize,
    // How many of these were told to whoever logs them.
    told: usize,
}

impl Model for Acts {
    ghost use Rattle.std.specs.Prelude.{◌≤◌, length};
    ghost use Rattle.link_ends.specs.Acts.{ActsView};

    ghost Value = { ActsView };

    ghost view = { λ acts. record { all = acts.all.items; done = acts.done } };

    ghost invariant = { λ acts. acts.done ≤ length acts.all.items };
}

impl Acts {
    /// Of these none is done.
    pub(crate) fn new(all: Vec<Act>) -> Acts
        ensures { result ≡ record { all = all.items; done = 0 } }
    {
        Acts {
            all,
            done: 0,
            told: 0,
        }
    }

    /// How many are left.
    pub(crate) fn left(&self) -> usize {
        self.all.len() - self.done
    }

    /// The act for the next message.
    pub(crate) fn next(&self) -> Act
        ensures { result ≡ act_of self.now.all self.now.done }
    {
        match self.all.get(self.done) {
            Some(act) => *act,
            None => Act::Pass,
        }
    }

    /// Notes that the next act is done, in this way.
    pub(crate) fn note(&mut self, done: Act)
        ensures { self.new ≡ after_one self.old done }
    {
        if self.done < self.all.len() {
            self.all[self.done] = done;
            self.done += 1;
        }
    }

    /// The next act that is done and wasn't told yet.
    pub(crate) fn tell(&mut self) -> Option<Act>
        ensures { self.new ≡ self.old }
    {
        if self.told >= self.done {
            return None;
        }
        let act = self.all.get(self.told).copied();
        self.told += 1;
        act
    }
}
