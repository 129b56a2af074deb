//! Messages that are held back until others have come.
ghost use Rattle.std.specs.Prelude.{◌≡◌, ◌+◌, ◌++◌, ◌∷◌, ◌<◌, ◌≤◌, []};
ghost use Rattle.std.specs.VecDeque.{deque_capacity, deque_len};
ghost use Rattle.link_ends.specs.Shims.{due, ticked};

use std::collections::VecDeque;

/// A message that is held back.
#[derive(Drop)]
pub(crate) struct Held<T> {
    /// Once so many more have come it is given.
    pub(crate) left: u64,
    pub(crate) message: T,
}

/// One more message has come: those for which it was the last one come behind the others.
pub(crate) fn release<T>(held: &mut VecDeque<Held<T>>, coming: &mut VecDeque<T>)
    requires room { deque_len coming.old + deque_len held.old ≤ deque_capacity coming.old }
    ensures held { held.new.items ≡ ticked held.old.items }
    ensures coming { coming.new.items ≡ coming.old.items ++ due held.old.items }
{
    for _ in 0..held.len() {
        let Some(first) = held.pop_front() else {
            unreachable!();
        };
        put(first, held, coming);
    }
}

// One more message has come: this one comes behind the others, or is held on, behind those that were held longer.
fn put<T>(one: Held<T>, held: &mut VecDeque<Held<T>>, coming: &mut VecDeque<T>)
    requires coming_room { deque_len coming.old < deque_capacity coming.old }
    requires held_room { deque_len held.old < deque_capacity held.old }
    ensures held { held.new.items ≡ held.old.items ++ ticked (one ∷ []) }
    ensures coming { coming.new.items ≡ coming.old.items ++ due (one ∷ []) }
    ensures more { deque_len coming.new ≤ deque_len coming.old + 1 }
    ensures capacity { deque_capacity coming.new ≡ deque_capacity coming.old }
    ensures held_capacity { deque_capacity held.new ≡ deque_capacity held.old }
{
    let Held { left, message } = one;
    if left <= 1 {
        coming.push_back_reserved(message);
    } else {
        held.push_back_reserved(Held {
            left: left - 1,
            message,
        });
    }
}
