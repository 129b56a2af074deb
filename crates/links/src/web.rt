//! What marks the links of one running cluster.

use std::marker::Brand;

/// The links of a running cluster, as its types name them: the link from each node to each.
///
/// Behind a lock only the type of a value is known, so a station's type says of which links it has its ends.
pub trait Web {
    ghost use Rattle.std.specs.Prelude.{ℕ};
    ghost use Rattle.atomic_table.specs.Seated.{TableId};

    ghost links: { ℕ → ℕ → TableId };
}

// The links that a program makes: a call that passes `Brand` says which ones they are.
impl Web for Brand {
    ghost use Rattle.tickets.specs.Tickets.{no_table};

    ghost links = { λ _ _. no_table };
}
