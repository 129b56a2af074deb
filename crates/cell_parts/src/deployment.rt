//! What marks the parts of one running cluster.

use std::marker::Brand;

/// A running cluster, as its types name it: its configuration, and the table of its tickets with the number of its seats.
///
/// Behind a lock only the type of a value is known, so a cell's type says of which cluster it is.
pub trait Deployment {
    ghost use Rattle.std.specs.Prelude.{ℕ};
    ghost use Rattle.atomic_table.specs.Seated.{TableId};
    ghost use Rattle.cluster_config.specs.Config.{ClusterConfig};

    ghost config: { ClusterConfig };

    ghost table: { TableId };

    ghost seats: { ℕ };
}

// The cluster that a program runs: a call that passes `Brand` says which one it is.
impl Deployment for Brand {
    ghost use Rattle.tickets.specs.Tickets.{no_table};
    ghost use Rattle.cell_parts.specs.Journal.{no_cluster};

    ghost config = { no_cluster };

    ghost table = { no_table };

    ghost seats = { 0 };
}
