//! The journals of all nodes of a cluster, merged by their tickets, are a run of the cluster.
#![tactic(auto)]

mod law;

pub use law::{
    merged_journals_are_a_run, settled_runs_are_of_one_keyspace, settled_runs_need_no_asking,
};
