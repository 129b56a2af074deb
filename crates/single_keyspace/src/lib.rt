//! The replies of a cluster are those of one keyspace.
#![tactic(auto)]

mod law;

pub use law::replies_are_those_of_one_keyspace;
