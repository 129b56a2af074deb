//! The keyspace of a node: a finite map from keys to values, what is changed there by plan, and the laws of commands on it.
#![tactic(auto)]

mod appending;
mod changes;
mod fields;
mod hash_at;
mod law;
mod leaving;
mod limits;
mod pairs;
mod planned_fields;
mod plans;
mod putting;
mod replay;
mod store;
mod value;

pub use appending::append_in;
pub use changes::NewValues;
pub use fields::{FieldChanges, change_fields_in};
pub use hash_at::{extent_after, hash_in, len_of, value_in};
pub use law::{commands_are_local, commands_execute_in_a_part, parts_make_the_keyspace};
pub use leaving::leaves_keys;
pub use limits::{hash_fits, length_fits, pairs_fit, value_fits};
pub use pairs::{Pair, Pairs};
pub use planned_fields::PlannedFields;
pub use plans::{LastStep, Plan, commit};
pub use putting::{ValuePairs, copied_pairs};
pub use replay::{
    rebuilding_makes_the_keyspace, requests_execute_their_commands, writes_leave_the_keyspace,
};
pub use store::{Store, TreeStore};
pub use value::{Value, rebuild, rebuilding_makes_the_key};
