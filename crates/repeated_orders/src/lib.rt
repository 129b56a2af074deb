//! Orders that a node is given twice.
#![tactic(auto)]

mod law;

pub use law::{
    a_repeated_copy_takes_no_new_number, orders_may_be_repeated,
    repeated_orders_have_the_same_reply,
};
