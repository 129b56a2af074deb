//! No epoch has two masters.
#![tactic(auto)]

mod law;

pub use law::no_epoch_has_two_masters;
