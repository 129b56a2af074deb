//! The nodes of a world: what they do, and what comes out of it.
#![tactic(auto)]

mod entries;
mod link;
mod output;
mod run;
mod serving;

pub use link::Link;
pub use output::{Output, nothing, one};
pub use run::Run;
pub use serving::Served;
