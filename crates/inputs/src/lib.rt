//! What the program is given: the words of its command line, and the files that they name.
#![tactic(auto)]

mod arguments;
mod failure;
mod files;
mod masters;
mod source;
mod verbs;

pub use arguments::{Call, Failover, Resharding, Service, read_call};
pub use failure::{InputFailure, InputFault};
pub use files::{read_cluster, read_file, unreadable};
pub use masters::Masters;
pub use source::{NO_SOURCE_TEXT, Source, cluster_of};
pub use verbs::{AFTER_SIMULATE, MOST_TICKS};
