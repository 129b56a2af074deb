//! Where the nodes of a cluster are told: in a file, or on the command line.

use crate::failure::InputFailure;
use crate::files::read_cluster;
use crate::masters::{Masters, cluster_of_masters};
use cluster_config::Config;
use std::rt::Files;

/// What is wrong with a command line that doesn't say where they are told.
pub const NO_SOURCE_TEXT: &str = "one of --config FILE and --masters M is required";

/// Where the nodes of a cluster are told.
#[derive(Clone, Copy)]
pub enum Source<'a> {
    /// In the file at this path.
    File(&'a str),
    /// On the command line, by these numbers.
    Masters(Masters),
}

impl Source<'_> {
    /// How many free ports are wanted for its nodes.
    pub fn free_ports(&self) -> usize {
        match self {
            Source::File(_) => 0,
            Source::Masters(masters) => masters.free_ports(),
        }
    }
}

/// The cluster, or a sentence that says what is wrong with the numbers on the command line. The free ports are those that were found where
/// some are wanted.
pub fn cluster_of<R: Files + AllocGlobal>(
    rt: &R,
    source: Source,
    free_ports: &[u16],
) -> Result<Result<Config, &'static str>, InputFailure> {
    match source {
        Source::File(path) => Ok(Ok(read_cluster(rt, path)?)),
        Source::Masters(masters) => cluster_of_masters(rt.alloc(), &masters, free_ports),
    }
}
