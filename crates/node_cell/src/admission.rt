//! Who may have the nodes of a cluster asked.
ghost use Rattle.std.specs.Prelude.{◌≡◌, []};

use crate::asks::Asks;
use cell_parts::Deployment;
use cluster_config::Config;
use std::marker::PhantomData;

/// The right to have the nodes of the cluster `K` asked. Who has it begins what is asked through one gate.
///
/// It is made where the configuration of the cluster is known. That is nowhere behind a node's lock: who only has a node there can't
/// ask it but by the [`Asks`] that it was given.
#[derive(Drop)]
pub struct Admission<K: Deployment> {
    cluster: PhantomData<K>,
}

impl<K: Deployment> Admission<K> {
    /// The right to have the nodes of this cluster asked.
    pub fn new(_config: &Config) -> Admission<K>
        requires { _config.now ≡ K.config }
    {
        Admission {
            cluster: PhantomData,
        }
    }

    /// What is asked through one gate: nothing yet.
    pub fn begin(&self) -> Asks<K>
        ensures { result ≡ [] }
    {
        Asks::new()
    }
}
