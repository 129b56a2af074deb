//! That a node became a master.
ghost use Rattle.std.specs.Prelude.{◌≡◌, None, Some, IfOk, IsOk};

use bus::StreamId;
use slot_table::Epoch;
use std::alloc::{AllocError, Global};
use std::marker::Model;

/// That a replica took the place of its master, by an election.
#[derive(Clone, Copy, PartialEq, Eq, Debug)]
pub struct Promotion {
    /// The stream that it followed.
    pub stream: StreamId,
    /// How much of it the node had in whole requests.
    pub offset: u64,
    /// The epoch of the election.
    pub epoch: Epoch,
    /// The master handed its slots over.
    pub planned: bool,
}

/// The promotion of a node by a step, if there is one: then it stands apart, since that is rare, and outputs are to be small.
#[derive(Debug, Drop)]
pub struct Promoted {
    promotion: Option<Box<Promotion>>,
}

impl Model for Promoted {
    ghost use Rattle.std.specs.Prelude.{Option};
    ghost use Rattle.node_step.specs.Few.{behind};
    ghost use Rattle.node_step.specs.declared.promotion.Promotion.{Promotion as Told};

    ghost Value = { Option Told };

    ghost view = { λ promoted. behind promoted.promotion };
}

impl Promoted {
    /// The node isn't promoted. It takes no memory.
    pub fn none() -> Promoted
        ensures { result ≡ None }
    {
        Promoted { promotion: None }
    }

    /// The node is promoted.
    pub fn new(alloc: Global, promotion: Promotion) -> Result<Promoted, AllocError>
        ensures { IfOk result (λ promoted. promoted ≡ Some promotion) }
    {
        let promotion = Some(Box::new(alloc, promotion)?);
        Ok(Promoted { promotion })
    }

    /// The promotion, if there is one.
    pub fn get(&self) -> Option<Promotion>
        ensures { result ≡ self.now }
    {
        match &self.promotion {
            Some(promotion) => Some(**promotion),
            None => None,
        }
    }

    // An equal copy, which takes no memory where there is no promotion.
    pub(crate) fn copy(&self) -> Result<Promoted, AllocError>
        ensures same { IfOk result (λ copy. copy ≡ self.now) }
        ensures plain { self.now ≡ None → IsOk result }
    {
        match &self.promotion {
            Some(promotion) => Ok(Promoted {
                promotion: Some(promotion.clone()?),
            }),
            None => Ok(Promoted::none()),
        }
    }
}
