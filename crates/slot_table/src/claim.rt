//! What a node claims.
ghost use Rattle.std.specs.Prelude.{◌≡◌, IfOk};
ghost use Rattle.slot_table.specs.Claims.{IsRising, in_epoch};

use crate::entry::Epoch;
use crate::runs::Run;
use std::alloc::{AllocError, Global};
use std::marker::Model;
use std::sync::Arc;

/// The slots that a node claims for itself, each in the epoch of its claim. It doesn't say which node that is.
///
/// A copy shares the runs, and takes no memory for them.
#[derive(Debug)]
pub struct Claim {
    runs: Arc<Vec<Run<Epoch>>>,
}

impl Model for Claim {
    ghost use Rattle.std.specs.Prelude.{List, ℕ};
    ghost use Rattle.slot_table.specs.declared.runs.Run.{Run};

    ghost Value = { List (Run ℕ) };

    ghost use Rattle.slot_table.specs.Claims.{IsRising};

    ghost view = { λ claim. claim.runs.value.items };

    ghost invariant = { λ claim. IsRising claim.runs.value.items };
}

impl Drop for Claim {
    fn drop(self) {
        let Claim { runs: _ } = self;
    }
}

impl Claim {
    // The claim to the slots of these runs.
    pub(crate) fn new(alloc: Global, runs: Vec<Run<Epoch>>) -> Result<Claim, AllocError>
        requires { IsRising runs.items }
        ensures { IfOk result (λ claim. claim ≡ runs.items) }
    {
        let runs = Arc::new(alloc, runs)?;
        Ok(Claim { runs })
    }

    /// The slots with their epochs: each run ends before the later ones begin.
    pub fn runs(&self) -> &[Run<Epoch>]
        ensures same { result.now ≡ self.now }
        ensures rising { IsRising self.now }
    {
        self.runs.as_slice()
    }

    /// The claim to the same slots, each of them in that epoch.
    pub fn in_epoch(&self, alloc: Global, epoch: Epoch) -> Result<Claim, AllocError>
        ensures { IfOk result (λ claim. claim ≡ in_epoch epoch self.now) }
    {
        let runs = runs_in_epoch(alloc, self.runs(), epoch)?;
        Claim::new(alloc, runs)
    }
}

// The runs, each of them with that epoch.
fn runs_in_epoch(
    alloc: Global,
    claim: &[Run<Epoch>],
    epoch: Epoch,
) -> Result<Vec<Run<Epoch>>, AllocError>
    ensures { IfOk result (λ runs. runs.items ≡ in_epoch epoch claim.now) }
{
    let mut runs = Vec::with_capacity(alloc, claim.len())?;
    for run in claim {
        runs.push(Run {
            slots: run.slots,
            value: epoch,
        })?;
    }
    Ok(runs)
}

impl Clone for Claim {
    ghost is_clone = { λ claim copy. copy ≡ claim };

    fn clone(&self) -> Result<Claim, AllocError> {
        Ok(Claim {
            runs: self.runs.clone()?,
        })
    }
}
