//! Whether a key is there once a plan is committed. It is told without making a change, and takes no memory.
ghost use Rattle.std.specs.Prelude.{◌≡◌};
ghost use Rattle.std.specs.Option.{option_copied};
ghost use Rattle.keyspace.specs.Changes.{applied};
ghost use Rattle.keyspace.specs.Keyspace.{keyspace_in};
ghost use Rattle.keyspace.specs.Leaving.{any_stays, has_keys, leaves_beside};
ghost use Rattle.keyspace.specs.Plan.{leaves_keys, with_step};

use crate::changes::{NewValues, is_gone};
use crate::plans::{LastStep, Plan};
use crate::store::TreeStore;
use byte_string::ByteString;

/// Whether a key is there once the plan is committed. It takes no memory.
#[tactic(auto, using(crate::proofs::Committed::committed_values, crate::proofs::Committed::committed_step))]
pub fn leaves_keys(store: &TreeStore, plan: &Plan) -> bool
    ensures { result ≡ leaves_keys (keyspace_in store.now) plan.now }
{
    match &plan.last {
        None => leaves_beside(store, &plan.values, None),
        Some(step) => step_leaves_keys(store, &plan.values, step),
    }
}

// Whether a key is there once all values are put and then the step is made.
#[tactic(auto, using(crate::proofs::KeysLeft::fields_there, crate::proofs::KeysLeft::fields_gone, crate::proofs::KeysLeft::pairs_put, crate::proofs::KeysLeft::no_pairs))]
fn step_leaves_keys(store: &TreeStore, values: &NewValues, step: &LastStep) -> bool
    ensures { result ≡ has_keys (with_step (applied (keyspace_in store.now) values.now) step.now) }
{
    match step {
        LastStep::Append(_, _) => true,
        LastStep::Fields(key, changes) => {
            changes.leave_value(values.look(store, key)) || leaves_beside(store, values, Some(key))
        }
        LastStep::Pairs(pairs) => !pairs.is_empty() || leaves_beside(store, values, None),
    }
}

// Whether a key other than the one that is gone is there once all values are put.
fn leaves_beside(store: &TreeStore, values: &NewValues, gone: Option<&ByteString>) -> bool
    ensures { result ≡ leaves_beside (option_copied gone.entry) (keyspace_in store.now) values.now }
{
    values.put_beside(gone) || any_stays(store, values, gone)
}

// Whether a key of the store stays as it is. The changes name each key before the first one that does.
fn any_stays(store: &TreeStore, values: &NewValues, gone: Option<&ByteString>) -> bool
    ensures { result ≡ any_stays values.now (option_copied gone.entry) store.now.entries }
{
    for key in store.keys() {
        if !is_gone(gone, key) && values.get(key).is_none() {
            return true;
        }
    }
    false
}
