//! The configuration that a text is.
ghost use Rattle.std.specs.Prelude.{◌≡◌, ◌⊎◌, None, Some, Ok, Err, IfOk, IfErr};
ghost use Rattle.serde_json.specs.View.{view};
ghost use Rattle.config_text.specs.Reading.{read, value_of};
ghost use Rattle.config_text.specs.declared.fault.ConfigFault.TheVariants.{Memory, Syntax};

use crate::building::config_of;
use crate::checks::check;
use crate::fault::ConfigFault;
use crate::form::{Draft, FromJson};
use cluster_config::Config;
use serde_json::Value;
use std::alloc::Global;

/// The cluster that a JSON text describes, or the first thing that is wrong with it: the first kind in the order of
/// [`ConfigFault`], wherever it stands in the text. `Memory` is reported where an allocation failed.
///
/// The text is one object with four members, in any order: the times `tick_ms` and `node_timeout`, an array `nodes` and an
/// array `voters` of ids. It may have a fifth, `backlog`, which is 1,048,576 if it is missing. A node is an object with an `id`, a `host`, a `port`, and either `slots`, an array of pairs of the
/// first slot and the last one, or `replica_of`, the id of its master. Of members with one name the last counts.
pub fn read_config(alloc: Global, text: &[u8]) -> Result<Config, ConfigFault>
    ensures config { IfOk result (λ config. read text.now ≡ Ok config) }
    ensures fault { IfErr result (λ fault. (fault ≡ Memory) ⊎ (read text.now ≡ Err fault)) }
{
    let value = value_of(alloc, text)?;
    let draft = Draft::from_json(alloc, &value)?;
    check(alloc, &draft)?;
    Ok(config_of(alloc, &draft)?)
}

fn value_of(alloc: Global, text: &[u8]) -> Result<Value, ConfigFault>
    ensures value { IfOk result (λ value. value_of text.now ≡ Some (view value)) }
    ensures fault { IfErr result (λ fault. (fault ≡ Memory) ⊎ ((fault ≡ Syntax) × (value_of text.now ≡ None))) }
{
    match Value::from_slice(alloc, text) {
        Ok(value) => Ok(value),
        Err(error) if error.is_memory() => Err(ConfigFault::Memory),
        Err(_) => Err(ConfigFault::Syntax),
    }
}
