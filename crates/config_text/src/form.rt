//! The form of the JSON text: which members its objects have, of which kind their values are, and what it says of the cluster.
ghost use Rattle.std.specs.Prelude.{◌≡◌, Option};
ghost use Rattle.serde_json.specs.Data.{Data};
ghost use Rattle.serde_json.specs.View.{view};
ghost use Rattle.serde_json.specs.Find.{as_str};
ghost use Rattle.config_text.specs.Form.{IsReadAs, backlog_in, draft_in, form_at, has_all_members, has_backlog, has_members, host_in, integer_in, items_in, node_in, pair_in, role_in};

use crate::fault::{ConfigFault, hold};
use byte_string::ByteString;
use cluster_config::Host;
use serde_json::{Index, Number, Value};
use std::alloc::Global;
use std::marker::Model;

// How many bytes of its stream a node keeps, where the text doesn't say it.
const DEFAULT_BACKLOG: i128 = 1_048_576;

/// Things in the order of the text.
#[derive(Drop)]
pub(crate) struct List<T> {
    pub(crate) items: Vec<T>,
}

impl<T> Model for List<T> {
    ghost use Rattle.std.specs.Prelude.{List};

    ghost Value = { List T };

    ghost view = { λ list. list.items.items };
}

/// What a text says of a cluster, not yet checked.
#[derive(Drop)]
pub(crate) struct Draft {
    pub(crate) tick_ms: i128,
    pub(crate) node_timeout: i128,
    pub(crate) backlog: i128,
    pub(crate) nodes: List<NodeDraft>,
    pub(crate) voters: List<ByteString>,
}

/// What it says of a node.
#[derive(Drop)]
pub(crate) struct NodeDraft {
    pub(crate) id: ByteString,
    pub(crate) host: Host,
    pub(crate) port: i128,
    pub(crate) role: RoleDraft,
}

/// What a node is: a master with the first and the last of each range of its slots, or a replica of the master with that id.
#[derive(Drop)]
pub(crate) enum RoleDraft {
    Slots(List<(i128, i128)>),
    ReplicaOf(ByteString),
}

/// What is read of a JSON value, or `Syntax` where the value is of another form.
pub(crate) trait FromJson: Drop {
    ghost form: { Data → Option Self };

    fn from_json(alloc: Global, value: &Value) -> Result<Self, ConfigFault>
        ensures { IsReadAs (form (view value.now)) result };
}

impl FromJson for i128 {
    ghost form = { integer_in };

    fn from_json(_alloc: Global, value: &Value) -> Result<i128, ConfigFault> {
        let number = value.as_number().ok_or(ConfigFault::Syntax)?;
        number.as_i128().ok_or(ConfigFault::Syntax)
    }
}

impl FromJson for ByteString {
    ghost form = { as_str };

    fn from_json(alloc: Global, value: &Value) -> Result<ByteString, ConfigFault> {
        let text = value.as_str().ok_or(ConfigFault::Syntax)?;
        Ok(ByteString::copy_from_slice(alloc, text.as_bytes())?)
    }
}

impl FromJson for Host {
    ghost form = { host_in };

    fn from_json(alloc: Global, value: &Value) -> Result<Host, ConfigFault> {
        Host::new(ByteString::from_json(alloc, value)?).ok_or(ConfigFault::Syntax)
    }
}

impl FromJson for (i128, i128) {
    ghost form = { pair_in };

    fn from_json(alloc: Global, value: &Value) -> Result<(i128, i128), ConfigFault> {
        hold(value.get(2usize).is_none(), ConfigFault::Syntax)?;
        Ok((at(alloc, value, 0usize)?, at(alloc, value, 1usize)?))
    }
}

impl<T: FromJson> FromJson for List<T> {
    ghost form = { items_in T.form };

    fn from_json(alloc: Global, value: &Value) -> Result<List<T>, ConfigFault> {
        let mut items = Vec::new(alloc);
        for value in value.as_array().ok_or(ConfigFault::Syntax)? {
            let item = T::from_json(alloc, value)?;
            items.push(item).map_err(|_| ConfigFault::Memory)?;
        }
        Ok(List { items })
    }
}

impl FromJson for RoleDraft {
    ghost form = { role_in };

    fn from_json(alloc: Global, node: &Value) -> Result<RoleDraft, ConfigFault> {
        if node.get("slots").is_some() {
            Ok(RoleDraft::Slots(at(alloc, node, "slots")?))
        } else {
            Ok(RoleDraft::ReplicaOf(at(alloc, node, "replica_of")?))
        }
    }
}

impl FromJson for NodeDraft {
    ghost form = { node_in };

    #[tactic(auto, unfolding(crate::specs::Form::node_in))]
    fn from_json(alloc: Global, node: &Value) -> Result<NodeDraft, ConfigFault> {
        hold(has_members(node, 4), ConfigFault::Syntax)?;
        Ok(NodeDraft {
            id: at(alloc, node, "id")?,
            host: at(alloc, node, "host")?,
            port: at(alloc, node, "port")?,
            role: RoleDraft::from_json(alloc, node)?,
        })
    }
}

impl FromJson for Draft {
    ghost form = { draft_in };

    #[tactic(auto, unfolding(crate::specs::Form::draft_in))]
    fn from_json(alloc: Global, value: &Value) -> Result<Draft, ConfigFault> {
        hold(has_all_members(value), ConfigFault::Syntax)?;
        Ok(Draft {
            tick_ms: at(alloc, value, "tick_ms")?,
            node_timeout: at(alloc, value, "node_timeout")?,
            nodes: at(alloc, value, "nodes")?,
            voters: at(alloc, value, "voters")?,
            backlog: backlog_in(alloc, value)?,
        })
    }
}

// What is read of the member of that name, or of the item at that place.
fn at<T: FromJson, I: Index + Drop>(alloc: Global, value: &Value, of: I) -> Result<T, ConfigFault>
    ensures { IsReadAs (form_at T.form (I.finds of (view value.now))) result }
{
    T::from_json(alloc, value.get(of).ok_or(ConfigFault::Syntax)?)
}

fn has_all_members(value: &Value) -> bool
    ensures { result ≡ has_all_members (view value.now) }
{
    if has_backlog(value) {
        has_members(value, 5)
    } else {
        has_members(value, 4)
    }
}

fn has_backlog(value: &Value) -> bool
    ensures { result ≡ has_backlog (view value.now) }
{
    value.get("backlog").is_some()
}

// The backlog, which the text may leave out.
fn backlog_in(alloc: Global, value: &Value) -> Result<i128, ConfigFault>
    ensures { IsReadAs (backlog_in (view value.now)) result }
{
    if has_backlog(value) {
        at(alloc, value, "backlog")
    } else {
        Ok(DEFAULT_BACKLOG)
    }
}

#[tactic(auto, using(crate::proofs::FormLemmas::count_of_view))]
fn has_members(value: &Value, count: usize) -> bool
    ensures { result ≡ has_members count (view value.now) }
{
    value
        .as_object()
        .is_some_and(|members| members.len() == count)
}
