//! The nodes that a run speaks to.
ghost use Rattle.std.specs.Prelude.{◌≡◌, ◌⊎◌, Err, Ok, IfOk, IfErr, IfSome, slice_get, option_copied, Some, length, ◌<◌, ◌^◌};
ghost use Rattle.std.specs.Map.{values_of};
ghost use Rattle.resharder.specs.Replies.{master_with, nodes_in, nodes_of, without};
ghost use Rattle.resharder.specs.declared.fault.ReshardFault.TheVariants.{Memory};

use crate::fault::ReshardFault;
use crate::masters::read_masters;
use byte_string::ByteString;
use cluster_config::NodeId;
use redirection::Address;
use resp_values::Reply;
use std::alloc::{AllocError, Global};
use std::collections::BTreeMap;
use std::marker::Model;

/// The nodes that a run speaks to.
pub(crate) struct Nodes {
    source: Address,
    destination: Address,
    others: Vec<Address>,
}

impl Model for Nodes {
    ghost use Rattle.resharder.specs.Nodes.{KnownNodes};

    ghost Value = { KnownNodes };

    ghost view = { λ nodes. record { source = nodes.source; destination = nodes.destination; others = nodes.others.items } };
}

// It does what the derive would. Written out it is one call wherever nodes are let go.
impl Drop for Nodes {
    fn drop(self) {
        let Nodes {
            source: _source,
            destination: _destination,
            others: _others,
        } = self;
    }
}

impl Nodes {
    /// The two masters of these ids, and the others, in the reply to CLUSTER SLOTS.
    pub(crate) fn read(
        alloc: Global,
        reply: &Reply,
        from: &NodeId,
        to: &NodeId,
    ) -> Result<Nodes, ReshardFault>
        ensures { (result ≡ nodes_in from.now to.now reply.now) ⊎ (result ≡ Err Memory) }
    {
        let Some(masters) = read_masters(alloc, reply)? else {
            return Err(ReshardFault::BadReply);
        };
        let from = word_of(alloc, from)?;
        let to = word_of(alloc, to)?;
        Nodes::among(alloc, masters, &from, &to)
    }

    fn among(
        alloc: Global,
        masters: BTreeMap<ByteString, Address>,
        from: &ByteString,
        to: &ByteString,
    ) -> Result<Nodes, ReshardFault>
        ensures { (result ≡ nodes_of from.now to.now (Some masters.entries)) ⊎ (result ≡ Err Memory) }
    {
        let mut masters = masters;
        let Some(source) = address_in(&masters, from)? else {
            return Err(ReshardFault::NotListed);
        };
        let Some(destination) = address_in(&masters, to)? else {
            return Err(ReshardFault::NotListed);
        };
        remove(&mut masters, from);
        remove(&mut masters, to);
        Ok(Nodes {
            source,
            destination,
            others: addresses(alloc, masters)?,
        })
    }

    /// The master that the slots leave.
    pub(crate) fn source(&self) -> &Address
        ensures { result.now ≡ self.now.source }
    {
        &self.source
    }

    /// The master that they come to.
    pub(crate) fn destination(&self) -> &Address
        ensures { result.now ≡ self.now.destination }
    {
        &self.destination
    }

    /// The other master at the place, by rising id.
    pub(crate) fn other(&self, place: usize) -> Option<&Address>
        ensures other { option_copied result ≡ slice_get self.now.others place }
        ensures below { IfSome result (λ other. place < 2 ^ 63) }
    {
        self.others.get(place)
    }
}

/// A word with the id.
pub(crate) fn word_of(alloc: Global, id: &NodeId) -> Result<ByteString, AllocError>
    ensures word { IfOk result (λ word. word ≡ id.now) }
    ensures short { length id.now ≡ 40 }
{
    ByteString::copy_from_slice(alloc, id.bytes().as_slice())
}

fn address_in(
    masters: &BTreeMap<ByteString, Address>,
    id: &ByteString,
) -> Result<Option<Address>, AllocError>
    ensures { IfOk result (λ found. found ≡ master_with masters.now.entries id.now) }
{
    match masters.get(id) {
        Some(address) => Ok(Some(address.clone()?)),
        None => Ok(None),
    }
}

fn remove(masters: &mut BTreeMap<ByteString, Address>, id: &ByteString)
    ensures { masters.new.entries ≡ without masters.old.entries id.now }
{
    let _old = masters.remove(id);
}

fn addresses(
    alloc: Global,
    masters: BTreeMap<ByteString, Address>,
) -> Result<Vec<Address>, AllocError>
    ensures { IfOk result (λ addresses. addresses.items ≡ values_of masters.entries) }
{
    masters.into_values().collect(alloc)
}
