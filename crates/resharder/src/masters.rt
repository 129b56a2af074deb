//! The masters that CLUSTER SLOTS lists.
ghost use Rattle.std.specs.Prelude.{◌≡◌, [], ◌<◌, IfOk, IfSome, IfNone, OnOk, OnErr, length, option_map, None, ◌==◌, ◌&&◌, if◌then◌else◌};
ghost use Rattle.resharder.specs.Replies.{master_in, masters_in, masters_onto, place_at, with_master};

use byte_string::ByteString;
use cluster_config::Host;
use redirection::Address;
use resp_values::{Element, Reply};
use std::alloc::{AllocError, Global};
use std::collections::BTreeMap;

/// How many elements an entry of CLUSTER SLOTS has: two headers, two slots, and a host, a port and an id.
pub const ENTRY_LEN: usize = 7;

/// Where the masters are, by their ids, or None where the reply is no list of them.
pub(crate) fn read_masters(
    alloc: Global,
    reply: &Reply,
) -> Result<Option<BTreeMap<ByteString, Address>>, AllocError>
    ensures { IfOk result (λ found. option_map (λ masters. masters.entries) found ≡ masters_in reply.now) }
{
    let Reply::Array(array) = reply else {
        return Ok(None);
    };
    match array.as_slice() {
        [Element::Array(_), elements @ ..] => read_entries(alloc, elements),
        _ => Ok(None),
    }
}

fn read_entries(
    alloc: Global,
    elements: &[Element],
) -> Result<Option<BTreeMap<ByteString, Address>>, AllocError>
    ensures { IfOk result (λ found. option_map (λ masters. masters.entries) found ≡ masters_onto [] elements.now) }
{
    let mut masters = BTreeMap::new(alloc);
    let mut rest = elements;
    'entries: while !rest.is_empty() {
        let Some(others) = read_entry(alloc, rest, &mut masters)? else {
            return Ok(None);
        };
        rest = others;
    }
    Ok(Some(masters))
}

// Puts the master of the first entry among the others, and gives what stands behind the entry; or None where that is no entry.
#[tactic(auto, using(crate::proofs::EntryLemmas::too_few, crate::proofs::EntryLemmas::one_entry))]
fn read_entry<'e>(
    alloc: Global,
    elements: &'e [Element],
    masters: &mut BTreeMap<ByteString, Address>,
) -> Result<Option<&'e [Element]>, AllocError>
    requires { 0 < length elements.now }
    ensures read { IfOk result (λ left. IfSome left (λ others.
        masters_onto masters.old.entries elements.now ≡ masters_onto masters.new.entries others.now)) }
    ensures shorter { IfOk result (λ left. IfSome left (λ others. length others.now < length elements.now)) }
    ensures none { IfOk result (λ left. IfNone left (masters_onto masters.old.entries elements.now ≡ None)) }
{
    if elements.len() < ENTRY_LEN {
        return Ok(None);
    }
    let (entry, others) = elements.split_at(ENTRY_LEN);
    let Some((id, address)) = master_in(alloc, entry)? else {
        return Ok(None);
    };
    put(masters, id, address)?;
    Ok(Some(others))
}

// The master of the entry that the elements are.
fn master_in(alloc: Global, entry: &[Element]) -> Result<Option<(ByteString, Address)>, AllocError>
    ensures { IfOk result (λ master. master ≡ master_in entry.now) }
{
    match entry {
        [
            Element::Array(len),
            Element::Integer(_),
            Element::Integer(_),
            Element::Array(parts),
            Element::Bulk(host),
            Element::Integer(port),
            Element::Bulk(id),
        ] => {
            let Some(address) = read_master(alloc, *len, *parts, host, *port)? else {
                return Ok(None);
            };
            Ok(Some((id.clone()?, address)))
        }
        _ => Ok(None),
    }
}

// The address of a master, where the entry and the master have three parts each.
fn read_master(
    alloc: Global,
    len: usize,
    parts: usize,
    host: &ByteString,
    port: i64,
) -> Result<Option<Address>, AllocError>
    ensures { IfOk result (λ found. found ≡ (if len == 3 && parts == 3 then place_at host.now port else None)) }
{
    if len != 3 || parts != 3 {
        return Ok(None);
    }
    address_at(alloc, host, port)
}

/// The address of this host and port, or None where they are none.
pub fn address_at(
    alloc: Global,
    host: &ByteString,
    port: i64,
) -> Result<Option<Address>, AllocError>
    ensures { IfOk result (λ found. found ≡ place_at host.now port) }
{
    let Ok(port) = u16::try_from(port) else {
        return Ok(None);
    };
    let Some(host) = Host::new(host.clone()?) else {
        return Ok(None);
    };
    Ok(Address::new(host, port))
}

fn put(
    masters: &mut BTreeMap<ByteString, Address>,
    id: ByteString,
    address: Address,
) -> Result<(), AllocError>
    ensures { OnOk result (masters.new.entries ≡ with_master masters.old.entries id address) }
{
    let _old = masters.insert(id, address)?;
    Ok(())
}
