//! Where clients reach a node.
ghost use Rattle.std.specs.Prelude.{◌≡◌, ◌≤◌, nat_eq, IsTrue, SomeIff, IfSome, IfNone, IfOk};
ghost use Rattle.cluster_config.specs.Texts.{is_host};
ghost use Rattle.redirection.specs.Address.{IsAddress, IsNoAddress, address_text};
ghost use Rattle.std.specs.Cmp.{and_equiv, nat_eq_equiv, on_equiv, partial_equiv_from_equiv};
ghost use Rattle.std.specs.Cmp.Lexicographic.{nat_list_eq_equiv, pointwise};
ghost use Rattle.std.specs.Ordering.{eq_of_both, on};
ghost use Rattle.redirection.specs.Splitting.{IsHostAndPort, IsNoHostAndPort, IsNumber, IsNoNumber};

use crate::splitting::{short_in, split_at};
use byte_string::ByteString;
use cluster_config::Host;
use std::alloc::{AllocError, Global};
use std::marker::Model;

/// Where clients reach a node: a host, and a port from 1 on.
#[derive(Debug)]
pub struct Address {
    host: Host,
    port: u16,
}

impl Model for Address {
    ghost use Rattle.std.specs.Prelude.{◌≤◌};
    ghost use Rattle.redirection.specs.Address.{Place};

    ghost Value = { Place };

    ghost view = { λ address. record { host = address.host; port = address.port } };

    ghost invariant = { λ address. 1 ≤ address.port };
}

impl Drop for Address {
    fn drop(self) {
        let Address { host: _, port: _ } = self;
    }
}

impl Address {
    /// The address, or None where the port is 0.
    pub fn new(host: Host, port: u16) -> Option<Address>
        ensures { SomeIff result (1 ≤ port) (record { host = host; port = port }) }
    {
        if port == 0 {
            return None;
        }
        Some(Address { host, port })
    }

    /// The address that the text `host:port` is, or None where it is none.
    pub fn read(alloc: Global, text: &[u8]) -> Result<Option<Address>, AllocError>
        ensures found { IfOk result (λ found. IfSome found (λ address. text.now ≡ address_text address)) }
        ensures valid { IfOk result (λ found. IfSome found (λ address. IsAddress address)) }
        ensures none { IfOk result (λ found. IfNone found (IsNoAddress text.now)) }
    {
        match host_and_port(text) {
            Some((host, port)) => copied(alloc, host, port),
            None => Ok(None),
        }
    }

    /// The host.
    pub fn host(&self) -> &Host
        ensures host { result.now ≡ self.now.host }
        ensures valid { IsTrue (is_host self.now.host) }
    {
        // The clause of this call says that the host is one.
        let _ = self.host.as_slice();
        &self.host
    }

    /// The port.
    pub fn port(&self) -> u16
        ensures port { result ≡ self.now.port }
        ensures valid { (1 ≤ self.now.port) × (self.now.port ≤ 65535) }
    {
        self.port
    }
}

// The bytes before the first colon, and the port behind it.
fn host_and_port(text: &[u8]) -> Option<(&[u8], u16)>
    ensures found { IfSome result (λ parts. IsHostAndPort text.now parts.0.now parts.1) }
    ensures none { IfNone result (IsNoHostAndPort text.now) }
{
    let (host, port) = split_at(text, b':')?;
    Some((host, port_in(port)?))
}

fn port_in(text: &[u8]) -> Option<u16>
    ensures found { IfSome result (λ port. IsNumber 1 65535 text.now port) }
    ensures none { IfNone result (IsNoNumber 1 65535 text.now) }
{
    let port = short_in(text)?;
    if port == 0 {
        return None;
    }
    Some(port)
}

// The address with a copy of the host.
fn copied(alloc: Global, host: &[u8], port: u16) -> Result<Option<Address>, AllocError>
    requires { 1 ≤ port }
    ensures valid { IfOk result (λ found. IfSome found (λ address. IsAddress address)) }
    ensures found { IfOk result (λ found. IfSome found (λ address. address ≡ record { host = host.now; port = port })) }
    ensures none { IfOk result (λ found. IfNone found (¬ IsTrue (is_host host.now))) }
{
    match Host::new(ByteString::copy_from_slice(alloc, host)?) {
        Some(host) => Ok(Some(Address { host, port })),
        None => Ok(None),
    }
}

impl Clone for Address {
    ghost is_clone = { λ address copy. copy ≡ address };

    fn clone(&self) -> Result<Address, AllocError> {
        Ok(Address {
            host: self.host.clone()?,
            port: self.port,
        })
    }
}

impl PartialEq for Address {
    ghost eq = { eq_of_both (on (λ address. address.host) (pointwise nat_eq)) (on (λ address. address.port) nat_eq) };

    ghost laws = { partial_equiv_from_equiv (and_equiv (on_equiv (λ address. address.host) nat_list_eq_equiv) (on_equiv (λ address. address.port) nat_eq_equiv)) };

    fn eq(&self, other: &Address) -> bool {
        self.host.as_slice() == other.host.as_slice() && self.port == other.port
    }
}

impl Eq for Address {
    ghost laws = { and_equiv (on_equiv (λ address. address.host) nat_list_eq_equiv) (on_equiv (λ address. address.port) nat_eq_equiv) };
}
