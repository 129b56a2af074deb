//! The texts of a node: its id, and where clients reach it.
ghost use Rattle.std.specs.Prelude.{◌≡◌, IsTrue, SomeIff};
ghost use Rattle.cluster_config.specs.Texts.{is_id, is_id_digit, is_host, is_host_character};

use byte_string::ByteString;
use std::marker::Model;

/// The id of a node: 40 hexadecimal digits, `0` to `9` and `a` to `f`.
#[derive(Clone, Debug)]
pub struct NodeId {
    text: ByteString,
}

impl Drop for NodeId {
    fn drop(self) {
        let NodeId { text: _ } = self;
    }
}

impl Model for NodeId {
    ghost use Rattle.std.specs.Prelude.{List, ℕ, IsTrue};
    ghost use Rattle.cluster_config.specs.Texts.{is_id};

    ghost Value = { List ℕ };

    ghost view = { λ id. id.text };

    ghost invariant = { λ id. IsTrue (is_id id.text) };
}

impl NodeId {
    /// How many digits an id has.
    pub const LEN: usize = 40;

    /// The id that is written so, or `None` where the text is no id.
    pub fn new(text: ByteString) -> Option<NodeId>
        ensures { SomeIff result (IsTrue (is_id text)) text }
    {
        if !is_id(text.as_slice()) {
            return None;
        }
        Some(NodeId { text })
    }

    /// The digits, to be shared.
    pub fn bytes(&self) -> &ByteString
        ensures text { result.now ≡ self.now }
        ensures id { IsTrue (is_id self.now) }
    {
        &self.text
    }
}

/// Where clients reach a node: 1 to 255 printing ASCII characters, none of them `:`.
#[derive(Clone, Debug)]
pub struct Host {
    text: ByteString,
}

impl Drop for Host {
    fn drop(self) {
        let Host { text: _ } = self;
    }
}

impl Model for Host {
    ghost use Rattle.std.specs.Prelude.{List, ℕ, IsTrue};
    ghost use Rattle.cluster_config.specs.Texts.{is_host};

    ghost Value = { List ℕ };

    ghost view = { λ host. host.text };

    ghost invariant = { λ host. IsTrue (is_host host.text) };
}

impl Host {
    /// The most characters that a host has.
    pub const MOST_LEN: usize = 255;

    /// The host that is written so, or `None` where the text is no host.
    pub fn new(text: ByteString) -> Option<Host>
        ensures { SomeIff result (IsTrue (is_host text)) text }
    {
        if !is_host(text.as_slice()) {
            return None;
        }
        Some(Host { text })
    }

    /// The characters.
    pub fn as_slice(&self) -> &[u8]
        ensures text { result.now ≡ self.now }
        ensures host { IsTrue (is_host self.now) }
    {
        self.text.as_slice()
    }

    /// The characters, to be shared.
    pub fn bytes(&self) -> &ByteString
        ensures text { result.now ≡ self.now }
        ensures host { IsTrue (is_host self.now) }
    {
        &self.text
    }
}

/// Whether the text is the id of a node.
pub fn is_id(text: &[u8]) -> bool
    ensures { result ≡ is_id text.now }
{
    text.len() == NodeId::LEN && text.iter().all(|byte| is_id_digit(*byte))
}

fn is_id_digit(byte: u8) -> bool
    ensures { result ≡ is_id_digit byte }
{
    matches!(byte, b'0'..=b'9' | b'a'..=b'f')
}

/// Whether the text is a host.
fn is_host(text: &[u8]) -> bool
    ensures { result ≡ is_host text.now }
{
    (1..=Host::MOST_LEN).contains(&text.len()) && text.iter().all(|byte| is_host_character(*byte))
}

fn is_host_character(byte: u8) -> bool
    ensures { result ≡ is_host_character byte }
{
    byte.is_ascii_graphic() && byte != b':'
}
