//! Keys with their values, in a list that copies share.
ghost use Rattle.std.specs.Prelude.{◌≡◌, length, IfOk};

use crate::value::Value;
use byte_string::ByteString;
use std::alloc::{AllocError, Global};
use std::marker::Model;
use std::sync::Arc;

/// A key with its value.
#[derive(Debug)]
pub struct Pair {
    key: ByteString,
    value: Value,
}

impl Model for Pair {
    ghost use Rattle.std.specs.Prelude.{List, ℕ};
    ghost use Rattle.keyspace.specs.declared.value.Value.{Value as KeyValue};

    ghost Value = { List ℕ × KeyValue };

    ghost view = { λ pair. (pair.key, pair.value) };
}

impl Drop for Pair {
    fn drop(self) {
        let Pair { key: _, value: _ } = self;
    }
}

impl Pair {
    /// The key with the value.
    pub fn new(key: ByteString, value: Value) -> Pair
        ensures { result ≡ (key, value) }
    {
        Pair { key, value }
    }

    /// The key.
    pub fn key(&self) -> &ByteString
        ensures { result.now ≡ self.now.0 }
    {
        &self.key
    }

    /// The value.
    pub fn value(&self) -> &Value
        ensures { result.now ≡ self.now.1 }
    {
        &self.value
    }
}

/// Keys with their values. A copy shares the list, and takes no memory.
#[derive(Debug)]
pub struct Pairs {
    pairs: Arc<Vec<Pair>>,
}

impl Model for Pairs {
    ghost use Rattle.std.specs.Prelude.{List, ℕ};
    ghost use Rattle.keyspace.specs.declared.value.Value.{Value as KeyValue};

    ghost Value = { List (List ℕ × KeyValue) };

    ghost view = { λ pairs. pairs.pairs.value.items };
}

impl Drop for Pairs {
    fn drop(self) {
        let Pairs { pairs: _ } = self;
    }
}

impl Pairs {
    /// Puts the list in a block that copies share.
    pub fn new(alloc: Global, pairs: Vec<Pair>) -> Result<Pairs, AllocError>
        ensures { IfOk result (λ shared. shared ≡ pairs.items) }
    {
        let pairs = Arc::new(alloc, pairs)?;
        Ok(Pairs { pairs })
    }

    /// The pairs in order.
    pub fn as_slice(&self) -> &[Pair]
        ensures { result.now ≡ self.now }
    {
        self.pairs.as_slice()
    }

    /// How many there are.
    pub fn len(&self) -> usize
        ensures { result ≡ length self.now }
    {
        self.as_slice().len()
    }
}

impl Clone for Pairs {
    ghost is_clone = { λ pairs copy. copy ≡ pairs };

    fn clone(&self) -> Result<Pairs, AllocError> {
        Ok(Pairs {
            pairs: self.pairs.clone()?,
        })
    }
}
