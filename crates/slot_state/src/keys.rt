//! Keys that go from one node to another in one copy.
ghost use Rattle.std.specs.Prelude.{◌≡◌};

use byte_string::ByteString;
use std::marker::Model;

/// Keys of a slot whose copy is made at once, in its order.
#[derive(Debug)]
pub struct Keys {
    keys: Vec<ByteString>,
}

impl Model for Keys {
    ghost use Rattle.std.specs.Prelude.{List, ℕ};

    ghost Value = { List (List ℕ) };

    ghost view = { λ keys. keys.keys.items };
}

impl Drop for Keys {
    fn drop(self) {
        let Keys { keys: _ } = self;
    }
}

impl Keys {
    /// These keys.
    pub fn new(keys: Vec<ByteString>) -> Keys
        ensures { result ≡ keys.items }
    {
        Keys { keys }
    }

    /// The keys in order.
    pub fn as_slice(&self) -> &[ByteString]
        ensures { result.now ≡ self.now }
    {
        self.keys.as_slice()
    }
}
