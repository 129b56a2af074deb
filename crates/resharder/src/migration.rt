//! The keys that one request moves.
ghost use Rattle.std.specs.Prelude.{◌≡◌, ◌≢◌, [], length};
ghost use Rattle.resp_values.specs.Request.{IsRequest};
ghost use Rattle.resharder.specs.Migration.{migration};
ghost use Rattle.resharder.specs.Orders.{migrate_words};

use crate::fitting::count_at_once;
use crate::key::{Key, Keys};
use redirection::Address;
use std::marker::Model;

/// Keys that one MIGRATE moves to a node: with them it keeps the limits of a request.
pub(crate) struct Migration {
    to: Address,
    keys: Keys,
}

impl Model for Migration {
    ghost use Rattle.resp_values.specs.Request.{IsRequest};
    ghost use Rattle.resharder.specs.Migration.{MigratedKeys};
    ghost use Rattle.resharder.specs.Orders.{migrate_words};

    ghost Value = { MigratedKeys };

    ghost view = { λ migration. record { to = migration.to; keys = migration.keys } };

    ghost invariant = { λ migration. IsRequest (migrate_words migration.to migration.keys) };
}

// It does what the derive would. Written out it is one call wherever keys are let go.
impl Drop for Migration {
    fn drop(self) {
        let Migration {
            to: _to,
            keys: _keys,
        } = self;
    }
}

impl Migration {
    /// As many of the keys, from the front, as one MIGRATE to the node can name.
    pub(crate) fn new(to: Address, keys: Keys) -> Migration
        ensures migration { result ≡ migration to keys }
        ensures some { keys ≢ [] → result.keys ≢ [] }
    {
        let mut keys = keys;
        let count = count_at_once(&to, keys.as_slice());
        keys.truncate(count);
        Migration { to, keys }
    }

    /// Where the node is reached.
    pub(crate) fn to(&self) -> &Address
        ensures to { result.now ≡ self.now.to }
        ensures request { IsRequest (migrate_words self.now.to self.now.keys) }
    {
        &self.to
    }

    /// The keys.
    pub(crate) fn keys(&self) -> &[Key]
        ensures { result.now ≡ self.now.keys }
    {
        self.keys.as_slice()
    }

    /// How many keys there are.
    pub(crate) fn len(&self) -> usize
        ensures { result ≡ length self.now.keys }
    {
        self.keys().len()
    }
}
