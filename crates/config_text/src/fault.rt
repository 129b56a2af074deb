//! Why a text is no configuration.
ghost use Rattle.std.specs.Prelude.{◌≡◌, IfErr, OnOk, true, false};
ghost use Rattle.config_text.specs.declared.fault.ConfigFault.TheVariants.{Memory};

use std::alloc::AllocError;
use thiserror::Error;

/// The first thing that is wrong with a text that should be a configuration, in the order in which they stand here; or that
/// memory was refused.
#[derive(Clone, Copy, PartialEq, Eq, Debug, Error)]
pub enum ConfigFault {
    /// It is no JSON text in UTF-8, or a member is missing, strange or of the wrong kind, or a host is malformed.
    #[error("not a configuration")]
    Syntax,
    /// An id isn't 40 hexadecimal digits in lower case, or isn't above the id of the node before it.
    #[error("an id is malformed, or the ids don't rise")]
    Id,
    /// A range ends before it begins or has a slot that isn't from 0 to 16383, or two ranges have a slot in common.
    #[error("a range of slots is malformed, or a slot stands twice")]
    Slots,
    /// A replica is one of a node that isn't there or that is no master.
    #[error("a replica of no master")]
    ReplicaOf,
    /// No node votes, or a voter isn't there or stands twice.
    #[error("a voter is missing, unknown or repeated")]
    Voters,
    /// There are more than 16 nodes.
    #[error("too many nodes")]
    TooManyNodes,
    /// Two nodes have one host and port.
    #[error("an address stands twice")]
    Address,
    /// `tick_ms` or `node_timeout` isn't from 1 to 1,000,000, a port isn't from 1 to 65535, or `backlog` isn't from 1 to 16,777,216.
    #[error("a number is out of range")]
    Range,
    /// Memory was refused.
    #[error("out of memory")]
    Memory,
}

impl From<AllocError> for ConfigFault {
    ghost from_gives = { λ _ fault. fault ≡ Memory };

    fn from(_error: AllocError) -> ConfigFault {
        ConfigFault::Memory
    }
}

/// What has to hold, or else the fault.
pub(crate) fn hold(holds: bool, fault: ConfigFault) -> Result<(), ConfigFault>
    ensures ok { OnOk result (holds ≡ true) }
    ensures err { IfErr result (λ told. (told ≡ fault) × (holds ≡ false)) }
{
    if holds { Ok(()) } else { Err(fault) }
}
