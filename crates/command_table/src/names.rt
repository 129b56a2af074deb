//! The names of the commands.
ghost use Rattle.std.specs.Prelude.{◌≡◌};
ghost use Rattle.command_table.specs.Names.{name_of, name_text, subcommand_of, subcommand_text};

use crate::commands;

/// The name of a command.
#[derive(Clone, Copy, PartialEq, Eq, Debug)]
pub enum Name {
    /// GET key
    Get,
    /// SET key value [NX | XX]
    Set,
    /// PING [message]
    Ping,
    /// ECHO message
    Echo,
    /// HGET key field
    Hget,
    /// HSET key field value [field value ...]
    Hset,
    /// MGET key [key ...]
    Mget,
    /// MSET key value [key value ...]
    Mset,
    /// SETNX key value
    Setnx,
    /// GETSET key value
    Getset,
    /// GETDEL key
    Getdel,
    /// APPEND key value
    Append,
    /// INCR key
    Incr,
    /// DECR key
    Decr,
    /// INCRBY key increment
    Incrby,
    /// STRLEN key
    Strlen,
    /// DEL key [key ...]
    Del,
    /// EXISTS key [key ...]
    Exists,
    /// TYPE key
    TypeOf,
    /// HSETNX key field value
    Hsetnx,
    /// HMGET key field [field ...]
    Hmget,
    /// HDEL key field [field ...]
    Hdel,
    /// HEXISTS key field
    Hexists,
    /// HLEN key
    Hlen,
    /// HSTRLEN key field
    Hstrlen,
    /// HKEYS key
    Hkeys,
    /// HVALS key
    Hvals,
    /// HGETALL key
    Hgetall,
    /// HINCRBY key field increment
    Hincrby,
    /// CLUSTER subcommand [argument ...]
    Cluster,
    /// ASKING [move-number]
    Asking,
    /// MIGRATE host port key destination-db timeout
    Migrate,
}

macro_rules! all_names {
    (
        ()
        data { $($data:ident $data_text:literal $kind:ident $words:tt;)* }
        cluster { $($other:ident $other_text:literal;)* }
    ) => {
        [$(Name::$data,)* $(Name::$other,)*]
    };
}

const NAMES: [Name; 32] = commands!(all_names());

macro_rules! text_of {
    (
        ($name:expr)
        data { $($data:ident $data_text:literal $kind:ident $words:tt;)* }
        cluster { $($other:ident $other_text:literal;)* }
    ) => {
        match $name {
            $(Name::$data => $data_text.as_bytes(),)*
            $(Name::$other => $other_text.as_bytes(),)*
        }
    };
}

impl Name {
    /// The name that the word spells in letters of any ASCII case, or None.
    pub fn of(word: &[u8]) -> Option<Name>
        ensures { result ≡ name_of word.now }
    {
        NAMES
            .iter()
            .copied()
            .find(|name| word.eq_ignore_ascii_case(name.text()))
    }

    /// The name in lower case, as it stands in errors.
    pub fn text(self) -> &'static [u8]
        ensures { result.now ≡ name_text self }
    {
        commands!(text_of(self))
    }
}

/// The name of a subcommand of CLUSTER.
#[derive(Clone, Copy, PartialEq, Eq, Debug)]
pub enum Subcommand {
    /// CLUSTER KEYSLOT key
    KeySlot,
    /// CLUSTER MYID
    MyId,
    /// CLUSTER SLOTS
    Slots,
    /// CLUSTER COUNTKEYSINSLOT slot
    CountKeysInSlot,
    /// CLUSTER GETKEYSINSLOT slot count
    GetKeysInSlot,
    /// CLUSTER SLOTSTATE slot
    SlotState,
    /// CLUSTER SETSLOT slot IMPORTING | MIGRATING | NODE node-id [move-number]
    SetSlot,
    /// CLUSTER NUMBERED
    Numbered,
    /// CLUSTER FAILOVER
    Failover,
}

const SUBCOMMANDS: [Subcommand; 9] = [
    Subcommand::KeySlot,
    Subcommand::MyId,
    Subcommand::Slots,
    Subcommand::CountKeysInSlot,
    Subcommand::GetKeysInSlot,
    Subcommand::SlotState,
    Subcommand::SetSlot,
    Subcommand::Numbered,
    Subcommand::Failover,
];

impl Subcommand {
    /// The subcommand that the word spells in letters of any ASCII case, or None.
    pub fn of(word: &[u8]) -> Option<Subcommand>
        ensures { result ≡ subcommand_of word.now }
    {
        SUBCOMMANDS
            .iter()
            .copied()
            .find(|subcommand| word.eq_ignore_ascii_case(subcommand.text()))
    }

    fn text(self) -> &'static [u8]
        ensures { result.now ≡ subcommand_text self }
    {
        match self {
            Subcommand::KeySlot => b"keyslot",
            Subcommand::MyId => b"myid",
            Subcommand::Slots => b"slots",
            Subcommand::CountKeysInSlot => b"countkeysinslot",
            Subcommand::GetKeysInSlot => b"getkeysinslot",
            Subcommand::SlotState => b"slotstate",
            Subcommand::SetSlot => b"setslot",
            Subcommand::Numbered => b"numbered",
            Subcommand::Failover => b"failover",
        }
    }
}
