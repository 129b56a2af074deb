//! The texts of the errors that a node sends.
ghost use Rattle.std.specs.Prelude.{◌≡◌};
ghost use Rattle.command_table.specs.ErrorLine.{error_text};

use crate::commands;
use crate::names::Name;
use resp_values::{Line, Reply};

/// An error reply.
#[derive(Clone, Copy, PartialEq, Eq, Debug)]
pub enum ErrorLine {
    /// The bytes are not a request. The node closes the connection.
    Protocol,
    /// An allocation failed, and nothing changed. The node closes the connection.
    OutOfMemory,
    /// A counter is at its last number, and nothing changed. The node closes the connection.
    Exhausted,
    /// No command has the name.
    UnknownCommand,
    /// CLUSTER has no subcommand of the name.
    UnknownSubcommand,
    /// The command does not take this number of arguments.
    WrongArity(Name),
    /// An argument is not an option of the command, or there are too many options.
    Syntax,
    /// The keys of the command are in more than one slot.
    CrossSlot,
    /// No node owns the slot of the keys.
    SlotDown,
    /// The value would be longer than a word of a request, and nothing changed.
    TooLong,
    /// The string or the argument is not the text of a number in 64 bits, and nothing changed.
    NotAnInteger,
    /// The value of the field is not the text of a number in 64 bits, and nothing changed.
    HashNotAnInteger,
    /// The new number does not fit in 64 bits, and nothing changed.
    Overflow,
    /// A key has a value of another type than the command is for, and nothing changed.
    WrongType,
    /// The word is not the number of a slot.
    InvalidSlot,
    /// Of several keys in a slot that moves, some are at this node and some are not.
    SomeKeysMissing,
    /// The key is on its way to another node, and stays as it is until it has arrived.
    KeyFrozen,
    /// The node hands its slots over to a replica.
    HandingOver,
    /// The table of this node names another owner of the slot so far.
    TableNotUpdated,
    /// The node took part in a move of the slot with this number or a greater one.
    OldMove,
    /// Another move of the slot is under way at this node.
    SlotBusy,
    /// The node that the slot is to leave does not own it.
    NotOwner,
    /// The node that the slot is to come to owns it.
    AlreadyOwner,
    /// Keys of the slot may be left at the node that it comes from.
    NotDrained,
    /// No other node of the cluster has the id.
    UnknownNode,
    /// Another key of the slot is on its way to the other node.
    CopyOutstanding,
    /// The slot does not move to the node at that address.
    WrongTarget,
    /// Whether the key has arrived is not known.
    NotAcknowledged,
    /// The node has no master whose place it could take.
    NotReplica,
    /// The node hands its slots over, and takes part in no move.
    NodePaused,
}

impl ErrorLine {
    /// The text, without the `-` before it and the end of the line after it.
    pub fn text(self) -> &'static [u8]
        ensures { result.now ≡ error_text self }
    {
        match self {
            ErrorLine::Protocol => b"ERR Protocol error",
            ErrorLine::OutOfMemory => b"OOM out of memory",
            ErrorLine::Exhausted => b"EXHAUSTED no next number",
            ErrorLine::UnknownCommand => b"ERR unknown command",
            ErrorLine::WrongArity(name) => wrong_arity(name),
            ErrorLine::UnknownSubcommand => b"ERR unknown subcommand",
            ErrorLine::Syntax => b"ERR syntax error",
            ErrorLine::CrossSlot => b"CROSSSLOT Keys in request don't hash to the same slot",
            ErrorLine::SlotDown => b"CLUSTERDOWN Hash slot not served",
            ErrorLine::TooLong => b"ERR value exceeds maximum allowed size",
            ErrorLine::NotAnInteger => b"ERR value is not an integer or out of range",
            ErrorLine::HashNotAnInteger => b"ERR hash value is not an integer",
            ErrorLine::Overflow => b"ERR increment or decrement would overflow",
            ErrorLine::WrongType => {
                b"WRONGTYPE Operation against a key holding the wrong kind of value"
            }
            ErrorLine::InvalidSlot => b"ERR Invalid slot",
            ErrorLine::SomeKeysMissing => {
                b"TRYAGAIN Multiple keys request during rehashing of slot"
            }
            ErrorLine::KeyFrozen => b"TRYAGAIN Key is being moved",
            ErrorLine::HandingOver => b"TRYAGAIN Node is handing over",
            ErrorLine::TableNotUpdated => b"TRYAGAIN Slot table not yet updated",
            ErrorLine::OldMove => b"ERR move number is not above the last one",
            ErrorLine::SlotBusy => b"ERR slot is already being moved",
            ErrorLine::NotOwner => b"ERR slot is not owned by the source",
            ErrorLine::AlreadyOwner => b"ERR slot is already owned by this node",
            ErrorLine::NotDrained => b"ERR slot is not drained",
            ErrorLine::UnknownNode => b"ERR unknown node",
            ErrorLine::CopyOutstanding => b"TRYAGAIN Another copy is outstanding",
            ErrorLine::WrongTarget => b"ERR slot is not migrating to that address",
            ErrorLine::NotAcknowledged => b"IOERR copy not acknowledged",
            ErrorLine::NotReplica => b"ERR node is not a replica",
            ErrorLine::NodePaused => b"ERR node is handing over",
        }
    }

    /// The reply with this text.
    #[inline(never)]
    pub fn reply(self) -> Reply
        ensures { result ≡ Reply.Error (error_text self) }
    {
        Reply::Error(Line::from_static(self.text()))
    }
}

// The text is static, since the reply must not allocate.
macro_rules! wrong_arity {
    (
        ($name:expr)
        data { $($data:ident $data_text:literal $kind:ident $words:tt;)* }
        cluster { $($other:ident $other_text:literal;)* }
    ) => {
        match $name {
            $(Name::$data => wrong_arity!($data_text),)*
            $(Name::$other => wrong_arity!($other_text),)*
        }
    };
    ($text:literal) => {
        concat!("ERR wrong number of arguments for '", $text, "' command").as_bytes()
    };
}

fn wrong_arity(name: Name) -> &'static [u8]
    ensures { result.now ≡ error_text (ErrorLine.WrongArity name) }
{
    commands!(wrong_arity(name))
}
