//! Commands with their arguments, and the keys that they name. A command borrows its words from the request.
ghost use Rattle.std.specs.Prelude.{◌≡◌, ◌∷◌, [], IfOk, IfSome, map};
ghost use Rattle.std.specs.Option.{option_copied};
ghost use Rattle.command_table.specs.Keys.{data_keys, is_data_write, is_write, keys_of, named_key, named_keys, only_data_key, only_key, pair_keys};
ghost use Rattle.command_table.specs.ClusterTable.{order_of};
ghost use Rattle.command_table.specs.Pairs.{pairs_in};
ghost use Rattle.command_table.specs.Table.{condition_of};

use crate::commands;
use crate::words::{PairList, Word, WordList, split_pair};
use byte_string::ByteString;
use key_slot::{MoveNo, Slot};
use std::alloc::{AllocError, Global};

/// A command with its arguments.
#[derive(Drop)]
pub enum Command<'w> {
    /// It reads or writes keys.
    Data(DataCommand<'w>),
    /// It asks the node about the cluster, or moves slots and keys there.
    Cluster(ClusterCommand<'w>),
}

impl<'w> Command<'w> {
    /// Whether the command may change the keyspace (command flag `write`).
    pub fn is_write(&self) -> bool
        ensures { result ≡ is_write self.now }
    {
        match self {
            Command::Data(command) => command.is_write(),
            Command::Cluster(_) => false,
        }
    }

    /// The key of a command whose syntax has exactly one. It needs no list of keys.
    pub fn only_key(&self) -> Option<&'w ByteString>
        ensures key { option_copied result ≡ only_key self.now }
        ensures alone { IfSome result (λ key. keys_of self.now ≡ key.now ∷ []) }
    {
        match self {
            Command::Data(command) => command.only_key(),
            Command::Cluster(_) => None,
        }
    }
}

/// A command that a node executes on its keys.
#[derive(Drop)]
pub enum DataCommand<'w> {
    /// Replies `PONG`.
    Ping,
    /// Replies with the message, as PING does to one.
    Echo {
        /// The message.
        message: Word<'w>,
    },
    /// Reads the string at a key.
    Get {
        /// The key.
        key: Word<'w>,
    },
    /// Puts a string at a key where the condition holds, and replaces whatever is there.
    Set {
        /// The key.
        key: Word<'w>,
        /// The string.
        value: Word<'w>,
        /// When the string is put.
        condition: Condition,
    },
    /// Reads the strings at several keys.
    Mget {
        /// The keys; one may be repeated.
        keys: WordList<'w>,
    },
    /// Puts strings at several keys, from left to right, and replaces whatever is there.
    Mset {
        /// Each key with its string; of a repeated key the last string stays.
        pairs: PairList<'w>,
    },
    /// Puts a string at a key that is missing.
    Setnx {
        /// The key.
        key: Word<'w>,
        /// The string.
        value: Word<'w>,
    },
    /// Puts a string at a key, and reads the one before.
    Getset {
        /// The key.
        key: Word<'w>,
        /// The string.
        value: Word<'w>,
    },
    /// Reads the string at a key, and removes the key.
    Getdel {
        /// The key.
        key: Word<'w>,
    },
    /// Puts bytes behind the string at a key.
    Append {
        /// The key.
        key: Word<'w>,
        /// The bytes.
        value: Word<'w>,
    },
    /// Adds 1 to the number at a key.
    Incr {
        /// The key.
        key: Word<'w>,
    },
    /// Subtracts 1 from the number at a key.
    Decr {
        /// The key.
        key: Word<'w>,
    },
    /// Adds to the number at a key.
    Incrby {
        /// The key.
        key: Word<'w>,
        /// The text of what is added. It is read when the command is executed, and may be no number.
        increment: Word<'w>,
    },
    /// Reads the length of the string at a key.
    Strlen {
        /// The key.
        key: Word<'w>,
    },
    /// Removes keys.
    Del {
        /// The keys; one may be repeated.
        keys: WordList<'w>,
    },
    /// Counts the keys that are there.
    Exists {
        /// The keys; a repeated one is counted again.
        keys: WordList<'w>,
    },
    /// Reads the type of the value at a key.
    TypeOf {
        /// The key.
        key: Word<'w>,
    },
    /// Puts values at fields of the hash at a key, from left to right, and makes the hash where the key is missing.
    Hset {
        /// The key.
        key: Word<'w>,
        /// Each field with its value; of a repeated field the last value stays.
        pairs: PairList<'w>,
    },
    /// Puts a value at a field that is missing.
    Hsetnx {
        /// The key.
        key: Word<'w>,
        /// The field.
        field: Word<'w>,
        /// The value.
        value: Word<'w>,
    },
    /// Reads the value at a field.
    Hget {
        /// The key.
        key: Word<'w>,
        /// The field.
        field: Word<'w>,
    },
    /// Reads the values at several fields.
    Hmget {
        /// The key.
        key: Word<'w>,
        /// The fields; one may be repeated.
        fields: WordList<'w>,
    },
    /// Removes fields, and the key once no field is left.
    Hdel {
        /// The key.
        key: Word<'w>,
        /// The fields; one may be repeated.
        fields: WordList<'w>,
    },
    /// Asks whether a field is there.
    Hexists {
        /// The key.
        key: Word<'w>,
        /// The field.
        field: Word<'w>,
    },
    /// Counts the fields of the hash at a key.
    Hlen {
        /// The key.
        key: Word<'w>,
    },
    /// Reads the length of the value at a field.
    Hstrlen {
        /// The key.
        key: Word<'w>,
        /// The field.
        field: Word<'w>,
    },
    /// Reads all fields of the hash at a key, without their values.
    Hkeys {
        /// The key.
        key: Word<'w>,
    },
    /// Reads all values of the hash at a key, without their fields.
    Hvals {
        /// The key.
        key: Word<'w>,
    },
    /// Reads all fields of the hash at a key, each with its value.
    Hgetall {
        /// The key.
        key: Word<'w>,
    },
    /// Adds to the number at a field.
    Hincrby {
        /// The key.
        key: Word<'w>,
        /// The field.
        field: Word<'w>,
        /// The text of what is added. It is read when the command is executed, and may be no number.
        increment: Word<'w>,
    },
}

// Which words of a command are keys.
#[derive(Clone, Copy)]
enum KeyWords<'w> {
    None,
    One(&'w ByteString),
    All(&'w [ByteString]),
    // Every other word, from the first on.
    Firsts(&'w [ByteString]),
}

macro_rules! is_write {
    (
        ($command:expr)
        data { $($data:ident $data_text:literal $kind:ident $words:tt;)* }
        cluster $others:tt
    ) => {
        match $command {
            $(DataCommand::$data { .. } => kind!($kind),)*
        }
    };
}

macro_rules! kind {
    (read) => {
        false
    };
    (write) => {
        true
    };
}

macro_rules! key_words {
    (
        ($command:expr)
        data { $($data:ident $data_text:literal $kind:ident ($($words:tt)*);)* }
        cluster $others:tt
    ) => {
        match $command {
            $(first_word!($data $($words)*) => key_words_in!($($words)*),)*
        }
    };
}

// A command with its first word, where that may be a key.
macro_rules! first_word {
    ($data:ident $word:ident $($words:tt)*) => {
        DataCommand::$data { $word, .. }
    };
    ($data:ident) => {
        DataCommand::$data
    };
}

macro_rules! key_words_in {
    () => {
        KeyWords::None
    };
    ($word:ident $($words:tt)*) => {
        key_words_in!(@ $word $word $($words)*)
    };
    (@ key $word:ident $($words:tt)*) => {
        KeyWords::One($word.bytes())
    };
    (@ keys $word:ident ..) => {
        KeyWords::All($word.as_slice())
    };
    (@ pairs $word:ident ..) => {
        KeyWords::Firsts($word.words())
    };
    (@ message $word:ident) => {
        KeyWords::None
    };
}

impl<'w> DataCommand<'w> {
    /// Whether the command may change the keyspace (command flag `write`).
    pub fn is_write(&self) -> bool
        ensures { result ≡ is_data_write self.now }
    {
        commands!(is_write(self))
    }

    /// The key of a command whose syntax has one and no more, without a list of them.
    pub fn only_key(&self) -> Option<&'w ByteString>
        ensures key { option_copied result ≡ only_data_key self.now }
        ensures alone { IfSome result (λ key. data_keys self.now ≡ key.now ∷ []) }
    {
        match self.which_keys() {
            KeyWords::One(key) => Some(key),
            KeyWords::None | KeyWords::All(_) | KeyWords::Firsts(_) => None,
        }
    }

    /// The keys that the command names, in its order.
    pub fn keys(&self, alloc: Global) -> Result<Vec<&'w [u8]>, AllocError>
        ensures { IfOk result (λ keys. map (λ key. key.now) keys.items ≡ data_keys self.now) }
    {
        match self.which_keys() {
            KeyWords::None => Ok(Vec::new(alloc)),
            KeyWords::One(key) => one_key(alloc, key),
            KeyWords::All(words) => all_keys(alloc, words),
            KeyWords::Firsts(words) => first_slices(alloc, words),
        }
    }

    /// The words that are keys of the command, in its order.
    pub fn key_words(&self, alloc: Global) -> Result<Vec<&'w ByteString>, AllocError>
        ensures { IfOk result (λ keys. map (λ key. key.now) keys.items ≡ data_keys self.now) }
    {
        match self.which_keys() {
            KeyWords::None => Ok(Vec::new(alloc)),
            KeyWords::One(key) => one_word(alloc, key),
            KeyWords::All(words) => all_words(alloc, words),
            KeyWords::Firsts(words) => first_words(alloc, words),
        }
    }

    // Which words of the command are keys.
    fn which_keys(&self) -> KeyWords<'w>
        ensures keys { named_keys result ≡ data_keys self.now }
        ensures only { named_key result ≡ only_data_key self.now }
    {
        commands!(key_words(self))
    }
}

/// When SET puts its string.
#[derive(Clone, Copy, PartialEq, Eq, Debug)]
pub enum Condition {
    /// Whatever is at the key.
    Always,
    /// Only where the key is missing (option `NX`).
    IfMissing,
    /// Only where the key is there, with a value of any type (option `XX`).
    IfThere,
}

impl Condition {
    /// The condition that the word spells as an option of SET, in letters of any ASCII case, or None.
    #[inline(never)]
    pub fn of(word: &[u8]) -> Option<Condition>
        ensures { result ≡ condition_of word.now }
    {
        if word.eq_ignore_ascii_case(b"nx") {
            return Some(Condition::IfMissing);
        }
        if word.eq_ignore_ascii_case(b"xx") {
            return Some(Condition::IfThere);
        }
        None
    }
}

/// The most keys of one MIGRATE.
pub const MOST_MIGRATED_KEYS: usize = 16;

/// A subcommand of CLUSTER, or a command that moves keys. The node that receives it replies itself, whichever node owns a
/// slot.
#[derive(Drop)]
pub enum ClusterCommand<'w> {
    /// Asks for the slot of a key.
    KeySlot {
        /// The key.
        key: Word<'w>,
    },
    /// Asks for the id of the node.
    MyId,
    /// Asks which slots each master has.
    Slots,
    /// Counts the keys of a slot at the node.
    CountKeysInSlot {
        /// The slot.
        slot: Slot,
    },
    /// Reads the first keys of a slot at the node, in byte order.
    GetKeysInSlot {
        /// The slot.
        slot: Slot,
        /// The most keys that are read.
        count: u64,
    },
    /// Asks what the node does with a slot.
    SlotState {
        /// The slot.
        slot: Slot,
    },
    /// Begins or ends a move of a slot.
    SetSlot {
        /// The slot.
        slot: Slot,
        /// Which part of the move this is.
        order: SlotOrder,
        /// The id of the node that the slot comes from, goes to, or belongs to from now on.
        node: Word<'w>,
        /// The number of the move, where one is given.
        number: Option<MoveNo>,
    },
    /// Has the number of the move in each ASK error of the connection from now on.
    Numbered,
    /// Has a replica take the place of its master, which hands its slots over.
    Failover,
    /// Allows the next request of the connection in a slot that comes to the node.
    Asking {
        /// The number of the only move that this is for, or None for any.
        number: Option<MoveNo>,
    },
    /// Moves keys to another node.
    Migrate {
        /// The host of the node.
        host: Word<'w>,
        /// The port of the node. It may be no port.
        port: i64,
        /// The keys, at most [`MOST_MIGRATED_KEYS`].
        keys: WordList<'w>,
        /// The ticks, 1 to 1,000,000, after which the node replies even where the keys have not arrived.
        timeout: u32,
    },
}

/// Which part of a move SETSLOT asks for.
#[derive(Clone, Copy, PartialEq, Eq, Debug)]
pub enum SlotOrder {
    /// The slot comes to this node from another one.
    Importing,
    /// The slot goes from this node to another one.
    Migrating,
    /// The slot belongs to the node from now on.
    Node,
}

impl SlotOrder {
    /// The order that the word spells in letters of any ASCII case, or None.
    pub fn of(word: &[u8]) -> Option<SlotOrder>
        ensures { result ≡ order_of word.now }
    {
        if word.eq_ignore_ascii_case(b"importing") {
            return Some(SlotOrder::Importing);
        }
        if word.eq_ignore_ascii_case(b"migrating") {
            return Some(SlotOrder::Migrating);
        }
        if word.eq_ignore_ascii_case(b"node") {
            return Some(SlotOrder::Node);
        }
        None
    }
}

fn one_key(alloc: Global, key: &ByteString) -> Result<Vec<&[u8]>, AllocError>
    ensures { IfOk result (λ keys. map (λ key. key.now) keys.items ≡ key.now ∷ []) }
{
    let mut keys = Vec::new(alloc);
    keys.push(key.as_slice())?;
    Ok(keys)
}

fn all_keys(alloc: Global, keys: &[ByteString]) -> Result<Vec<&[u8]>, AllocError>
    ensures { IfOk result (λ slices. map (λ key. key.now) slices.items ≡ keys.now) }
{
    let mut slices = Vec::with_capacity(alloc, keys.len())?;
    for key in keys {
        slices.push(key.as_slice())?;
    }
    Ok(slices)
}

fn first_slices(alloc: Global, words: &[ByteString]) -> Result<Vec<&[u8]>, AllocError>
    ensures { IfOk result (λ keys. map (λ key. key.now) keys.items ≡ pair_keys (pairs_in words.now)) }
{
    let mut rest = words;
    let mut keys = Vec::with_capacity(alloc, rest.len() / 2)?;
    while let Some((key, _, others)) = split_pair(rest) {
        keys.push(key.as_slice())?;
        rest = others;
    }
    Ok(keys)
}

fn one_word(alloc: Global, key: &ByteString) -> Result<Vec<&ByteString>, AllocError>
    ensures { IfOk result (λ keys. map (λ key. key.now) keys.items ≡ key.now ∷ []) }
{
    let mut keys = Vec::new(alloc);
    keys.push(key)?;
    Ok(keys)
}

fn all_words(alloc: Global, keys: &[ByteString]) -> Result<Vec<&ByteString>, AllocError>
    ensures { IfOk result (λ words. map (λ key. key.now) words.items ≡ keys.now) }
{
    let mut words = Vec::with_capacity(alloc, keys.len())?;
    for key in keys {
        words.push(key)?;
    }
    Ok(words)
}

fn first_words(alloc: Global, words: &[ByteString]) -> Result<Vec<&ByteString>, AllocError>
    ensures { IfOk result (λ keys. map (λ key. key.now) keys.items ≡ pair_keys (pairs_in words.now)) }
{
    let mut rest = words;
    let mut keys = Vec::with_capacity(alloc, rest.len() / 2)?;
    while let Some((key, _, others)) = split_pair(rest) {
        keys.push(key)?;
        rest = others;
    }
    Ok(keys)
}
