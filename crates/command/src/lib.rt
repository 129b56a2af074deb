//! How the words of a request are parsed into a command, and which keys it names.
#![tactic(auto)]

mod cluster_parsing;
mod command_keys;
mod parsing;

pub use command_keys::keys;
pub use command_table::{
    ClusterCommand, Command, CommandFault, Condition, DataCommand, ErrorLine, MoveNo, Name,
    PairList, SlotOrder, Subcommand, Word, WordList, move_no_in, number_in, positive_in,
    split_pair,
};
pub use parsing::parse;
