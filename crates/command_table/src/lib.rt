//! The commands of a node: their names, which keys they name, the numbers in their words, and the texts of the errors that a node sends.
#![tactic(auto)]

mod command;
mod error_line;
mod fault;
mod names;
mod number;
mod table;
mod words;

pub use command::{ClusterCommand, Command, Condition, DataCommand, MOST_MIGRATED_KEYS, SlotOrder};
pub use error_line::ErrorLine;
pub use fault::CommandFault;
pub use key_slot::MoveNo;
pub use names::{Name, Subcommand};
pub use number::{count_in, move_no_in, number_in, positive_in};
pub use words::{PairList, Word, WordList, split_pair};
