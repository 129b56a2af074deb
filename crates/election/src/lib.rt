//! What a node holds of the others, whom it votes for, and the election of a replica in the place of its master.
#![tactic(auto)]

mod ages;
mod candidate;
mod health;
mod law;
mod members;
mod report;
mod rows;
mod running;
mod voter;

pub use ages::{is_over, older_if_any};
pub use candidate::Candidate;
pub use health::Health;
pub use law::{
    an_election_begins_after_its_wait, failures_are_held_by_most_voters, the_first_majority_elects,
    the_silent_are_suspected, votes_once_an_epoch,
};
pub use members::Members;
pub use running::Elected;
pub use voter::{VoteRequest, Voter};
