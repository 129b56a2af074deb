//! A node with its ends of the links to the others: what it sends there, and what it takes from there.
#![tactic(auto)]

mod linked;
mod not_taken;
mod pace;
mod port;
mod station;
mod sync_filter;
mod web;

pub use not_taken::NotTaken;
pub use pace::{MOST_WAITING, MOST_WAITING_BYTES};
pub use station::Station;
pub use web::Web;
