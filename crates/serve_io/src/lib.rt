//! What a cluster that is served reads and writes beside its clients: where its nodes listen, what standard error is told, and the orders
//! that are read meanwhile.
#![tactic(auto)]

mod followers;
mod listening;
mod logging;
mod orders;
mod pace;
mod reach;

pub use followers::tell_followers;
pub use listening::{Doors, listen_anywhere, listen_at, ports_of};
pub use logging::Logging;
pub use orders::start_reading;
pub use pace::warn_of_pace;
pub use reach::{host_of, warn_of_reach};
