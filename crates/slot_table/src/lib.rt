//! Who owns each of the 16384 slots of a cluster, as a node knows it.
#![tactic(auto)]

mod changing;
mod claim;
mod entry;
mod law;
mod merging;
mod node_no;
mod runs;
mod table;

pub use claim::Claim;
pub use entry::{Epoch, SlotEntry};
pub use law::{merging_again_changes_nothing, order_of_claims_is_free};
pub use node_no::NodeNo;
pub use runs::Run;
pub use table::SlotTable;
