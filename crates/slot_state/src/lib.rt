//! What a node does with each of the 16384 slots: it serves them, leaves them to their owner, or takes part in their moves.
#![tactic(auto)]

mod copy_id;
mod ending;
mod importing;
mod keys;
mod migrating;
mod numbering;
mod order;
mod running;
mod slot_moves;
mod state;

pub use copy_id::CopyId;
pub use ending::{NodeVerdict, epoch_after_import};
pub use importing::ImportVerdict;
pub use key_slot::MoveNo;
pub use keys::Keys;
pub use migrating::MigrateVerdict;
pub use order::{Order, Standing};
pub use running::Move;
pub use slot_moves::SlotMoves;
pub use state::SlotState;
