//! Hashes, as a key of Redis may hold one: fields with their values, in the order in which the fields came.
#![tactic(auto)]

mod alike;
mod block;
mod changing;
mod copying;
mod count;
mod entries;
mod extent;
mod few;
mod hash;
mod holed;
mod holes;
mod iter;
mod large;
mod many;
mod packed;
mod packing;
mod reading;
mod repacking;
mod sized_block;
mod sizes;
mod unpacking;
mod walk;
mod word;
mod words;

pub use extent::Extent;
pub use hash::Hash;
pub use iter::Iter;
pub use sizes::bulk_size;
pub use word::Word;
