//! Keys with their values in the byte order of the keys: a few in a list, and more in a tree.
#![tactic(auto)]

mod few;
mod form;
mod key_map;
mod keys;

pub use key_map::KeyMap;
pub use keys::Keys;
