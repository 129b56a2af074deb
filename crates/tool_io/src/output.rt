//! The output of a tool.

use crate::failure::{ToolFailure, ToolFault};

/// Writes the bytes at once.
pub fn write<R: Print>(rt: &R, bytes: &[u8]) -> Result<(), ToolFailure> {
    match rt.write_all(bytes) {
        Ok(()) => Ok(()),
        Err(_) => Err(ToolFailure::from(ToolFault::Output)),
    }
}
