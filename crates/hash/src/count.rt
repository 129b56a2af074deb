//! What is kept of packed pairs beside their bytes.

/// How many pairs there are, and how many bytes they take in a request.
#[derive(Clone, Copy)]
pub struct Count {
    pub fields: u16,
    pub size: u16,
}
