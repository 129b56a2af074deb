//! Who keeps the list of a node's clients.

/// Who keeps the list of a node's clients, for a thread that serves some of them. A client is named by the number that it has there.
pub trait Register {
    /// The client has left.
    fn note_left(&self, client: usize);

    /// There is no memory for the client, here or in the system, so it is let go.
    fn note_refused(&self, client: usize);
}
