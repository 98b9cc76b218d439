//! What an item accesses.

/// What an item accesses, by the number of its label.
#[derive(Clone, Copy)]
pub enum Subject {
    /// A label that is no origin.
    Label(u32),
    /// An origin.
    Origin(u32),
}
