//! What cells are.

/// What a cell is: a part of a type that has no parts.
#[derive(Clone, Copy)]
pub enum CellKind {
    /// It holds a value.
    Value,
    /// It is a mutex.
    Mutex,
    /// It is a condition variable.
    Condition,
}
