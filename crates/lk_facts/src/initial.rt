//! What objects of static storage begin with.

use lk_base::{CellStep, Seq};

/// What a cell of static storage begins with (C99 6.7.8).
#[derive(Drop)]
pub enum InitialValue {
    /// A number.
    Number(i128),
    /// A null pointer.
    Null,
    /// A pointer to the function of this number.
    Function(u32),
    /// A pointer to a part of an object, or one past it.
    Address {
        /// The number of the object's root.
        root: u32,
        /// The steps to the part.
        path: Seq<CellStep>,
        /// Whether it points one past the part.
        past: bool,
    },
    /// A mutex or condition variable that is ready.
    Ready,
}

/// A cell of static storage that an initialiser names, and what it begins with.
#[derive(Drop)]
pub struct Initial {
    /// The number of the object's root.
    pub root: u32,
    /// The steps to the cell.
    pub path: Seq<CellStep>,
    /// What it begins with.
    pub value: InitialValue,
}
