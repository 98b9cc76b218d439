//! What is known of the members of structs while a source is checked.

use lk_base::{Name, Seq};
use lk_types::TypeId;

/// A member of a struct.
#[derive(Drop)]
pub struct Field {
    /// Its name.
    pub name: Name,
    /// Its type.
    pub ty: TypeId,
}

/// What is known of the members of a struct (C99 6.7.2.1, 6.7.2.3).
#[derive(Drop)]
pub enum Members {
    /// Nothing yet: the struct is incomplete.
    NotYet,
    /// Nothing yet, and its definition has begun.
    Begun,
    /// All of them, in their order.
    Known(Seq<Field>),
    /// Its definition is faulty: what needs its members has neither a type nor a fault.
    Faulty,
}
