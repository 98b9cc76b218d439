//! What names stand for while a source is checked (C99 6.2.1, 6.2.3).

use crate::entity::{Defines, Linkage};
use lk_base::Name;
use lk_types::TypeId;

/// How long an object lasts (C99 6.2.4).
#[derive(Clone, Copy)]
pub enum Duration {
    /// As long as the program.
    Static,
    /// As long as its block.
    Automatic,
}

/// What a name that is no tag stands for (C99 6.2.3).
#[derive(Clone, Copy)]
pub enum Meaning {
    /// An object of this type.
    Object(TypeId, Duration),
    /// A function of this type.
    Function(TypeId),
    /// This type, by a `typedef` or predeclared.
    Typedef(TypeId),
    /// An enumerator with this value. Its type is `int` (C99 6.7.2.2, 3).
    Enumerator(i128),
    /// A word that stands only as the initialiser of an object of this type (POSIX, `pthread.h`).
    InitialiserWord(TypeId),
    /// Nothing that is known: its declaration is faulty, and its uses have neither a type nor a fault.
    Faulty,
}

/// A declaration of a name that is no tag.
#[derive(Drop)]
pub struct Declared {
    /// The name.
    pub name: Name,
    /// What it stands for.
    pub meaning: Meaning,
    /// How it reaches beyond its scope; `None` for what is neither an object nor a function (C99 6.2.2).
    pub linkage: Linkage,
    /// What the declaration defines (C99 6.9.1, 6.9.2).
    pub defines: Defines,
    /// The number of the node of the syntax tree that declares it; 0 of what is predeclared.
    pub ordinal: u32,
}

/// What a tag stands for (C99 6.2.3, 6.7.2.3).
#[derive(Clone, Copy)]
pub enum TagMeaning {
    /// The struct with this number.
    Struct(u32),
    /// An enumeration.
    Enum,
    /// Nothing that is known: its declaration is faulty.
    Faulty,
}

/// A declaration of a tag.
#[derive(Drop)]
pub struct Tag {
    /// The tag.
    pub name: Name,
    /// What it stands for.
    pub meaning: TagMeaning,
}
