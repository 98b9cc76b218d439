//! The nodes of a type: the parts that its pointers lead to.
ghost use Rattle.std.specs.Prelude.{◌≡◌};
ghost use Rattle.lk_types.specs.Nodes.{base_type};

use crate::type_id::TypeId;

/// Where the walk begins in which a node has its number.
#[derive(Clone, Copy, PartialEq, Eq, Hash)]
pub enum Base {
    /// A value or a place of the type itself.
    Start(TypeId),
    /// Whatever of the type a pointer leads to, where the way there doesn't count.
    Tag(TypeId),
}

impl Base {
    /// The type of which the node is a part.
    pub fn ty(self) -> TypeId
        ensures { result ≡ base_type self }
    {
        match self {
            Base::Start(t) => t,
            Base::Tag(t) => t,
        }
    }
}

/// A node of a type.
#[derive(Clone, Copy, PartialEq, Eq, Hash)]
pub struct NodeId {
    /// Where the walk begins.
    pub base: Base,
    /// The number of the node in the walk, from 0 on.
    pub number: u32,
}

/// One step from a node to another.
#[derive(Clone, Copy, PartialEq, Eq)]
pub enum Sel {
    /// From a pointer to what it points to.
    Target,
    /// From an array to its elements.
    Element,
    /// From a struct to the member with this number, from 0 on; from a function to its result by 0, and to
    /// its parameter k, counted from 1, by k.
    Field(u32),
    /// From `void`, where a pointer led to it, to an object of this type.
    Part(TypeId),
}
