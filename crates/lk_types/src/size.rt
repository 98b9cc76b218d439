//! How large the walk of a type is.
ghost use Rattle.std.specs.Prelude.{◌≡◌, false};
ghost use Rattle.lk_types.specs.Sizes.{is_over, is_too_large, with_part, Fits, FitsBy};

use lk_base::{MOST_TYPE_NODES, MOST_TYPE_STEPS};

/// The most nodes of a type of a table. A table has room for the pointer to each type that a declarator
/// makes, and for the pointer to that: two nodes more than a type of the language may have.
pub const MOST_TABLE_NODES: u32 = 65_537;

/// The most steps to a node of a type of a table: two more than a type of the language may have.
pub const MOST_TABLE_STEPS: u32 = 1_002;

/// How large the walk of a type's nodes is.
#[derive(Clone, Copy, PartialEq, Eq)]
pub struct TypeSize {
    /// How many entries it has: the nodes, and each place where a Tag stands.
    pub nodes: u32,
    /// The greatest number of steps from Start to one of them.
    pub steps: u32,
}

impl TypeSize {
    /// That of a type without parts.
    pub const START: TypeSize = TypeSize { nodes: 1, steps: 0 };

    /// Whether a type of this size is over one of the bounds of the language: more than 65,535 nodes, or more
    /// than 1,000 steps. No declarator makes such a type.
    pub fn is_too_large(&self) -> bool
        ensures { result ≡ is_too_large self.now }
    {
        self.nodes > MOST_TYPE_NODES || self.steps > MOST_TYPE_STEPS
    }

    /// The same size, or nothing exactly where it is over one of the bounds of the language.
    pub fn bounded(self) -> Option<TypeSize>
        ensures { FitsBy is_too_large self result }
    {
        if self.is_too_large() {
            None
        } else {
            Some(self)
        }
    }

    /// Whether a type of this size is over one of the bounds of a table.
    pub fn is_over(&self) -> bool
        ensures { result ≡ is_over self.now }
    {
        self.nodes > MOST_TABLE_NODES || self.steps > MOST_TABLE_STEPS
    }

    /// The size with one more part, of this size, below its Start, or nothing exactly where it is over
    /// one of the bounds of a table.
    pub fn larger(self, part: TypeSize) -> Option<TypeSize>
        requires size { is_over self ≡ false }
        requires part { is_over part ≡ false }
        ensures { Fits (with_part self part) result }
    {
        let size = TypeSize {
            nodes: self.nodes + part.nodes,
            steps: self.steps.max(part.steps + 1),
        };
        if size.is_over() { None } else { Some(size) }
    }
}
