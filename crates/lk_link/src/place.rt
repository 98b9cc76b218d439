//! Places in the tables of several sources.
ghost use Rattle.std.specs.Prelude.{◌↔◌, IsTrue};
ghost use Rattle.lk_link.specs.Types.{HaveSizes};

use lk_types::TypeId;

/// A type of a source.
#[derive(Clone, Copy)]
pub struct TypeOf {
    /// The source, in the order of the command from 0 on.
    pub source: u32,
    /// Its number in the source's table.
    pub number: TypeId,
}

/// A struct of a source.
#[derive(Clone, Copy, PartialEq, Eq, Hash)]
pub struct StructOf {
    /// The source, in the order of the command from 0 on.
    pub source: u32,
    /// Its number in the source's table.
    pub number: u32,
}

/// Two structs that are compared.
#[derive(Clone, Copy, PartialEq, Eq, Hash)]
pub struct StructPair {
    pub first: StructOf,
    pub second: StructOf,
}

/// How the sizes of two arrays compare.
#[derive(Clone, Copy)]
pub enum SizeRule {
    /// They are the same.
    Same,
    /// They are the same, or one is absent, as in two declarations of an object (C99 6.2.7).
    SameOrAbsent,
}

impl SizeRule {
    /// Whether two sizes compare so; 0 stands for no size.
    pub(crate) fn holds(self, n: u64, m: u64) -> bool
        ensures { IsTrue result ↔ HaveSizes self n m }
    {
        match self {
            SizeRule::Same => n == m,
            SizeRule::SameOrAbsent => n == m || n == 0 || m == 0,
        }
    }
}
