//! What the lowering of a source's expressions reads.
ghost use Rattle.lk_lower_expr.specs.Naming.{AreFew};

use crate::names::SourceNames;
use lk_types::TypeTable;
use std::alloc::Global;

/// The lowering of expressions of a source: what it reads, and where it takes memory.
#[derive(Drop)]
pub struct Lowering<'a> {
    pub alloc: Global,
    /// The types of the source.
    pub table: &'a TypeTable,
    /// What the numbers of the source, and of the body in which the expressions stand, are in the program.
    pub names: &'a SourceNames,
    ghost few: { AreFew names.now },
}
