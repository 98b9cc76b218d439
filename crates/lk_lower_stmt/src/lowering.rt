//! What the lowering of statements reads and what it adds to.
use crate::cells::Cells;
use lk_lower_expr::{Labelled, Lowering, NamedStep};

/// The lowering of the statements of a body: what it reads.
#[derive(Drop)]
pub struct BodyLowering<'a, C: Cells> {
    /// What the lowering of its expressions reads.
    pub source: Lowering<'a>,
    /// The places of the cells of its locals.
    pub cells: &'a C,
}

/// What is added to by the lowering of statements, from the last to the first.
#[derive(Drop)]
pub struct Lowered {
    /// The steps, what stands last in the text first.
    pub steps: Vec<NamedStep>,
    /// Where each `case` and `default` of the `switch` around a statement begins, the last of them first.
    pub labelled: Vec<Labelled>,
}
