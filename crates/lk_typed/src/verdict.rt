//! What a rule says of a node.

use crate::typed::Typed;
use lk_base::Code;

/// What a rule says of a node.
#[derive(Clone, Copy, PartialEq)]
pub enum Verdict {
    /// No fault holds there, and this is its typing.
    Typed(Typed),
    /// A fault holds there, and this is the least code. It has no typing.
    Broken(Code),
    /// It has neither: a declaration that it needs is faulty.
    Silent,
}
