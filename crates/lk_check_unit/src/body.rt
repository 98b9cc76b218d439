//! What stands round a statement in its function.

use lk_base::Code;
use lk_check_decl::Switch;
use lk_labels::Labels;
use lk_types::TypeId;

/// The body of a function.
#[derive(Drop)]
pub(crate) struct Body {
    /// The labels of the function.
    pub(crate) labels: Labels,
    /// The result of the function, where its type is known.
    pub(crate) returned: Option<TypeId>,
    /// The innermost switch round the statement, as far as it stands before it.
    pub(crate) switch: Option<Switch>,
    /// Whether a loop stands round it.
    pub(crate) in_loop: bool,
}

/// What is found of an expression of a statement.
#[derive(Clone, Copy)]
pub(crate) struct Asked {
    /// Whether it has a type, where it is there.
    pub(crate) is_typed: bool,
    /// The code that holds at the statement by it.
    pub(crate) code: Option<Code>,
}
