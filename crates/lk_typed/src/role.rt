//! What an expression stands as.

use crate::typed::ExprType;

/// What an expression stands as, where a rule asks for that.
#[derive(Clone, Copy)]
pub enum Role {
    /// An operand, or a value that nothing converts.
    Operand,
    /// A value that is converted to this type directly: by assignment, argument, result, initialiser or cast.
    ConvertedTo(ExprType),
    /// The function of a call.
    Function,
    /// The third argument of `pthread_create`.
    Routine,
}
