//! Scopes (C99 6.2.1).
ghost use Rattle.lk_check_unit.specs.Scoping.{Enters, Leaves};

use lk_checker::Checker;
use lk_names::Mark;

/// Begins a scope.
pub(crate) fn enter(checker: &mut Checker) -> Mark
    ensures { Enters checker.old checker.new result }
{
    checker.names.enter()
}

/// Ends the scope that was begun when the mark was given.
pub(crate) fn leave(checker: &mut Checker, mark: Mark)
    ensures { Leaves checker.old checker.new mark }
{
    checker.names.leave(mark);
}
