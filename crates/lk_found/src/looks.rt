//! How an expression is written, by how its parts are (C99 6.5).
ghost use Rattle.std.specs.Prelude.{◌≡◌, ◌||◌, Bool};
ghost use Rattle.lk_typed.specs.Env.{Env};
ghost use Rattle.lk_typed.specs.Typing as spec;
ghost use Rattle.lk_typed.specs.Typing.{plain_look};
ghost use Rattle.lk_check_expr.specs.Looks.{IsLook};

use crate::found::TypeFound;
use lk_check_expr::Look;

/// Of an expression with one operand nothing is asked but whether a `sizeof` stands in it.
pub fn look_of_one(a: &Look) -> Look
    ensures { (env : Env) (x : spec.Look) →
        IsLook env a.now x → IsLook env result (plain_look x.holds_sizeof) }
{
    Look::plain(a.holds_sizeof)
}

/// Whether one of two things holds.
pub fn either(first: bool, second: bool) -> bool
    ensures { result ≡ first || second }
{
    first || second
}

/// The same of one with two operands.
pub fn look_of_two(a: &Look, b: &Look) -> Look
    ensures { (env : Env) (x y : spec.Look) → IsLook env a.now x → IsLook env b.now y →
        IsLook env result (plain_look (x.holds_sizeof || y.holds_sizeof)) }
{
    let holds = either(a.holds_sizeof, b.holds_sizeof);
    Look::plain(holds)
}

/// The same of one with three operands.
pub fn look_of_three(a: &Look, b: &Look, c: &Look) -> Look
    ensures { (env : Env) (x y z : spec.Look) → IsLook env a.now x → IsLook env b.now y → IsLook env c.now z →
        IsLook env result (plain_look (x.holds_sizeof || y.holds_sizeof || z.holds_sizeof)) }
{
    let first = either(a.holds_sizeof, b.holds_sizeof);
    let holds = either(first, c.holds_sizeof);
    Look::plain(holds)
}

/// The same of a call, by what holds of its arguments.
pub fn look_of_call(f: &Look, in_arguments: bool) -> Look
    ensures { (env : Env) (x : spec.Look) (holds : Bool) → IsLook env f.now x → in_arguments ≡ holds →
        IsLook env result (plain_look (x.holds_sizeof || holds)) }
{
    let holds = either(f.holds_sizeof, in_arguments);
    Look::plain(holds)
}

/// The same of a cast.
pub fn look_of_cast(target: &TypeFound, a: &Look) -> Look
    ensures { (env : Env) (holds : Bool) (x : spec.Look) → target.now.holds_sizeof ≡ holds →
        IsLook env a.now x →
        IsLook env result (plain_look (holds || x.holds_sizeof)) }
{
    let holds = either(target.holds_sizeof, a.holds_sizeof);
    Look::plain(holds)
}
