//! What the parts of an expression stand as, by the state of the checker (C99 6.3.2.1, 6.5).
ghost use Rattle.std.specs.Prelude.{◌≡◌, Option, slice_get};
ghost use Rattle.lk_typed.specs.Assignments.{operator_of};
ghost use Rattle.lk_typed.specs.Env.{Env};
ghost use Rattle.lk_typed.specs.Forms as spec;
ghost use Rattle.lk_typed.specs.Names.{IsKnownRole, role_in};
ghost use Rattle.lk_typed.specs.Typing.{Judged, Typing};
ghost use Rattle.lk_found.specs.Arguments.{StandsAs, as_given};
ghost use Rattle.lk_found.specs.Judging.{HasOperand};
ghost use Rattle.lk_found.specs.Findings.{IsFound, IsFoundTyping};
ghost use Rattle.lk_checker.specs.States.{IsSound};

use crate::checker::Checker;
use lk_found::{
    Found, Stands, passed, role_in_parentheses, role_in_prefix, role_on_right, stands_for,
};
use lk_tree::{AssignOperator, PrefixOperator};

impl Checker {
    /// The right side of an assignment, behind this left one.
    pub fn on_right(&self, op: AssignOperator, left: &Found, in_size: bool) -> Stands
        requires { HasOperand self.now.types left.now }
        ensures value { (env : Env) (x : Option Typing) → IsFoundTyping self.now.types left.now x →
            role_in self.now.types result.role ≡ (spec.as_right (operator_of op) x env).role }
        ensures known { IsKnownRole self.now.types result.role }
        ensures in_size { result.in_size ≡ in_size }
    {
        let role = role_on_right(&self.types, op, left);
        Stands { role, in_size }
    }

    /// The operand of an operator before it, where that stands so.
    pub fn in_prefix(&self, op: PrefixOperator, stands: Stands) -> Stands
        ensures value { role_in self.now.types result.role ≡
            spec.role_in_prefix op (role_in self.now.types stands.role) }
        ensures known { IsKnownRole self.now.types result.role }
        ensures in_size { result.in_size ≡ stands.in_size }
    {
        let role = role_in_prefix(&self.types, op, stands.role);
        Stands {
            role,
            in_size: stands.in_size,
        }
    }

    /// What is in parentheses that stand so.
    pub fn in_parentheses(&self, stands: Stands) -> Stands
        ensures value { role_in self.now.types result.role ≡
            spec.role_in_parentheses (role_in self.now.types stands.role) }
        ensures known { IsKnownRole self.now.types result.role }
        ensures in_size { result.in_size ≡ stands.in_size }
    {
        let role = role_in_parentheses(&self.types, stands.role);
        Stands {
            role,
            in_size: stands.in_size,
        }
    }

    /// What the argument with an index of this function stands as.
    pub fn as_argument(&self, f: &Found, index: usize, in_size: bool) -> Stands
        requires sound { IsSound self.now }
        requires function { HasOperand self.now.types f.now }
        ensures stands { (other env : Env) (x : Judged) → IsFound self.now.types other f.now x →
            in_size ≡ env.in_size →
            StandsAs self.now.types result (as_given (slice_get (spec.passes_of x x.typing) index) env) }
        ensures known { IsKnownRole self.now.types result.role }
    {
        let pass = passed(&self.types, f, index);
        stands_for(pass, in_size)
    }
}
