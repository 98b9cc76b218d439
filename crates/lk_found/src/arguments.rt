//! The arguments of a call (C99 6.5.2.2): what was found of them, how each is passed, and
//! what the rule of calls says.
ghost use Rattle.std.specs.Prelude.{◌≡◌, ◌++◌, ◌∷◌, [], Option, IfSome, OnOk, List, slice_get};
ghost use Rattle.lk_types.specs.Table.{Table};
ghost use Rattle.lk_typed.specs.Calls as spec;
ghost use Rattle.lk_typed.specs.Calls.{call_rule};
ghost use Rattle.lk_typed.specs.Env.{Env};
ghost use Rattle.lk_typed.specs.ExprRules.{arguments_of, with_arguments};
ghost use Rattle.lk_typed.specs.Forms.{passes_of};
ghost use Rattle.lk_typed.specs.Library as rows;
ghost use Rattle.lk_typed.specs.Meaning.{IsReady};
ghost use Rattle.lk_typed.specs.Names.{IsKnownRole, role_in};
ghost use Rattle.lk_typed.specs.Typing.{Judged, with_one};
ghost use Rattle.lk_typed.specs.Typings.{IsOperand, IsTyping};
ghost use Rattle.lk_check_expr.specs.Arguments.{IsKnownPassing, IsPassedAt};
ghost use Rattle.lk_check_expr.specs.Looks.{IsLook};
ghost use Rattle.lk_found.specs.Arguments.{AreOperands, IsGiven, IsNothing, StandsAs, as_given};
ghost use Rattle.lk_found.specs.Judging.{HasOperand, IsRuled};
ghost use Rattle.lk_found.specs.Findings.{IsFound};

use crate::found::{Found, Stands};
use crate::looks::either;
use crate::ruled::Ruled;
use lk_base::NoMemory;
use lk_check_expr::{Argument, Passing, call, passing};
use lk_typed::{Role, Typed};
use lk_types::TypeTable;
use std::alloc::Global;

/// What was found of the arguments of a call.
#[derive(Drop)]
pub struct Given {
    /// The arguments that have a type.
    arguments: Vec<Argument>,
    /// Whether all of them have one.
    are_typed: bool,
    /// Whether a `sizeof` stands in one.
    pub holds_sizeof: bool,
}

impl Given {
    /// No argument.
    pub fn none(alloc: Global) -> Given
        ensures { IsNothing result }
    {
        Given {
            arguments: Vec::new(alloc),
            are_typed: true,
            holds_sizeof: false,
        }
    }

    /// One more argument.
    pub fn add(&mut self, a: &Found) -> Result<(), NoMemory>
        ensures given { OnOk result ((table : Table) (env : Env) (ys : List Judged) (y : Judged) →
            IsGiven table env self.old ys → IsFound table env a.now y →
            IsGiven table env self.new (ys ++ y ∷ [])) }
        ensures operands { OnOk result ((table : Table) →
            AreOperands table self.old → HasOperand table a.now → AreOperands table self.new) }
    {
        let holds = either(self.holds_sizeof, a.look.holds_sizeof);
        self.holds_sizeof = holds;
        match a.typing {
            Some(typing) => self.arguments.push(Argument {
                typing,
                look: a.look,
            })?,
            None => self.are_typed = false,
        }
        Ok(())
    }
}

/// How the argument with an index is passed to a function, where that has a parameter for it.
pub fn passed(types: &TypeTable, f: &Found, index: usize) -> Option<Passing>
    requires ready { IsReady types.now }
    requires function { HasOperand types.now f.now }
    ensures passed { (env : Env) (x : Judged) → IsFound types.now env f.now x →
        IsPassedAt types.now result (slice_get (passes_of x x.typing) index) }
    ensures known { IfSome result (IsKnownPassing types.now) }
{
    match f.typing {
        Some(typing) => {
            let function = Argument {
                typing,
                look: f.look,
            };
            passing(types, &function, index)
        }
        None => None,
    }
}

/// What an argument stands as that is passed so.
pub fn stands_for(pass: Option<Passing>, in_size: bool) -> Stands
    ensures stands { (table : Table) (env : Env) (p : Option rows.Passing) → IsPassedAt table pass p →
        in_size ≡ env.in_size → StandsAs table result (as_given p env) }
    ensures known { (table : Table) → IfSome pass (IsKnownPassing table) → IsKnownRole table result.role }
{
    match pass {
        Some(Passing::Converted(ty)) => Stands {
            role: Role::ConvertedTo(ty),
            in_size,
        },
        Some(Passing::Routine) => Stands {
            role: Role::Routine,
            in_size,
        },
        Some(Passing::Size) => Stands {
            role: Role::Operand,
            in_size: true,
        },
        Some(Passing::NullFor(_)) | None => Stands {
            role: Role::Operand,
            in_size,
        },
    }
}

/// A call of a function of which this is known.
fn call_of(types: &TypeTable, role: Role, f: &Found, typing: &Typed, given: &Given) -> Ruled
    requires ready { IsReady types.now }
    requires role { IsKnownRole types.now role }
    requires function { IsOperand types.now typing.now }
    requires arguments { AreOperands types.now given.now }
    ensures { (env : Env) (x : spec.Argument) (ys : List Judged) → role_in types.now role ≡ env.role →
        IsTyping types.now typing.now x.typing → IsLook env f.now.look x.look →
        IsGiven types.now env given.now ys →
        IsRuled types.now result (with_arguments (arguments_of ys) (call_rule env x)) }
{
    if given.are_typed {
        let function = Argument {
            typing: *typing,
            look: f.look,
        };
        let verdict = call(types, &role, &function, given.arguments.as_slice());
        Ruled::plain(verdict)
    } else {
        Ruled::silent()
    }
}

/// What the rule of calls says of a call that stands so.
pub fn call_ruled(types: &TypeTable, role: Role, f: &Found, given: &Given) -> Ruled
    requires ready { IsReady types.now }
    requires role { IsKnownRole types.now role }
    requires function { HasOperand types.now f.now }
    requires arguments { AreOperands types.now given.now }
    ensures { (env : Env) (x : Judged) (ys : List Judged) → role_in types.now role ≡ env.role →
        IsFound types.now env f.now x → IsGiven types.now env given.now ys →
        IsRuled types.now result (with_one x.typing
        (λ t. with_arguments (arguments_of ys) (call_rule env (record { typing = t; look = x.look })))) }
{
    match f.typing {
        Some(typing) => call_of(types, role, f, &typing, given),
        None => Ruled::silent(),
    }
}
