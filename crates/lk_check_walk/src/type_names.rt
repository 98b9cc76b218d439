//! Type names (C99 6.7.6).
ghost use Rattle.std.specs.Prelude.{IfOk, OnOk};
ghost use Rattle.lk_found.specs.Judging.{HasKnownType};
ghost use Rattle.lk_checker.specs.Moves.{IsFurther};
ghost use Rattle.lk_checker.specs.States.{IsSound};
ghost use Rattle.lk_check_walk.specs.Walking.{NamesType};

use crate::declarators::declarator;
use crate::specifying::specifiers;
use lk_base::NoMemory;
use lk_check_decl::Holder;
use lk_checker::Checker;
use lk_found::{Asked, At, TypeFound, either};
use lk_tree::TypeName;

/// The type of a type name, which stands in the size of an allocation or not. Each fault in it is kept.
///
/// `Err` comes for want of memory.
#[cycle(walk)]
pub(crate) fn type_name(
    checker: &mut Checker,
    n: &TypeName,
    in_size: bool,
) -> Result<TypeFound, NoMemory>
    requires { IsSound checker.old }
    ensures named { IfOk result (λ found. NamesType checker.old checker.new in_size n.now found) }
    ensures further { OnOk result (IsFurther checker.old checker.new) }
    ensures known { IfOk result (λ found. HasKnownType checker.new.types found) }
{
    let found = named_type(checker, n, in_size)?;
    checker.records.put_named(n.ordinal, found.ty)?;
    Ok(found)
}

/// The same, before it is recorded.
#[cycle(walk)]
#[tactic(auto, using(lk_checker::proofs::KeepsAll::sound_same, lk_checker::proofs::KeepsAll::known_same))]
fn named_type(checker: &mut Checker, n: &TypeName, in_size: bool) -> Result<TypeFound, NoMemory>
    requires { IsSound checker.old }
    ensures named { IfOk result (λ found. NamesType checker.old checker.new in_size n.now found) }
    ensures further { OnOk result (IsFurther checker.old checker.new) }
    ensures known { IfOk result (λ found. HasKnownType checker.new.types found) }
{
    let at = At {
        spot: n.spot,
        ordinal: n.ordinal,
    };
    let told = specifiers(checker, n.specifiers.list(), Holder::Type, false, in_size)?;
    checker.keep_all(at, told.breaches.as_slice())?;
    match &n.declarator {
        Some(d) => {
            let asked = Asked {
                may_be_absent: false,
                in_size,
            };
            let found = declarator(checker, d, told.ty, asked)?;
            Ok(TypeFound {
                ty: found.ty,
                holds_sizeof: either(told.holds_sizeof, found.holds_sizeof),
            })
        }
        None => Ok(TypeFound {
            ty: told.ty,
            holds_sizeof: told.holds_sizeof,
        }),
    }
}
