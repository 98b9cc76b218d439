//! Parameters (C99 6.7.5.3).
ghost use Rattle.std.specs.Prelude.{Some, None, All, false, true, IfOk, IfSome, OnOk};
ghost use Rattle.lk_types.specs.Building.{IsPassed};
ghost use Rattle.lk_found.specs.Parameters.{types_listed};
ghost use Rattle.lk_checker.specs.Moves.{IsFurther};
ghost use Rattle.lk_checker.specs.States.{IsSound};
ghost use Rattle.lk_check_walk.specs.Parameters.{AreKnownParameters, FindsParameter, FindsParameters, ListsParameters};

use crate::declarators::declarator;
use crate::specifying::specifiers;
use lk_base::NoMemory;
use lk_check_decl::Holder;
use lk_checker::Checker;
use lk_found::{Asked, Listed, ParameterFound, ParametersFound, both, either, is_lone};
use lk_tree::Parameter;

/// What is found of the parameters of a list, which stand in a scope of their own. Faults in them are
/// kept.
///
/// `Err` comes for want of memory.
#[cycle(walk)]
pub(crate) fn parameters(
    checker: &mut Checker,
    list: &[Parameter],
    dots: bool,
    in_size: bool,
) -> Result<ParametersFound, NoMemory>
    requires { IsSound checker.old }
    ensures found { IfOk result (FindsParameters checker.old checker.new in_size list.now dots) }
    ensures further { OnOk result (IsFurther checker.old checker.new) }
    ensures known { IfOk result (AreKnownParameters checker.new) }
{
    let is_lone = is_lone(list, dots);
    let mark = checker.enter_scope();
    let listed = each_parameter(checker, list, is_lone, in_size)?;
    let scope = checker.leave_scope(mark)?;
    let holds_sizeof = listed.holds_sizeof;
    let types = listed.all_types(checker.alloc, is_lone);
    Ok(ParametersFound {
        types,
        holds_sizeof,
        scope,
    })
}

/// What is found of parameters, each behind those before it.
#[cycle(walk)]
fn each_parameter(
    checker: &mut Checker,
    list: &[Parameter],
    is_lone: bool,
    in_size: bool,
) -> Result<Listed, NoMemory>
    requires { IsSound checker.old }
    ensures listed { IfOk result (ListsParameters checker.old checker.new in_size is_lone list.now) }
    ensures further { OnOk result (IsFurther checker.old checker.new) }
    ensures known { IfOk result (λ listed. IfSome (types_listed listed) (All (IsPassed checker.new.types))) }
{
    let mut listed = Listed::new(checker.alloc);
    for p in list {
        let found = parameter(checker, p, is_lone, in_size)?;
        listed.put(found)?;
    }
    Ok(listed)
}

/// What is found of a parameter, which is declared. Faults in it are kept.
#[cycle(walk)]
fn parameter(
    checker: &mut Checker,
    p: &Parameter,
    is_lone: bool,
    in_size: bool,
) -> Result<ParameterFound, NoMemory>
    requires { IsSound checker.old }
    ensures found { IfOk result (FindsParameter checker.old checker.new in_size is_lone p.now) }
    ensures further { OnOk result (IsFurther checker.old checker.new) }
    ensures known { IfOk result (λ found. IfSome found.ty (IsPassed checker.new.types)) }
{
    let told = specifiers(checker, p.specifiers.list(), Holder::Type, false, in_size)?;
    match &p.declarator {
        Some(d) => {
            let asked = Asked {
                may_be_absent: true,
                in_size,
            };
            let declared = declarator(checker, d, told.ty, asked)?;
            let holds_sizeof = either(told.holds_sizeof, declared.holds_sizeof);
            let ty = checker.settle_parameter(p, told.breaches.as_slice(), &declared.ty, false)?;
            Ok(ParameterFound {
                ty,
                is_bare_void: false,
                holds_sizeof,
            })
        }
        None => {
            let is_bare_void = checker.is_void_type(told.named);
            let is_void = both(is_lone, is_bare_void);
            let holds_sizeof = told.holds_sizeof;
            let ty = checker.settle_parameter(p, told.breaches.as_slice(), &told.ty, is_void)?;
            Ok(ParameterFound {
                ty,
                is_bare_void,
                holds_sizeof,
            })
        }
    }
}
