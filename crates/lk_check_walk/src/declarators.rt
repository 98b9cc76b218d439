//! Declarators (C99 6.7.5): they are walked in the order of the text, from the name on; then the type is made
//! from the outermost form to the name.
ghost use Rattle.std.specs.Prelude.{◌≡◌, false, Some, IfOk, OnOk, IfSome};
ghost use Rattle.lk_types.specs.Table.{IsKnown};
ghost use Rattle.lk_typed.specs.declared.role.Role.TheVariants.{Operand};
ghost use Rattle.lk_checker.specs.Shaped.{IsKnownFound, IsKnownWalked};
ghost use Rattle.lk_checker.specs.Moves.{IsFurther};
ghost use Rattle.lk_checker.specs.States.{IsSound};
ghost use Rattle.lk_check_walk.specs.Declarators.{FindsDeclarator};
ghost use Rattle.lk_check_walk.specs.Walked.{FindsSize, WalksForms, WalksInner};

use crate::expressions::judge;
use crate::parameters::parameters;
use lk_base::{Boxed, NoMemory};
use lk_check_decl::ArraySize;
use lk_checker::Checker;
use lk_found::{Asked, DeclaratorFound, SizeFound, Stands, Walked, at_declarator, size_by};
use lk_tree::{Declarator, DeclaratorForm, Expr};
use lk_typed::Role;
use lk_types::TypeId;

/// What is found of a declarator behind the type on its left. Faults in it are kept, and those of its forms;
/// those of the declared name's use are left to what declares it.
///
/// `Err` comes for want of memory.
#[cycle(walk)]
pub fn declarator(
    checker: &mut Checker,
    d: &Declarator,
    left: Option<TypeId>,
    asked: Asked,
) -> Result<DeclaratorFound, NoMemory>
    requires sound { IsSound checker.old }
    requires left { IfSome left (IsKnown checker.old.types) }
    ensures declared { IfOk result (FindsDeclarator checker.old checker.new left d.now asked) }
    ensures further { OnOk result (IsFurther checker.old checker.new) }
    ensures known { IfOk result (IsKnownFound checker.new) }
{
    let left = checker.left_of(left);
    let walked = forms(checker, d, asked.in_size)?;
    let found = checker.shape_whole(d, walked, left, asked.may_be_absent)?;
    Ok(found)
}

/// Walks a declarator in the order of the text.
#[cycle(walk)]
fn forms(checker: &mut Checker, d: &Declarator, in_size: bool) -> Result<Walked, NoMemory>
    requires { IsSound checker.old }
    ensures walked { IfOk result (WalksForms checker.old checker.new in_size d.now) }
    ensures further { OnOk result (IsFurther checker.old checker.new) }
    ensures known { IfOk result (IsKnownWalked checker.new) }
{
    let at = at_declarator(d);
    match &d.form {
        DeclaratorForm::Star(_, inner) => {
            let inside = inner_forms(checker, inner, in_size)?;
            let walked = inside.with_pointer(at)?;
            Ok(walked)
        }
        DeclaratorForm::Named(_) => Ok(Walked::new(checker.alloc, true)),
        DeclaratorForm::Group(inner) => {
            let walked = forms(checker, inner.get(), in_size)?;
            Ok(walked)
        }
        DeclaratorForm::ArrayOf(inner, size) => {
            let inside = inner_forms(checker, inner, in_size)?;
            let found = array_size(checker, size, in_size)?;
            let walked = inside.with_array(at, found)?;
            Ok(walked)
        }
        DeclaratorForm::FunctionOf(inner, list, dots) => {
            let inside = inner_forms(checker, inner, in_size)?;
            let found = parameters(checker, list.list(), *dots, in_size)?;
            let walked = inside.with_function(at, found, *dots)?;
            Ok(walked)
        }
    }
}

/// Walks the declarator inside another one, where there is one.
#[cycle(walk)]
fn inner_forms(
    checker: &mut Checker,
    inner: &Option<Boxed<Declarator>>,
    in_size: bool,
) -> Result<Walked, NoMemory>
    requires { IsSound checker.old }
    ensures walked { IfOk result (WalksInner checker.old checker.new in_size inner.now) }
    ensures further { OnOk result (IsFurther checker.old checker.new) }
    ensures known { IfOk result (IsKnownWalked checker.new) }
{
    match inner {
        Some(inner) => {
            let walked = forms(checker, inner.get(), in_size)?;
            Ok(walked)
        }
        None => Ok(Walked::new(checker.alloc, false)),
    }
}

/// What is found of the size of an array, where one is written.
#[cycle(walk)]
fn array_size(
    checker: &mut Checker,
    size: &Option<Boxed<Expr>>,
    in_size: bool,
) -> Result<SizeFound, NoMemory>
    requires { IsSound checker.old }
    ensures found { IfOk result (FindsSize checker.old checker.new in_size size.now) }
    ensures further { OnOk result (IsFurther checker.old checker.new) }
{
    match size {
        Some(e) => {
            let stands = Stands {
                role: Role::Operand,
                in_size,
            };
            let found = judge_size(checker, e.get(), stands)?;
            Ok(found)
        }
        None => Ok(SizeFound {
            size: ArraySize::Absent,
            holds_sizeof: false,
        }),
    }
}

/// What is found of the expression that is the size of an array. It stands as an operand.
#[cycle(walk)]
fn judge_size(checker: &mut Checker, e: &Expr, stands: Stands) -> Result<SizeFound, NoMemory>
    requires sound { IsSound checker.old }
    requires role { stands.role ≡ Operand }
    ensures found { IfOk result (FindsSize checker.old checker.new stands.in_size (Some e.now)) }
    ensures further { OnOk result (IsFurther checker.old checker.new) }
{
    match judge(checker, e, stands) {
        Ok(found) => Ok(size_by(&found)),
        Err(fault) => Err(fault),
    }
}
