//! Expressions (C99 6.5), by the operands that they have.
ghost use Rattle.std.specs.Prelude.{IfOk, OnOk};
ghost use Rattle.lk_typed.specs.declared.expression.TypedForm.{out-TypedForm};
ghost use Rattle.lk_elaborator.specs.Elaborating.{Elaborates, ElaboratesTo};
ghost use Rattle.lk_elaborator.specs.Leading.{Grows};
ghost use Rattle.lk_elaborator.specs.Standing.{IsNodeOf};
ghost use Rattle.lk_elab_expr.specs.Walking.{Forms, FormsChoice, FormsOfOne, FormsOfThree, FormsOfTwo, FormsWithOne, FormsWithTwo, MakesItself, MakesPart};

use crate::calls::call;
use crate::one_operand::one_of;
use crate::operators::choice;
use crate::two_operands::two_of;
use crate::ways::Way;
use crate::without_operands::leaf;
use lk_base::{Boxed, NoMemory};
use lk_elaborator::{
    Elaborator, One, Part, Three, Two, form_of_one, form_of_two, given_part, made_node,
    node_type_at,
};
use lk_tree::{Expr, ExprForm};
use lk_typed::{ExprType, TypedExpr, TypedForm};
use lk_types::TypeId;

/// The node of an expression, by its type and what it is made of.
fn node_of(e: &Expr, ty: TypeId, form: TypedForm) -> TypedExpr
    ensures { IsNodeOf e.now ty (out-TypedForm form) result }
{
    TypedExpr {
        spot: e.spot,
        ordinal: e.ordinal,
        ty,
        form,
    }
}

/// What stands for an operand.
#[cycle(walk)]
pub(crate) fn part_node(
    walk: &mut Elaborator,
    e: &Expr,
    part: Part,
    folded: bool,
) -> Result<TypedExpr, NoMemory>
    ensures made { IfOk result (MakesPart walk.old walk.new e.now part folded) }
    ensures grows { OnOk result (Grows walk.old walk.new) }
{
    match part {
        Part::Operand(role, making) => {
            let node = expression_in(walk, e, Way { role, folded })?;
            made_node(walk.alloc, making, node)
        }
        Part::Null(ty) => Ok(node_of(e, ty, TypedForm::Null)),
        Part::Number(number, ty) => Ok(node_of(e, ty, TypedForm::Number(number))),
    }
}

/// The same as a part of an expression.
#[cycle(walk)]
pub(crate) fn part_of(
    walk: &mut Elaborator,
    e: &Expr,
    part: Part,
    folded: bool,
) -> Result<Boxed<TypedExpr>, NoMemory>
    ensures made { IfOk result (MakesPart walk.old walk.new e.now part folded) }
    ensures grows { OnOk result (Grows walk.old walk.new) }
{
    let node = part_node(walk, e, part, folded)?;
    Boxed::new(walk.alloc, node)
}

/// An expression of what stands for its operand.
#[cycle(walk)]
fn of_one(
    walk: &mut Elaborator,
    operand: &Expr,
    one: One,
    folded: bool,
) -> Result<TypedForm, NoMemory>
    ensures made { IfOk result (FormsOfOne walk.old walk.new operand.now one folded) }
    ensures grows { OnOk result (Grows walk.old walk.new) }
{
    match one {
        One::Null => Ok(TypedForm::Null),
        One::Of(form, part) => {
            let a = part_of(walk, operand, part, folded)?;
            Ok(form_of_one(form, a))
        }
    }
}

/// What an expression with one operand is made of.
#[cycle(walk)]
fn with_one(
    walk: &mut Elaborator,
    e: &Expr,
    operand: &Expr,
    folded: bool,
) -> Result<TypedForm, NoMemory>
    ensures made { IfOk result (FormsWithOne walk.old walk.new e.now operand.now folded) }
    ensures grows { OnOk result (Grows walk.old walk.new) }
{
    match one_of(walk, &e.form, operand.ordinal) {
        Ok(one) => of_one(walk, operand, one, folded),
        Err(NoMemory) => Err(NoMemory),
    }
}

/// An expression of what stands for two operands.
#[cycle(walk)]
fn of_two(
    walk: &mut Elaborator,
    left: &Expr,
    right: &Expr,
    two: Two,
    folded: bool,
) -> Result<TypedForm, NoMemory>
    ensures made { IfOk result (FormsOfTwo walk.old walk.new left.now right.now two folded) }
    ensures grows { OnOk result (Grows walk.old walk.new) }
{
    let a = part_of(walk, left, two.left, folded)?;
    let b = part_of(walk, right, two.right, folded)?;
    Ok(form_of_two(two.form, a, b))
}

/// What an expression with two operands is made of.
#[cycle(walk)]
fn with_two(
    walk: &mut Elaborator,
    e: &Expr,
    left: &Expr,
    right: &Expr,
    folded: bool,
) -> Result<TypedForm, NoMemory>
    ensures made { IfOk result (FormsWithTwo walk.old walk.new e.now left.now right.now folded) }
    ensures grows { OnOk result (Grows walk.old walk.new) }
{
    match two_of(walk, &e.form, left.ordinal, right.ordinal, folded) {
        Ok(two) => of_two(walk, left, right, two, folded),
        Err(NoMemory) => Err(NoMemory),
    }
}

/// `?:` of what stands for its operands.
#[cycle(walk)]
fn of_three(
    walk: &mut Elaborator,
    condition: &Expr,
    taken: &Expr,
    other: &Expr,
    three: Three,
    folded: bool,
) -> Result<TypedForm, NoMemory>
    ensures made { IfOk result (
        FormsOfThree walk.old walk.new condition.now taken.now other.now three folded) }
    ensures grows { OnOk result (Grows walk.old walk.new) }
{
    let a = part_of(walk, condition, three.condition, folded)?;
    let b = part_of(walk, taken, three.taken, folded)?;
    let d = part_of(walk, other, three.other, folded)?;
    Ok(TypedForm::Choice(a, b, d))
}

/// What `?:` is made of, with this number.
#[cycle(walk)]
fn with_three(
    walk: &mut Elaborator,
    ordinal: u32,
    condition: &Expr,
    taken: &Expr,
    other: &Expr,
    folded: bool,
) -> Result<TypedForm, NoMemory>
    ensures made { IfOk result (
        FormsChoice walk.old walk.new ordinal condition.now taken.now other.now folded) }
    ensures grows { OnOk result (Grows walk.old walk.new) }
{
    match choice(
        walk,
        ordinal,
        condition.ordinal,
        taken.ordinal,
        other.ordinal,
    ) {
        Ok(three) => of_three(walk, condition, taken, other, three, folded),
        Err(NoMemory) => Err(NoMemory),
    }
}

/// What an expression is made of that stands so.
#[cycle(walk)]
fn form_of(walk: &mut Elaborator, e: &Expr, way: Way) -> Result<TypedForm, NoMemory>
    ensures made { IfOk result (Forms walk.old walk.new e.now way) }
    ensures grows { OnOk result (Grows walk.old walk.new) }
{
    let folded = way.folded;
    match &e.form {
        ExprForm::Comma(left, right)
        | ExprForm::Assign(_, left, right)
        | ExprForm::Binary(_, left, right)
        | ExprForm::Index(left, right) => with_two(walk, e, left.get(), right.get(), folded),
        ExprForm::Choice(condition, taken, other) => with_three(
            walk,
            e.ordinal,
            condition.get(),
            taken.get(),
            other.get(),
            folded,
        ),
        ExprForm::Cast(_, operand)
        | ExprForm::Pre(_, operand)
        | ExprForm::Prefix(_, operand)
        | ExprForm::Member(operand, _)
        | ExprForm::Arrow(operand, _)
        | ExprForm::Post(_, operand)
        | ExprForm::Paren(operand) => with_one(walk, e, operand.get(), folded),
        ExprForm::Call(function, arguments) => { call(walk, function.get(), arguments.list(), way) }
        ExprForm::SizeofExpr(_)
        | ExprForm::SizeofType(_)
        | ExprForm::Word(_)
        | ExprForm::Number(_, _)
        | ExprForm::Char(_)
        | ExprForm::Text(_) => leaf(walk, e),
    }
}

/// An expression itself that stands so. Its node has its type by the rules (`MakesOwn`).
#[cycle(walk)]
pub(crate) fn expression_in(
    walk: &mut Elaborator,
    e: &Expr,
    way: Way,
) -> Result<TypedExpr, NoMemory>
    ensures made { IfOk result (MakesItself walk.old walk.new e.now way) }
    ensures grows { OnOk result (Grows walk.old walk.new) }
{
    let ty = node_type_at(walk, e.ordinal)?;
    let form = form_of(walk, e, way)?;
    Ok(node_of(e, ty, form))
}

/// An expression itself that nothing converts directly (`IsTyped`). `folded` says that it stands in an
/// address constant (C99 6.6, 9).
pub fn expression(walk: &mut Elaborator, e: &Expr, folded: bool) -> Result<TypedExpr, NoMemory>
    ensures made { IfOk result (Elaborates walk.old walk.new e.now folded) }
    ensures grows { OnOk result (Grows walk.old walk.new) }
{
    expression_in(walk, e, Way::operand(folded))
}

/// A value that is converted to a type directly, as an initialiser or a result is (`IsConverted`). `folded`
/// says that it stands in an address constant.
pub fn given_value(
    walk: &mut Elaborator,
    e: &Expr,
    target: &ExprType,
    folded: bool,
) -> Result<TypedExpr, NoMemory>
    ensures made { IfOk result (ElaboratesTo walk.old walk.new e.now target.now folded) }
    ensures grows { OnOk result (Grows walk.old walk.new) }
{
    match given_part(walk, e.ordinal, target) {
        Ok(part) => part_node(walk, e, part, folded),
        Err(NoMemory) => Err(NoMemory),
    }
}
