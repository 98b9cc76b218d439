//! Ordinals in expressions, and in the declarators and types that lead back to them.
#![tactic(auto, using(lk_base::proofs::Lending::written_is), unfolding(lk_tree::specs::Numbers::expr, lk_tree::specs::Numbers::declarator, lk_tree::specs::Numbers::specifier))]

ghost use Rattle.std.specs.Prelude.{◌≡◌, IfOk, map};
ghost use Rattle.std.specs.Option.{option_map};
ghost use Rattle.lk_ordinals.specs.Parts as part;
ghost use Rattle.lk_tree.specs.Numbers as spec;

use crate::next::behind;
use lk_base::{Boxed, NoMemory, Seq};
use lk_tree::{
    Declarator, DeclaratorForm, Expr, ExprForm, Item, Member, MemberDeclarator, Parameter,
    Specifier, TypeName,
};

/// Gives an expression its ordinals, from this one on, and answers the ordinal behind them.
#[cycle(numbering)]
pub fn number_expr(tree: &mut Expr, first: u32) -> Result<u32, NoMemory>
    ensures { IfOk result (λ next. spec.expr tree.old first ≡ (tree.new, next)) }
{
    let next = expr_form(&mut tree.form, behind(first)?)?;
    tree.ordinal = first;
    Ok(next)
}

/// What is inside an expression.
#[cycle(numbering)]
fn expr_form(tree: &mut ExprForm, first: u32) -> Result<u32, NoMemory>
    ensures { IfOk result (λ next. part.expr_form tree.old first ≡ (tree.new, next)) }
{
    match tree {
        ExprForm::Comma(left, right) => {
            let next = number_expr(left.get_mut(), first)?;
            number_expr(right.get_mut(), next)
        }
        ExprForm::Assign(_, left, right) => {
            let next = number_expr(left.get_mut(), first)?;
            number_expr(right.get_mut(), next)
        }
        ExprForm::Choice(condition, yes, no) => {
            let next = number_expr(condition.get_mut(), first)?;
            let next = number_expr(yes.get_mut(), next)?;
            number_expr(no.get_mut(), next)
        }
        ExprForm::Binary(_, left, right) => {
            let next = number_expr(left.get_mut(), first)?;
            number_expr(right.get_mut(), next)
        }
        ExprForm::Cast(name, operand) => {
            let next = type_name(name.get_mut(), first)?;
            number_expr(operand.get_mut(), next)
        }
        ExprForm::Pre(_, operand) => number_expr(operand.get_mut(), first),
        ExprForm::Prefix(_, operand) => number_expr(operand.get_mut(), first),
        ExprForm::SizeofExpr(operand) => number_expr(operand.get_mut(), first),
        ExprForm::SizeofType(name) => type_name(name.get_mut(), first),
        ExprForm::Index(array, index) => {
            let next = number_expr(array.get_mut(), first)?;
            number_expr(index.get_mut(), next)
        }
        ExprForm::Call(function, arguments) => {
            let next = number_expr(function.get_mut(), first)?;
            let next = exprs(arguments, next)?;
            Ok(next)
        }
        ExprForm::Member(object, _) => number_expr(object.get_mut(), first),
        ExprForm::Arrow(pointer, _) => number_expr(pointer.get_mut(), first),
        ExprForm::Post(_, operand) => number_expr(operand.get_mut(), first),
        ExprForm::Word(_) => Ok(first),
        ExprForm::Number(_, _) => Ok(first),
        ExprForm::Char(_) => Ok(first),
        ExprForm::Text(_) => Ok(first),
        ExprForm::Paren(inner) => number_expr(inner.get_mut(), first),
    }
}

/// Expressions one after another.
#[cycle(numbering)]
fn exprs(tree: &mut Seq<Expr>, first: u32) -> Result<u32, NoMemory>
    ensures { IfOk result (λ next. spec.list (map spec.expr tree.old) first ≡ (tree.new, next)) }
{
    exprs_in(tree.list_mut(), first)
}

/// The same of those in a slice.
#[cycle(numbering)]
fn exprs_in(tree: &mut [Expr], first: u32) -> Result<u32, NoMemory>
    ensures { IfOk result (λ next. spec.list (map spec.expr tree.old) first ≡ (tree.new, next)) }
{
    let mut next = first;
    for i in 0..tree.len() {
        next = number_expr(&mut tree[i], next)?;
    }
    Ok(next)
}

/// An expression, where there is one.
#[cycle(numbering)]
fn expr_if_any(tree: &mut Option<Expr>, first: u32) -> Result<u32, NoMemory>
    ensures { IfOk result (λ next. spec.optional (option_map spec.expr tree.old) first ≡ (tree.new, next)) }
{
    match tree {
        None => Ok(first),
        Some(one) => number_expr(one, first),
    }
}

/// The same of one in a box.
#[cycle(numbering)]
fn boxed_expr_if_any(tree: &mut Option<Boxed<Expr>>, first: u32) -> Result<u32, NoMemory>
    ensures { IfOk result (λ next. spec.optional (option_map spec.expr tree.old) first ≡ (tree.new, next)) }
{
    match tree {
        None => Ok(first),
        Some(one) => number_expr(one.get_mut(), first),
    }
}

/// A type name.
#[cycle(numbering)]
fn type_name(tree: &mut TypeName, first: u32) -> Result<u32, NoMemory>
    ensures { IfOk result (λ next. part.type_name tree.old first ≡ (tree.new, next)) }
{
    let next = specifiers_of(&mut tree.specifiers, behind(first)?)?;
    let next = declarator_if_any(&mut tree.declarator, next)?;
    tree.ordinal = first;
    Ok(next)
}

/// Specifiers one after another.
#[cycle(numbering)]
fn specifiers_of(tree: &mut Seq<Specifier>, first: u32) -> Result<u32, NoMemory>
    ensures { IfOk result (λ next. spec.list (map spec.specifier tree.old) first ≡ (tree.new, next)) }
{
    specifiers_of_in(tree.list_mut(), first)
}

/// The same of those in a slice.
#[cycle(numbering)]
fn specifiers_of_in(tree: &mut [Specifier], first: u32) -> Result<u32, NoMemory>
    ensures { IfOk result (λ next. spec.list (map spec.specifier tree.old) first ≡ (tree.new, next)) }
{
    let mut next = first;
    for i in 0..tree.len() {
        next = number_specifier(&mut tree[i], next)?;
    }
    Ok(next)
}

/// Gives a specifier its ordinals, from this one on, and answers the ordinal behind them.
#[cycle(numbering)]
pub fn number_specifier(tree: &mut Specifier, first: u32) -> Result<u32, NoMemory>
    ensures { IfOk result (λ next. spec.specifier tree.old first ≡ (tree.new, next)) }
{
    match tree {
        Specifier::Storage(_) => Ok(first),
        Specifier::Inline => Ok(first),
        Specifier::Qualifier(_) => Ok(first),
        Specifier::Type(_) => Ok(first),
        Specifier::Struct(_, inner) => {
            let next = members(inner, first)?;
            Ok(next)
        }
        Specifier::StructTag(_) => Ok(first),
        Specifier::Enum(_, inner) => {
            let next = items(inner, first)?;
            Ok(next)
        }
        Specifier::EnumTag(_) => Ok(first),
        Specifier::Typedef(_) => Ok(first),
    }
}

/// The members of a struct.
#[cycle(numbering)]
fn members(tree: &mut Seq<Member>, first: u32) -> Result<u32, NoMemory>
    ensures { IfOk result (λ next. spec.list (map part.member tree.old) first ≡ (tree.new, next)) }
{
    members_in(tree.list_mut(), first)
}

/// The same of those in a slice.
#[cycle(numbering)]
fn members_in(tree: &mut [Member], first: u32) -> Result<u32, NoMemory>
    ensures { IfOk result (λ next. spec.list (map part.member tree.old) first ≡ (tree.new, next)) }
{
    let mut next = first;
    for i in 0..tree.len() {
        next = member(&mut tree[i], next)?;
    }
    Ok(next)
}

/// A member of a struct.
#[cycle(numbering)]
fn member(tree: &mut Member, first: u32) -> Result<u32, NoMemory>
    ensures { IfOk result (λ next. part.member tree.old first ≡ (tree.new, next)) }
{
    let next = specifiers_of(&mut tree.specifiers, behind(first)?)?;
    let next = member_declarators(&mut tree.declarators, next)?;
    tree.ordinal = first;
    Ok(next)
}

/// The declarators of a member.
#[cycle(numbering)]
fn member_declarators(tree: &mut Seq<MemberDeclarator>, first: u32) -> Result<u32, NoMemory>
    ensures { IfOk result (λ next. spec.list (map part.member_declarator tree.old) first ≡ (tree.new, next)) }
{
    member_declarators_in(tree.list_mut(), first)
}

/// The same of those in a slice.
#[cycle(numbering)]
fn member_declarators_in(tree: &mut [MemberDeclarator], first: u32) -> Result<u32, NoMemory>
    ensures { IfOk result (λ next. spec.list (map part.member_declarator tree.old) first ≡ (tree.new, next)) }
{
    let mut next = first;
    for i in 0..tree.len() {
        next = member_declarator(&mut tree[i], next)?;
    }
    Ok(next)
}

/// A declarator of a member.
#[cycle(numbering)]
fn member_declarator(tree: &mut MemberDeclarator, first: u32) -> Result<u32, NoMemory>
    ensures { IfOk result (λ next. part.member_declarator tree.old first ≡ (tree.new, next)) }
{
    match tree {
        MemberDeclarator::Plain(inner) => number_declarator(inner, first),
        MemberDeclarator::Field(inner, width) => {
            let next = number_declarator(inner, first)?;
            number_expr(width, next)
        }
        MemberDeclarator::Unnamed(width) => number_expr(width, first),
    }
}

/// The items of an enumeration.
#[cycle(numbering)]
fn items(tree: &mut Seq<Item>, first: u32) -> Result<u32, NoMemory>
    ensures { IfOk result (λ next. spec.list (map part.item tree.old) first ≡ (tree.new, next)) }
{
    items_in(tree.list_mut(), first)
}

/// The same of those in a slice.
#[cycle(numbering)]
fn items_in(tree: &mut [Item], first: u32) -> Result<u32, NoMemory>
    ensures { IfOk result (λ next. spec.list (map part.item tree.old) first ≡ (tree.new, next)) }
{
    let mut next = first;
    for i in 0..tree.len() {
        next = item(&mut tree[i], next)?;
    }
    Ok(next)
}

/// An item of an enumeration.
#[cycle(numbering)]
fn item(tree: &mut Item, first: u32) -> Result<u32, NoMemory>
    ensures { IfOk result (λ next. part.item tree.old first ≡ (tree.new, next)) }
{
    let next = expr_if_any(&mut tree.value, behind(first)?)?;
    tree.ordinal = first;
    Ok(next)
}

/// Gives a declarator its ordinals, from this one on, and answers the ordinal behind them.
#[cycle(numbering)]
pub fn number_declarator(tree: &mut Declarator, first: u32) -> Result<u32, NoMemory>
    ensures { IfOk result (λ next. spec.declarator tree.old first ≡ (tree.new, next)) }
{
    let next = declarator_form(&mut tree.form, behind(first)?)?;
    tree.ordinal = first;
    Ok(next)
}

/// A declarator, where there is one.
#[cycle(numbering)]
fn declarator_if_any(tree: &mut Option<Declarator>, first: u32) -> Result<u32, NoMemory>
    ensures { IfOk result (λ next. spec.optional (option_map spec.declarator tree.old) first ≡ (tree.new, next)) }
{
    match tree {
        None => Ok(first),
        Some(one) => number_declarator(one, first),
    }
}

/// The same of one in a box.
#[cycle(numbering)]
fn boxed_declarator_if_any(
    tree: &mut Option<Boxed<Declarator>>,
    first: u32,
) -> Result<u32, NoMemory>
    ensures { IfOk result (λ next. spec.optional (option_map spec.declarator tree.old) first ≡ (tree.new, next)) }
{
    match tree {
        None => Ok(first),
        Some(one) => number_declarator(one.get_mut(), first),
    }
}

/// What is inside a declarator.
#[cycle(numbering)]
fn declarator_form(tree: &mut DeclaratorForm, first: u32) -> Result<u32, NoMemory>
    ensures { IfOk result (λ next. part.declarator_form tree.old first ≡ (tree.new, next)) }
{
    match tree {
        DeclaratorForm::Star(_, inner) => boxed_declarator_if_any(inner, first),
        DeclaratorForm::Named(_) => Ok(first),
        DeclaratorForm::Group(inner) => number_declarator(inner.get_mut(), first),
        DeclaratorForm::ArrayOf(inner, size) => {
            let next = boxed_declarator_if_any(inner, first)?;
            boxed_expr_if_any(size, next)
        }
        DeclaratorForm::FunctionOf(inner, list, _) => {
            let next = boxed_declarator_if_any(inner, first)?;
            let next = parameters(list, next)?;
            Ok(next)
        }
    }
}

/// The parameters of a function.
#[cycle(numbering)]
fn parameters(tree: &mut Seq<Parameter>, first: u32) -> Result<u32, NoMemory>
    ensures { IfOk result (λ next. spec.list (map part.parameter tree.old) first ≡ (tree.new, next)) }
{
    parameters_in(tree.list_mut(), first)
}

/// The same of those in a slice.
#[cycle(numbering)]
fn parameters_in(tree: &mut [Parameter], first: u32) -> Result<u32, NoMemory>
    ensures { IfOk result (λ next. spec.list (map part.parameter tree.old) first ≡ (tree.new, next)) }
{
    let mut next = first;
    for i in 0..tree.len() {
        next = parameter(&mut tree[i], next)?;
    }
    Ok(next)
}

/// A parameter.
#[cycle(numbering)]
fn parameter(tree: &mut Parameter, first: u32) -> Result<u32, NoMemory>
    ensures { IfOk result (λ next. part.parameter tree.old first ≡ (tree.new, next)) }
{
    let next = specifiers_of(&mut tree.specifiers, behind(first)?)?;
    let next = declarator_if_any(&mut tree.declarator, next)?;
    tree.ordinal = first;
    Ok(next)
}
