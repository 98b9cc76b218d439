//! Parts of objects, `&` and `*` (C99 6.5.2.1, 6.5.2.3, 6.5.3.2).
ghost use Rattle.std.specs.Prelude.{◌≡◌, Bool, IfOk, OnOk};
ghost use Rattle.lk_tree.specs.declared.expression.DeclaratorForm.TheOpen.{ExprForm-F};
ghost use Rattle.lk_tree.specs.declared.operators.PrefixOperator.TheVariants as prefixes;
ghost use Rattle.lk_types.specs.Table.{Table};
ghost use Rattle.lk_typed.specs.Elaborated.{InPlace, form_of};
ghost use Rattle.lk_typed.specs.Tables.{Tables};
ghost use Rattle.lk_elaborator.specs.Leading.{Grows};
ghost use Rattle.lk_elaborator.specs.Standing.{IsOne};
ghost use Rattle.lk_elab_expr.specs.Deciding.{DecidesOne, DecidesTwo};

use lk_base::{Name, NoMemory};
use lk_elaborator::{
    Elaborator, One, OneForm, Two, TwoForm, itself_part, number_behind, number_of, operand_part,
    value_at, value_of,
};

/// A member of the struct with a number.
pub(crate) fn member(walk: &Elaborator, object: u32, name: &Name) -> Result<One, NoMemory>
    ensures { IfOk result (
        DecidesOne walk.now walk.now object (λ p i. form_of p ≡ ExprForm-F.Member i name.now)) }
{
    let number = number_of(walk, object, name)?;
    Ok(One::Of(OneForm::Member(number), itself_part()))
}

/// A member of the struct to which the pointer with a number points.
pub(crate) fn arrow(walk: &mut Elaborator, pointer: u32, name: &Name) -> Result<One, NoMemory>
    ensures one { IfOk result (
        DecidesOne walk.old walk.new pointer (λ p i. form_of p ≡ ExprForm-F.Arrow i name.now)) }
    ensures grows { OnOk result (Grows walk.old walk.new) }
{
    let number = number_behind(walk, pointer, name)?;
    let part = value_of(walk, pointer)?;
    Ok(One::Of(OneForm::Arrow(number), part))
}

/// An element of the array with a number.
pub(crate) fn index(
    walk: &mut Elaborator,
    array: u32,
    inner: u32,
    folded: bool,
) -> Result<Two, NoMemory>
    ensures two { IfOk result (
        DecidesTwo walk.old walk.new array inner folded (λ p l r. form_of p ≡ ExprForm-F.Index l r)) }
    ensures grows { OnOk result (Grows walk.old walk.new) }
{
    let v = value_at(walk, inner)?;
    let left = value_of(walk, array)?;
    let right = operand_part(walk, inner, &v.ty, folded)?;
    Ok(Two {
        form: TwoForm::Index,
        left,
        right,
    })
}

/// `&`: the operand isn't read.
pub(crate) fn address() -> One
    ensures { (p i : InPlace) → form_of p ≡ ExprForm-F.Prefix prefixes.Address i →
        (table : Table) (tables : Tables) (folded : Bool) → IsOne table tables folded p i result }
{
    One::Of(OneForm::Address, itself_part())
}

/// `*` of the operand with a number.
pub(crate) fn indirection(walk: &mut Elaborator, operand: u32) -> Result<One, NoMemory>
    ensures one { IfOk result (
        DecidesOne walk.old walk.new operand (λ p i. form_of p ≡ ExprForm-F.Prefix prefixes.Indirection i)) }
    ensures grows { OnOk result (Grows walk.old walk.new) }
{
    let part = value_of(walk, operand)?;
    Ok(One::Of(OneForm::Indirection, part))
}
