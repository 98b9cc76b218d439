//! Allocations (C99 7.20.3): the type of an element, and how many there are.
ghost use Rattle.std.specs.Prelude.{◌≡◌, IfOk, OnOk, false, true};
ghost use Rattle.lk_types.specs.Table.{IsKnown};
ghost use Rattle.lk_typed.specs.Meaning.{meaning, meaning_of};
ghost use Rattle.lk_typed.specs.Ty.{Pointer};
ghost use Rattle.lk_check_expr.specs.Looks.{is_multiply};
ghost use Rattle.lk_elaborator.specs.Leading.{Grows};
ghost use Rattle.lk_elab_expr.specs.Allocating.{CountsAll, CountsBeside, CountsBySizeof, CountsElements, CountsFactor};
ghost use Rattle.lk_elab_expr.specs.Allocating.{FormsAllocation, IsByteBehind, IsElement, IsProduct, IsProductBy, SaysSize, SizesAllocation, SizesZeroed};

use crate::expressions::part_of;
use crate::sizes::counted_by;
use lk_base::{Boxed, NoMemory};
use lk_elaborator::{Elaborator, converted_operand, holds_sizeof, known_type, listed, nowhere};
use lk_tree::{BinaryOperator, Expr, ExprForm};
use lk_typed::{ExprType, LibraryCall, Role, TypedExpr, TypedForm, target_of};
use lk_types::{TypeId, TypeTable};

/// Which part of the size of an allocation counts the elements.
#[derive(Clone, Copy)]
enum Count {
    /// None: it is one object.
    One,
    /// All of it.
    Whole,
    /// The left factor.
    Left,
    /// The right factor.
    Right,
}

/// What the size of an allocation says (`IsAllocated`).
#[derive(Clone, Copy)]
struct Size {
    /// The type of an element.
    element: ExprType,
    count: Count,
}

/// The type whose bytes a factor counts, where it is a `sizeof` and the other one holds none.
fn counted_beside(
    walk: &Elaborator,
    size: &Expr,
    other: &Expr,
) -> Result<Option<ExprType>, NoMemory>
    ensures { IfOk result (CountsBeside walk.now size.now other.now) }
{
    let held = holds_sizeof(walk, other.ordinal)?;
    if held {
        Ok(None)
    } else {
        counted_by(walk, size)
    }
}

/// What a product says as the size of an allocation, whose right factor may be a `sizeof`.
fn times_size(walk: &Elaborator, left: &Expr, right: &Expr) -> Result<Option<Size>, NoMemory>
    ensures { IfOk result (IsProduct walk.now left.now right.now) }
{
    match counted_beside(walk, right, left) {
        Ok(Some(element)) => Ok(Some(Size {
            element,
            count: Count::Left,
        })),
        Ok(None) => Ok(None),
        Err(NoMemory) => Err(NoMemory),
    }
}

/// What a product says as the size of an allocation, where it isn't so many bytes.
fn product(walk: &Elaborator, left: &Expr, right: &Expr) -> Result<Option<Size>, NoMemory>
    ensures { IfOk result (IsProduct walk.now left.now right.now) }
{
    match counted_beside(walk, left, right) {
        Ok(Some(element)) => Ok(Some(Size {
            element,
            count: Count::Right,
        })),
        Ok(None) => times_size(walk, left, right),
        Err(NoMemory) => Err(NoMemory),
    }
}

/// Whether an operator multiplies.
fn is_multiply(op: BinaryOperator) -> bool
    ensures { result ≡ is_multiply op }
{
    matches!(op, BinaryOperator::Multiply)
}

/// What an operator between two operands says as the size of an allocation, where it isn't so many bytes.
fn by_factors(
    walk: &Elaborator,
    op: BinaryOperator,
    left: &Expr,
    right: &Expr,
) -> Result<Option<Size>, NoMemory>
    ensures { IfOk result (IsProductBy walk.now op left.now right.now) }
{
    if is_multiply(op) {
        product(walk, left, right)
    } else {
        Ok(None)
    }
}

/// What a `sizeof` says as the size of an allocation.
fn one_object(walk: &Elaborator, e: &Expr) -> Result<Option<Size>, NoMemory>
    ensures { IfOk result (CountsBySizeof walk.now e.now) }
{
    match counted_by(walk, e) {
        Ok(Some(element)) => Ok(Some(Size {
            element,
            count: Count::One,
        })),
        Ok(None) => Ok(None),
        Err(NoMemory) => Err(NoMemory),
    }
}

/// What the size of an allocation says, where it isn't so many bytes.
fn by_sizeof(walk: &Elaborator, e: &Expr) -> Result<Option<Size>, NoMemory>
    ensures { IfOk result (CountsBySizeof walk.now e.now) }
{
    match &e.form {
        ExprForm::Binary(op, left, right) => by_factors(walk, *op, left.get(), right.get()),
        ExprForm::SizeofExpr(_) | ExprForm::SizeofType(_) => one_object(walk, e),
        ExprForm::Comma(_, _)
        | ExprForm::Assign(_, _, _)
        | ExprForm::Choice(_, _, _)
        | ExprForm::Cast(_, _)
        | ExprForm::Pre(_, _)
        | ExprForm::Prefix(_, _)
        | ExprForm::Index(_, _)
        | ExprForm::Call(_, _)
        | ExprForm::Member(_, _)
        | ExprForm::Arrow(_, _)
        | ExprForm::Post(_, _)
        | ExprForm::Word(_)
        | ExprForm::Number(_, _)
        | ExprForm::Char(_)
        | ExprForm::Text(_)
        | ExprForm::Paren(_) => Ok(None),
    }
}

/// The type to which a pointer of this type points.
fn pointed_to(types: &TypeTable, ty: &ExprType) -> Result<TypeId, NoMemory>
    ensures { IfOk result (λ target. meaning_of types.now ty.now ≡ Pointer (meaning types.now target)) }
{
    let ty = known_type(types, ty)?;
    match target_of(types, &ty) {
        Some(target) => Ok(target),
        None => Err(nowhere()),
    }
}

/// The element of an allocation that counts bytes: the call is converted directly to a pointer to it.
fn byte_behind(walk: &Elaborator, role: Role) -> Result<ExprType, NoMemory>
    ensures { IfOk result (IsByteBehind walk.now role) }
{
    match role {
        Role::ConvertedTo(ty) => {
            let target = pointed_to(walk.types.table(), &ty)?;
            Ok(ExprType::Listed(target))
        }
        Role::Operand | Role::Function | Role::Routine => Err(nowhere()),
    }
}

/// What the size of an allocation says that is so many bytes, by a call that stands as
/// this. No `sizeof` stands in it.
fn bytes(walk: &Elaborator, e: &Expr, role: Role) -> Result<Size, NoMemory>
    ensures { IfOk result (SaysSize walk.now e.now role) }
{
    let held = holds_sizeof(walk, e.ordinal)?;
    if held {
        return Err(nowhere());
    }
    let element = byte_behind(walk, role)?;
    Ok(Size {
        element,
        count: Count::Whole,
    })
}

/// What the size of an allocation says, by a call that stands as this.
fn size_of(walk: &Elaborator, e: &Expr, role: Role) -> Result<Size, NoMemory>
    ensures { IfOk result (SaysSize walk.now e.now role) }
{
    match by_sizeof(walk, e) {
        Ok(Some(size)) => Ok(size),
        Ok(None) => bytes(walk, e, role),
        Err(NoMemory) => Err(NoMemory),
    }
}

/// The number of the type of an element.
fn element_number(walk: &mut Elaborator, element: &ExprType) -> Result<TypeId, NoMemory>
    ensures known { IfOk result (IsKnown walk.new.types) }
    ensures means { IfOk result (λ t. meaning walk.new.types t ≡ meaning_of walk.old.types element.now) }
    ensures grows { OnOk result (Grows walk.old walk.new) }
{
    let element = known_type(walk.types.table(), element)?;
    let t = listed(&mut walk.types, &element)?;
    Ok(t)
}

/// What is allocated.
#[derive(Clone, Copy)]
pub(crate) struct Allocation {
    /// The number of the type of an element.
    element: TypeId,
    /// Which part of the first argument counts the elements.
    count: Count,
    /// Whether the object begins as zero.
    zeroed: bool,
}

/// What `malloc` allocates by a call that stands as this. It has one argument.
pub(crate) fn sized_allocation(
    walk: &mut Elaborator,
    arguments: &[Expr],
    role: Role,
) -> Result<Allocation, NoMemory>
    ensures sizes { IfOk result (SizesAllocation walk.old walk.new arguments.now role) }
    ensures zeroed { IfOk result (λ a. a.zeroed ≡ false) }
    ensures grows { OnOk result (Grows walk.old walk.new) }
{
    match arguments {
        [size] => {
            let size = size_of(walk, size, role)?;
            let element = element_number(walk, &size.element)?;
            Ok(Allocation {
                element,
                count: size.count,
                zeroed: false,
            })
        }
        [] | [_, _, ..] => Err(nowhere()),
    }
}

/// The number of the type of an element, by the second argument of `calloc`, which is a `sizeof`.
fn zeroed_element(walk: &mut Elaborator, size: &Expr) -> Result<TypeId, NoMemory>
    ensures known { IfOk result (IsKnown walk.new.types) }
    ensures element { IfOk result (IsElement walk.old walk.new size.now) }
    ensures grows { OnOk result (Grows walk.old walk.new) }
{
    match counted_by(walk, size) {
        Ok(Some(element)) => {
            let t = element_number(walk, &element)?;
            Ok(t)
        }
        Ok(None) => Err(nowhere()),
        Err(NoMemory) => Err(NoMemory),
    }
}

/// What `calloc` allocates. It has two arguments.
pub(crate) fn zeroed_allocation(
    walk: &mut Elaborator,
    arguments: &[Expr],
) -> Result<Allocation, NoMemory>
    ensures sizes { IfOk result (SizesZeroed walk.old walk.new arguments.now) }
    ensures zeroed { IfOk result (λ a. a.zeroed ≡ true) }
    ensures grows { OnOk result (Grows walk.old walk.new) }
{
    match arguments {
        [_, size] => {
            let element = zeroed_element(walk, size)?;
            Ok(Allocation {
                element,
                count: Count::Whole,
                zeroed: true,
            })
        }
        [] | [_] | [_, _, _, ..] => Err(nowhere()),
    }
}

/// How many elements there are, as a `size_t`.
#[cycle(walk)]
fn counted(
    walk: &mut Elaborator,
    e: &Expr,
    folded: bool,
) -> Result<Option<Boxed<TypedExpr>>, NoMemory>
    ensures counts { IfOk result (CountsAll walk.old walk.new e.now folded) }
    ensures grows { OnOk result (Grows walk.old walk.new) }
{
    match converted_operand(walk, e.ordinal, &ExprType::Listed(TypeId::SIZE)) {
        Ok(part) => {
            let count = part_of(walk, e, part, folded)?;
            Ok(Some(count))
        }
        Err(NoMemory) => Err(NoMemory),
    }
}

/// How many elements there are, by a factor of the size: it is a product.
#[cycle(walk)]
fn counted_by_factor(
    walk: &mut Elaborator,
    e: &Expr,
    is_left: bool,
    folded: bool,
) -> Result<Option<Boxed<TypedExpr>>, NoMemory>
    ensures counts { IfOk result (CountsFactor walk.old walk.new e.now is_left folded) }
    ensures grows { OnOk result (Grows walk.old walk.new) }
{
    match &e.form {
        ExprForm::Binary(_, left, right) => {
            if is_left {
                counted(walk, left.get(), folded)
            } else {
                counted(walk, right.get(), folded)
            }
        }
        ExprForm::SizeofExpr(_)
        | ExprForm::SizeofType(_)
        | ExprForm::Comma(_, _)
        | ExprForm::Assign(_, _, _)
        | ExprForm::Choice(_, _, _)
        | ExprForm::Cast(_, _)
        | ExprForm::Pre(_, _)
        | ExprForm::Prefix(_, _)
        | ExprForm::Index(_, _)
        | ExprForm::Call(_, _)
        | ExprForm::Member(_, _)
        | ExprForm::Arrow(_, _)
        | ExprForm::Post(_, _)
        | ExprForm::Word(_)
        | ExprForm::Number(_, _)
        | ExprForm::Char(_)
        | ExprForm::Text(_)
        | ExprForm::Paren(_) => Err(nowhere()),
    }
}

/// How many elements there are by the first argument of an allocation, where it isn't one object.
#[cycle(walk)]
fn count_of(
    walk: &mut Elaborator,
    e: &Expr,
    count: Count,
    folded: bool,
) -> Result<Option<Boxed<TypedExpr>>, NoMemory>
    ensures counts { IfOk result (CountsElements walk.old walk.new e.now count folded) }
    ensures grows { OnOk result (Grows walk.old walk.new) }
{
    match count {
        Count::One => Ok(None),
        Count::Whole => counted(walk, e, folded),
        Count::Left => counted_by_factor(walk, e, true, folded),
        Count::Right => counted_by_factor(walk, e, false, folded),
    }
}

/// A call of `malloc` or `calloc` that allocates this.
#[cycle(walk)]
pub(crate) fn allocate(
    walk: &mut Elaborator,
    allocation: Allocation,
    arguments: &[Expr],
    folded: bool,
) -> Result<TypedForm, NoMemory>
    ensures made { IfOk result (FormsAllocation walk.old walk.new allocation arguments.now folded) }
    ensures grows { OnOk result (Grows walk.old walk.new) }
{
    match arguments {
        [counting, ..] => {
            let count = count_of(walk, counting, allocation.count, folded)?;
            Ok(TypedForm::Library(LibraryCall::Allocate(
                allocation.element,
                count,
                allocation.zeroed,
            )))
        }
        [] => Err(nowhere()),
    }
}
