//! Where an address constant points to (C99 6.6, 9; 6.5.6, 7 and 8).
//!
//! The checker keeps of each whether it is one, and whether it stays in its array. What it is a place of, and
//! by which steps, is read off the syntax tree.
ghost use Rattle.std.specs.Prelude.{◌≡◌, IfOk, Some, true};
ghost use Rattle.lk_types.specs.Table.{Table};
ghost use Rattle.lk_typed.specs.Addresses.{inside, member_at, value as spec_value};
ghost use Rattle.lk_typed.specs.Env as env;
ghost use Rattle.lk_typed.specs.Meaning.{meaning_of};
ghost use Rattle.lk_typed.specs.Names.{meaning_in};
ghost use Rattle.lk_typed.specs.Ty as spec;
ghost use Rattle.lk_typed.specs.Typing as typing;
ghost use Rattle.lk_typed.specs.Typing.{Typing};
ghost use Rattle.lk_typed.specs.Typings.{IsOperand, IsTyping};
ghost use Rattle.lk_found.specs.Addresses.{declared_address, kept_of, prefix_address};
ghost use Rattle.lk_found.specs.declared.addresses.Address.TheVariants as kept_address;
ghost use Rattle.lk_elaborator.specs.Known.{OfEach};
ghost use Rattle.lk_elab_init.specs.Reaching.{HasAddress, HasNullValue, HasValueKept, IsConvertedReached, IsKept, IsMemberBehind};
ghost use Rattle.lk_elab_init.specs.Reaching.{IsMemberOf, IsMovedTo, IsNamed, IsReached, IsReachedAs, IsValueKept};
ghost use Rattle.lk_elab_init.specs.Reaching.{IsValueReached, MovesFrom, OfTyping, address_in, is_reached};

use crate::positions::{Anchor, Reached, whole};
use crate::type_forms::count_at;
use lk_base::{Name, NoMemory};
use lk_elaborator::{Elaborator, found_of, nowhere, number_behind, number_of, value_at};
use lk_found::{Address, Found, Meant, Place, value_address};
use lk_tree::{Expr, ExprForm, PrefixOperator};
use lk_typed::{Duration, ExprType, Meaning, Typed};
use lk_types::TypeTable;
use std::alloc::Global;

/// What the checker found of an expression that has a type.
#[derive(Clone, Copy)]
struct Kept {
    typing: Typed,
    /// What it kept of its address.
    address: Address,
}

/// What was found of an expression. Each has a type where no fault holds.
fn kept_of(found: &Found) -> Result<Kept, NoMemory>
    ensures { IfOk result (λ kept.
        (found.now.typing ≡ Some kept.typing) × (found.now.address ≡ kept.address)) }
{
    match found.typing {
        Some(typing) => Ok(Kept {
            typing,
            address: found.address,
        }),
        None => Err(nowhere()),
    }
}

/// What the checker found of the expression with a number.
fn kept_at(walk: &Elaborator, ordinal: u32) -> Result<Kept, NoMemory>
    ensures operand { IfOk result (λ kept. IsOperand walk.now.types kept.typing) }
    ensures kept { IfOk result (λ kept. OfEach walk.now ordinal (λ p. IsKept walk.now.types p kept)) }
{
    match found_of(walk, ordinal) {
        Ok(found) => kept_of(&found),
        Err(NoMemory) => Err(NoMemory),
    }
}

/// The address that was kept.
fn address_kept(kept: &Kept) -> Address
    ensures { result ≡ kept.now.address }
{
    kept.address
}

/// What the checker kept of the address of the expression with a number.
fn address_at(walk: &Elaborator, ordinal: u32) -> Result<Address, NoMemory>
    ensures { IfOk result (λ address. OfEach walk.now ordinal (λ p. HasAddress p address)) }
{
    match kept_at(walk, ordinal) {
        Ok(kept) => Ok(address_kept(&kept)),
        Err(NoMemory) => Err(NoMemory),
    }
}

/// Whether the value of an expression of which this is known is a null pointer constant.
fn is_null(v: &Typed) -> bool
    ensures { result ≡ v.now.is_null }
{
    v.is_null
}

/// Whether the value of the expression with a number is a null pointer constant (C99 6.3.2.3, 3).
fn is_null_at(walk: &Elaborator, ordinal: u32) -> Result<bool, NoMemory>
    ensures { IfOk result (λ null. OfEach walk.now ordinal (λ p. HasNullValue p null)) }
{
    match value_at(walk, ordinal) {
        Ok(v) => Ok(is_null(&v)),
        Err(NoMemory) => Err(NoMemory),
    }
}

/// Whether a type is an array.
fn is_array(types: &TypeTable, ty: &ExprType) -> Result<bool, NoMemory>
    ensures { IfOk result (λ is. is ≡ spec.is_array (meaning_of types.now ty.now)) }
{
    match ty {
        ExprType::Listed(t) => {
            let count = count_at(types, *t)?;
            Ok(count.is_some())
        }
        ExprType::PointerTo(_) => Ok(false),
    }
}

/// What the checker found of the value of an expression.
#[derive(Clone, Copy)]
pub(crate) struct ValueKept {
    /// What it kept of its address.
    address: Address,
    /// Whether it is the first element of an array, which the expression is (C99 6.3.2.1, 3).
    is_element: bool,
}

/// What the checker kept of the address of the value of an expression of which this was found.
fn value_address_kept(walk: &Elaborator, kept: &Kept) -> Address
    requires { IsOperand walk.now.types kept.now.typing }
    ensures { (x : Typing) → IsTyping walk.now.types kept.now.typing x →
        kept.now.address ≡ kept_of x.address → result ≡ kept_of (spec_value x).address }
{
    value_address(walk.types.table(), &kept.typing, kept.address)
}

/// Whether an expression of which this was found is an array.
fn is_array_kept(walk: &Elaborator, kept: &Kept) -> Result<bool, NoMemory>
    ensures { IfOk result (λ is. is ≡ spec.is_array (meaning_of walk.now.types kept.now.typing.ty)) }
{
    is_array(walk.types.table(), &kept.typing.ty)
}

/// What the checker found of the value of an expression of which this was found.
fn value_kept(walk: &Elaborator, kept: &Kept) -> Result<ValueKept, NoMemory>
    requires { IsOperand walk.now.types kept.now.typing }
    ensures { IfOk result (λ value. (x : Typing) → IsTyping walk.now.types kept.now.typing x →
        kept.now.address ≡ kept_of x.address → IsValueKept x value) }
{
    let address = value_address_kept(walk, kept);
    let is_element = is_array_kept(walk, kept)?;
    Ok(ValueKept {
        address,
        is_element,
    })
}

/// What the checker found of the value of the expression with a number.
fn value_kept_at(walk: &Elaborator, ordinal: u32) -> Result<ValueKept, NoMemory>
    ensures { IfOk result (λ value. OfEach walk.now ordinal (λ p. HasValueKept p value)) }
{
    match kept_at(walk, ordinal) {
        Ok(kept) => value_kept(walk, &kept),
        Err(NoMemory) => Err(NoMemory),
    }
}

/// What a name stands for: a function, or the place of an object of static storage.
fn declared(alloc: Global, meant: Meant) -> Result<Reached, NoMemory>
    ensures { IfOk result (λ r. (table : Table) (d : env.Declared) → d.ordinal ≡ meant.ordinal →
        d.meaning ≡ meaning_in table meant.meaning → declared_address d d.meaning ≡ address_in r) }
{
    match meant.meaning {
        Meaning::Object(_, Duration::Static) => Ok(whole(alloc, Anchor::Object(meant.ordinal))),
        Meaning::Function(_) => Ok(Reached::Function(meant.ordinal)),
        Meaning::Object(_, Duration::Automatic)
        | Meaning::Typedef(_)
        | Meaning::Enumerator(_)
        | Meaning::InitialiserWord(_)
        | Meaning::Faulty => Err(nowhere()),
    }
}

/// What the name with a number stands for.
fn named(walk: &Elaborator, ordinal: u32) -> Result<Reached, NoMemory>
    ensures { IfOk result (λ r. OfEach walk.now ordinal (λ p. IsNamed p r)) }
{
    match walk.records.meant(ordinal) {
        Some(meant) => declared(walk.alloc, meant),
        None => Err(nowhere()),
    }
}

/// The member with a number of the struct at a place.
fn member(at: Reached, number: u32) -> Result<Reached, NoMemory>
    ensures { IfOk result (λ r. (a : typing.Address) → is_reached (kept_of a) ≡ true →
        a ≡ inside (member_at number) (address_in at) → a ≡ address_in r) }
{
    match at {
        Reached::Inside(place) => {
            let part = place.member(number)?;
            Ok(Reached::Inside(part))
        }
        Reached::Null | Reached::Function(_) => Err(nowhere()),
    }
}

/// The first element of the array at a place, of which the checker kept this.
fn first_element(at: Reached, part: Place) -> Result<Reached, NoMemory>
    ensures { IfOk result (λ r. (x : Typing) → spec.is_array x.type ≡ true → x.address ≡ address_in at →
        kept_address.Inside part ≡ kept_of (spec_value x).address → (spec_value x).address ≡ address_in r) }
{
    match at {
        Reached::Inside(place) => {
            let element = place.first_element(part.count)?;
            Ok(Reached::Inside(element))
        }
        Reached::Null | Reached::Function(_) => Err(nowhere()),
    }
}

/// The place of the value of an expression that is at an address, of which the checker kept this: an array's
/// is that of its first element.
fn valued(is_element: bool, part: Place, at: Reached) -> Result<Reached, NoMemory>
    ensures { IfOk result (λ r. (x : Typing) → is_element ≡ spec.is_array x.type → x.address ≡ address_in at →
        kept_address.Inside part ≡ kept_of (spec_value x).address → (spec_value x).address ≡ address_in r) }
{
    if is_element {
        first_element(at, part)
    } else {
        Ok(at)
    }
}

/// The place that the checker kept of an address.
fn place_in(address: Address) -> Result<Place, NoMemory>
    ensures { IfOk result (λ place. address ≡ kept_address.Inside place) }
{
    match address {
        Address::Inside(place) => Ok(place),
        Address::NotAddress | Address::Null | Address::Function | Address::Nowhere => {
            Err(nowhere())
        }
    }
}

/// The place that moved from this one, of which the checker kept that.
fn moved(at: Reached, there: Place) -> Result<Reached, NoMemory>
    ensures { IfOk result (λ r. (a : typing.Address) →
        ((position : typing.Position) → address_in at ≡ typing.Inside position → MovesFrom position a) →
        kept_address.Inside there ≡ kept_of a → a ≡ address_in r) }
{
    match at {
        Reached::Inside(place) => Ok(Reached::Inside(place.moved(there.index))),
        Reached::Null | Reached::Function(_) => Err(nowhere()),
    }
}

/// The address that moved from that of the value of an expression, of which the checker kept this.
#[cycle(reached)]
fn moved_from(walk: &Elaborator, pointer: &Expr, address: Address) -> Result<Reached, NoMemory>
    ensures { IfOk result (λ r. IsMovedTo walk.now pointer.now address r) }
{
    let there = place_in(address)?;
    let at = value_of(walk, pointer)?;
    moved(at, there)
}

/// The member with a name of an object.
#[cycle(reached)]
fn member_of(walk: &Elaborator, object: &Expr, name: &Name) -> Result<Reached, NoMemory>
    ensures { IfOk result (λ r. IsMemberOf walk.now object.now name.now r) }
{
    let number = number_of(walk, object.ordinal, name)?;
    let at = address_of(walk, object)?;
    member(at, number)
}

/// The member with a name of the struct to which the value of an expression points.
#[cycle(reached)]
fn member_behind(walk: &Elaborator, pointer: &Expr, name: &Name) -> Result<Reached, NoMemory>
    ensures { IfOk result (λ r. IsMemberBehind walk.now pointer.now name.now r) }
{
    let number = number_behind(walk, pointer.ordinal, name)?;
    let at = value_of(walk, pointer)?;
    member(at, number)
}

/// The address that an operator keeps of its operand: `&` that of a place, `*` that of a value.
#[cycle(reached)]
fn prefixed(walk: &Elaborator, op: PrefixOperator, operand: &Expr) -> Result<Reached, NoMemory>
    ensures { IfOk result (λ r. OfTyping walk.now operand.now (λ x. prefix_address op x ≡ address_in r)) }
{
    match op {
        PrefixOperator::Address => address_of(walk, operand),
        PrefixOperator::Indirection => value_of(walk, operand),
        PrefixOperator::Plus
        | PrefixOperator::Minus
        | PrefixOperator::Complement
        | PrefixOperator::Not => Err(nowhere()),
    }
}

/// The function or the place that an expression is, of whose address the checker kept this.
#[cycle(reached)]
fn reached_by(walk: &Elaborator, e: &Expr, address: Address) -> Result<Reached, NoMemory>
    ensures { IfOk result (λ r. is_reached address ≡ true → IsReachedAs walk.now e.now address r) }
{
    match &e.form {
        ExprForm::Word(_) => named(walk, e.ordinal),
        ExprForm::Text(_) => Ok(whole(walk.alloc, Anchor::Text(e.ordinal))),
        ExprForm::Paren(inner) => address_of(walk, inner.get()),
        ExprForm::Prefix(op, operand) => prefixed(walk, *op, operand.get()),
        ExprForm::Index(pointer, _) | ExprForm::Binary(_, pointer, _) => {
            moved_from(walk, pointer.get(), address)
        }
        ExprForm::Member(object, name) => member_of(walk, object.get(), name),
        ExprForm::Arrow(pointer, name) => member_behind(walk, pointer.get(), name),
        ExprForm::Cast(_, operand) => converted_address(walk, operand.get()),
        ExprForm::Comma(..)
        | ExprForm::Assign(..)
        | ExprForm::Choice(..)
        | ExprForm::Pre(..)
        | ExprForm::SizeofExpr(_)
        | ExprForm::SizeofType(_)
        | ExprForm::Call(..)
        | ExprForm::Post(..)
        | ExprForm::Number(..)
        | ExprForm::Char(_) => Err(nowhere()),
    }
}

/// Where the address constant points that an expression is, or where the place is that it names.
#[cycle(reached)]
fn address_of(walk: &Elaborator, e: &Expr) -> Result<Reached, NoMemory>
    ensures { IfOk result (IsReached walk.now e.now) }
{
    let address = address_at(walk, e.ordinal)?;
    match address {
        Address::Null => Ok(Reached::Null),
        Address::Function | Address::Inside(_) => reached_by(walk, e, address),
        Address::NotAddress | Address::Nowhere => Err(nowhere()),
    }
}

/// Where the address constant points that the value of an expression is.
#[cycle(reached)]
fn value_of(walk: &Elaborator, e: &Expr) -> Result<Reached, NoMemory>
    ensures { IfOk result (IsValueReached walk.now e.now) }
{
    let value = value_kept_at(walk, e.ordinal)?;
    match value.address {
        Address::Null => Ok(Reached::Null),
        Address::Function => address_of(walk, e),
        Address::Inside(part) => {
            let at = address_of(walk, e)?;
            valued(value.is_element, part, at)
        }
        Address::NotAddress | Address::Nowhere => Err(nowhere()),
    }
}

/// Where the address constant points that the value of an expression is once it is converted to a pointer: a
/// null pointer constant is a null pointer (C99 6.3.2.3, 3).
#[cycle(reached)]
pub fn converted_address(walk: &Elaborator, e: &Expr) -> Result<Reached, NoMemory>
    ensures { IfOk result (IsConvertedReached walk.now e.now) }
{
    if is_null_at(walk, e.ordinal)? {
        Ok(Reached::Null)
    } else {
        value_of(walk, e)
    }
}
