//! Address constants, as far as a fault depends on them: whether an address stays in its array
//! (C99 6.5.6, 7 and 8; 6.6, 9).
ghost use Rattle.std.specs.Prelude.{◌≡◌, ℕ, ◌<◌};
ghost use Rattle.std.specs.Option.{option_map};
ghost use Rattle.lk_types.specs.Table.{Table, IsKnown};
ghost use Rattle.lk_typed.specs.Addresses as spec;
ghost use Rattle.lk_typed.specs.Conversions.{converted_address};
ghost use Rattle.lk_typed.specs.Env as env;
ghost use Rattle.lk_typed.specs.Meaning.{meaning};
ghost use Rattle.lk_typed.specs.Names.{declared_in, is_static, meaning_in};
ghost use Rattle.lk_typed.specs.Statics.{is_address as spec_is_address};
ghost use Rattle.lk_typed.specs.Typing as typing;
ghost use Rattle.lk_typed.specs.Typing.{Anchor, Position, Typing};
ghost use Rattle.lk_typed.specs.Typings.{IsOperand, IsTyping};
ghost use Rattle.lk_typed.specs.Words.{address_of_storage, whole_of};
ghost use Rattle.lk_typed.specs.declared.constant.Constant.TheVariants.{Known};
ghost use Rattle.lk_found.specs.Addresses.{binary_address, cast_address, declared_address, kept_of, moved_by_operator, name_address, place_of, prefix_address};

use lk_tree::{BinaryOperator, PrefixOperator};
use lk_typed::{
    Constant, Declared, Duration, ExprType, Meaning, Typed, form, is_integer, is_pointer,
};
use lk_types::{CType, TypeId, TypeTable};

/// A place of static storage: an element of an array, or one past the last; what is no
/// element counts as an array of one.
#[derive(Clone, Copy)]
pub struct Place {
    /// The number of the element.
    pub index: u64,
    /// How many elements the array has; the most that an array may have where that isn't known.
    pub count: u64,
}

/// What an address constant points to, or where a place of static storage is.
#[derive(Clone, Copy)]
pub enum Address {
    /// It is no address constant.
    NotAddress,
    /// The null pointer.
    Null,
    /// A function.
    Function,
    /// A place of static storage.
    Inside(Place),
    /// Arithmetic that leaves its array and its end, or a part of what isn't there.
    Nowhere,
}

/// The most elements that an array may have.
const MOST_ELEMENTS: u64 = 1_048_576;

/// The place of what has static storage.
pub fn whole() -> Address
    ensures { (anchor : Anchor) → result ≡ kept_of (whole_of anchor) }
{
    Address::Inside(Place { index: 0, count: 1 })
}

/// Whether it is an address constant.
pub fn is_address(address: Address) -> bool
    ensures { (x : typing.Address) → address ≡ kept_of x → result ≡ spec_is_address x }
{
    match address {
        Address::Null | Address::Function | Address::Inside(_) => true,
        Address::NotAddress | Address::Nowhere => false,
    }
}

/// A part of a place that is there: the first of so many elements.
fn part(count: u64, place: Place) -> Address
    ensures { (position other : Position) → place ≡ place_of position →
        place_of other ≡ record { index = 0; count = count } → result ≡ kept_of (spec.part_of position other) }
{
    if place.index < place.count {
        Address::Inside(Place { index: 0, count })
    } else {
        Address::Nowhere
    }
}

/// A part of what is at an address: the first of so many elements.
fn inside(count: u64, address: Address) -> Address
    ensures { (inner : Position → Position) (x : typing.Address) →
        ((position : Position) → place_of (inner position) ≡ record { index = 0; count = count }) →
        address ≡ kept_of x → result ≡ kept_of (spec.inside inner x) }
{
    match address {
        Address::NotAddress => Address::NotAddress,
        Address::Null | Address::Function | Address::Nowhere => Address::Nowhere,
        Address::Inside(place) => part(count, place),
    }
}

/// A member of the struct at an address.
pub fn member(address: Address) -> Address
    ensures { (k : ℕ) (x : typing.Address) → address ≡ kept_of x →
        result ≡ kept_of (spec.inside (spec.member_at k) x) }
{
    inside(1, address)
}

/// A place with so much added to its index.
fn moved_place(place: Place, by: i128) -> Address
    ensures { (position : Position) → place ≡ place_of position →
        result ≡ kept_of (spec.moved_by by (typing.Inside position)) }
{
    let index = i128::from(place.index);
    let count = i128::from(place.count);
    if by >= -index && by <= count - index {
        Address::Inside(Place {
            index: (index + by) as u64,
            count: place.count,
        })
    } else {
        Address::Nowhere
    }
}

/// A place with so much taken from its index.
fn moved_back_place(place: Place, by: i128) -> Address
    ensures { (position : Position) → place ≡ place_of position →
        result ≡ kept_of (spec.moved_back (typing.Inside position) (Known by)) }
{
    let index = i128::from(place.index);
    let count = i128::from(place.count);
    if by <= index && by >= index - count {
        Address::Inside(Place {
            index: (index - by) as u64,
            count: place.count,
        })
    } else {
        Address::Nowhere
    }
}

/// An address with so much added to its index.
fn moved_by(address: Address, by: i128) -> Address
    ensures { (x : typing.Address) → address ≡ kept_of x → result ≡ kept_of (spec.moved_by by x) }
{
    match address {
        Address::NotAddress => Address::NotAddress,
        Address::Null | Address::Function | Address::Nowhere => Address::Nowhere,
        Address::Inside(place) => moved_place(place, by),
    }
}

/// An address with so much taken from its index.
fn moved_back_by(address: Address, by: i128) -> Address
    ensures { (x : typing.Address) → address ≡ kept_of x → result ≡ kept_of (spec.moved_back x (Known by)) }
{
    match address {
        Address::NotAddress => Address::NotAddress,
        Address::Null | Address::Function | Address::Nowhere => Address::Nowhere,
        Address::Inside(place) => moved_back_place(place, by),
    }
}

/// An address with an integer constant added to it.
pub fn moved(address: Address, by: Constant) -> Address
    ensures { (x : typing.Address) → address ≡ kept_of x → result ≡ kept_of (spec.moved x by) }
{
    match by {
        Constant::NotConstant => Address::NotAddress,
        Constant::Undefined => Address::Nowhere,
        Constant::Known(n) => moved_by(address, n),
    }
}

/// An address with an integer constant taken from it.
fn moved_back(address: Address, by: Constant) -> Address
    ensures { (x : typing.Address) → address ≡ kept_of x → result ≡ kept_of (spec.moved_back x by) }
{
    match by {
        Constant::NotConstant => Address::NotAddress,
        Constant::Undefined => Address::Nowhere,
        Constant::Known(n) => moved_back_by(address, n),
    }
}

/// How many elements an array has; one without a size counts as one with the most that an array may have.
#[tactic(auto, unfolding(lk_typed::specs::DeclaratorRules::most_elements))]
fn count_of(count: u64) -> u64
    ensures { result ≡ spec.count_of count }
{
    if count == 0 { MOST_ELEMENTS } else { count }
}

/// The address of what a value keeps of what was found: what a place holds is no constant.
fn read(typed: &Typed, address: Address) -> Address
    ensures { (table : Table) (x : Typing) → IsTyping table typed.now x → address ≡ kept_of x.address →
        result ≡ kept_of (spec.read x).address }
{
    if typed.is_place {
        Address::NotAddress
    } else {
        address
    }
}

/// The address of the first element of an array, where it is the value of one.
fn first_element(count: u64, address: Address) -> Address
    ensures { (x : typing.Address) → address ≡ kept_of x →
        result ≡ kept_of (spec.inside (spec.first_element (spec.count_of count)) x) }
{
    inside(count_of(count), address)
}

/// The address of the value of an expression of a type of the table.
fn listed_address(types: &TypeTable, t: TypeId, typed: &Typed, address: Address) -> Address
    requires { IsKnown types.now t }
    ensures { (x : Typing) → meaning types.now t ≡ x.type → IsTyping types.now typed.now x →
        address ≡ kept_of x.address → result ≡ kept_of (spec.value x).address }
{
    match form(types, t) {
        CType::Array(_, count) => first_element(*count, address),
        CType::Function { .. } => address,
        CType::Void
        | CType::Int(_)
        | CType::ThreadId
        | CType::Mutex
        | CType::Cond
        | CType::Pointer(_)
        | CType::Struct(_)
        | CType::Opaque(_) => read(typed, address),
    }
}

/// The address of the value of an expression: that of an array is that of its first element (C99 6.3.2.1).
pub fn value_address(types: &TypeTable, typed: &Typed, address: Address) -> Address
    requires { IsOperand types.now typed.now }
    ensures { (x : Typing) → IsTyping types.now typed.now x → address ≡ kept_of x.address →
        result ≡ kept_of (spec.value x).address }
{
    match typed.ty {
        ExprType::Listed(t) => listed_address(types, t, typed, address),
        ExprType::PointerTo(_) => read(typed, address),
    }
}

/// The address that an operator makes of one and an integer constant.
fn moved_by_operator(op: BinaryOperator, address: Address, by: Constant) -> Address
    ensures { (x : typing.Address) → address ≡ kept_of x → result ≡ kept_of (moved_by_operator op x by) }
{
    match op {
        BinaryOperator::Add => moved(address, by),
        BinaryOperator::Subtract => moved_back(address, by),
        BinaryOperator::Or
        | BinaryOperator::And
        | BinaryOperator::BitOr
        | BinaryOperator::BitXor
        | BinaryOperator::BitAnd
        | BinaryOperator::Equal
        | BinaryOperator::NotEqual
        | BinaryOperator::Less
        | BinaryOperator::Greater
        | BinaryOperator::LessEqual
        | BinaryOperator::GreaterEqual
        | BinaryOperator::ShiftLeft
        | BinaryOperator::ShiftRight
        | BinaryOperator::Multiply
        | BinaryOperator::Divide
        | BinaryOperator::Remainder => Address::NotAddress,
    }
}

/// The address that an operator makes of two values: a pointer that moves by an integer.
pub fn binary(types: &TypeTable, op: BinaryOperator, a: &Typed, at: Address, b: &Typed) -> Address
    requires first { IsOperand types.now a.now }
    requires second { IsOperand types.now b.now }
    ensures { (x y : Typing) → IsTyping types.now a.now x → IsTyping types.now b.now y →
        at ≡ kept_of x.address →
        result ≡ kept_of (binary_address op x y) }
{
    if is_pointer(types, &a.ty) && is_integer(types, &b.ty) {
        moved_by_operator(op, at, b.constant)
    } else {
        Address::NotAddress
    }
}

/// The address that an operator makes of its operand: `&` keeps the address of a place, `*` that of a value.
pub fn prefix(types: &TypeTable, op: PrefixOperator, a: &Typed, address: Address) -> Address
    requires { IsOperand types.now a.now }
    ensures { (x : Typing) → IsTyping types.now a.now x → address ≡ kept_of x.address →
        result ≡ kept_of (prefix_address op x) }
{
    match op {
        PrefixOperator::Address => address,
        PrefixOperator::Indirection => value_address(types, a, address),
        PrefixOperator::Plus
        | PrefixOperator::Minus
        | PrefixOperator::Complement
        | PrefixOperator::Not => Address::NotAddress,
    }
}

/// The address of a pointer, by whether it is a null pointer constant.
fn pointer_address(is_null: bool, address: Address) -> Address
    ensures { (x : Typing) → is_null ≡ x.is_null → address ≡ kept_of x.address →
        result ≡ kept_of (converted_address x) }
{
    if is_null { Address::Null } else { address }
}

/// The address that a value has after a cast to a type.
pub fn cast(types: &TypeTable, target: TypeId, v: &Typed, address: Address) -> Address
    requires { IsKnown types.now target }
    ensures { (x : Typing) → IsTyping types.now v.now x → address ≡ kept_of x.address →
        result ≡ kept_of (cast_address (meaning types.now target) x) }
{
    if is_pointer(types, &ExprType::Listed(target)) {
        pointer_address(v.is_null, address)
    } else {
        Address::NotAddress
    }
}

/// The address of an object: the place of one that lasts as long as the program.
fn stored(duration: Duration) -> Address
    ensures { (n : ℕ) → result ≡ kept_of (address_of_storage (is_static duration) n) }
{
    match duration {
        Duration::Static => whole(),
        Duration::Automatic => Address::NotAddress,
    }
}

/// The address of what a name stands for.
fn declared_address(meaning: Meaning) -> Address
    ensures { (table : Table) (d : env.Declared) → meaning_in table meaning ≡ d.meaning →
        result ≡ kept_of (declared_address d d.meaning) }
{
    match meaning {
        Meaning::Object(_, duration) => stored(duration),
        Meaning::Function(_) => Address::Function,
        Meaning::Typedef(_)
        | Meaning::Enumerator(_)
        | Meaning::InitialiserWord(_)
        | Meaning::Faulty => Address::NotAddress,
    }
}

/// The address of a name.
pub fn named(found: Option<&Declared>) -> Address
    ensures { (table : Table) →
        result ≡ kept_of (name_address (option_map (λ d. declared_in table d.now) found.entry)) }
{
    match found {
        Some(declared) => declared_address(declared.meaning),
        None => Address::NotAddress,
    }
}
