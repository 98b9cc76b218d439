//! The conversions between integer kinds (C99 6.3.1).
ghost use Rattle.std.specs.Prelude.{◌≡◌, ◌<◌, ◌≤◌, ◌^◌, ◌*◌, ◌<ℤ◌, pos};
ghost use Rattle.lk_arith.specs.Kinds.{IsValue};
ghost use Rattle.lk_arith.specs.Conversions as spec;

use crate::kinds::{greatest, is_signed, is_value, least, width};
use lk_base::Kind;

/// 2 to a power of at most 64.
pub(crate) fn power_of_two(places: u32) -> i128
    requires { places ≤ 64 }
    ensures { result ≡ pos (2 ^ places) }
{
    1 << places
}

/// How many numbers a kind's bits can tell apart: 2 to the width.
fn size(kind: Kind) -> i128
    ensures { result ≡ spec.size kind }
{
    power_of_two(width(kind))
}

/// The low bits of a number in two's complement, as many as the kind has.
pub(crate) fn bits_of(kind: Kind, number: i128) -> u64
    ensures exact { result ≡ spec.bits_of kind number }
    ensures bound { pos result <ℤ spec.size kind }
{
    number.rem_euclid(size(kind)) as u64
}

/// The value of the kind that has these bits.
fn from_bits(kind: Kind, bits: u64) -> i128
    requires { pos bits <ℤ spec.size kind }
    ensures exact { result ≡ spec.from_bits kind bits }
    ensures value { IsValue kind result }
{
    let value = i128::from(bits);
    if is_value(kind, value) {
        value
    } else {
        value - size(kind)
    }
}

/// The number converted to the kind, for any number: to `_Bool` 1 where it isn't zero, else 0
/// (C99 6.3.1.2); to any other kind the value that has the number's low bits in two's complement
/// (C99 6.3.1.3). What the kind has stays as it is.
#[tactic(auto, unfolding(crate::specs::Conversions::convert))]
pub fn convert(kind: Kind, number: i128) -> i128
    ensures exact { result ≡ spec.convert kind number }
    ensures value { IsValue kind result }
    ensures same { IsValue kind number → result ≡ number }
{
    match kind {
        Kind::Bool => i128::from(number != 0),
        Kind::Char
        | Kind::SChar
        | Kind::UChar
        | Kind::Short
        | Kind::UShort
        | Kind::Int
        | Kind::UInt
        | Kind::Long
        | Kind::ULong
        | Kind::LLong
        | Kind::ULLong => from_bits(kind, bits_of(kind, number)),
    }
}

/// The product of two numbers of 64 bits, converted to the kind.
#[tactic(auto, unfolding(crate::specs::Conversions::convert))]
pub(crate) fn convert_product(kind: Kind, a: u128, b: u128) -> i128
    requires first { a < 2 ^ 64 }
    requires second { b < 2 ^ 64 }
    ensures exact { result ≡ spec.convert kind (pos (a * b)) }
    ensures value { IsValue kind result }
{
    let product = a * b;
    match kind {
        Kind::Bool => i128::from(product != 0),
        Kind::Char
        | Kind::SChar
        | Kind::UChar
        | Kind::Short
        | Kind::UShort
        | Kind::Int
        | Kind::UInt
        | Kind::Long
        | Kind::ULong
        | Kind::LLong
        | Kind::ULLong => from_bits(kind, (product % size(kind) as u128) as u64),
    }
}

/// The kind to which the integer promotions bring an operand of the kind (C99 6.3.1.1).
#[tactic(auto, unfolding(crate::specs::Conversions::promoted))]
pub fn promoted(kind: Kind) -> Kind
    ensures { result ≡ spec.promoted kind }
{
    match kind {
        Kind::Bool
        | Kind::Char
        | Kind::SChar
        | Kind::UChar
        | Kind::Short
        | Kind::UShort
        | Kind::Int => Kind::Int,
        Kind::UInt => Kind::UInt,
        Kind::Long => Kind::Long,
        Kind::ULong => Kind::ULong,
        Kind::LLong => Kind::LLong,
        Kind::ULLong => Kind::ULLong,
    }
}

/// The conversion rank of a kind, as a number from 0 to 5 (C99 6.3.1.1).
fn rank(kind: Kind) -> u32
    ensures { result ≡ spec.rank kind }
{
    match kind {
        Kind::Bool => 0,
        Kind::Char | Kind::SChar | Kind::UChar => 1,
        Kind::Short | Kind::UShort => 2,
        Kind::Int | Kind::UInt => 3,
        Kind::Long | Kind::ULong => 4,
        Kind::LLong | Kind::ULLong => 5,
    }
}

/// The unsigned kind of the same rank (C99 6.2.5).
fn unsigned_of(kind: Kind) -> Kind
    ensures { result ≡ spec.unsigned_of kind }
{
    match kind {
        Kind::Bool => Kind::Bool,
        Kind::Char | Kind::SChar | Kind::UChar => Kind::UChar,
        Kind::Short | Kind::UShort => Kind::UShort,
        Kind::Int | Kind::UInt => Kind::UInt,
        Kind::Long | Kind::ULong => Kind::ULong,
        Kind::LLong | Kind::ULLong => Kind::ULLong,
    }
}

/// Whether the kind has all values of another one.
fn holds_all(kind: Kind, other: Kind) -> bool
    ensures { result ≡ spec.holds_all kind other }
{
    is_value(kind, least(other)) && is_value(kind, greatest(other))
}

/// The common kind of an unsigned kind and a signed one.
fn mixed_kind(unsigned: Kind, signed: Kind) -> Kind
    ensures { result ≡ spec.mixed_kind unsigned signed }
{
    if rank(signed) <= rank(unsigned) {
        unsigned
    } else if holds_all(signed, unsigned) {
        signed
    } else {
        unsigned_of(signed)
    }
}

/// The common kind of two promoted kinds.
fn common_kind(a: Kind, b: Kind) -> Kind
    ensures { result ≡ spec.common_kind a b }
{
    match (is_signed(a), is_signed(b)) {
        (true, true) | (false, false) => { if rank(a) < rank(b) { b } else { a } }
        (true, false) => mixed_kind(b, a),
        (false, true) => mixed_kind(a, b),
    }
}

/// The common kind to which the usual arithmetic conversions bring operands of the two kinds (C99 6.3.1.8).
#[tactic(auto, unfolding(crate::specs::Conversions::usual))]
pub fn usual(a: Kind, b: Kind) -> Kind
    ensures { result ≡ spec.usual a b }
{
    common_kind(promoted(a), promoted(b))
}
