//! Numbers: how far one goes, its value and its kind.
ghost use Rattle.std.specs.Prelude.{◌≡◌, ◌≤◌, length, nat_le};
ghost use Rattle.std.specs.List.{find};
ghost use Rattle.lk_lex.specs.Numbers as spec;
ghost use Rattle.lk_lex.specs.Numbers.{number_len, goes_on, suffix_of, greatest, kinds, kind_of, constant_of, constant, number_of};

use crate::base::Base;
use crate::bytes::{is_among, is_word_byte};
use lk_base::Kind;

/// The length that a suffix gives a constant.
#[derive(Clone, Copy)]
pub enum Length {
    /// No `l`.
    Plain,
    /// `l` or `L`.
    Long,
    /// `ll` or `LL`.
    LongLong,
}

/// The suffix of an integer constant (C99 6.4.4.1).
#[derive(Clone, Copy)]
pub struct Suffix {
    /// Whether it has a `u` or `U`.
    pub unsigned: bool,
    pub length: Length,
}

/// An integer constant's kind and value.
#[derive(Clone, Copy)]
pub struct Number {
    pub kind: Kind,
    pub value: u64,
}

/// Whether a preprocessing number goes on with this byte, by the byte before it.
fn goes_on(before: u8, byte: u8) -> bool
    ensures { result ≡ goes_on before byte }
{
    is_word_byte(byte)
        || byte == b'.'
        || matches!(byte, b'+' | b'-') && matches!(before, b'e' | b'E' | b'p' | b'P')
}

/// How many bytes the preprocessing number in front has.
pub fn number_len(bytes: &[u8]) -> usize
    ensures value { result ≡ number_len 0 bytes.now }
    ensures within { result ≤ length bytes.now }
{
    let mut before = 0;
    for (len, byte) in bytes.iter().enumerate() {
        if !goes_on(before, *byte) {
            return len;
        }
        before = *byte;
    }
    bytes.len()
}

/// The suffix that these bytes are.
#[tactic(auto, unfolding(crate::specs::Numbers::suffix_of))]
fn suffix_of(bytes: &[u8]) -> Option<Suffix>
    ensures { result ≡ suffix_of bytes.now }
{
    if bytes.is_empty() {
        return with_suffix(false, Length::Plain);
    }
    if is_among(bytes, &["u", "U"]) {
        return with_suffix(true, Length::Plain);
    }
    if is_among(bytes, &["l", "L"]) {
        return with_suffix(false, Length::Long);
    }
    if is_among(bytes, &["ll", "LL"]) {
        return with_suffix(false, Length::LongLong);
    }
    if is_among(bytes, &["ul", "uL", "Ul", "UL", "lu", "lU", "Lu", "LU"]) {
        return with_suffix(true, Length::Long);
    }
    if is_among(
        bytes,
        &["ull", "uLL", "Ull", "ULL", "llu", "llU", "LLu", "LLU"],
    ) {
        return with_suffix(true, Length::LongLong);
    }
    None
}

/// A suffix.
fn with_suffix(unsigned: bool, length: Length) -> Option<Suffix>
    ensures { result ≡ spec.with_suffix unsigned length }
{
    Some(Suffix { unsigned, length })
}

/// The greatest value of a kind.
fn greatest(kind: Kind) -> u64
    ensures { result ≡ greatest kind }
{
    match kind {
        Kind::Bool => 1,
        Kind::Char | Kind::SChar => 127,
        Kind::UChar => 255,
        Kind::Short => 32_767,
        Kind::UShort => 65_535,
        Kind::Int => 2_147_483_647,
        Kind::UInt => 4_294_967_295,
        Kind::Long | Kind::LLong => 9_223_372_036_854_775_807,
        Kind::ULong | Kind::ULLong => 18_446_744_073_709_551_615,
    }
}

/// The kinds that a constant may have, the first that holds its value being taken.
fn kinds(suffix: Suffix, decimal: bool) -> &'static [Kind]
    ensures { result.now ≡ kinds suffix.unsigned suffix.length decimal }
{
    use Kind::{Int, LLong, Long, UInt, ULLong, ULong};
    match (suffix.unsigned, suffix.length, decimal) {
        (false, Length::Plain, true) => &[Int, Long, LLong],
        (false, Length::Plain, false) => &[Int, UInt, Long, ULong, LLong, ULLong],
        (true, Length::Plain, true | false) => &[UInt, ULong, ULLong],
        (false, Length::Long, true) => &[Long, LLong],
        (false, Length::Long, false) => &[Long, ULong, LLong, ULLong],
        (true, Length::Long, true | false) => &[ULong, ULLong],
        (false, Length::LongLong, true) => &[LLong],
        (false, Length::LongLong, false) => &[LLong, ULLong],
        (true, Length::LongLong, true | false) => &[ULLong],
    }
}

/// The first of the kinds that holds the value.
fn first_that_holds(kinds: &[Kind], value: u64) -> Option<Kind>
    ensures { result ≡ find (λ kind. nat_le value (greatest kind)) kinds.now }
{
    kinds.iter().copied().find(|kind| value <= greatest(*kind))
}

/// The kind of a constant of this value.
#[tactic(auto, unfolding(crate::specs::Numbers::kind_of))]
fn kind_of(base: Base, suffix: Suffix, value: u64) -> Option<Kind>
    ensures { result ≡ kind_of base suffix value }
{
    let decimal = matches!(base, Base::Decimal);
    first_that_holds(kinds(suffix, decimal), value)
}

/// The constant of these digits and this suffix.
fn constant_of(base: Base, digits: &[u8], rest: &[u8]) -> Option<Number>
    ensures { result ≡ constant_of base digits.now rest.now }
{
    if digits.is_empty() {
        return None;
    }
    let suffix = suffix_of(rest)?;
    let value = base.value_of(digits)?;
    let kind = kind_of(base, suffix, value)?;
    Some(Number { kind, value })
}

/// The integer constant whose digits in this base, and suffix, these bytes are.
fn constant(base: Base, text: &[u8]) -> Option<Number>
    ensures { result ≡ constant base text.now }
{
    let (digits, rest) = text.split_at(base.digits_len(text));
    constant_of(base, digits, rest)
}

/// The integer constant that a text is.
#[tactic(auto, unfolding(crate::specs::Numbers::number_of))]
pub fn number_of(text: &[u8]) -> Option<Number>
    ensures { result ≡ number_of text.now }
{
    if text.starts_with(b"0x") || text.starts_with(b"0X") {
        let (_, digits) = text.split_at(2);
        return constant(Base::Hexadecimal, digits);
    }
    if text.starts_with(b"0") {
        return constant(Base::Octal, text);
    }
    constant(Base::Decimal, text)
}
