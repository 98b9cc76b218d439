//! Escapes, characters and texts, and the names of files in line marks.
ghost use Rattle.std.specs.Prelude.{◌≡◌, ◌+◌, ◌<◌, ◌≤◌, ◌++◌, length, IfSome, OnOk, OnErr};
ghost use Rattle.lk_lex.specs.Answer.{Extends};
ghost use Rattle.lk_lex.specs.Characters as spec;
ghost use Rattle.lk_lex.specs.Characters.{byte_of, octal_escape, hexadecimal_escape, escape_by, escape, octal_name_escape, name_escape_by, name_escape, escape_in, is_plain, quoted_len, quoted_bytes, character, as_signed};
ghost use Rattle.lk_lex.specs.Lengths.{IsWithin};

use crate::base::Base;
use lk_base::NoMemory;

/// The code of `\a` (C99 5.2.2).
const ALERT: u8 = 7;

/// The code of `\b`.
const BACKSPACE: u8 = 8;

/// The code of `\v`.
const VERTICAL_TAB: u8 = 11;

/// The code of `\f`.
const FORM_FEED: u8 = 12;

/// The greatest value of a character.
const GREATEST_BYTE: u64 = 255;

/// What double quotes enclose.
#[derive(Clone, Copy)]
pub enum Quotation {
    /// A string literal.
    Text,
    /// The name of a file in a line mark.
    FileName,
}

/// One character between quotes.
#[derive(Clone, Copy)]
pub struct Item {
    /// How many bytes it is written with.
    pub len: usize,
    /// Its value.
    pub value: u8,
}

/// The value of these digits, where it is at most 255.
#[tactic(auto, unfolding(crate::specs::Characters::byte_of))]
fn byte_of(base: Base, digits: &[u8]) -> Option<u8>
    ensures { result ≡ byte_of base digits.now }
{
    let value = base.value_of(digits)?;
    if value > GREATEST_BYTE {
        return None;
    }
    Some(value as u8)
}

/// The value of the escape that is a backslash and this byte.
fn simple_escape(byte: u8) -> Option<u8>
    ensures { result ≡ spec.simple_escape byte }
{
    match byte {
        b'\'' => Some(b'\''),
        b'"' => Some(b'"'),
        b'?' => Some(b'?'),
        b'\\' => Some(b'\\'),
        b'a' => Some(ALERT),
        b'b' => Some(BACKSPACE),
        b'f' => Some(FORM_FEED),
        b'n' => Some(b'\n'),
        b'r' => Some(b'\r'),
        b't' => Some(b'\t'),
        b'v' => Some(VERTICAL_TAB),
        _ => None,
    }
}

/// One to three octal digits behind a backslash.
fn octal_escape(bytes: &[u8]) -> Option<Item>
    ensures value { result ≡ octal_escape bytes.now }
    ensures within { IfSome result (λ item. IsWithin (length bytes.now + 1) item.len) }
{
    let len = Base::Octal.digits_len(bytes).min(3);
    let (digits, _) = bytes.split_at(len);
    let value = byte_of(Base::Octal, digits)?;
    Some(Item {
        len: len + 1,
        value,
    })
}

/// Hexadecimal digits behind `\x`.
fn hexadecimal_escape(bytes: &[u8]) -> Option<Item>
    ensures value { result ≡ hexadecimal_escape bytes.now }
    ensures within { IfSome result (λ item. IsWithin (length bytes.now + 2) item.len) }
{
    let len = Base::Hexadecimal.digits_len(bytes);
    if len == 0 {
        return None;
    }
    let (digits, _) = bytes.split_at(len);
    let value = byte_of(Base::Hexadecimal, digits)?;
    Some(Item {
        len: len + 2,
        value,
    })
}

/// The character of this value that a backslash and one byte write.
fn two_bytes(value: u8) -> Item
    ensures { result ≡ spec.item_of 2 value }
{
    Item { len: 2, value }
}

/// An escape, by the first byte and all bytes behind its backslash.
fn escape_by(first: u8, bytes: &[u8]) -> Option<Item>
    requires { 0 < length bytes.now }
    ensures value { result ≡ escape_by first bytes.now }
    ensures within { IfSome result (λ item. IsWithin (length bytes.now + 1) item.len) }
{
    if Base::Octal.has_digit(first) {
        return octal_escape(bytes);
    }
    if first == b'x' {
        let (_, digits) = bytes.split_at(1);
        return hexadecimal_escape(digits);
    }
    let value = simple_escape(first)?;
    Some(two_bytes(value))
}

/// An escape, by what stands behind its backslash.
fn escape(bytes: &[u8]) -> Option<Item>
    ensures value { result ≡ escape bytes.now }
    ensures within { IfSome result (λ item. IsWithin (length bytes.now + 1) item.len) }
{
    match bytes.first() {
        Some(first) => escape_by(*first, bytes),
        None => None,
    }
}

/// Three octal digits behind a backslash in a line mark.
fn octal_name_escape(bytes: &[u8]) -> Option<Item>
    ensures value { result ≡ octal_name_escape bytes.now }
    ensures within { IfSome result (λ item. IsWithin (length bytes.now + 1) item.len) }
{
    if Base::Octal.digits_len(bytes) < 3 {
        return None;
    }
    let (digits, _) = bytes.split_at(3);
    let value = byte_of(Base::Octal, digits)?;
    if value < b' ' {
        return None;
    }
    Some(Item { len: 4, value })
}

/// An escape in a line mark, by the first byte and all bytes behind its backslash.
fn name_escape_by(first: u8, bytes: &[u8]) -> Option<Item>
    requires { 0 < length bytes.now }
    ensures value { result ≡ name_escape_by first bytes.now }
    ensures within { IfSome result (λ item. IsWithin (length bytes.now + 1) item.len) }
{
    if first == b'\\' || first == b'"' {
        return Some(two_bytes(first));
    }
    octal_name_escape(bytes)
}

/// An escape in a line mark, by what stands behind its backslash.
fn name_escape(bytes: &[u8]) -> Option<Item>
    ensures value { result ≡ name_escape bytes.now }
    ensures within { IfSome result (λ item. IsWithin (length bytes.now + 1) item.len) }
{
    match bytes.first() {
        Some(first) => name_escape_by(*first, bytes),
        None => None,
    }
}

/// An escape, by what stands behind its backslash.
fn escape_in(quotation: Quotation, bytes: &[u8]) -> Option<Item>
    ensures value { result ≡ escape_in quotation bytes.now }
    ensures within { IfSome result (λ item. IsWithin (length bytes.now + 1) item.len) }
{
    match quotation {
        Quotation::Text => escape(bytes),
        Quotation::FileName => name_escape(bytes),
    }
}

/// Whether a byte other than a backslash stands for itself.
fn is_plain(quotation: Quotation, byte: u8) -> bool
    ensures { result ≡ is_plain quotation byte }
{
    match quotation {
        Quotation::Text => byte != b'\n',
        Quotation::FileName => byte >= b' ',
    }
}

/// The character in front, by its first byte and all bytes.
fn item_by(quotation: Quotation, first: u8, bytes: &[u8]) -> Option<Item>
    requires { 0 < length bytes.now }
    ensures value { result ≡ spec.item_by quotation first bytes.now }
    ensures within { IfSome result (λ item. IsWithin (length bytes.now) item.len) }
{
    if first == b'\\' {
        let (_, others) = bytes.split_at(1);
        return escape_in(quotation, others);
    }
    if !is_plain(quotation, first) {
        return None;
    }
    Some(Item {
        len: 1,
        value: first,
    })
}

/// The character in front.
fn item_in_front(quotation: Quotation, bytes: &[u8]) -> Option<Item>
    ensures value { result ≡ spec.item quotation bytes.now }
    ensures within { IfSome result (λ item. IsWithin (length bytes.now) item.len) }
{
    match bytes.first() {
        Some(first) => item_by(quotation, *first, bytes),
        None => None,
    }
}

/// How many bytes there are up to the closing quote and with it, where these
/// bytes are characters and a quote.
pub fn quoted_len(quotation: Quotation, bytes: &[u8]) -> Option<usize>
    ensures value { result ≡ quoted_len quotation 0 bytes.now }
    ensures within { IfSome result (λ len. len ≤ length bytes.now) }
{
    let mut rest = bytes;
    let mut len = 0;
    while let Some(byte) = rest.first() {
        if *byte == b'"' {
            return Some(len + 1);
        }
        let item = item_in_front(quotation, rest)?;
        let (_, others) = rest.split_at(item.len);
        rest = others;
        len += item.len;
    }
    None
}

/// Puts the values of the characters up to the closing quote at the end of `out`.
pub fn push_quoted(quotation: Quotation, bytes: &[u8], out: &mut Vec<u8>) -> Result<(), NoMemory>
    ensures ok { OnOk result (out.new.items ≡ out.old.items ++ quoted_bytes quotation 0 bytes.now) }
    ensures err { OnErr result (Extends out.old.items out.new.items) }
{
    let mut rest = bytes;
    while let Some(byte) = rest.first() {
        if *byte == b'"' {
            return Ok(());
        }
        let Some(item) = item_in_front(quotation, rest) else {
            return Ok(());
        };
        out.push(item.value)?;
        let (_, others) = rest.split_at(item.len);
        rest = others;
    }
    Ok(())
}

/// The one character between single quotes, by what stands behind the first of them.
#[tactic(auto, unfolding(crate::specs::Characters::character))]
pub fn character(bytes: &[u8]) -> Option<Item>
    ensures value { result ≡ character bytes.now }
    ensures within { IfSome result (λ item. IsWithin (length bytes.now) (item.len + 1)) }
{
    if bytes.starts_with(b"'") {
        return None;
    }
    let item = item_in_front(Quotation::Text, bytes)?;
    let (_, rest) = bytes.split_at(item.len);
    if !rest.starts_with(b"'") {
        return None;
    }
    Some(item)
}

/// The value of a byte as a signed `char` of 8 bits.
pub fn as_signed(value: u8) -> i32
    ensures { result ≡ as_signed value }
{
    if value < 128 {
        i32::from(value)
    } else {
        i32::from(value) - 256
    }
}
