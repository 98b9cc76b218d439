//! Lines that begin with `#`.
ghost use Rattle.std.specs.Prelude.{◌≡◌, ◌≤◌, IfSome, IfOk};
ghost use Rattle.std.specs.List.{list_all};
ghost use Rattle.std.specs.Char.{is_ascii_digit};
ghost use Rattle.std.specs.Option.{option_map};
ghost use Rattle.lk_lex.specs.declared.mark.Directive.TheVariants as d;
ghost use Rattle.lk_lex.specs.Marks as spec;
ghost use Rattle.lk_lex.specs.Marks.{is_flag_byte, line_number, named_mark, numbered_mark, directive};
ghost use Rattle.lk_lex.specs.Lengths.{IsLineSmall};

use crate::base::Base;
use crate::bytes::{is_blank, past_blanks, word_len};
use crate::quoted::{Quotation, push_quoted, quoted_len};
use lk_base::{Name, NameFault, NoMemory};
use std::alloc::Global;

/// The greatest number of a line that a mark says.
const GREATEST_LINE: u64 = 2_147_483_647;

/// A line mark: the next line is the line of this number in the file of this name, or in the same file.
#[derive(Drop)]
pub struct Mark {
    /// At most 2,147,483,647.
    pub line: u32,
    pub name: Option<Name>,
}

/// A line that begins with `#`.
#[derive(Drop)]
pub enum Directive {
    /// `#pragma`, which is ignored.
    Pragma,
    /// A line mark.
    Mark(Mark),
}

/// Whether a byte may stand behind the name of a mark.
fn is_flag_byte(byte: u8) -> bool
    ensures { result ≡ is_flag_byte byte }
{
    byte.is_ascii_digit() || is_blank(byte)
}

/// Whether all bytes may stand behind the name of a mark.
fn are_flags(bytes: &[u8]) -> bool
    ensures { result ≡ list_all is_flag_byte bytes.now }
{
    bytes.iter().all(|byte| is_flag_byte(*byte))
}

/// Whether all bytes are digits.
fn are_digits(bytes: &[u8]) -> bool
    ensures { result ≡ list_all is_ascii_digit bytes.now }
{
    bytes.iter().all(|byte| byte.is_ascii_digit())
}

/// The number that a word of digits is, where it is at most 2,147,483,647.
fn line_number(word: &[u8]) -> Option<u32>
    ensures value { result ≡ line_number word.now }
    ensures small { IfSome result (λ line. line ≤ 2147483647) }
{
    if word.is_empty() {
        return None;
    }
    if !are_digits(word) {
        return None;
    }
    let value = Base::Decimal.value_of(word)?;
    if value > GREATEST_LINE {
        return None;
    }
    Some(value as u32)
}

/// The mark of this line and this name, where the name has at most 255 bytes.
fn with_name(alloc: Global, line: u32, name: &[u8]) -> Result<Option<Mark>, NoMemory>
    ensures value { IfOk result (λ found. found ≡ spec.with_name_of line name.now) }
    ensures same { IfOk result (λ found. IfSome found (λ mark. mark.line ≡ line)) }
{
    match Name::from_bytes(alloc, name) {
        Ok(name) => Ok(Some(Mark {
            line,
            name: Some(name),
        })),
        Err(NameFault::TooLong) => Ok(None),
        Err(NameFault::NoMemory) => Err(NoMemory),
    }
}

/// The mark of this line, by what stands behind the opening quote of its name.
fn named_mark(alloc: Global, line: u32, bytes: &[u8]) -> Result<Option<Mark>, NoMemory>
    ensures value { IfOk result (λ found. found ≡ named_mark line bytes.now) }
    ensures same { IfOk result (λ found. IfSome found (λ mark. mark.line ≡ line)) }
{
    let Some(len) = quoted_len(Quotation::FileName, bytes) else {
        return Ok(None);
    };
    let (_, flags) = bytes.split_at(len);
    if !are_flags(flags) {
        return Ok(None);
    }
    let mut name = Vec::new(alloc);
    push_quoted(Quotation::FileName, bytes, &mut name)?;
    with_name(alloc, line, &name)
}

/// The mark of this line, by what stands behind its number and blanks.
#[tactic(auto, unfolding(crate::specs::Marks::numbered_mark))]
fn numbered_mark(alloc: Global, line: u32, bytes: &[u8]) -> Result<Option<Mark>, NoMemory>
    ensures value { IfOk result (λ found. found ≡ numbered_mark line bytes.now) }
    ensures same { IfOk result (λ found. IfSome found (λ mark. mark.line ≡ line)) }
{
    if bytes.is_empty() {
        return Ok(Some(Mark { line, name: None }));
    }
    if !bytes.starts_with(b"\"") {
        return Ok(None);
    }
    let (_, text) = bytes.split_at(1);
    named_mark(alloc, line, text)
}

/// A mark, by what stands from its number on.
fn mark_from(alloc: Global, bytes: &[u8]) -> Result<Option<Mark>, NoMemory>
    ensures value { IfOk result (λ found. found ≡ spec.mark bytes.now) }
    ensures small { IfOk result (λ found. IfSome found (λ mark. mark.line ≤ 2147483647)) }
{
    let (word, rest) = bytes.split_at(word_len(bytes));
    let Some(line) = line_number(word) else {
        return Ok(None);
    };
    numbered_mark(alloc, line, past_blanks(rest))
}

/// The mark as a line, by what stands from its number on.
fn mark_directive(alloc: Global, bytes: &[u8]) -> Result<Option<Directive>, NoMemory>
    ensures value { IfOk result (λ found. found ≡ option_map d.Mark (spec.mark bytes.now)) }
    ensures small { IfOk result IsLineSmall }
{
    match mark_from(alloc, bytes)? {
        Some(mark) => Ok(Some(Directive::Mark(mark))),
        None => Ok(None),
    }
}

/// What a line says, by what stands behind its `#`.
pub fn directive_of(alloc: Global, line: &[u8]) -> Result<Option<Directive>, NoMemory>
    ensures value { IfOk result (λ found. found ≡ directive line.now) }
    ensures small { IfOk result IsLineSmall }
{
    let rest = past_blanks(line);
    let (word, others) = rest.split_at(word_len(rest));
    if word == "pragma".as_bytes() {
        return Ok(Some(Directive::Pragma));
    }
    if word == "line".as_bytes() {
        return mark_directive(alloc, past_blanks(others));
    }
    mark_directive(alloc, rest)
}
