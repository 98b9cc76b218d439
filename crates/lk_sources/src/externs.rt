//! The names that the file of `--externs` lists.
ghost use Rattle.std.specs.Prelude.{◌≡◌, ◌≤◌, ◌&&◌, nat_le, length, IfOk, OnOk};
ghost use Rattle.std.specs.List.{list_all};
ghost use Rattle.lk_lex.specs.Bytes as bytes;
ghost use Rattle.lk_sources.specs.Calls.{is_line, with_line, IsListed};
ghost use Rattle.lk_sources.specs.Externs as spec;

use crate::numbers::name_of;
use crate::reading::Source;
use lk_base::{LONGEST_NAME, Name, NoMemory};
use std::alloc::Global;

/// What the lines of a file list.
#[derive(Drop)]
pub(crate) enum Listed {
    /// Names: each line is empty or one of them.
    Names(Vec<Name>),
    /// The line of this number is the first that is neither empty nor a name.
    BadLine(u32),
}

/// The bytes of the file of `--externs`, or none.
pub(crate) fn externs_text(files: &[Source]) -> &[u8]
    ensures { result.now ≡ spec.externs_text files.entry.now }
{
    match files {
        [file, ..] => file.bytes.list(),
        [] => &[],
    }
}

/// Whether a byte is a letter, a digit or `_`.
fn is_word_byte(byte: u8) -> bool
    ensures { result ≡ bytes.is_word_byte byte }
{
    byte.is_ascii_alphanumeric() || byte == b'_'
}

/// Whether each byte is a letter, a digit or `_`.
fn are_word_bytes(text: &[u8]) -> bool
    ensures { result ≡ list_all bytes.is_word_byte text.now }
{
    text.iter().all(|byte| is_word_byte(*byte))
}

/// Whether a text has only letters, digits and `_`, 255 at most.
fn is_word(text: &[u8]) -> bool
    ensures { result ≡ (list_all bytes.is_word_byte text.now && nat_le (length text.now) 255) }
{
    are_word_bytes(text) && text.len() <= LONGEST_NAME
}

/// Whether a text is an identifier of at most 255 bytes (C99 6.4.2.1).
fn is_identifier(text: &[u8]) -> bool
    ensures { result ≡ spec.is_identifier text.now }
{
    match text {
        [] => false,
        [first, ..] => !first.is_ascii_digit() && is_word(text),
    }
}

/// How many bytes stand before the line's end.
fn line_len(text: &[u8]) -> usize
    ensures value { result ≡ bytes.line_len text.now }
    ensures within { result ≤ length text.now }
{
    text.iter().take_while(|byte| **byte != b'\n').count()
}

/// Whether a line is empty or a name; the name is put behind the names.
fn put_line(alloc: Global, line: &[u8], names: &mut Vec<Name>) -> Result<bool, NoMemory>
    ensures good { IfOk result (λ good. good ≡ is_line line.now) }
    ensures put { OnOk result (names.new.items ≡ with_line names.old.items line.now) }
{
    if is_identifier(line) {
        names.push(name_of(alloc, line)?)?;
        return Ok(true);
    }
    Ok(line.is_empty())
}

/// The names that the lines of a text list, or the number of the first line that is neither empty nor a name.
pub(crate) fn names_in(alloc: Global, text: &[u8]) -> Result<Listed, NoMemory>
    requires { length text.now ≤ 65536 }
    ensures { IfOk result (IsListed (spec.listed text.now)) }
{
    let mut names = Vec::new(alloc);
    let mut number = 1;
    let mut rest = text;
    loop {
        let (line, others) = rest.split_at(line_len(rest));
        if !put_line(alloc, line, &mut names)? {
            return Ok(Listed::BadLine(number));
        }
        let [_newline, behind @ ..] = others else {
            return Ok(Listed::Names(names));
        };
        rest = behind;
        number += 1;
    }
}
