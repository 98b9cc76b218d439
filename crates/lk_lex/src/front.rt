//! What stands in front of bytes.
ghost use Rattle.std.specs.Prelude.{◌≡◌, ◌<◌, ◌≤◌, ◌+◌, true, length, IfOk, IfSome};
ghost use Rattle.lk_lex.specs.Bytes.{word_len};
ghost use Rattle.lk_lex.specs.Front as spec;
ghost use Rattle.lk_lex.specs.Lengths.{IsFrontWithin};

use crate::base::Base;
use crate::bytes::{is_blank, line_len, word_len};
use crate::keyword::Keyword;
use crate::mark::{Directive, Mark, directive_of};
use crate::number::{number_len, number_of};
use crate::punct::{is_digraph_in_front, punct_in_front};
use crate::quoted::{Quotation, as_signed, character, quoted_len};
use crate::token::TokenKind;
use lk_base::{LONGEST_NAME, NoMemory};
use std::alloc::Global;

/// What stands in front of bytes.
#[derive(Drop)]
pub enum Front {
    /// A byte that begins no blank, comment, mark or token.
    Nothing,
    /// Something that is not whole or not valid.
    Broken,
    /// A blank, a comment or a pragma of so many bytes.
    Gap(usize),
    /// A line mark of so many bytes, without the new line.
    Mark(usize, Mark),
    /// A token of so many bytes.
    Token(usize, TokenKind),
}

/// What a word is.
fn word_kind(text: &[u8]) -> TokenKind
    ensures { result ≡ spec.word_kind text.now }
{
    match Keyword::of(text) {
        Some(keyword) => TokenKind::Key(keyword),
        None => TokenKind::Word,
    }
}

/// Whether a word and what follows it begin a wide character or text.
fn is_wide(word: &[u8], rest: &[u8]) -> bool
    ensures { result ≡ spec.is_wide word.now rest.now }
{
    word == "L".as_bytes() && (rest.starts_with(b"'") || rest.starts_with(b"\""))
}

/// The word in front.
#[tactic(auto, unfolding(crate::specs::Front::word_front))]
fn word_front(bytes: &[u8]) -> Front
    requires { 0 < word_len bytes.now }
    ensures value { result ≡ spec.word_front bytes.now }
    ensures within { IsFrontWithin (length bytes.now) result }
{
    let len = word_len(bytes);
    let (word, rest) = bytes.split_at(len);
    if len > LONGEST_NAME {
        return Front::Broken;
    }
    if is_wide(word, rest) {
        return Front::Broken;
    }
    Front::Token(len, word_kind(word))
}

/// The number in front.
fn number_front(bytes: &[u8]) -> Front
    requires { spec.begins_number bytes.now ≡ true }
    ensures value { result ≡ spec.number_front bytes.now }
    ensures within { IsFrontWithin (length bytes.now) result }
{
    let len = number_len(bytes);
    let (text, _) = bytes.split_at(len);
    match number_of(text) {
        Some(number) => Front::Token(len, TokenKind::Number(number.kind, number.value)),
        None => Front::Broken,
    }
}

/// The character in front, by what stands behind its quote.
#[tactic(auto, unfolding(crate::specs::Front::character_front))]
fn character_front(bytes: &[u8]) -> Front
    ensures value { result ≡ spec.character_front bytes.now }
    ensures within { IsFrontWithin (length bytes.now + 1) result }
{
    match character(bytes) {
        Some(item) => Front::Token(item.len + 2, TokenKind::Char(as_signed(item.value))),
        None => Front::Broken,
    }
}

/// The text in front, by what stands behind its quote.
#[tactic(auto, unfolding(crate::specs::Front::text_front))]
fn text_front(bytes: &[u8]) -> Front
    ensures value { result ≡ spec.text_front bytes.now }
    ensures within { IsFrontWithin (length bytes.now + 1) result }
{
    match quoted_len(Quotation::Text, bytes) {
        Some(len) => Front::Token(len + 1, TokenKind::Text),
        None => Front::Broken,
    }
}

/// Whether two bytes are `*/`.
fn closes(before: u8, byte: u8) -> bool
    ensures { result ≡ spec.closes before byte }
{
    before == b'*' && byte == b'/'
}

/// How many bytes there are up to the first `*/` and with it.
fn comment_len(bytes: &[u8]) -> Option<usize>
    ensures value { result ≡ spec.comment_len 0 bytes.now }
    ensures within { IfSome result (λ len. len ≤ length bytes.now) }
{
    let mut before = 0;
    for (len, byte) in bytes.iter().enumerate() {
        if closes(before, *byte) {
            return Some(len + 1);
        }
        before = *byte;
    }
    None
}

/// The comment in front, by what stands behind its `/*`.
#[tactic(auto, unfolding(crate::specs::Front::comment_front))]
fn comment_front(bytes: &[u8]) -> Front
    ensures value { result ≡ spec.comment_front bytes.now }
    ensures within { IsFrontWithin (length bytes.now + 2) result }
{
    match comment_len(bytes) {
        Some(len) => Front::Gap(len + 2),
        None => Front::Broken,
    }
}

/// The punctuator in front.
#[tactic(auto, unfolding(crate::specs::Front::punct_front))]
fn punct_front(bytes: &[u8]) -> Front
    ensures value { result ≡ spec.punct_front bytes.now }
    ensures within { IsFrontWithin (length bytes.now) result }
{
    if is_digraph_in_front(bytes) {
        return Front::Broken;
    }
    match punct_in_front(bytes) {
        Some(punct) => Front::Token(punct.text().len(), TokenKind::Punct(punct)),
        None => Front::Nothing,
    }
}

/// The line that begins with `#`, by what stands behind it.
fn hash_front(alloc: Global, bytes: &[u8]) -> Result<Front, NoMemory>
    requires { length bytes.now < 1048576 }
    ensures value { IfOk result (λ front. front ≡ spec.hash_front bytes.now) }
    ensures within { IfOk result (IsFrontWithin (length bytes.now + 1)) }
{
    let len = line_len(bytes);
    let (line, _) = bytes.split_at(len);
    match directive_of(alloc, line)? {
        Some(Directive::Mark(mark)) => Ok(Front::Mark(len + 1, mark)),
        Some(Directive::Pragma) => Ok(Front::Gap(len + 1)),
        None => Ok(Front::Broken),
    }
}

/// Whether a number is in front.
fn begins_number(bytes: &[u8]) -> bool
    ensures { result ≡ spec.begins_number bytes.now }
{
    if Base::Decimal.digits_len(bytes) > 0 {
        return true;
    }
    if !bytes.starts_with(b".") {
        return false;
    }
    let (_, rest) = bytes.split_at(1);
    Base::Decimal.digits_len(rest) > 0
}

/// The token or comment in front.
#[tactic(auto, unfolding(crate::specs::Front::piece))]
fn piece(bytes: &[u8]) -> Front
    requires { 0 < length bytes.now }
    ensures value { result ≡ spec.piece bytes.now }
    ensures within { IsFrontWithin (length bytes.now) result }
{
    if begins_number(bytes) {
        return number_front(bytes);
    }
    if word_len(bytes) > 0 {
        return word_front(bytes);
    }
    let (_, behind) = bytes.split_at(1);
    if bytes.starts_with(b"'") {
        return character_front(behind);
    }
    if bytes.starts_with(b"\"") {
        return text_front(behind);
    }
    if bytes.starts_with(b"//") {
        return Front::Gap(line_len(bytes));
    }
    if bytes.starts_with(b"/*") {
        let (_, comment) = bytes.split_at(2);
        return comment_front(comment);
    }
    punct_front(bytes)
}

/// What stands in front, by its first byte. Only blanks stand before it on its line where it is `fresh`.
fn cut_by(alloc: Global, fresh: bool, first: u8, bytes: &[u8]) -> Result<Front, NoMemory>
    requires some { 0 < length bytes.now }
    requires few { length bytes.now ≤ 1048576 }
    ensures value { IfOk result (λ front. front ≡ spec.cut_by fresh first bytes.now) }
    ensures within { IfOk result (IsFrontWithin (length bytes.now)) }
{
    if is_blank(first) {
        return Ok(Front::Gap(1));
    }
    if first != b'#' {
        return Ok(piece(bytes));
    }
    if !fresh {
        return Ok(Front::Nothing);
    }
    let (_, behind) = bytes.split_at(1);
    hash_front(alloc, behind)
}

/// What stands in front. Only blanks stand before it on its line where it is `fresh`.
pub fn cut(alloc: Global, fresh: bool, bytes: &[u8]) -> Result<Front, NoMemory>
    requires few { length bytes.now ≤ 1048576 }
    ensures value { IfOk result (λ front. front ≡ spec.cut fresh bytes.now) }
    ensures within { IfOk result (IsFrontWithin (length bytes.now)) }
{
    match bytes.first() {
        Some(first) => cut_by(alloc, fresh, *first, bytes),
        None => Ok(Front::Nothing),
    }
}
