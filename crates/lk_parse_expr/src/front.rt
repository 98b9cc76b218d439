//! What a token is, where an expression is read.

ghost use Rattle.std.specs.Prelude.{◌≡◌, ◌≤◌};
ghost use Rattle.lk_parse_expr.specs.Front as spec;

use crate::words::{assign_of, binary_of, level_of};
use lk_base::Kind;
use lk_lex::{Keyword, Punct, TokenKind};
use lk_tree::{AssignOperator, BinaryOperator, PrefixOperator, StepOperator};

/// What a token begins, where an operand is read.
#[derive(Clone, Copy)]
pub enum Start {
    Word,
    Number(Kind, u64),
    Char(i32),
    Text,
    /// `(`
    Open,
    Step(StepOperator),
    Prefix(PrefixOperator),
    /// `sizeof`
    Sizeof,
    /// No expression.
    Nothing,
}

/// What a token is behind an operand that it makes a part of a greater one.
#[derive(Clone, Copy)]
pub enum Suffix {
    /// `[`
    Index,
    /// `(`
    Call,
    /// `.`
    Member,
    /// `->`
    Arrow,
    Post(StepOperator),
}

/// What a token is between two operands.
#[derive(Clone, Copy)]
pub enum Infix {
    /// `,`
    Comma,
    Assign(AssignOperator),
    /// `?`
    Choice,
    Binary(BinaryOperator),
}

/// What a token begins, where an operand is read.
pub fn start_of(kind: TokenKind) -> Start
    ensures { result ≡ spec.start_of kind }
{
    match kind {
        TokenKind::Word => Start::Word,
        TokenKind::Number(kind, value) => Start::Number(kind, value),
        TokenKind::Char(value) => Start::Char(value),
        TokenKind::Text => Start::Text,
        TokenKind::Punct(Punct::OpenParen) => Start::Open,
        TokenKind::Punct(Punct::PlusPlus) => Start::Step(StepOperator::Increment),
        TokenKind::Punct(Punct::MinusMinus) => Start::Step(StepOperator::Decrement),
        TokenKind::Punct(Punct::Ampersand) => Start::Prefix(PrefixOperator::Address),
        TokenKind::Punct(Punct::Star) => Start::Prefix(PrefixOperator::Indirection),
        TokenKind::Punct(Punct::Plus) => Start::Prefix(PrefixOperator::Plus),
        TokenKind::Punct(Punct::Minus) => Start::Prefix(PrefixOperator::Minus),
        TokenKind::Punct(Punct::Tilde) => Start::Prefix(PrefixOperator::Complement),
        TokenKind::Punct(Punct::Bang) => Start::Prefix(PrefixOperator::Not),
        TokenKind::Key(Keyword::Sizeof) => Start::Sizeof,
        _ => Start::Nothing,
    }
}

/// Whether an expression begins.
pub fn is_start(start: Start) -> bool
    ensures { result ≡ spec.is_start start }
{
    match start {
        Start::Word
        | Start::Number(_, _)
        | Start::Char(_)
        | Start::Text
        | Start::Open
        | Start::Step(_)
        | Start::Prefix(_)
        | Start::Sizeof => true,
        Start::Nothing => false,
    }
}

/// What a token is behind an operand that it makes a part of a greater one.
pub fn suffix_of(kind: TokenKind) -> Option<Suffix>
    ensures { result ≡ spec.suffix_of kind }
{
    match kind {
        TokenKind::Punct(Punct::OpenBracket) => Some(Suffix::Index),
        TokenKind::Punct(Punct::OpenParen) => Some(Suffix::Call),
        TokenKind::Punct(Punct::Dot) => Some(Suffix::Member),
        TokenKind::Punct(Punct::Arrow) => Some(Suffix::Arrow),
        TokenKind::Punct(Punct::PlusPlus) => Some(Suffix::Post(StepOperator::Increment)),
        TokenKind::Punct(Punct::MinusMinus) => Some(Suffix::Post(StepOperator::Decrement)),
        _ => None,
    }
}

/// What a token is between two operands.
pub fn infix_of(kind: TokenKind) -> Option<Infix>
    ensures { result ≡ spec.infix_of kind }
{
    match kind {
        TokenKind::Punct(Punct::Comma) => Some(Infix::Comma),
        TokenKind::Punct(Punct::Question) => Some(Infix::Choice),
        _ => match binary_of(kind) {
            Some(operator) => Some(Infix::Binary(operator)),
            None => assign_of(kind).map(Infix::Assign),
        },
    }
}

/// How tightly what stands between two operands binds.
pub fn infix_level(between: Infix) -> u8
    ensures value { result ≡ spec.infix_level between }
    ensures small { result ≤ 12 }
{
    match between {
        Infix::Comma => 0,
        Infix::Assign(_) => 1,
        Infix::Choice => 2,
        Infix::Binary(operator) => level_of(operator),
    }
}

/// Whether a token begins an expression.
pub fn begins_expr(kind: TokenKind) -> bool
    ensures { result ≡ spec.is_start (spec.start_of kind) }
{
    is_start(start_of(kind))
}
