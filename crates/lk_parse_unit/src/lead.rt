//! What a token begins, where a statement or an external declaration is read.
ghost use Rattle.std.specs.Prelude.{◌≡◌};
ghost use Rattle.lk_parse_expr.specs.Statements as grammar;
ghost use Rattle.lk_lex.specs.TokenList as tokens;
ghost use Rattle.lk_parse_unit.specs.Leads as lead;

use lk_lex::{Keyword, Punct, TokenKind};
use lk_parse_expr::begins_expr;

/// What a token begins, where a statement is read.
#[derive(Clone, Copy)]
pub enum Lead {
    /// A label, or an expression.
    Word,
    Case,
    Default,
    If,
    Switch,
    While,
    Do,
    For,
    Goto,
    Continue,
    Break,
    Return,
    /// `{`
    Block,
    /// An expression, an empty statement, or none.
    Other,
}

/// What a token begins, where a statement is read.
pub fn lead_of(kind: TokenKind) -> Lead
    ensures { result ≡ lead.lead_of kind }
{
    match kind {
        TokenKind::Word => Lead::Word,
        TokenKind::Key(Keyword::Case) => Lead::Case,
        TokenKind::Key(Keyword::Default) => Lead::Default,
        TokenKind::Key(Keyword::If) => Lead::If,
        TokenKind::Key(Keyword::Switch) => Lead::Switch,
        TokenKind::Key(Keyword::While) => Lead::While,
        TokenKind::Key(Keyword::Do) => Lead::Do,
        TokenKind::Key(Keyword::For) => Lead::For,
        TokenKind::Key(Keyword::Goto) => Lead::Goto,
        TokenKind::Key(Keyword::Continue) => Lead::Continue,
        TokenKind::Key(Keyword::Break) => Lead::Break,
        TokenKind::Key(Keyword::Return) => Lead::Return,
        TokenKind::Punct(Punct::OpenBrace) => Lead::Block,
        _ => Lead::Other,
    }
}

/// Whether a token begins a statement.
pub fn begins_stmt(kind: TokenKind) -> bool
    ensures { result ≡ lead.begins_stmt kind }
{
    match kind {
        TokenKind::Key(Keyword::Case) => true,
        TokenKind::Key(Keyword::Default) => true,
        TokenKind::Key(Keyword::If) => true,
        TokenKind::Key(Keyword::Switch) => true,
        TokenKind::Key(Keyword::While) => true,
        TokenKind::Key(Keyword::Do) => true,
        TokenKind::Key(Keyword::For) => true,
        TokenKind::Key(Keyword::Goto) => true,
        TokenKind::Key(Keyword::Continue) => true,
        TokenKind::Key(Keyword::Break) => true,
        TokenKind::Key(Keyword::Return) => true,
        TokenKind::Punct(Punct::OpenBrace) => true,
        TokenKind::Punct(Punct::Semicolon) => true,
        _ => begins_expr(kind),
    }
}

/// Whether a token is a `:`.
pub fn is_colon(kind: TokenKind) -> bool
    ensures { result ≡ grammar.is_colon kind }
{
    match kind {
        TokenKind::Punct(Punct::Colon) => true,
        _ => false,
    }
}

/// Whether a token is the end.
pub fn is_end(kind: TokenKind) -> bool
    ensures { result ≡ tokens.is_end kind }
{
    match kind {
        TokenKind::End => true,
        TokenKind::Word
        | TokenKind::Key(_)
        | TokenKind::Number(_, _)
        | TokenKind::Char(_)
        | TokenKind::Text
        | TokenKind::Punct(_) => false,
    }
}
