//! The words that are refused.
ghost use Rattle.std.specs.Prelude.{◌≡◌, length, All, IfSome};
ghost use Rattle.lk_lex.specs.Answer as answer;
ghost use Rattle.lk_lex.specs.TokenList.{IsInside};
ghost use Rattle.lk_lex.specs.Words as spec;

use crate::bytes::is_among;
use crate::text::text_of;
use crate::token::{Token, TokenKind};

/// Keywords of C99 for types that are left out, words of C11, and words of compilers.
const UNSUPPORTED: [&str; 23] = [
    "float",
    "double",
    "union",
    "_Complex",
    "_Imaginary",
    "_Atomic",
    "_Generic",
    "_Alignas",
    "_Alignof",
    "_Noreturn",
    "_Static_assert",
    "_Thread_local",
    "__thread",
    "__int128",
    "asm",
    "__asm",
    "__asm__",
    "typeof",
    "__typeof__",
    "__attribute__",
    "__extension__",
    "__restrict",
    "__inline",
];

/// With this begin further words of compilers.
const BUILTIN: &str = "__builtin_";

/// Whether the text is one of the refused words.
#[tactic(auto, unfolding(crate::specs::Words::is_unsupported_word))]
fn is_unsupported_word(text: &[u8]) -> bool
    ensures { result ≡ spec.is_unsupported_word text.now }
{
    is_among(text, &UNSUPPORTED)
}

/// Whether the text begins as refused words do.
fn is_builtin(text: &[u8]) -> bool
    ensures { result ≡ spec.is_builtin text.now }
{
    text.starts_with(BUILTIN.as_bytes())
}

/// Whether the text is a word that is refused.
pub fn is_unsupported(text: &[u8]) -> bool
    ensures { result ≡ spec.is_unsupported text.now }
{
    is_unsupported_word(text) || is_builtin(text)
}

/// Whether a token of this kind is a word.
fn is_word(kind: TokenKind) -> bool
    ensures { result ≡ answer.is_word kind }
{
    matches!(kind, TokenKind::Word | TokenKind::Key(_))
}

/// Whether a token of the source is a word that is refused.
fn is_refused(source: &[u8], token: &Token) -> bool
    requires { IsInside (length source.now) token.now }
    ensures { result ≡ answer.is_refused source.now token.now }
{
    is_word(token.kind) && is_unsupported(text_of(source, token))
}

/// The first token of the source that is a word that is refused.
pub fn first_refused(source: &[u8], tokens: &[Token]) -> Option<Token>
    requires { All (IsInside (length source.now)) tokens.now }
    ensures value { result ≡ answer.first_refused source.now tokens.now }
    ensures inside { IfSome result (IsInside (length source.now)) }
{
    for token in tokens {
        if is_refused(source, token) {
            return Some(*token);
        }
    }
    None
}
