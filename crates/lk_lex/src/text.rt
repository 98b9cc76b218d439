//! The bytes of tokens, and what string literals stand for.
ghost use Rattle.std.specs.Prelude.{◌≡◌, ◌+◌, ◌++◌, length, OnOk, OnErr};
ghost use Rattle.lk_lex.specs.Answer as answer;
ghost use Rattle.lk_lex.specs.Answer.{Extends};
ghost use Rattle.lk_lex.specs.Texts.{text_value};
ghost use Rattle.lk_lex.specs.TokenList.{IsInside};

use crate::quoted::{Quotation, push_quoted};
use crate::token::Token;
use lk_base::NoMemory;

/// The bytes of a token of the source `b`: of a `Word` the name, of 1 to 255 bytes.
pub fn text_of<'a>(b: &'a [u8], token: &Token) -> &'a [u8]
    requires { IsInside (length b.now) token.now }
    ensures value { result.now ≡ answer.text_of b.entry.now token.now }
    ensures len { token.now.from + length result.now ≡ token.now.to }
{
    &b[token.from as usize..token.to as usize]
}

/// Puts the bytes that a string literal of the source `b` stands for at the end of `out`: escapes as their
/// values, and no zero behind them. So the literals of one string are put there one after another.
///
/// Where no memory is found, what was in `out` still stands in front.
#[tactic(auto, unfolding(crate::specs::Texts::text_value))]
pub fn push_text(b: &[u8], text: &Token, out: &mut Vec<u8>) -> Result<(), NoMemory>
    requires { IsInside (length b.now) text.now }
    ensures ok { OnOk result (out.new.items ≡ out.old.items ++ text_value (answer.text_of b.now text.now)) }
    ensures err { OnErr result (Extends out.old.items out.new.items) }
{
    match text_of(b, text).split_first() {
        Some((_, behind)) => push_quoted(Quotation::Text, behind, out),
        None => Ok(()),
    }
}
