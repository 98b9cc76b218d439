//! The tokens of a source.
#![tactic(auto)]

ghost use Rattle.std.specs.Prelude.{◌+◌, ◌≤◌, ◌<◌, length, IfOk, IfErr};
ghost use Rattle.lk_lex.specs.Answer.{AreTokens, IsFault, Extends};
ghost use Rattle.lk_lex.specs.TokenList.{AreTokensOf};

mod base;
mod bytes;
mod front;
mod keyword;
mod laws;
mod mark;
mod number;
mod place;
mod punct;
mod quoted;
mod split;
mod text;
mod token;
mod unsupported;

use crate::split::{refused, split};
use crate::unsupported::first_refused;
pub use keyword::Keyword;
pub use laws::{beginnings, constants, longest_tokens, one_split, spellings};
use lk_base::{Code, Fault, Files};
pub use punct::Punct;
use std::alloc::Global;
pub use text::{push_text, text_of};
pub use token::{Token, TokenKind};

/// The tokens of a source `b` of at most 1,048,576 bytes, the last of which is `End`.
///
/// The source has the number `own` in `files`. The names of its line marks are put into `files`, which
/// has fewer than 2,147,483,648 names, in the order of the text, in case of a fault too. A refusal has
/// the code `Byte` or `Token` at the place where the split stops, or else the code `UnsupportedWord` at
/// the first word that is refused.
///
/// By the law `one_split` a source has one answer but for want of memory. So these tokens come
/// exactly where the source splits into them and no refused word is among them, and a refusal
/// exactly where its clause says.
pub fn tokens(alloc: Global, b: &[u8], own: u32, files: &mut Files) -> Result<Vec<Token>, Fault>
    requires few { length b.now ≤ 1048576 }
    requires names { length files.old < 2147483648 }
    requires own { own < length files.old }
    ensures ok { IfOk result (λ list. AreTokens files.old own b.now files.new list.items) }
    ensures err { IfErr result (IsFault files.old own b.now files.new) }
    ensures names { Extends files.old files.new }
    ensures few_names { length files.new ≤ length files.old + length b.now }
    ensures list { IfOk result (λ list. AreTokensOf b.now files.new list.items) }
{
    let list = split(alloc, b, own, files)?;
    match first_refused(b, &list) {
        Some(token) => Err(refused(alloc, Code::UnsupportedWord, token.spot, text_of(b, &token))),
        None => Ok(list),
    }
}
