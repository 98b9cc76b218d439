//! What a token is.

use crate::keyword::Keyword;
use crate::punct::Punct;
use lk_base::{Kind, Spot};

/// What a token is.
#[derive(Clone, Copy, PartialEq, Eq)]
pub enum TokenKind {
    /// A word that is no keyword.
    Word,
    /// A keyword.
    Key(Keyword),
    /// An integer constant, by its kind and its value.
    Number(Kind, u64),
    /// A character constant, by its value as a signed `char`, from -128 to 127.
    Char(i32),
    /// A string literal.
    Text,
    /// A punctuator.
    Punct(Punct),
    /// The end of the source.
    End,
}

/// A token, by what it is and where it stands.
#[derive(Clone, Copy)]
pub struct Token {
    pub kind: TokenKind,
    /// The number of bytes before the token.
    pub from: u32,
    /// The number of bytes before the token's end.
    pub to: u32,
    /// The place of the token's first byte. Line marks change its file and line.
    pub spot: Spot,
}
