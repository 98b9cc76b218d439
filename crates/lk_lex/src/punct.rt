//! The punctuators.
ghost use Rattle.std.specs.Prelude.{◌≡◌};
ghost use Rattle.lk_lex.specs.Punctuators as spec;
ghost use Rattle.lk_lex.specs.Punctuators.{spelling};

/// A punctuator (C99 6.4.6) other than `#`, `##` and the digraphs.
#[derive(Clone, Copy, PartialEq, Eq)]
pub enum Punct {
    /// `[`
    OpenBracket,
    /// `]`
    CloseBracket,
    /// `(`
    OpenParen,
    /// `)`
    CloseParen,
    /// `{`
    OpenBrace,
    /// `}`
    CloseBrace,
    /// `.`
    Dot,
    /// `->`
    Arrow,
    /// `++`
    PlusPlus,
    /// `--`
    MinusMinus,
    /// `&`
    Ampersand,
    /// `*`
    Star,
    /// `+`
    Plus,
    /// `-`
    Minus,
    /// `~`
    Tilde,
    /// `!`
    Bang,
    /// `/`
    Slash,
    /// `%`
    Percent,
    /// `<<`
    ShiftLeft,
    /// `>>`
    ShiftRight,
    /// `<`
    Less,
    /// `>`
    Greater,
    /// `<=`
    LessEqual,
    /// `>=`
    GreaterEqual,
    /// `==`
    EqualEqual,
    /// `!=`
    BangEqual,
    /// `^`
    Caret,
    /// `|`
    Bar,
    /// `&&`
    AndAnd,
    /// `||`
    BarBar,
    /// `?`
    Question,
    /// `:`
    Colon,
    /// `;`
    Semicolon,
    /// `...`
    Ellipsis,
    /// `=`
    Equal,
    /// `*=`
    StarEqual,
    /// `/=`
    SlashEqual,
    /// `%=`
    PercentEqual,
    /// `+=`
    PlusEqual,
    /// `-=`
    MinusEqual,
    /// `<<=`
    ShiftLeftEqual,
    /// `>>=`
    ShiftRightEqual,
    /// `&=`
    AmpersandEqual,
    /// `^=`
    CaretEqual,
    /// `|=`
    BarEqual,
    /// `,`
    Comma,
}

/// The punctuators, longer ones first.
const PUNCTUATORS: [Punct; 46] = [
    Punct::Ellipsis,
    Punct::ShiftLeftEqual,
    Punct::ShiftRightEqual,
    Punct::Arrow,
    Punct::PlusPlus,
    Punct::MinusMinus,
    Punct::ShiftLeft,
    Punct::ShiftRight,
    Punct::LessEqual,
    Punct::GreaterEqual,
    Punct::EqualEqual,
    Punct::BangEqual,
    Punct::AndAnd,
    Punct::BarBar,
    Punct::StarEqual,
    Punct::SlashEqual,
    Punct::PercentEqual,
    Punct::PlusEqual,
    Punct::MinusEqual,
    Punct::AmpersandEqual,
    Punct::CaretEqual,
    Punct::BarEqual,
    Punct::OpenBracket,
    Punct::CloseBracket,
    Punct::OpenParen,
    Punct::CloseParen,
    Punct::OpenBrace,
    Punct::CloseBrace,
    Punct::Dot,
    Punct::Ampersand,
    Punct::Star,
    Punct::Plus,
    Punct::Minus,
    Punct::Tilde,
    Punct::Bang,
    Punct::Slash,
    Punct::Percent,
    Punct::Less,
    Punct::Greater,
    Punct::Caret,
    Punct::Bar,
    Punct::Question,
    Punct::Colon,
    Punct::Semicolon,
    Punct::Equal,
    Punct::Comma,
];

impl Punct {
    /// The punctuator's text.
    pub fn text(self) -> &'static str
        ensures { result.now ≡ spelling self }
    {
        match self {
            Punct::OpenBracket => "[",
            Punct::CloseBracket => "]",
            Punct::OpenParen => "(",
            Punct::CloseParen => ")",
            Punct::OpenBrace => "{",
            Punct::CloseBrace => "}",
            Punct::Dot => ".",
            Punct::Arrow => "->",
            Punct::PlusPlus => "++",
            Punct::MinusMinus => "--",
            Punct::Ampersand => "&",
            Punct::Star => "*",
            Punct::Plus => "+",
            Punct::Minus => "-",
            Punct::Tilde => "~",
            Punct::Bang => "!",
            Punct::Slash => "/",
            Punct::Percent => "%",
            Punct::ShiftLeft => "<<",
            Punct::ShiftRight => ">>",
            Punct::Less => "<",
            Punct::Greater => ">",
            Punct::LessEqual => "<=",
            Punct::GreaterEqual => ">=",
            Punct::EqualEqual => "==",
            Punct::BangEqual => "!=",
            Punct::Caret => "^",
            Punct::Bar => "|",
            Punct::AndAnd => "&&",
            Punct::BarBar => "||",
            Punct::Question => "?",
            Punct::Colon => ":",
            Punct::Semicolon => ";",
            Punct::Ellipsis => "...",
            Punct::Equal => "=",
            Punct::StarEqual => "*=",
            Punct::SlashEqual => "/=",
            Punct::PercentEqual => "%=",
            Punct::PlusEqual => "+=",
            Punct::MinusEqual => "-=",
            Punct::ShiftLeftEqual => "<<=",
            Punct::ShiftRightEqual => ">>=",
            Punct::AmpersandEqual => "&=",
            Punct::CaretEqual => "^=",
            Punct::BarEqual => "|=",
            Punct::Comma => ",",
        }
    }
}

/// The longest punctuator that the bytes begin with.
#[tactic(auto, unfolding(crate::specs::Punctuators::punct_in_front))]
pub fn punct_in_front(bytes: &[u8]) -> Option<Punct>
    ensures { result ≡ spec.punct_in_front bytes.now }
{
    PUNCTUATORS
        .iter()
        .copied()
        .find(|punct| bytes.starts_with(punct.text().as_bytes()))
}

/// Whether the bytes begin with a digraph.
pub fn is_digraph_in_front(bytes: &[u8]) -> bool
    ensures { result ≡ spec.is_digraph_in_front bytes.now }
{
    bytes.starts_with(b"<:")
        || bytes.starts_with(b":>")
        || bytes.starts_with(b"<%")
        || bytes.starts_with(b"%>")
        || bytes.starts_with(b"%:")
}
