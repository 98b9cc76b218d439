//! What tokens mean in the grammar.
ghost use Rattle.std.specs.Prelude.{◌≡◌, ◌≤◌};
ghost use Rattle.lk_parse_expr.specs.Words as spec;
ghost use Rattle.lk_parse_expr.specs.Reading as reading;

use lk_lex::{Keyword, Punct, TokenKind};
use lk_tree::{AssignOperator, BinaryOperator, Qualifier, Specifier, Storage, TypeWord};

/// How tightly a binary operator binds.
pub fn level_of(operator: BinaryOperator) -> u8
    ensures value { result ≡ spec.level_of operator }
    ensures small { result ≤ 12 }
{
    match operator {
        BinaryOperator::Or => 3,
        BinaryOperator::And => 4,
        BinaryOperator::BitOr => 5,
        BinaryOperator::BitXor => 6,
        BinaryOperator::BitAnd => 7,
        BinaryOperator::Equal | BinaryOperator::NotEqual => 8,
        BinaryOperator::Less
        | BinaryOperator::Greater
        | BinaryOperator::LessEqual
        | BinaryOperator::GreaterEqual => 9,
        BinaryOperator::ShiftLeft | BinaryOperator::ShiftRight => 10,
        BinaryOperator::Add | BinaryOperator::Subtract => 11,
        BinaryOperator::Multiply | BinaryOperator::Divide | BinaryOperator::Remainder => 12,
    }
}

/// The binary operator that a token is behind an operand.
pub fn binary_of(kind: TokenKind) -> Option<BinaryOperator>
    ensures { result ≡ spec.binary_of kind }
{
    match kind {
        TokenKind::Punct(Punct::BarBar) => Some(BinaryOperator::Or),
        TokenKind::Punct(Punct::AndAnd) => Some(BinaryOperator::And),
        TokenKind::Punct(Punct::Bar) => Some(BinaryOperator::BitOr),
        TokenKind::Punct(Punct::Caret) => Some(BinaryOperator::BitXor),
        TokenKind::Punct(Punct::Ampersand) => Some(BinaryOperator::BitAnd),
        TokenKind::Punct(Punct::EqualEqual) => Some(BinaryOperator::Equal),
        TokenKind::Punct(Punct::BangEqual) => Some(BinaryOperator::NotEqual),
        TokenKind::Punct(Punct::Less) => Some(BinaryOperator::Less),
        TokenKind::Punct(Punct::Greater) => Some(BinaryOperator::Greater),
        TokenKind::Punct(Punct::LessEqual) => Some(BinaryOperator::LessEqual),
        TokenKind::Punct(Punct::GreaterEqual) => Some(BinaryOperator::GreaterEqual),
        TokenKind::Punct(Punct::ShiftLeft) => Some(BinaryOperator::ShiftLeft),
        TokenKind::Punct(Punct::ShiftRight) => Some(BinaryOperator::ShiftRight),
        TokenKind::Punct(Punct::Plus) => Some(BinaryOperator::Add),
        TokenKind::Punct(Punct::Minus) => Some(BinaryOperator::Subtract),
        TokenKind::Punct(Punct::Star) => Some(BinaryOperator::Multiply),
        TokenKind::Punct(Punct::Slash) => Some(BinaryOperator::Divide),
        TokenKind::Punct(Punct::Percent) => Some(BinaryOperator::Remainder),
        _ => None,
    }
}

/// The operator of assignment that a token is.
pub fn assign_of(kind: TokenKind) -> Option<AssignOperator>
    ensures { result ≡ spec.assign_of kind }
{
    match kind {
        TokenKind::Punct(Punct::Equal) => Some(AssignOperator::Plain),
        TokenKind::Punct(Punct::StarEqual) => Some(AssignOperator::Multiply),
        TokenKind::Punct(Punct::SlashEqual) => Some(AssignOperator::Divide),
        TokenKind::Punct(Punct::PercentEqual) => Some(AssignOperator::Remainder),
        TokenKind::Punct(Punct::PlusEqual) => Some(AssignOperator::Add),
        TokenKind::Punct(Punct::MinusEqual) => Some(AssignOperator::Subtract),
        TokenKind::Punct(Punct::ShiftLeftEqual) => Some(AssignOperator::ShiftLeft),
        TokenKind::Punct(Punct::ShiftRightEqual) => Some(AssignOperator::ShiftRight),
        TokenKind::Punct(Punct::AmpersandEqual) => Some(AssignOperator::BitAnd),
        TokenKind::Punct(Punct::CaretEqual) => Some(AssignOperator::BitXor),
        TokenKind::Punct(Punct::BarEqual) => Some(AssignOperator::BitOr),
        _ => None,
    }
}

/// The qualifier that a token is.
pub fn qualifier_of(kind: TokenKind) -> Option<Qualifier>
    ensures { result ≡ spec.qualifier_of kind }
{
    match kind {
        TokenKind::Key(Keyword::Const) => Some(Qualifier::Const),
        TokenKind::Key(Keyword::Volatile) => Some(Qualifier::Volatile),
        TokenKind::Key(Keyword::Restrict) => Some(Qualifier::Restrict),
        _ => None,
    }
}

/// The specifier that a keyword is by itself.
pub fn specifier_of(kind: TokenKind) -> Option<Specifier>
    ensures { result ≡ spec.specifier_of kind }
{
    match kind {
        TokenKind::Key(Keyword::Typedef) => Some(Specifier::Storage(Storage::Typedef)),
        TokenKind::Key(Keyword::Extern) => Some(Specifier::Storage(Storage::Extern)),
        TokenKind::Key(Keyword::Static) => Some(Specifier::Storage(Storage::Static)),
        TokenKind::Key(Keyword::Auto) => Some(Specifier::Storage(Storage::Auto)),
        TokenKind::Key(Keyword::Register) => Some(Specifier::Storage(Storage::Register)),
        TokenKind::Key(Keyword::Inline) => Some(Specifier::Inline),
        TokenKind::Key(Keyword::Const) => Some(Specifier::Qualifier(Qualifier::Const)),
        TokenKind::Key(Keyword::Volatile) => Some(Specifier::Qualifier(Qualifier::Volatile)),
        TokenKind::Key(Keyword::Restrict) => Some(Specifier::Qualifier(Qualifier::Restrict)),
        TokenKind::Key(Keyword::Void) => Some(Specifier::Type(TypeWord::Void)),
        TokenKind::Key(Keyword::Char) => Some(Specifier::Type(TypeWord::Char)),
        TokenKind::Key(Keyword::Short) => Some(Specifier::Type(TypeWord::Short)),
        TokenKind::Key(Keyword::Int) => Some(Specifier::Type(TypeWord::Int)),
        TokenKind::Key(Keyword::Long) => Some(Specifier::Type(TypeWord::Long)),
        TokenKind::Key(Keyword::Signed) => Some(Specifier::Type(TypeWord::Signed)),
        TokenKind::Key(Keyword::Unsigned) => Some(Specifier::Type(TypeWord::Unsigned)),
        TokenKind::Key(Keyword::Bool) => Some(Specifier::Type(TypeWord::Bool)),
        _ => None,
    }
}

/// Whether a keyword is a word of a type.
pub fn is_type_word(kind: TokenKind) -> bool
    ensures { result ≡ spec.is_type_word kind }
{
    match kind {
        TokenKind::Key(
            Keyword::Void
            | Keyword::Char
            | Keyword::Short
            | Keyword::Int
            | Keyword::Long
            | Keyword::Signed
            | Keyword::Unsigned
            | Keyword::Bool,
        ) => true,
        _ => false,
    }
}

/// Whether a token is the keyword `typedef`.
pub fn is_typedef_word(kind: TokenKind) -> bool
    ensures { result ≡ spec.is_typedef_word kind }
{
    match kind {
        TokenKind::Key(Keyword::Typedef) => true,
        _ => false,
    }
}

/// Whether a token that is no name begins a specifier.
pub fn is_specifier_word(kind: TokenKind) -> bool
    ensures { result ≡ spec.is_specifier_word kind }
{
    match kind {
        TokenKind::Key(Keyword::Struct | Keyword::Enum) => true,
        _ => specifier_of(kind).is_some(),
    }
}

/// Whether a token is a word.
pub fn is_word(kind: TokenKind) -> bool
    ensures { result ≡ spec.is_word kind }
{
    match kind {
        TokenKind::Word => true,
        TokenKind::Key(_)
        | TokenKind::Number(_, _)
        | TokenKind::Char(_)
        | TokenKind::Text
        | TokenKind::Punct(_)
        | TokenKind::End => false,
    }
}

/// Whether a token is a `}`.
pub fn is_close_brace(kind: TokenKind) -> bool
    ensures { result ≡ spec.is_close_brace kind }
{
    match kind {
        TokenKind::Punct(Punct::CloseBrace) => true,
        _ => false,
    }
}

/// Whether a token is a `...`.
pub fn is_ellipsis(kind: TokenKind) -> bool
    ensures { result ≡ reading.is_ellipsis kind }
{
    match kind {
        TokenKind::Punct(Punct::Ellipsis) => true,
        _ => false,
    }
}
