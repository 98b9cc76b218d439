//! How wide the integer kinds are, and which values they have.
ghost use Rattle.std.specs.Prelude.{◌≡◌};
ghost use Rattle.lk_arith.specs.Kinds as spec;

use lk_base::Kind;

/// How many bits a value of the kind has, the sign bit counted: 1 to 64 (C99 6.2.6.2).
pub fn width(kind: Kind) -> u32
    ensures { result ≡ spec.width kind }
{
    match kind {
        Kind::Bool => 1,
        Kind::Char | Kind::SChar | Kind::UChar => 8,
        Kind::Short | Kind::UShort => 16,
        Kind::Int | Kind::UInt => 32,
        Kind::Long | Kind::ULong | Kind::LLong | Kind::ULLong => 64,
    }
}

/// How many bytes `sizeof` counts for the kind: 1 to 8 (C99 6.5.3.4).
pub fn bytes_of(kind: Kind) -> u64
    ensures { result ≡ spec.bytes_of kind }
{
    match kind {
        Kind::Bool | Kind::Char | Kind::SChar | Kind::UChar => 1,
        Kind::Short | Kind::UShort => 2,
        Kind::Int | Kind::UInt => 4,
        Kind::Long | Kind::ULong | Kind::LLong | Kind::ULLong => 8,
    }
}

/// Whether the kind has negative values (C99 6.2.5).
pub fn is_signed(kind: Kind) -> bool
    ensures { result ≡ spec.is_signed kind }
{
    match kind {
        Kind::Char | Kind::SChar | Kind::Short | Kind::Int | Kind::Long | Kind::LLong => true,
        Kind::Bool | Kind::UChar | Kind::UShort | Kind::UInt | Kind::ULong | Kind::ULLong => false,
    }
}

/// The least value of the kind (C99 6.2.6.2, in two's complement).
pub fn least(kind: Kind) -> i128
    ensures { result ≡ spec.least kind }
{
    match kind {
        Kind::Char | Kind::SChar => -128,
        Kind::Short => -32_768,
        Kind::Int => -2_147_483_648,
        Kind::Long | Kind::LLong => -9_223_372_036_854_775_808,
        Kind::Bool | Kind::UChar | Kind::UShort | Kind::UInt | Kind::ULong | Kind::ULLong => 0,
    }
}

/// The greatest value of the kind (C99 6.2.6.2).
pub fn greatest(kind: Kind) -> i128
    ensures { result ≡ spec.greatest kind }
{
    match kind {
        Kind::Bool => 1,
        Kind::Char | Kind::SChar => 127,
        Kind::UChar => 255,
        Kind::Short => 32_767,
        Kind::UShort => 65_535,
        Kind::Int => 2_147_483_647,
        Kind::UInt => 4_294_967_295,
        Kind::Long | Kind::LLong => 9_223_372_036_854_775_807,
        Kind::ULong | Kind::ULLong => 18_446_744_073_709_551_615,
    }
}

/// Whether the number is a value of the kind.
pub fn is_value(kind: Kind, number: i128) -> bool
    ensures { result ≡ spec.is_value kind number }
{
    least(kind) <= number && number <= greatest(kind)
}
