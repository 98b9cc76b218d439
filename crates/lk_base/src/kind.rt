//! The integer kinds of C.

/// An integer kind (C99 6.2.5), in the order of rank and, at equal rank, signed before unsigned.
#[derive(Clone, Copy, Debug, PartialEq, Eq, Hash)]
pub enum Kind {
    /// `_Bool`: 0 or 1.
    Bool,
    /// `char`, signed and of 8 bits here.
    Char,
    /// `signed char`, 8 bits.
    SChar,
    /// `unsigned char`, 8 bits.
    UChar,
    /// `short`, 16 bits.
    Short,
    /// `unsigned short`, 16 bits.
    UShort,
    /// `int`, 32 bits.
    Int,
    /// `unsigned int`, 32 bits.
    UInt,
    /// `long`, 64 bits.
    Long,
    /// `unsigned long`, 64 bits.
    ULong,
    /// `long long`, 64 bits.
    LLong,
    /// `unsigned long long`, 64 bits.
    ULLong,
}
