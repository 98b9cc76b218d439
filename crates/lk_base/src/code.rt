//! The codes of the refusals.
ghost use Rattle.std.specs.Prelude.{◌≡◌};
ghost use Rattle.lk_base.specs.Code.{number_of, word_of, IsNumberOfOne};

/// The code of a refusal. Each has a number and a word, by which reports and tests name it.
#[derive(Clone, Copy, Debug, PartialEq, Eq)]
pub enum Code {
    /// 10. A byte begins no blank, comment, line mark or token.
    Byte,
    /// 11. Something begins here that is not whole or not valid.
    Token,
    /// 12. A word that names a part of C or an extension that is left out.
    UnsupportedWord,
    /// 13. A token with which no tree of the grammar can go on.
    Syntax,
    /// 14. A token with which only trees deeper than the limit can go on.
    TooDeep,
    /// 15. A file is longer than its limit, or passes that of all sources together.
    TooLong,
    /// 16. A line of the externs file is neither empty nor one identifier.
    BadExterns,
    /// 17. A line of a schedule file is neither empty nor a turn.
    BadSchedule,
    /// 18. A line that can't stand where it stands in a certificate.
    BadCertificate,
    /// 20. A name without a declaration in scope.
    Undeclared,
    /// 21. A name or tag declared in a way that its scope does not allow.
    Redeclared,
    /// 22. An operand, argument, result, specifier list or use of a name breaks a rule of types.
    Mismatch,
    /// 23. An operand that must be a place is none.
    NotAPlace,
    /// 24. A constant expression is wanted.
    NotConstant,
    /// 25. A complete type is wanted.
    Incomplete,
    /// 26. A label, case, `break` or `continue` where it can't stand.
    BadLabel,
    /// 27. An initialiser that does not fit what it initialises.
    BadInitialiser,
    /// 30. A bit-field.
    BitField,
    /// 31. An array size that is no constant in range.
    VariableArray,
    /// 32. A type over the bounds on its nodes or depth.
    LargeType,
    /// 34. A conversion between an integer and a pointer.
    IntPointerCast,
    /// 35. A conversion between pointers of different types.
    PointerCast,
    /// 36. A call that may lock or not.
    TryLock,
    /// 37. A jump out of a function.
    LongJmp,
    /// 38. An atomic call.
    Atomic,
    /// 40. An own function, or a pointer to one, with `...`.
    OwnVararg,
    /// 41. A struct used as a value.
    StructValue,
    /// 42. `sizeof` of a type that holds a struct, mutex or condition variable.
    SizeofStruct,
    /// 43. A library function that is left out.
    UnknownExternal,
    /// 44. An attribute argument that is not null.
    Attribute,
    /// 45. A mutex or condition variable used as a value.
    MutexValue,
    /// 46. A start routine that is not the name of a fitting function.
    StartRoutine,
    /// 47. An allocation size of another shape than those that are understood.
    AllocShape,
    /// 48. `main` used as an expression.
    CallsMain,
    /// 50. A result of `pthread_join` is asked for.
    JoinResult,
    /// 60. No source defines `main`.
    NoMain,
    /// 61. A name with two definitions.
    DefinedTwice,
    /// 62. A name declared with two types.
    TypesDiffer,
    /// 63. A used name without a definition.
    NotDefined,
    /// 64. The program has more control points than the limit.
    TooManyPoints,
    /// 70. The program has more labels than the limit.
    TooManyLabels,
    /// 71. The certificate has more bytes than the limit.
    CertificateTooLarge,
    /// 72. The certificate doesn't pass one of the checker's rules.
    CertificateFails,
}

impl Code {
    /// The code's number, from 10 to 72.
    pub fn number(&self) -> u32
        ensures { result ≡ number_of self.now }
    {
        match self {
            Code::Byte => 10,
            Code::Token => 11,
            Code::UnsupportedWord => 12,
            Code::Syntax => 13,
            Code::TooDeep => 14,
            Code::TooLong => 15,
            Code::BadExterns => 16,
            Code::BadSchedule => 17,
            Code::BadCertificate => 18,
            Code::Undeclared => 20,
            Code::Redeclared => 21,
            Code::Mismatch => 22,
            Code::NotAPlace => 23,
            Code::NotConstant => 24,
            Code::Incomplete => 25,
            Code::BadLabel => 26,
            Code::BadInitialiser => 27,
            Code::BitField => 30,
            Code::VariableArray => 31,
            Code::LargeType => 32,
            Code::IntPointerCast => 34,
            Code::PointerCast => 35,
            Code::TryLock => 36,
            Code::LongJmp => 37,
            Code::Atomic => 38,
            Code::OwnVararg => 40,
            Code::StructValue => 41,
            Code::SizeofStruct => 42,
            Code::UnknownExternal => 43,
            Code::Attribute => 44,
            Code::MutexValue => 45,
            Code::StartRoutine => 46,
            Code::AllocShape => 47,
            Code::CallsMain => 48,
            Code::JoinResult => 50,
            Code::NoMain => 60,
            Code::DefinedTwice => 61,
            Code::TypesDiffer => 62,
            Code::NotDefined => 63,
            Code::TooManyPoints => 64,
            Code::TooManyLabels => 70,
            Code::CertificateTooLarge => 71,
            Code::CertificateFails => 72,
        }
    }

    /// The code's word, as a refusal prints it.
    pub fn word(&self) -> &'static str
        ensures { result.now ≡ word_of self.now }
    {
        match self {
            Code::Byte => "Byte",
            Code::Token => "Token",
            Code::UnsupportedWord => "UnsupportedWord",
            Code::Syntax => "Syntax",
            Code::TooDeep => "TooDeep",
            Code::TooLong => "TooLong",
            Code::BadExterns => "BadExterns",
            Code::BadSchedule => "BadSchedule",
            Code::BadCertificate => "BadCertificate",
            Code::Undeclared => "Undeclared",
            Code::Redeclared => "Redeclared",
            Code::Mismatch => "Mismatch",
            Code::NotAPlace => "NotAPlace",
            Code::NotConstant => "NotConstant",
            Code::Incomplete => "Incomplete",
            Code::BadLabel => "BadLabel",
            Code::BadInitialiser => "BadInitialiser",
            Code::BitField => "BitField",
            Code::VariableArray => "VariableArray",
            Code::LargeType => "LargeType",
            Code::IntPointerCast => "IntPointerCast",
            Code::PointerCast => "PointerCast",
            Code::TryLock => "TryLock",
            Code::LongJmp => "LongJmp",
            Code::Atomic => "Atomic",
            Code::OwnVararg => "OwnVararg",
            Code::StructValue => "StructValue",
            Code::SizeofStruct => "SizeofStruct",
            Code::UnknownExternal => "UnknownExternal",
            Code::Attribute => "Attribute",
            Code::MutexValue => "MutexValue",
            Code::StartRoutine => "StartRoutine",
            Code::AllocShape => "AllocShape",
            Code::CallsMain => "CallsMain",
            Code::JoinResult => "JoinResult",
            Code::NoMain => "NoMain",
            Code::DefinedTwice => "DefinedTwice",
            Code::TypesDiffer => "TypesDiffer",
            Code::NotDefined => "NotDefined",
            Code::TooManyPoints => "TooManyPoints",
            Code::TooManyLabels => "TooManyLabels",
            Code::CertificateTooLarge => "CertificateTooLarge",
            Code::CertificateFails => "CertificateFails",
        }
    }
}

/// A number tells which code it is.
pub fn no_two_codes_share_a_number()
    ensures { IsNumberOfOne }
{}
