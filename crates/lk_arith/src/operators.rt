//! The operators of C on integers.
ghost use Rattle.std.specs.Prelude.{◌≡◌};
ghost use Rattle.lk_arith.specs.Operators as spec;

use lk_base::Kind;

/// A binary operator of C99 6.5 that computes on two values. `&&` and `||` are none: they are control.
#[derive(Clone, Copy, PartialEq, Eq)]
pub enum Op {
    /// `*`.
    Multiply,
    /// `/`.
    Divide,
    /// `%`.
    Remainder,
    /// `+`.
    Add,
    /// `-`.
    Subtract,
    /// `<<`.
    ShiftLeft,
    /// `>>`.
    ShiftRight,
    /// `<`.
    Less,
    /// `>`.
    Greater,
    /// `<=`.
    LessOrEqual,
    /// `>=`.
    GreaterOrEqual,
    /// `==`.
    Equal,
    /// `!=`.
    NotEqual,
    /// `&`.
    And,
    /// `^`.
    Xor,
    /// `|`.
    Or,
}

/// A unary operator of C99 6.5.3.3 that computes on a value.
#[derive(Clone, Copy, PartialEq, Eq)]
pub enum UnaryOp {
    /// `+`, which gives its operand.
    Plus,
    /// `-`.
    Negate,
    /// `~`.
    Complement,
    /// `!`.
    Not,
}

/// Why C calls an operation on integers undefined.
#[derive(Clone, Copy, PartialEq, Eq)]
pub enum Undefined {
    /// A signed kind doesn't have the result (C99 6.5, 5), or not the quotient of a remainder.
    Overflow,
    /// The divisor is zero (C99 6.5.5, 5).
    DivideByZero,
    /// A shift by a negative number of places, or by as many as the kind has bits or more, or to the left of
    /// a negative number (C99 6.5.7, 3 and 4).
    Shift,
}

impl Op {
    /// Whether it is `<<` or `>>`, whose second operand may have another kind than the first.
    pub fn is_shift(self) -> bool
        ensures { result ≡ spec.is_shift self }
    {
        match self {
            Op::ShiftLeft | Op::ShiftRight => true,
            Op::Multiply
            | Op::Divide
            | Op::Remainder
            | Op::Add
            | Op::Subtract
            | Op::Less
            | Op::Greater
            | Op::LessOrEqual
            | Op::GreaterOrEqual
            | Op::Equal
            | Op::NotEqual
            | Op::And
            | Op::Xor
            | Op::Or => false,
        }
    }

    /// The kind of what it gives at a kind: `int` for a comparison (C99 6.5.8, 6), else the kind itself.
    pub fn result_kind(self, kind: Kind) -> Kind
        ensures { result ≡ spec.result_kind self kind }
    {
        match self {
            Op::Less
            | Op::Greater
            | Op::LessOrEqual
            | Op::GreaterOrEqual
            | Op::Equal
            | Op::NotEqual => Kind::Int,
            Op::Multiply
            | Op::Divide
            | Op::Remainder
            | Op::Add
            | Op::Subtract
            | Op::ShiftLeft
            | Op::ShiftRight
            | Op::And
            | Op::Xor
            | Op::Or => kind,
        }
    }
}

impl UnaryOp {
    /// The kind of what it gives at a kind: `int` for `!` (C99 6.5.3.3, 5), else the kind itself.
    pub fn result_kind(self, kind: Kind) -> Kind
        ensures { result ≡ spec.unary_kind self kind }
    {
        match self {
            UnaryOp::Not => Kind::Int,
            UnaryOp::Plus | UnaryOp::Negate | UnaryOp::Complement => kind,
        }
    }
}
