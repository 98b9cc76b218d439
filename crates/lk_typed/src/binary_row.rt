//! What the operators between two operands take.

use lk_arith::Op;

/// A row of the table of the operators between two operands: which operands it takes (C99 6.5.5 to 6.5.14).
#[derive(Clone, Copy)]
pub enum BinaryRow {
    /// `&&` or `||`, with the truth value of its first operand that decides (C99 6.5.13, 6.5.14).
    Logical(bool),
    /// Between integers alone, after the usual conversions (C99 6.5.5, 6.5.10 to 6.5.12).
    Integers(Op),
    /// A shift: between integers, after the promotions alone (C99 6.5.7).
    Shift(Op),
    /// `+` (C99 6.5.6).
    Sum,
    /// `-` (C99 6.5.6).
    Difference,
    /// An order (C99 6.5.8).
    Order(Op),
    /// `==` or `!=` (C99 6.5.9).
    Equality(Op),
}
