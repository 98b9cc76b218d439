//! Expressions with their types.
//!
//! A node has the place and the number of the node of the syntax tree that it comes from. A conversion that
//! is written out has those of the expression that it converts.

use crate::library::LibraryCall;
use lk_arith::{Op, UnaryOp};
use lk_base::{Boxed, Seq, Spot};
use lk_tree::StepOperator;
use lk_types::TypeId;

/// An expression with its type (C99 6.5).
#[cycle(typed)]
#[derive(Drop)]
pub struct TypedExpr {
    pub spot: Spot,
    pub ordinal: u32,
    /// The type of its value, or of the place that it names. Where it names a
    /// function, that of the pointer to it.
    pub ty: TypeId,
    pub form: TypedForm,
}

/// Which object a name stands for.
#[derive(Clone, Copy)]
pub enum Storage {
    /// The object of static storage with this number among the unit's entities.
    Entity(u32),
    /// The object with this number among the body's locals.
    Local(u32),
}

/// What a call calls.
#[cycle(typed)]
#[derive(Drop)]
pub enum Callee {
    /// The function with this number among the unit's entities, by its name, perhaps in parentheses.
    Function(u32),
    /// The function that a value of pointer type points to.
    Pointer(Boxed<TypedExpr>),
}

/// Where `++` or `--` stands, and so which value it gives (C99 6.5.2.4, 6.5.3.1).
#[derive(Clone, Copy)]
pub enum Change {
    /// `place++` or `place--`, behind its place: the value is the one before the step (C99 6.5.2.4).
    After,
    /// `++place` or `--place`, before its place: the value is the one after the step (C99 6.5.3.1).
    Before,
}

/// What an expression with a type is made of. The first group names places (C99 6.3.2.1), the second computes
/// values, the third converts.
#[cycle(typed)]
#[derive(Drop)]
pub enum TypedForm {
    /// An object; a local among them may be a slot, which its body says.
    Object(Storage),
    /// A string literal, by its bytes without the zero at its end.
    Text(Seq<u8>),
    /// `place.member`, by the member's number.
    Member(Boxed<TypedExpr>, u32),
    /// `pointer->member`, by the member's number.
    Arrow(Boxed<TypedExpr>, u32),
    /// `pointer[index]`
    Index(Boxed<TypedExpr>, Boxed<TypedExpr>),
    /// `*pointer`
    Indirection(Boxed<TypedExpr>),
    /// `(inner)`: a place where the inner expression is one.
    Paren(Boxed<TypedExpr>),

    /// A constant, an enumerator or what `sizeof` counts.
    Number(i128),
    /// The name of a function that stands as a value: its number among the unit's entities.
    Function(u32),
    /// `&place`
    Address(Boxed<TypedExpr>),
    /// An operator before its operand, which has been promoted, but for `!`.
    Unary(UnaryOp, Boxed<TypedExpr>),
    /// An operator between two operands, of one type where C converts them.
    Binary(Op, Boxed<TypedExpr>, Boxed<TypedExpr>),
    /// `left && right`
    And(Boxed<TypedExpr>, Boxed<TypedExpr>),
    /// `left || right`
    Or(Boxed<TypedExpr>, Boxed<TypedExpr>),
    /// `condition ? taken : other`
    Choice(Boxed<TypedExpr>, Boxed<TypedExpr>, Boxed<TypedExpr>),
    /// `left, right`
    Comma(Boxed<TypedExpr>, Boxed<TypedExpr>),
    /// `place = value`
    Assign(Boxed<TypedExpr>, Boxed<TypedExpr>),
    /// `place op= value`, computed at this type.
    Compound(Op, Boxed<TypedExpr>, Boxed<TypedExpr>, TypeId),
    /// `++` or `--`, computed at this type.
    Step(StepOperator, Change, Boxed<TypedExpr>, TypeId),
    /// A call of a function of the program.
    Call(Callee, Seq<TypedExpr>),
    /// A call of the library.
    Library(LibraryCall),
    /// A call of a function that `--externs` names, by its number among the unit's entities.
    Extern(u32, Seq<TypedExpr>),
    /// `sizeof`, by the count of bytes; its operand computes nothing.
    Size(u64),

    /// The value that the place has (C99 6.3.2.1, 2).
    Load(Boxed<TypedExpr>),
    /// The pointer to the first element of the place, which is an array (C99 6.3.2.1, 3).
    Decay(Boxed<TypedExpr>),
    /// The value converted to the node's type (C99 6.3).
    Convert(Boxed<TypedExpr>),
    /// A cast to `void`: the operand computes, and its value is dropped (C99 6.3.2.2).
    Discard(Boxed<TypedExpr>),
    /// A null pointer constant converted to the node's type (C99 6.3.2.3, 3).
    Null,
}
