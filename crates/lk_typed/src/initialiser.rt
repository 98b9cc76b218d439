//! Initialisers, part by part (C99 6.7.8): the scalar parts of an object that its initialiser names, in the
//! order of the entries, each with its value.

use crate::expression::TypedExpr;
use lk_base::{CellStep, Seq, Spot};
use lk_types::TypeId;

/// What a part of a local object begins with.
#[derive(Drop)]
pub enum LocalValue {
    /// The value of an expression, converted to the part's type.
    Expr(TypedExpr),
    /// The bytes of a string literal that initialises an array from its first element on, the zero at its end
    /// too where the array has room for it: the literal's place and node, and the bytes.
    Text(Spot, u32, Seq<u8>),
    /// `PTHREAD_MUTEX_INITIALIZER` or `PTHREAD_COND_INITIALIZER`.
    Ready,
}

/// A part of a local object that its initialiser names: a scalar part, or an array that
/// a string literal initialises.
#[derive(Drop)]
pub struct LocalPart {
    /// The steps from the object to the part.
    pub path: Seq<CellStep>,
    /// The part's type.
    pub ty: TypeId,
    pub value: LocalValue,
}

/// Cells of a local object that its initialiser doesn't name, though it names others (C99 6.7.8, 21): those
/// that differ in indices alone.
#[derive(Drop)]
pub struct AbsentCells {
    /// The steps from the object to the first of them.
    pub first: Seq<CellStep>,
    /// The steps to each cell that differs from them in indices alone and that the
    /// initialiser names, in its order.
    pub named: Seq<Seq<CellStep>>,
}

/// What a part of an object of static storage begins with (C99 6.6, 6.7.8).
#[derive(Drop)]
pub enum StaticValue {
    /// A number.
    Number(i128),
    /// A null pointer.
    Null,
    /// A pointer to the function with this number among the unit's entities.
    Function(u32),
    /// A pointer into an object of static storage: its number among the unit's entities, the steps to the
    /// part, and whether it points one past that part.
    Address(u32, Seq<CellStep>, bool),
    /// A pointer into a string literal: the number of the literal's node, the steps to the part (none for the
    /// literal as a whole), and whether it points one past that part.
    Text(u32, Seq<CellStep>, bool),
    /// `PTHREAD_MUTEX_INITIALIZER` or `PTHREAD_COND_INITIALIZER`.
    Ready,
}

/// A scalar part of an object of static storage that its initialiser names.
#[derive(Drop)]
pub struct StaticPart {
    /// The steps from the object to the part.
    pub path: Seq<CellStep>,
    /// The part's type.
    pub ty: TypeId,
    pub value: StaticValue,
    /// Of a part of pointer type the expression that gives it, converted to that type. Each integer constant
    /// expression that is an operand of the address is a `Number` in it.
    pub pointer: Option<TypedExpr>,
}

/// An object of static storage with its initialiser.
#[derive(Drop)]
pub struct StaticObject {
    /// The object's number among the unit's entities.
    pub entity: u32,
    /// The place of the declared name, at which the initialiser stands.
    pub spot: Spot,
    /// The number of that node of the syntax tree.
    pub ordinal: u32,
    pub parts: Seq<StaticPart>,
}
