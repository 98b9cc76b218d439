//! Expressions, and the declarators and types that lead back to them.
//!
//! Each variant is a production of the grammar, with its parts in the order of the text. `spot` is
//! the place of the first token; `ordinal` is the node's number in a walk of the whole tree,
//! parents first, parts in order.

use crate::operators::{AssignOperator, BinaryOperator, PrefixOperator, StepOperator};
use crate::specifiers::{Qualifier, Storage, TypeWord};
use lk_base::{Boxed, Kind, Name, Seq, Spot};

/// An expression (C99 6.5).
#[cycle(tree)]
#[derive(Drop)]
pub struct Expr {
    pub spot: Spot,
    pub ordinal: u32,
    pub form: ExprForm,
}

/// What an expression is made of.
#[cycle(tree)]
#[derive(Drop)]
pub enum ExprForm {
    /// `left, right`
    Comma(Boxed<Expr>, Boxed<Expr>),
    /// `left = right`, or with another operator of assignment.
    Assign(AssignOperator, Boxed<Expr>, Boxed<Expr>),
    /// `condition ? yes : no`
    Choice(Boxed<Expr>, Boxed<Expr>, Boxed<Expr>),
    /// `left operator right`
    Binary(BinaryOperator, Boxed<Expr>, Boxed<Expr>),
    /// `(type name) operand`
    Cast(Boxed<TypeName>, Boxed<Expr>),
    /// `++operand` or `--operand`
    Pre(StepOperator, Boxed<Expr>),
    /// `operator operand`
    Prefix(PrefixOperator, Boxed<Expr>),
    /// `sizeof operand`
    SizeofExpr(Boxed<Expr>),
    /// `sizeof (type name)`
    SizeofType(Boxed<TypeName>),
    /// `array[index]`
    Index(Boxed<Expr>, Boxed<Expr>),
    /// `function(arguments)`
    Call(Boxed<Expr>, Seq<Expr>),
    /// `object.member`
    Member(Boxed<Expr>, Name),
    /// `pointer->member`
    Arrow(Boxed<Expr>, Name),
    /// `operand++` or `operand--`
    Post(StepOperator, Boxed<Expr>),
    /// A name.
    Word(Name),
    /// An integer constant, by its kind and its value.
    Number(Kind, u64),
    /// A character constant, by its value as a signed `char`.
    Char(i32),
    /// String literals one after another, by the bytes that they stand for together.
    Text(Seq<u8>),
    /// `(inner)`
    Paren(Boxed<Expr>),
}

/// A type name (C99 6.7.6): specifiers and a declarator without a name, where there is one.
#[cycle(tree)]
#[derive(Drop)]
pub struct TypeName {
    pub spot: Spot,
    pub ordinal: u32,
    pub specifiers: Seq<Specifier>,
    pub declarator: Option<Declarator>,
}

/// One of the specifiers with which a declaration begins (C99 6.7).
#[cycle(tree)]
#[derive(Drop)]
pub enum Specifier {
    Storage(Storage),
    /// `inline`
    Inline,
    Qualifier(Qualifier),
    Type(TypeWord),
    /// `struct tag { members }`, perhaps without the tag. It has one member at least.
    Struct(Option<Name>, Seq<Member>),
    /// `struct tag`
    StructTag(Name),
    /// `enum tag { items }`, perhaps without the tag. It has one item at least.
    Enum(Option<Name>, Seq<Item>),
    /// `enum tag`
    EnumTag(Name),
    /// A typedef name that is taken as the type.
    Typedef(Name),
}

/// A member declaration of a struct (C99 6.7.2.1). It has one declarator at least.
#[cycle(tree)]
#[derive(Drop)]
pub struct Member {
    pub spot: Spot,
    pub ordinal: u32,
    pub specifiers: Seq<Specifier>,
    pub declarators: Seq<MemberDeclarator>,
}

/// A declarator of a member, with its width where it is a bit-field.
#[cycle(tree)]
#[derive(Drop)]
pub enum MemberDeclarator {
    /// `declarator`
    Plain(Declarator),
    /// `declarator : width`
    Field(Declarator, Expr),
    /// `: width`
    Unnamed(Expr),
}

/// An item of an enumeration (C99 6.7.2.2), with its value where one is written.
#[cycle(tree)]
#[derive(Drop)]
pub struct Item {
    pub spot: Spot,
    pub ordinal: u32,
    pub name: Name,
    pub value: Option<Expr>,
}

/// A declarator (C99 6.7.5), with a name or, in a parameter or a type name, without one.
#[cycle(tree)]
#[derive(Drop)]
pub struct Declarator {
    pub spot: Spot,
    pub ordinal: u32,
    pub form: DeclaratorForm,
}

/// What a declarator is made of. The declarator inside is missing only where there is no name.
#[cycle(tree)]
#[derive(Drop)]
pub enum DeclaratorForm {
    /// `* qualifiers declarator`
    Star(Seq<Qualifier>, Option<Boxed<Declarator>>),
    /// The declared name.
    Named(Name),
    /// `(declarator)`
    Group(Boxed<Declarator>),
    /// `declarator[size]`, perhaps without the size.
    ArrayOf(Option<Boxed<Declarator>>, Option<Boxed<Expr>>),
    /// `declarator(parameters)`, and whether the parameters end with `, ...`.
    FunctionOf(Option<Boxed<Declarator>>, Seq<Parameter>, bool),
}

/// A parameter: specifiers, and a declarator, where there is one.
#[cycle(tree)]
#[derive(Drop)]
pub struct Parameter {
    pub spot: Spot,
    pub ordinal: u32,
    pub specifiers: Seq<Specifier>,
    pub declarator: Option<Declarator>,
}
