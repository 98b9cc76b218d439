//! The tree of a checked source: a type at each expression, each conversion written out, each name
//! resolved. Beside it stand the words in which the rules of C are put, and what every rule asks
//! of types: what a number of the table means, what is known of an expression, how a value
//! converts, and the code that is told.
//!
//! Trees are plain values: a contract compares two of them by `≡`.
#![tactic(auto)]

mod binary_row;
mod codes;
mod constant;
mod conversions;
mod entity;
mod expression;
mod forms;
mod initialiser;
mod laws;
mod library;
mod members;
mod names;
mod role;
mod statement;
mod structs;
mod typed;
mod unit;
mod values;
mod verdict;
mod whole;

pub use binary_row::BinaryRow;
pub use codes::{by_row, code_if, lesser, operand_code, unless};
pub use constant::{Constant, is_null_value};
pub use conversions::{
    are_same_pointers, are_void_and_object, cast_code, convert_code, has_lock, is_function_pointer,
};
pub use entity::{Declaration, Defines, Entity, EntityKind, Linkage, Use};
pub use expression::{Callee, Change, Storage, TypedExpr, TypedForm};
pub use forms::{
    are_same, form, is_function, is_integer, is_lock, is_pointer, is_struct, is_thread_id, is_void,
    kind_of, struct_of, target_of,
};
pub use initialiser::{AbsentCells, LocalPart, LocalValue, StaticObject, StaticPart, StaticValue};
pub use laws::{meanings_stay, numbers_mean_one_tree, trees_differ};
pub use library::LibraryCall;
pub use members::{Field, Members};
pub use names::{Declared, Duration, Meaning, Tag, TagMeaning};
pub use role::Role;
pub use statement::{LocalInit, SwitchCase, TypedFirst, TypedItem, TypedStmt, TypedStmtForm};
pub use structs::is_complete;
pub use typed::{ExprType, Typed};
pub use unit::{Body, Local, StructTag, TypedUnit};
pub use values::value;
pub use verdict::Verdict;
pub use whole::{Linked, Whole, WholeEntity};
