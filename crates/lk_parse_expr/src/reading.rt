//! The readers of nodes, with so many levels for a node and what stands in it.
//!
//! Each answers what was read, with the levels that are left above it, and takes its tokens; or what is read
//! is refused with `Code::Syntax` at a token with which no tree goes on, or with `Code::TooDeep` at one with
//! which only trees that need more levels do. `Fault::NoMemory` comes for want of memory. After any of these
//! the cursor is not to be used again.
ghost use Rattle.lk_parse_expr.specs.Reading as spec;
ghost use Rattle.lk_parse_expr.specs.Readers.{Gives};

use crate::cursor::Cursor;
use crate::expression::Expressions;
use crate::found::Found;
use crate::front::begins_expr;
use crate::naming::{Head, Naming};
use crate::types::Types;
use crate::words::is_word;
use lk_base::{Fault, Seq};
use lk_tree::{Declarator, Expr, Item, Member, Specifier, TypeName};
use std::alloc::Global;

/// An expression whose operators bind as tightly as `level` or more tightly: 0 for any, 1 for an assignment,
/// 2 for a conditional.
///
/// Refused with `Code::Syntax` at a token with which no tree goes on, or with `Code::TooDeep` at one with
/// which only trees of more levels do; `Fault::NoMemory` comes for want of memory. After any of these the
/// cursor is not to be used again.
#[cycle(nodes)]
pub fn read_expr(
    alloc: Global,
    cursor: &mut Cursor<'_>,
    depth: usize,
    level: u8,
) -> Result<Found<Expr>, Fault>
    ensures { Gives ((spec.readers depth).expr level cursor.old) result cursor.new }
{
    if depth == 0 {
        return Err(cursor.exhausted(begins_expr(cursor.peek())));
    }
    let inside = Expressions {
        alloc,
        depth: depth - 1,
        expr: read_expr,
        type_name: read_type_name,
    };
    inside.expr(cursor, level)
}

/// A type name (C99 6.7.6).
///
/// Refused with `Code::Syntax` at a token with which no tree goes on, or with `Code::TooDeep` at one with
/// which only trees of more levels do; `Fault::NoMemory` comes for want of memory. After any of these the
/// cursor is not to be used again.
#[cycle(nodes)]
pub fn read_type_name(
    alloc: Global,
    cursor: &mut Cursor<'_>,
    depth: usize,
) -> Result<Found<TypeName>, Fault>
    ensures { Gives ((spec.readers depth).type_name cursor.old) result cursor.new }
{
    if depth == 0 {
        return Err(cursor.exhausted(cursor.continues_specifiers(false)));
    }
    let inside = Types {
        alloc,
        depth: depth - 1,
        expr: read_expr,
        declarator: read_declarator,
        member: read_member,
        item: read_item,
    };
    inside.type_name(cursor)
}

/// A declarator, and what it declares (C99 6.7.5, 6.7.6).
///
/// Refused with `Code::Syntax` at a token with which no tree goes on, or with `Code::TooDeep` at one with
/// which only trees of more levels do; `Fault::NoMemory` comes for want of memory. After any of these the
/// cursor is not to be used again.
#[cycle(nodes)]
pub fn read_declarator(
    alloc: Global,
    cursor: &mut Cursor<'_>,
    depth: usize,
    naming: Naming,
) -> Result<Found<(Declarator, Head)>, Fault>
    ensures { Gives ((spec.readers depth).declarator naming cursor.old) result cursor.new }
{
    if depth == 0 {
        return Err(cursor.exhausted(cursor.begins_declarator(naming)));
    }
    let inside = Types {
        alloc,
        depth: depth - 1,
        expr: read_expr,
        declarator: read_declarator,
        member: read_member,
        item: read_item,
    };
    inside.declarator(cursor, naming)
}

/// A member of a struct.
#[cycle(nodes)]
fn read_member(alloc: Global, cursor: &mut Cursor<'_>, depth: usize) -> Result<Found<Member>, Fault>
    ensures { Gives ((spec.readers depth).member cursor.old) result cursor.new }
{
    if depth == 0 {
        return Err(cursor.exhausted(cursor.continues_specifiers(false)));
    }
    let inside = Types {
        alloc,
        depth: depth - 1,
        expr: read_expr,
        declarator: read_declarator,
        member: read_member,
        item: read_item,
    };
    inside.member(cursor)
}

/// An item of an enumeration.
#[cycle(nodes)]
fn read_item(alloc: Global, cursor: &mut Cursor<'_>, depth: usize) -> Result<Found<Item>, Fault>
    ensures { Gives ((spec.readers depth).item cursor.old) result cursor.new }
{
    if depth == 0 {
        return Err(cursor.exhausted(is_word(cursor.peek())));
    }
    let inside = Types {
        alloc,
        depth: depth - 1,
        expr: read_expr,
        declarator: read_declarator,
        member: read_member,
        item: read_item,
    };
    inside.item(cursor)
}

/// Specifiers, one at least, and whether `typedef` is among them. `depth` is how many levels there are inside
/// them.
///
/// Refused with `Code::Syntax` at a token with which no tree goes on, or with `Code::TooDeep` at one with
/// which only trees of more levels do; `Fault::NoMemory` comes for want of memory. After any of these the
/// cursor is not to be used again.
pub fn read_specifiers(
    alloc: Global,
    cursor: &mut Cursor<'_>,
    depth: usize,
) -> Result<Found<(Seq<Specifier>, bool)>, Fault>
    ensures { Gives (spec.specifiers depth (spec.readers depth) cursor.old) result cursor.new }
{
    let inside = Types {
        alloc,
        depth,
        expr: read_expr,
        declarator: read_declarator,
        member: read_member,
        item: read_item,
    };
    inside.specifiers(cursor)
}
