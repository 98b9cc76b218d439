//! External declarations and units.
ghost use Rattle.std.specs.Prelude.{◌≡◌};
ghost use Rattle.lk_parse_unit.specs.Reading as spec;
ghost use Rattle.lk_parse_decl.specs.Reading.{declarators_behind};
ghost use Rattle.lk_parse_expr.specs.Parts.{behind};
ghost use Rattle.lk_parse_expr.specs.Readers as reader;
ghost use Rattle.lk_parse_expr.specs.Readers.{Gives};

use crate::lead::is_end;
use crate::statement::{Statements, at, read_stmt};
use lk_base::{Fault, Name, Seq, Spot};
use lk_lex::Punct;
use lk_parse_decl::read_declarators_behind;
use lk_parse_expr::{Cursor, Found, Head, Naming, read_declarator, read_specifiers};
use lk_tree::{
    BlockItem, Decl, Declarator, Declare, Empty, Function, InitDeclarator, Specifier, Stmt,
    StmtForm,
};
use std::alloc::Global;

/// The items in the body of a function, with so many levels for the body.
fn body_items(
    alloc: Global,
    cursor: &mut Cursor<'_>,
    depth: usize,
) -> Result<Found<Seq<BlockItem>>, Fault>
    ensures { Gives (spec.body_items depth cursor.old) result cursor.new }
{
    if depth == 0 {
        return Err(cursor.refuse());
    }
    let inside = Statements {
        alloc,
        depth: depth - 1,
        stmt: read_stmt,
    };
    inside.block_items(cursor)
}

/// The body of a function of this name with these parameters. Its `{` is next.
#[tactic(auto, unfolding(crate::specs::Reading::function_body, lk_parse_expr::specs::Input::leave, lk_parse_expr::specs::Input::with_names))]
fn body(
    alloc: Global,
    cursor: &mut Cursor<'_>,
    depth: usize,
    name: Name,
    typedef: bool,
    parameters: Seq<(Name, bool)>,
) -> Result<Found<Stmt>, Fault>
    ensures { Gives (spec.function_body depth name typedef parameters cursor.old) result cursor.new }
{
    let brace = cursor.spot();
    cursor.declare(name, typedef)?;
    let mark = cursor.mark();
    cursor.declare_all(parameters)?;
    cursor.take();
    let items = body_items(alloc, cursor, depth)?;
    let items = cursor.closed(items, Punct::CloseBrace)?;
    cursor.leave(mark);
    Ok(Found {
        tree: at(brace, StmtForm::Block(items.tree)),
        room: items.room,
    })
}

/// The body of a function, with what was read before it.
fn body_behind<B: Drop>(
    alloc: Global,
    cursor: &mut Cursor<'_>,
    depth: usize,
    name: Name,
    typedef: bool,
    parameters: Seq<(Name, bool)>,
    before: B,
) -> Result<(B, Found<Stmt>), Fault>
    ensures { Gives (behind before (spec.function_body depth name typedef parameters) cursor.old)
        result cursor.new }
{
    let body = body(alloc, cursor, depth, name, typedef, parameters)?;
    Ok((before, body))
}

/// The definition of a function behind its declarator, which declares this. Its `{` is next.
fn function(
    alloc: Global,
    cursor: &mut Cursor<'_>,
    depth: usize,
    spot: Spot,
    first: Found<(Seq<Specifier>, bool)>,
    inner: Found<Declarator>,
    head: Head,
) -> Result<Found<Decl>, Fault>
    ensures { Gives (spec.function_by depth spot first
        (reader.found (inner.tree, head) inner.room) head cursor.old) result cursor.new }
{
    match head {
        Head::Abstract => Err(cursor.refuse()),
        Head::Bare(_name) => Err(cursor.refuse()),
        Head::Other(_name) => Err(cursor.refuse()),
        Head::Function(name, parameters) => {
            let typedef = first.tree.1;
            let before = (first.first(), inner);
            let (before, body) = body_behind(
                alloc, cursor, depth, name, typedef, parameters, before,
            )?;
            let (first, inner) = before;
            Ok(Found {
                tree: Decl::Function(Function {
                    spot,
                    ordinal: 0,
                    specifiers: first.tree,
                    declarator: inner.tree,
                    body: body.tree,
                }),
                room: first.room.min(inner.room.min(body.room)),
            })
        }
    }
}

/// The declarators of a declaration, of which the first was read, with what was read before it.
fn declarators_with<B: Drop>(
    alloc: Global,
    cursor: &mut Cursor<'_>,
    depth: usize,
    typedef: bool,
    inner: Found<(Declarator, Head)>,
    before: B,
) -> Result<(B, Found<Seq<InitDeclarator>>), Fault>
    ensures { Gives (behind before (declarators_behind depth typedef inner) cursor.old) result cursor.new }
{
    let list = read_declarators_behind(alloc, cursor, depth, typedef, inner)?;
    Ok((before, list))
}

/// A declaration behind its specifiers and its first declarator.
#[tactic(auto, unfolding(crate::specs::Reading::declared_behind))]
fn declared_behind(
    alloc: Global,
    cursor: &mut Cursor<'_>,
    depth: usize,
    spot: Spot,
    first: Found<(Seq<Specifier>, bool)>,
    inner: Found<(Declarator, Head)>,
) -> Result<Found<Decl>, Fault>
    ensures { Gives (spec.declared_behind depth spot first inner cursor.old) result cursor.new }
{
    let typedef = first.tree.1;
    let read = declarators_with(alloc, cursor, depth, typedef, inner, first.first())?;
    let (first, list) = cursor.closed(read, Punct::Semicolon)?;
    Ok(Found {
        tree: Decl::Declare(Declare {
            spot,
            ordinal: 0,
            specifiers: first.tree,
            declarators: list.tree,
        }),
        room: first.room.min(list.room),
    })
}

/// An external declaration behind its specifiers.
#[tactic(auto, unfolding(crate::specs::Reading::declared))]
fn declared(
    alloc: Global,
    cursor: &mut Cursor<'_>,
    depth: usize,
    spot: Spot,
    first: Found<(Seq<Specifier>, bool)>,
) -> Result<Found<Decl>, Fault>
    ensures { Gives (spec.declared depth spot first cursor.old) result cursor.new }
{
    if cursor.sees(Punct::Semicolon) {
        cursor.take();
        let Found { tree, room } = first.first();
        return Ok(Found {
            tree: Decl::Declare(Declare {
                spot,
                ordinal: 0,
                specifiers: tree,
                declarators: Seq::new(Vec::new(alloc)),
            }),
            room,
        });
    }
    let inner = read_declarator(alloc, cursor, depth, Naming::Named)?;
    if cursor.sees(Punct::OpenBrace) {
        let Found { tree, room } = inner;
        let (declarator, head) = tree;
        let declarator = Found {
            tree: declarator,
            room,
        };
        return function(alloc, cursor, depth, spot, first, declarator, head);
    }
    declared_behind(alloc, cursor, depth, spot, first, inner)
}

/// Whether an external declaration begins.
fn begins_external(cursor: &Cursor<'_>) -> bool
    ensures { result ≡ spec.begins_external cursor.now }
{
    cursor.sees(Punct::Semicolon) || cursor.continues_specifiers(false)
}

/// An external declaration at this place. `depth` is how many levels there are inside it.
#[tactic(auto, unfolding(crate::specs::Reading::external_from))]
fn external_at(
    alloc: Global,
    cursor: &mut Cursor<'_>,
    depth: usize,
    spot: Spot,
) -> Result<Found<Decl>, Fault>
    ensures { Gives (spec.external_from depth spot cursor.old) result cursor.new }
{
    if cursor.sees(Punct::Semicolon) {
        cursor.take();
        return Ok(Found {
            tree: Decl::Empty(Empty { spot, ordinal: 0 }),
            room: depth,
        });
    }
    let first = read_specifiers(alloc, cursor, depth)?;
    declared(alloc, cursor, depth, spot, first)
}

/// An external declaration, with so many levels for it and what stands in it.
fn external(alloc: Global, cursor: &mut Cursor<'_>, depth: usize) -> Result<Found<Decl>, Fault>
    ensures { Gives (spec.external depth cursor.old) result cursor.new }
{
    if depth == 0 {
        return Err(cursor.exhausted(begins_external(cursor)));
    }
    let spot = cursor.spot();
    external_at(alloc, cursor, depth - 1, spot)
}

/// External declarations one after another.
fn externals(
    alloc: Global,
    cursor: &mut Cursor<'_>,
    depth: usize,
) -> Result<Found<Seq<Decl>>, Fault>
    ensures { Gives (spec.externals depth cursor.old) result cursor.new }
{
    let mut list = Vec::new(alloc);
    let mut room = depth;
    for _turn in 0..cursor.left() {
        if is_end(cursor.peek()) {
            return Ok(Found {
                tree: Seq::new(list),
                room,
            });
        }
        let next = external(alloc, cursor, depth)?;
        list.push(next.tree)?;
        room = room.min(next.room);
    }
    Ok(Found {
        tree: Seq::new(list),
        room,
    })
}

/// External declarations up to the end, with so many levels for each and what stands in it (C99 6.9).
///
/// Refused with `Code::Syntax` at a token with which no tree goes on, or with `Code::TooDeep` at one with
/// which only trees of more levels do; `Fault::NoMemory` comes for want of memory. After any of these the
/// cursor is not to be used again.
#[tactic(auto, unfolding(crate::specs::Reading::unit))]
pub fn read_unit(
    alloc: Global,
    cursor: &mut Cursor<'_>,
    depth: usize,
) -> Result<Found<Seq<Decl>>, Fault>
    ensures { Gives (spec.unit depth cursor.old) result cursor.new }
{
    let list = externals(alloc, cursor, depth)?;
    if !is_end(cursor.peek()) {
        return Err(cursor.refuse());
    }
    Ok(list)
}
