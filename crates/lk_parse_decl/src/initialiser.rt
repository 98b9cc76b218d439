//! Initialisers.
ghost use Rattle.std.specs.Prelude.{◌≡◌};
ghost use Rattle.lk_parse_decl.specs.Reading as spec;
ghost use Rattle.lk_parse_expr.specs.Readers.{Gives};

use lk_base::{Fault, Seq, Spot};
use lk_lex::Punct;
use lk_parse_expr::{Cursor, Found, begins_expr, read_expr};
use lk_tree::{Designator, Entry, Init, InitList};
use std::alloc::Global;

/// Whether a designator begins.
fn begins_designator(cursor: &Cursor<'_>) -> bool
    ensures { result ≡ spec.begins_designator cursor.now }
{
    cursor.sees(Punct::Dot) || cursor.sees(Punct::OpenBracket)
}

/// Whether an initialiser begins.
fn begins_initialiser(cursor: &Cursor<'_>) -> bool
    ensures { result ≡ spec.begins_initialiser cursor.now }
{
    begins_expr(cursor.peek()) || cursor.sees(Punct::OpenBrace)
}

/// A designator. `depth` is how many levels there are inside it.
#[tactic(auto, unfolding(crate::specs::Reading::designator))]
fn designator(
    alloc: Global,
    cursor: &mut Cursor<'_>,
    depth: usize,
) -> Result<Found<Designator>, Fault>
    ensures { Gives (spec.designator depth (spec.initialiser depth) cursor.old) result cursor.new }
{
    if cursor.sees(Punct::Dot) {
        cursor.take();
        let name = cursor.word()?;
        return Ok(Found {
            tree: Designator::Member(name),
            room: depth,
        });
    }
    cursor.expect(Punct::OpenBracket)?;
    let index = read_expr(alloc, cursor, depth, 2)?;
    let index = cursor.closed(index, Punct::CloseBracket)?;
    Ok(Found {
        tree: Designator::Index(index.tree),
        room: index.room,
    })
}

/// Designators one after another.
fn designator_list(
    alloc: Global,
    cursor: &mut Cursor<'_>,
    depth: usize,
) -> Result<Found<Seq<Designator>>, Fault>
    ensures { Gives (spec.designator_list depth (spec.initialiser depth) cursor.old) result cursor.new }
{
    let mut list = Vec::new(alloc);
    let mut room = depth;
    for _turn in 0..cursor.left() {
        if !begins_designator(cursor) {
            return Ok(Found {
                tree: Seq::new(list),
                room,
            });
        }
        let next = designator(alloc, cursor, depth)?;
        list.push(next.tree)?;
        room = room.min(next.room);
    }
    Ok(Found {
        tree: Seq::new(list),
        room,
    })
}

/// The designators of an entry and the `=` behind them, where there are any.
#[tactic(auto, unfolding(crate::specs::Reading::designators))]
fn designators(
    alloc: Global,
    cursor: &mut Cursor<'_>,
    depth: usize,
) -> Result<Found<Seq<Designator>>, Fault>
    ensures { Gives (spec.designators depth (spec.initialiser depth) cursor.old) result cursor.new }
{
    if !begins_designator(cursor) {
        return Ok(Found {
            tree: Seq::new(Vec::new(alloc)),
            room: depth,
        });
    }
    let list = designator_list(alloc, cursor, depth)?;
    cursor.closed(list, Punct::Equal)
}

/// An entry of an initialiser in braces.
#[cycle(initialisers)]
#[tactic(auto, unfolding(crate::specs::Reading::entry))]
fn entry(alloc: Global, cursor: &mut Cursor<'_>, depth: usize) -> Result<Found<Entry>, Fault>
    ensures { Gives (spec.entry depth (spec.initialiser depth) cursor.old) result cursor.new }
{
    let list = designators(alloc, cursor, depth)?;
    let value = read_initialiser(alloc, cursor, depth)?;
    Ok(Found {
        tree: Entry {
            designators: list.tree,
            init: value.tree,
        },
        room: list.room.min(value.room),
    })
}

/// The entries of an initialiser in braces, one at least.
#[cycle(initialisers)]
fn entries(alloc: Global, cursor: &mut Cursor<'_>, depth: usize) -> Result<Found<Seq<Entry>>, Fault>
    ensures { Gives (spec.entries depth (spec.initialiser depth) cursor.old) result cursor.new }
{
    let mut list = Vec::new(alloc);
    let mut room = depth;
    for _turn in 0..cursor.left() {
        let next = entry(alloc, cursor, depth)?;
        list.push(next.tree)?;
        room = room.min(next.room);
        if !cursor.goes_on_in_braces() {
            return Ok(Found {
                tree: Seq::new(list),
                room,
            });
        }
        cursor.take();
    }
    Err(cursor.refuse())
}

/// An initialiser in braces, whose `{` is next.
#[cycle(initialisers)]
#[tactic(auto, unfolding(crate::specs::Reading::braced))]
fn braced(
    alloc: Global,
    cursor: &mut Cursor<'_>,
    depth: usize,
    spot: Spot,
) -> Result<Found<Init>, Fault>
    ensures { Gives (spec.braced depth (spec.initialiser depth) spot cursor.old) result cursor.new }
{
    cursor.need(1, depth)?;
    cursor.take();
    let list = entries(alloc, cursor, depth)?;
    cursor.comma_if_any();
    let list = cursor.closed(list, Punct::CloseBrace)?;
    Ok(Found {
        tree: Init::List(InitList {
            spot,
            ordinal: 0,
            entries: list.tree,
        }),
        room: list.room,
    })
}

/// An initialiser, with so many levels for it and what stands in it (C99 6.7.8).
///
/// It answers the initialiser, with the levels that it leaves, and takes its tokens; or it is refused with
/// `Code::Syntax` at a token with which no tree goes on, or with `Code::TooDeep` at one with which only trees
/// that need more levels do. `Fault::NoMemory` comes for want of memory. After any of these the cursor is not
/// to be used again.
#[cycle(initialisers)]
pub fn read_initialiser(
    alloc: Global,
    cursor: &mut Cursor<'_>,
    depth: usize,
) -> Result<Found<Init>, Fault>
    ensures { Gives (spec.initialiser depth cursor.old) result cursor.new }
{
    if depth == 0 {
        return Err(cursor.exhausted(begins_initialiser(cursor)));
    }
    let spot = cursor.spot();
    if cursor.sees(Punct::OpenBrace) {
        return braced(alloc, cursor, depth - 1, spot);
    }
    let value = read_expr(alloc, cursor, depth, 1)?;
    Ok(Found {
        tree: Init::Expr(value.tree),
        room: value.room,
    })
}
