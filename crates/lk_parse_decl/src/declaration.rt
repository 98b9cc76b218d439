//! Declarations.
ghost use Rattle.std.specs.Prelude.{false};
ghost use Rattle.lk_parse_decl.specs.Reading as spec;
ghost use Rattle.lk_parse_expr.specs.Parts.{behind};
ghost use Rattle.lk_parse_expr.specs.Readers.{Gives, separated_from};

use crate::initialiser::read_initialiser;
use lk_base::{Fault, Seq, Spot};
use lk_lex::Punct;
use lk_parse_expr::{Cursor, Found, Head, Naming, read_declarator, read_specifiers};
use lk_tree::{Declarator, Declare, Init, InitDeclarator};
use std::alloc::Global;

/// An initialiser, with what was read before it.
fn initialiser_behind<B: Drop>(
    alloc: Global,
    cursor: &mut Cursor<'_>,
    depth: usize,
    before: B,
) -> Result<(B, Found<Init>), Fault>
    ensures { Gives (behind before (spec.initialiser depth) cursor.old) result cursor.new }
{
    let value = read_initialiser(alloc, cursor, depth)?;
    Ok((before, value))
}

/// What is behind a declarator: its name is in scope in its initialiser.
#[tactic(auto, unfolding(crate::specs::Reading::initialised))]
fn initialised(
    alloc: Global,
    cursor: &mut Cursor<'_>,
    depth: usize,
    typedef: bool,
    one: Found<(Declarator, Head)>,
) -> Result<Found<InitDeclarator>, Fault>
    ensures { Gives (spec.initialised depth typedef one cursor.old) result cursor.new }
{
    let (declarator, head) = one.tree;
    let valued = cursor.sees(Punct::Equal);
    let declarator = cursor.declared(declarator, head, typedef)?;
    if !valued {
        return Ok(Found {
            tree: InitDeclarator {
                declarator,
                init: None,
            },
            room: one.room,
        });
    }
    cursor.take();
    let (declarator, value) = initialiser_behind(alloc, cursor, depth, declarator)?;
    Ok(Found {
        tree: InitDeclarator {
            declarator,
            init: Some(value.tree),
        },
        room: one.room.min(value.room),
    })
}

/// A declarator with its initialiser.
#[tactic(auto, unfolding(crate::specs::Reading::init_declarator))]
fn init_declarator(
    alloc: Global,
    cursor: &mut Cursor<'_>,
    depth: usize,
    typedef: bool,
) -> Result<Found<InitDeclarator>, Fault>
    ensures { Gives (spec.init_declarator depth typedef cursor.old) result cursor.new }
{
    let one = read_declarator(alloc, cursor, depth, Naming::Named)?;
    initialised(alloc, cursor, depth, typedef, one)
}

/// Declarators with commas between them behind those that were read, in so many turns.
fn declarators_from(
    alloc: Global,
    cursor: &mut Cursor<'_>,
    depth: usize,
    typedef: bool,
    turns: usize,
    before: Found<Seq<InitDeclarator>>,
) -> Result<Found<Seq<InitDeclarator>>, Fault>
    ensures { Gives (separated_from (λ _. false) (spec.init_declarator depth typedef) turns before cursor.old)
        result cursor.new }
{
    let mut list = before.tree;
    let mut room = before.room;
    for _turn in 0..turns {
        let next = init_declarator(alloc, cursor, depth, typedef)?;
        list.push(next.tree)?;
        room = room.min(next.room);
        if !cursor.sees(Punct::Comma) {
            return Ok(Found { tree: list, room });
        }
        cursor.take();
    }
    Err(cursor.refuse())
}

/// The declarators of a declaration, perhaps none.
#[tactic(auto, unfolding(crate::specs::Reading::declarators))]
fn declarators(
    alloc: Global,
    cursor: &mut Cursor<'_>,
    depth: usize,
    typedef: bool,
) -> Result<Found<Seq<InitDeclarator>>, Fault>
    ensures { Gives (spec.declarators depth typedef cursor.old) result cursor.new }
{
    let none = Found {
        tree: Seq::new(Vec::new(alloc)),
        room: depth,
    };
    if cursor.sees(Punct::Semicolon) {
        return Ok(none);
    }
    let turns = cursor.left();
    declarators_from(alloc, cursor, depth, typedef, turns, none)
}

/// The declarators of a declaration, perhaps none, with what was read before them.
fn declarators_with<B: Drop>(
    alloc: Global,
    cursor: &mut Cursor<'_>,
    depth: usize,
    typedef: bool,
    before: B,
) -> Result<(B, Found<Seq<InitDeclarator>>), Fault>
    ensures { Gives (behind before (spec.declarators depth typedef) cursor.old) result cursor.new }
{
    let list = declarators(alloc, cursor, depth, typedef)?;
    Ok((before, list))
}

/// What is behind the first declarator of a declaration: its initialiser, and the other declarators, up to
/// the `;`. `depth` is how many levels there are inside the declaration, and `typedef` says whether the
/// names are declared as typedefs.
///
/// It answers all the declarators, the first one too, with the levels that they leave; and it
/// refuses as `read_declaration` does.
#[tactic(auto, unfolding(crate::specs::Reading::declarators_behind, crate::specs::Reading::after_first))]
pub fn read_declarators_behind(
    alloc: Global,
    cursor: &mut Cursor<'_>,
    depth: usize,
    typedef: bool,
    first: Found<(Declarator, Head)>,
) -> Result<Found<Seq<InitDeclarator>>, Fault>
    ensures { Gives (spec.declarators_behind depth typedef first cursor.old) result cursor.new }
{
    let one = initialised(alloc, cursor, depth, typedef, first)?;
    let mut list = Seq::new(Vec::new(alloc));
    list.push(one.tree)?;
    let before = Found {
        tree: list,
        room: depth.min(one.room),
    };
    if !cursor.sees(Punct::Comma) {
        return Ok(before);
    }
    let turns = cursor.left();
    cursor.take();
    declarators_from(alloc, cursor, depth, typedef, turns, before)
}

/// A declaration at this place. `depth` is how many levels there are inside it.
#[tactic(auto, unfolding(crate::specs::Reading::declare_from))]
fn declaration_at(
    alloc: Global,
    cursor: &mut Cursor<'_>,
    depth: usize,
    spot: Spot,
) -> Result<Found<Declare>, Fault>
    ensures { Gives (spec.declare_from depth spot cursor.old) result cursor.new }
{
    let first = read_specifiers(alloc, cursor, depth)?;
    let typedef = first.tree.1;
    let read = declarators_with(alloc, cursor, depth, typedef, first.first())?;
    let (first, list) = cursor.closed(read, Punct::Semicolon)?;
    Ok(Found {
        tree: Declare {
            spot,
            ordinal: 0,
            specifiers: first.tree,
            declarators: list.tree,
        },
        room: first.room.min(list.room),
    })
}

/// A declaration, with so many levels for it and what stands in it (C99 6.7). Its names are in
/// scope behind their declarators.
///
/// It answers the declaration, with the levels that it leaves, and takes its tokens; or it is refused with
/// `Code::Syntax` at a token with which no tree goes on, or with `Code::TooDeep` at one with which only trees
/// that need more levels do. `Fault::NoMemory` comes for want of memory. After any of these the cursor is not
/// to be used again.
pub fn read_declaration(
    alloc: Global,
    cursor: &mut Cursor<'_>,
    depth: usize,
) -> Result<Found<Declare>, Fault>
    ensures { Gives (spec.declaration depth cursor.old) result cursor.new }
{
    if depth == 0 {
        return Err(cursor.exhausted(cursor.continues_specifiers(false)));
    }
    let spot = cursor.spot();
    declaration_at(alloc, cursor, depth - 1, spot)
}
