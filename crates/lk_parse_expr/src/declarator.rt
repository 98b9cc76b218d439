//! Declarators.
ghost use Rattle.std.specs.Prelude.{◌≡◌, IfOk};
ghost use Rattle.lk_parse_expr.specs.Grammar as grammar;
ghost use Rattle.lk_parse_expr.specs.Heads as heads;
ghost use Rattle.lk_parse_expr.specs.Input as input;
ghost use Rattle.lk_parse_expr.specs.Nests.{NestsExpr};
ghost use Rattle.lk_parse_expr.specs.NestsTypes.{NestsDeclarator, NestsMember, NestsItem};
ghost use Rattle.lk_parse_expr.specs.Reading as spec;
ghost use Rattle.lk_parse_expr.specs.Parts as part;
ghost use Rattle.lk_parse_expr.specs.Readers.{Gives};
ghost use Rattle.lk_tree.specs.declared.expression.DeclaratorForm.TheVariants as form_of;

use crate::cursor::Cursor;
use crate::found::Found;
use crate::naming::{Head, Naming};
use crate::types::Types;
use lk_base::{Boxed, Fault, NoMemory, Seq, Spot};
use lk_boxes::{boxed_beside, boxed_if_any};
use lk_lex::Punct;
use lk_tree::{Declarator, DeclaratorForm, Expr, Item, Member, Parameter, Qualifier};
use std::alloc::Global;

/// A declarator without an ordinal yet.
fn at(spot: Spot, form: DeclaratorForm) -> Declarator
    ensures { result ≡ grammar.declarator_on spot form }
{
    Declarator {
        spot,
        ordinal: 0,
        form,
    }
}

/// A function without an ordinal yet, with the head of its declarator.
fn function(
    alloc: Global,
    spot: Spot,
    before: (Option<Declarator>, Head),
    parameters: Seq<Parameter>,
    dots: bool,
) -> Result<(Declarator, Head), NoMemory>
    ensures { IfOk result (λ made. made ≡
        (grammar.declarator_on spot (form_of.FunctionOf before.0 parameters dots), before.1)) }
{
    let (inner, head) = before;
    let (inner, rest) = boxed_if_any(alloc, inner, (head, parameters))?;
    let (head, parameters) = rest;
    let form = DeclaratorForm::FunctionOf(inner, parameters, dots);
    Ok((at(spot, form), head))
}

/// An array without an ordinal yet, with the head of its declarator.
fn array(
    alloc: Global,
    spot: Spot,
    before: (Option<Declarator>, Head),
    size: Option<Boxed<Expr>>,
) -> Result<(Declarator, Head), NoMemory>
    ensures { IfOk result (λ made. made ≡
        (grammar.declarator_on spot (form_of.ArrayOf before.0 size), heads.other before.1)) }
{
    let (inner, head) = before;
    let (inner, rest) = boxed_if_any(alloc, inner, (head, size))?;
    let (head, size) = rest;
    Ok((at(spot, DeclaratorForm::ArrayOf(inner, size)), head.other()))
}

impl<
    E: Fn(Global, &mut Cursor<'_>, usize, u8) -> Result<Found<Expr>, Fault>,
    D: Fn(Global, &mut Cursor<'_>, usize, Naming) -> Result<Found<(Declarator, Head)>, Fault>,
    M: Fn(Global, &mut Cursor<'_>, usize) -> Result<Found<Member>, Fault>,
    I: Fn(Global, &mut Cursor<'_>, usize) -> Result<Found<Item>, Fault>,
> Types<E, D, M, I> {
    /// The size of an array, where there is one.
    #[tactic(auto, unfolding(crate::specs::Reading::size))]
    fn size(&self, cursor: &mut Cursor<'_>) -> Result<Found<Option<Boxed<Expr>>>, Fault>
        requires expr { NestsExpr self.now.depth (E.pre self.now.expr) (E.post self.now.expr) }
        ensures { Gives (spec.size self.now.depth (spec.readers self.now.depth)
            cursor.old) result cursor.new }
    {
        if cursor.sees(Punct::CloseBracket) {
            return Ok(Found {
                tree: None,
                room: self.depth,
            });
        }
        let size = self.inner_expr(cursor, 1)?;
        Ok(Found {
            tree: Some(Boxed::new(self.alloc, size.tree)?),
            room: size.room,
        })
    }

    /// The size of an array, where there is one, with what was read before it.
    fn size_behind<B: Drop>(
        &self,
        cursor: &mut Cursor<'_>,
        before: B,
    ) -> Result<(B, Found<Option<Boxed<Expr>>>), Fault>
        requires expr { NestsExpr self.now.depth (E.pre self.now.expr) (E.post self.now.expr) }
        ensures { Gives (part.behind before (spec.size self.now.depth (spec.readers self.now.depth))
            cursor.old) result cursor.new }
    {
        let size = self.size(cursor)?;
        Ok((before, size))
    }

    /// Behind the `[` of an array of what comes before.
    #[tactic(auto, unfolding(crate::specs::Reading::array_of))]
    fn array_of(
        &self,
        cursor: &mut Cursor<'_>,
        spot: Spot,
        before: (Option<Declarator>, Head),
        room: usize,
    ) -> Result<Found<(Declarator, Head)>, Fault>
        requires expr { NestsExpr self.now.depth (E.pre self.now.expr) (E.post self.now.expr) }
        ensures { Gives (spec.array_of self.now.depth (spec.readers self.now.depth)
            spot before.0 before.1 room cursor.old) result cursor.new }
    {
        let read = self.size_behind(cursor, before)?;
        let (before, size) = cursor.closed(read, Punct::CloseBracket)?;
        let room = room.min(size.room);
        let tree = array(self.alloc, spot, before, size.tree)?;
        Ok(Found { tree, room })
    }

    /// Behind the `(` of a function, whose parameters go out of scope at the `)`.
    #[tactic(auto, unfolding(crate::specs::Reading::function_of, crate::specs::Input::leave, crate::specs::Input::declared_since))]
    fn function_of(
        &self,
        cursor: &mut Cursor<'_>,
        spot: Spot,
        before: (Option<Declarator>, Head),
        room: usize,
    ) -> Result<Found<(Declarator, Head)>, Fault>
        requires declarator { NestsDeclarator self.now.depth (D.pre self.now.declarator)
            (D.post self.now.declarator) }
        requires member { NestsMember self.now.depth (M.pre self.now.member) (M.post self.now.member) }
        requires item { NestsItem self.now.depth (I.pre self.now.item) (I.post self.now.item) }
        ensures { Gives (spec.function_of self.now.depth (spec.readers self.now.depth)
            spot before.0 before.1 room cursor.old) result cursor.new }
    {
        let mark = cursor.mark();
        let read = self.parameters_behind(cursor, before)?;
        let (read, names) = cursor.close_parameters(mark, read)?;
        let (before, list) = read;
        let (inner, head) = before;
        let room = room.min(list.room);
        let (parameters, dots) = list.tree;
        let before = (inner, head.called(names));
        let tree = function(self.alloc, spot, before, parameters, dots)?;
        Ok(Found { tree, room })
    }

    /// An array of what comes before, whose `[` is next.
    fn with_array(
        &self,
        cursor: &mut Cursor<'_>,
        spot: Spot,
        before: Found<(Declarator, Head)>,
    ) -> Result<Found<(Declarator, Head)>, Fault>
        requires expr { NestsExpr self.now.depth (E.pre self.now.expr) (E.post self.now.expr) }
        ensures { Gives (part.array_behind self.now.depth (spec.readers self.now.depth)
            spot before cursor.old) result cursor.new }
    {
        cursor.need(1, before.room)?;
        cursor.take();
        let (inner, head) = before.tree;
        let room = before.room.saturating_sub(1);
        self.array_of(cursor, spot, (Some(inner), head), room)
    }

    /// A function behind what comes before, whose `(` is next.
    fn with_function(
        &self,
        cursor: &mut Cursor<'_>,
        spot: Spot,
        before: Found<(Declarator, Head)>,
    ) -> Result<Found<(Declarator, Head)>, Fault>
        requires declarator { NestsDeclarator self.now.depth (D.pre self.now.declarator)
            (D.post self.now.declarator) }
        requires member { NestsMember self.now.depth (M.pre self.now.member) (M.post self.now.member) }
        requires item { NestsItem self.now.depth (I.pre self.now.item) (I.post self.now.item) }
        ensures { Gives (part.function_behind self.now.depth (spec.readers self.now.depth)
            spot before cursor.old) result cursor.new }
    {
        cursor.need(1, before.room)?;
        cursor.take();
        let (inner, head) = before.tree;
        let room = before.room.saturating_sub(1);
        self.function_of(cursor, spot, (Some(inner), head), room)
    }

    /// The arrays and functions behind a direct declarator.
    #[tactic(auto, unfolding(crate::specs::Reading::parts))]
    fn parts(
        &self,
        cursor: &mut Cursor<'_>,
        spot: Spot,
        mut before: Found<(Declarator, Head)>,
    ) -> Result<Found<(Declarator, Head)>, Fault>
        requires expr { NestsExpr self.now.depth (E.pre self.now.expr) (E.post self.now.expr) }
        requires declarator { NestsDeclarator self.now.depth (D.pre self.now.declarator)
            (D.post self.now.declarator) }
        requires member { NestsMember self.now.depth (M.pre self.now.member) (M.post self.now.member) }
        requires item { NestsItem self.now.depth (I.pre self.now.item) (I.post self.now.item) }
        ensures { Gives (spec.parts self.now.depth (spec.readers self.now.depth)
            spot before cursor.old) result cursor.new }
    {
        for _turn in 0..cursor.left() {
            if cursor.sees(Punct::OpenBracket) {
                before = self.with_array(cursor, spot, before)?;
            } else if cursor.sees(Punct::OpenParen) {
                before = self.with_function(cursor, spot, before)?;
            } else {
                return Ok(before);
            }
        }
        Ok(before)
    }

    /// Asks for a level for the declarator inside, where it must have a name.
    fn need_inside(&self, cursor: &Cursor<'_>, naming: Naming) -> Result<(), Fault>
        ensures { Gives (spec.need_inside self.now.depth (spec.readers self.now.depth)
            naming cursor.now) result cursor.now }
    {
        match naming {
            Naming::Named => cursor.need(1, self.depth),
            Naming::Abstract => Ok(()),
            Naming::Either => Ok(()),
        }
    }

    /// A declarator in parentheses.
    #[tactic(auto, unfolding(crate::specs::Reading::group))]
    fn group(
        &self,
        cursor: &mut Cursor<'_>,
        naming: Naming,
        spot: Spot,
    ) -> Result<Found<(Declarator, Head)>, Fault>
        requires declarator { NestsDeclarator self.now.depth (D.pre self.now.declarator)
            (D.post self.now.declarator) }
        ensures { Gives (spec.group self.now.depth (spec.readers self.now.depth)
            naming spot cursor.old) result cursor.new }
    {
        self.need_inside(cursor, naming)?;
        cursor.take();
        let found = self.inner_declarator(cursor, naming)?;
        let Found { tree, room } = cursor.closed(found, Punct::CloseParen)?;
        let (inner, head) = tree;
        let (inner, head) = boxed_beside(self.alloc, inner, head)?;
        Ok(Found {
            tree: (at(spot, DeclaratorForm::Group(inner)), head),
            room,
        })
    }

    /// Behind a `*` and its qualifiers.
    #[tactic(auto, unfolding(crate::specs::Reading::star_of))]
    fn star_of(
        &self,
        cursor: &mut Cursor<'_>,
        naming: Naming,
        spot: Spot,
        qualifiers: Seq<Qualifier>,
    ) -> Result<Found<(Declarator, Head)>, Fault>
        requires declarator { NestsDeclarator self.now.depth (D.pre self.now.declarator)
            (D.post self.now.declarator) }
        ensures { Gives (spec.star_of self.now.depth (spec.readers self.now.depth)
            naming spot qualifiers cursor.old) result cursor.new }
    {
        if !cursor.begins_declarator(naming) && naming.may_omit() {
            return Ok(Found {
                tree: (
                    at(spot, DeclaratorForm::Star(qualifiers, None)),
                    Head::Abstract,
                ),
                room: self.depth,
            });
        }
        let (qualifiers, found) = self.declarator_behind(cursor, qualifiers, naming)?;
        let Found { tree, room } = found;
        let (inner, head) = tree;
        let (inner, rest) = boxed_beside(self.alloc, inner, (qualifiers, head))?;
        let (qualifiers, head) = rest;
        Ok(Found {
            tree: (
                at(spot, DeclaratorForm::Star(qualifiers, Some(inner))),
                head.other(),
            ),
            room,
        })
    }

    /// A pointer, whose `*` is next.
    #[tactic(auto, unfolding(crate::specs::Reading::star))]
    fn star(
        &self,
        cursor: &mut Cursor<'_>,
        naming: Naming,
        spot: Spot,
    ) -> Result<Found<(Declarator, Head)>, Fault>
        requires declarator { NestsDeclarator self.now.depth (D.pre self.now.declarator)
            (D.post self.now.declarator) }
        ensures { Gives (spec.star self.now.depth (spec.readers self.now.depth)
            naming spot cursor.old) result cursor.new }
    {
        self.need_inside(cursor, naming)?;
        cursor.take();
        let qualifiers = cursor.qualifiers()?;
        self.star_of(cursor, naming, spot, qualifiers)
    }

    /// What is first in a declarator that is no pointer.
    #[tactic(auto, unfolding(crate::specs::Reading::direct))]
    fn direct(
        &self,
        cursor: &mut Cursor<'_>,
        naming: Naming,
        spot: Spot,
    ) -> Result<Found<(Declarator, Head)>, Fault>
        requires expr { NestsExpr self.now.depth (E.pre self.now.expr) (E.post self.now.expr) }
        requires declarator { NestsDeclarator self.now.depth (D.pre self.now.declarator)
            (D.post self.now.declarator) }
        requires member { NestsMember self.now.depth (M.pre self.now.member) (M.post self.now.member) }
        requires item { NestsItem self.now.depth (I.pre self.now.item) (I.post self.now.item) }
        ensures { Gives (spec.direct self.now.depth (spec.readers self.now.depth)
            naming spot cursor.old) result cursor.new }
    {
        if cursor.sees(Punct::OpenParen) {
            if cursor.opens_group(naming) {
                return self.group(cursor, naming, spot);
            }
            cursor.take();
            return self.function_of(cursor, spot, (None, Head::Abstract), self.depth);
        }
        if cursor.sees(Punct::OpenBracket) && naming.may_omit() {
            cursor.take();
            return self.array_of(cursor, spot, (None, Head::Abstract), self.depth);
        }
        if !naming.may_name() {
            return Err(cursor.refuse());
        }
        let name = cursor.word()?;
        let form = DeclaratorForm::Named(name.copy()?);
        Ok(Found {
            tree: (at(spot, form), Head::Bare(name)),
            room: self.depth,
        })
    }

    /// A declarator.
    #[tactic(auto, unfolding(crate::specs::Reading::declarator))]
    pub fn declarator(
        &self,
        cursor: &mut Cursor<'_>,
        naming: Naming,
    ) -> Result<Found<(Declarator, Head)>, Fault>
        requires expr { NestsExpr self.now.depth (E.pre self.now.expr) (E.post self.now.expr) }
        requires declarator { NestsDeclarator self.now.depth (D.pre self.now.declarator)
            (D.post self.now.declarator) }
        requires member { NestsMember self.now.depth (M.pre self.now.member) (M.post self.now.member) }
        requires item { NestsItem self.now.depth (I.pre self.now.item) (I.post self.now.item) }
        ensures { Gives (spec.declarator self.now.depth (spec.readers self.now.depth)
            naming (input.here cursor.old) cursor.old) result cursor.new }
    {
        let spot = cursor.spot();
        if cursor.sees(Punct::Star) {
            return self.star(cursor, naming, spot);
        }
        let first = self.direct(cursor, naming, spot)?;
        self.parts(cursor, spot, first)
    }
}
