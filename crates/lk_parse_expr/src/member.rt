//! Type names, parameters, and the members and items of structs and enumerations.
ghost use Rattle.lk_parse_expr.specs.Input as input;
ghost use Rattle.lk_parse_expr.specs.Nests.{NestsExpr};
ghost use Rattle.lk_parse_expr.specs.NestsTypes.{NestsDeclarator, NestsMember, NestsItem};
ghost use Rattle.lk_parse_expr.specs.Reading as spec;
ghost use Rattle.lk_parse_expr.specs.Parts as part;
ghost use Rattle.lk_parse_expr.specs.Readers.{Gives};

use crate::cursor::Cursor;
use crate::found::Found;
use crate::naming::{Head, Naming};
use crate::types::Types;
use lk_base::{Fault, Seq, Spot};
use lk_lex::Punct;
use lk_tree::{Declarator, Expr, Item, Member, MemberDeclarator, Parameter, Specifier, TypeName};
use std::alloc::Global;

impl<
    E: Fn(Global, &mut Cursor<'_>, usize, u8) -> Result<Found<Expr>, Fault>,
    D: Fn(Global, &mut Cursor<'_>, usize, Naming) -> Result<Found<(Declarator, Head)>, Fault>,
    M: Fn(Global, &mut Cursor<'_>, usize) -> Result<Found<Member>, Fault>,
    I: Fn(Global, &mut Cursor<'_>, usize) -> Result<Found<Item>, Fault>,
> Types<E, D, M, I> {
    /// A declarator inside.
    pub fn inner_declarator(
        &self,
        cursor: &mut Cursor<'_>,
        naming: Naming,
    ) -> Result<Found<(Declarator, Head)>, Fault>
        requires declarator { NestsDeclarator self.now.depth (D.pre self.now.declarator)
            (D.post self.now.declarator) }
        ensures { Gives ((spec.readers self.now.depth).declarator naming cursor.old) result cursor.new }
    {
        (self.declarator)(self.alloc, cursor, self.depth, naming)
    }

    /// A declarator inside, with what was read before it.
    pub fn declarator_behind<B: Drop>(
        &self,
        cursor: &mut Cursor<'_>,
        before: B,
        naming: Naming,
    ) -> Result<(B, Found<(Declarator, Head)>), Fault>
        requires declarator { NestsDeclarator self.now.depth (D.pre self.now.declarator)
            (D.post self.now.declarator) }
        ensures { Gives (part.behind before ((spec.readers self.now.depth).declarator naming) cursor.old)
            result cursor.new }
    {
        let inner = self.inner_declarator(cursor, naming)?;
        Ok((before, inner))
    }

    /// An expression inside.
    pub fn inner_expr(&self, cursor: &mut Cursor<'_>, level: u8) -> Result<Found<Expr>, Fault>
        requires expr { NestsExpr self.now.depth (E.pre self.now.expr) (E.post self.now.expr) }
        ensures { Gives ((spec.readers self.now.depth).expr level cursor.old) result cursor.new }
    {
        (self.expr)(self.alloc, cursor, self.depth, level)
    }

    /// A type name.
    #[tactic(auto, unfolding(crate::specs::Reading::type_name_from))]
    pub fn type_name(&self, cursor: &mut Cursor<'_>) -> Result<Found<TypeName>, Fault>
        requires declarator { NestsDeclarator self.now.depth (D.pre self.now.declarator)
            (D.post self.now.declarator) }
        requires member { NestsMember self.now.depth (M.pre self.now.member) (M.post self.now.member) }
        requires item { NestsItem self.now.depth (I.pre self.now.item) (I.post self.now.item) }
        ensures { Gives (spec.type_name_from self.now.depth (spec.readers self.now.depth)
            (input.here cursor.old) cursor.old) result cursor.new }
    {
        let spot = cursor.spot();
        let first = self.specifiers(cursor)?.first();
        if !cursor.begins_declarator(Naming::Abstract) {
            return Ok(Found {
                tree: TypeName {
                    spot,
                    ordinal: 0,
                    specifiers: first.tree,
                    declarator: None,
                },
                room: first.room,
            });
        }
        let (first, inner) = self.declarator_behind(cursor, first, Naming::Abstract)?;
        let inner = inner.first();
        Ok(Found {
            tree: TypeName {
                spot,
                ordinal: 0,
                specifiers: first.tree,
                declarator: Some(inner.tree),
            },
            room: first.room.min(inner.room),
        })
    }

    /// The declarator of a parameter, behind its specifiers. The name is in scope behind it.
    fn declared_parameter(
        &self,
        cursor: &mut Cursor<'_>,
        spot: Spot,
        first: Found<(Seq<Specifier>, bool)>,
    ) -> Result<Found<Parameter>, Fault>
        requires declarator { NestsDeclarator self.now.depth (D.pre self.now.declarator)
            (D.post self.now.declarator) }
        ensures { Gives (part.declared_parameter self.now.depth (spec.readers self.now.depth)
            spot first cursor.old) result cursor.new }
    {
        let typedef = first.tree.1;
        let (first, inner) = self.declarator_behind(cursor, first.first(), Naming::Either)?;
        let room = first.room.min(inner.room);
        let (declarator, head) = inner.tree;
        let (specifiers, declarator) = cursor.declared((first.tree, declarator), head, typedef)?;
        Ok(Found {
            tree: Parameter {
                spot,
                ordinal: 0,
                specifiers,
                declarator: Some(declarator),
            },
            room,
        })
    }

    /// A parameter.
    #[tactic(auto, unfolding(crate::specs::Reading::parameter_from))]
    fn parameter(&self, cursor: &mut Cursor<'_>) -> Result<Found<Parameter>, Fault>
        requires declarator { NestsDeclarator self.now.depth (D.pre self.now.declarator)
            (D.post self.now.declarator) }
        requires member { NestsMember self.now.depth (M.pre self.now.member) (M.post self.now.member) }
        requires item { NestsItem self.now.depth (I.pre self.now.item) (I.post self.now.item) }
        ensures { Gives (spec.parameter self.now.depth (spec.readers self.now.depth)
            cursor.old) result cursor.new }
    {
        let spot = cursor.spot();
        let first = self.specifiers(cursor)?;
        if cursor.begins_declarator(Naming::Either) {
            return self.declared_parameter(cursor, spot, first);
        }
        let first = first.first();
        Ok(Found {
            tree: Parameter {
                spot,
                ordinal: 0,
                specifiers: first.tree,
                declarator: None,
            },
            room: first.room,
        })
    }

    /// Parameters, one at least, up to a `)` or to `, ...`.
    fn parameter_list(&self, cursor: &mut Cursor<'_>) -> Result<Found<Seq<Parameter>>, Fault>
        requires declarator { NestsDeclarator self.now.depth (D.pre self.now.declarator)
            (D.post self.now.declarator) }
        requires member { NestsMember self.now.depth (M.pre self.now.member) (M.post self.now.member) }
        requires item { NestsItem self.now.depth (I.pre self.now.item) (I.post self.now.item) }
        ensures { Gives (spec.parameter_list self.now.depth (spec.readers self.now.depth)
            cursor.old) result cursor.new }
    {
        let mut list = Vec::new(self.alloc);
        let mut room = self.depth;
        for _turn in 0..cursor.left() {
            let next = self.parameter(cursor)?;
            list.push(next.tree)?;
            room = room.min(next.room);
            if !cursor.goes_on_in_parameters() {
                return Ok(Found {
                    tree: Seq::new(list),
                    room,
                });
            }
            cursor.take();
        }
        Err(cursor.refuse())
    }

    /// The parameters of a function, and whether they end with `, ...`.
    #[tactic(auto, unfolding(crate::specs::Reading::parameters))]
    pub fn parameters(
        &self,
        cursor: &mut Cursor<'_>,
    ) -> Result<Found<(Seq<Parameter>, bool)>, Fault>
        requires declarator { NestsDeclarator self.now.depth (D.pre self.now.declarator)
            (D.post self.now.declarator) }
        requires member { NestsMember self.now.depth (M.pre self.now.member) (M.post self.now.member) }
        requires item { NestsItem self.now.depth (I.pre self.now.item) (I.post self.now.item) }
        ensures { Gives (spec.parameters self.now.depth (spec.readers self.now.depth)
            cursor.old) result cursor.new }
    {
        if cursor.sees(Punct::CloseParen) {
            return Ok(Found {
                tree: (Seq::new(Vec::new(self.alloc)), false),
                room: self.depth,
            });
        }
        let list = self.parameter_list(cursor)?;
        let (list, dots) = cursor.dots(list)?;
        Ok(Found {
            tree: (list.tree, dots),
            room: list.room,
        })
    }

    /// The parameters of a function, with what was read before them.
    pub fn parameters_behind<B: Drop>(
        &self,
        cursor: &mut Cursor<'_>,
        before: B,
    ) -> Result<(B, Found<(Seq<Parameter>, bool)>), Fault>
        requires declarator { NestsDeclarator self.now.depth (D.pre self.now.declarator)
            (D.post self.now.declarator) }
        requires member { NestsMember self.now.depth (M.pre self.now.member) (M.post self.now.member) }
        requires item { NestsItem self.now.depth (I.pre self.now.item) (I.post self.now.item) }
        ensures { Gives (part.behind before (spec.parameters self.now.depth (spec.readers self.now.depth))
            cursor.old) result cursor.new }
    {
        let list = self.parameters(cursor)?;
        Ok((before, list))
    }

    /// The width of a bit-field, with its `:`.
    #[tactic(auto, unfolding(crate::specs::Reading::width))]
    fn width(&self, cursor: &mut Cursor<'_>) -> Result<Found<Expr>, Fault>
        requires expr { NestsExpr self.now.depth (E.pre self.now.expr) (E.post self.now.expr) }
        ensures { Gives (spec.width self.now.depth (spec.readers self.now.depth)
            cursor.old) result cursor.new }
    {
        cursor.expect(Punct::Colon)?;
        self.inner_expr(cursor, 2)
    }

    /// The width of a bit-field, with its `:` and what was read before it.
    fn width_behind<B: Drop>(
        &self,
        cursor: &mut Cursor<'_>,
        before: B,
    ) -> Result<(B, Found<Expr>), Fault>
        requires expr { NestsExpr self.now.depth (E.pre self.now.expr) (E.post self.now.expr) }
        ensures { Gives (part.behind before (spec.width self.now.depth (spec.readers self.now.depth))
            cursor.old) result cursor.new }
    {
        let width = self.width(cursor)?;
        Ok((before, width))
    }

    /// A declarator of a member.
    #[tactic(auto, unfolding(crate::specs::Reading::field))]
    fn field(&self, cursor: &mut Cursor<'_>) -> Result<Found<MemberDeclarator>, Fault>
        requires expr { NestsExpr self.now.depth (E.pre self.now.expr) (E.post self.now.expr) }
        requires declarator { NestsDeclarator self.now.depth (D.pre self.now.declarator)
            (D.post self.now.declarator) }
        ensures { Gives (spec.field self.now.depth (spec.readers self.now.depth)
            cursor.old) result cursor.new }
    {
        if cursor.sees(Punct::Colon) {
            let width = self.width(cursor)?;
            return Ok(Found {
                tree: MemberDeclarator::Unnamed(width.tree),
                room: width.room,
            });
        }
        let inner = self.inner_declarator(cursor, Naming::Named)?.first();
        if !cursor.sees(Punct::Colon) {
            return Ok(Found {
                tree: MemberDeclarator::Plain(inner.tree),
                room: inner.room,
            });
        }
        let (inner, width) = self.width_behind(cursor, inner)?;
        Ok(Found {
            tree: MemberDeclarator::Field(inner.tree, width.tree),
            room: inner.room.min(width.room),
        })
    }

    /// The declarators of a member, one at least.
    fn fields(&self, cursor: &mut Cursor<'_>) -> Result<Found<Seq<MemberDeclarator>>, Fault>
        requires expr { NestsExpr self.now.depth (E.pre self.now.expr) (E.post self.now.expr) }
        requires declarator { NestsDeclarator self.now.depth (D.pre self.now.declarator)
            (D.post self.now.declarator) }
        ensures { Gives (spec.field_list self.now.depth (spec.readers self.now.depth)
            cursor.old) result cursor.new }
    {
        let mut list = Vec::new(self.alloc);
        let mut room = self.depth;
        for _turn in 0..cursor.left() {
            let next = self.field(cursor)?;
            list.push(next.tree)?;
            room = room.min(next.room);
            if !cursor.sees(Punct::Comma) {
                return Ok(Found {
                    tree: Seq::new(list),
                    room,
                });
            }
            cursor.take();
        }
        Err(cursor.refuse())
    }

    /// The declarators of a member, with what was read before them.
    fn fields_behind<B: Drop>(
        &self,
        cursor: &mut Cursor<'_>,
        before: B,
    ) -> Result<(B, Found<Seq<MemberDeclarator>>), Fault>
        requires expr { NestsExpr self.now.depth (E.pre self.now.expr) (E.post self.now.expr) }
        requires declarator { NestsDeclarator self.now.depth (D.pre self.now.declarator)
            (D.post self.now.declarator) }
        ensures { Gives (part.behind before (spec.field_list self.now.depth (spec.readers self.now.depth))
            cursor.old) result cursor.new }
    {
        let list = self.fields(cursor)?;
        Ok((before, list))
    }

    /// A member of a struct.
    #[tactic(auto, unfolding(crate::specs::Reading::member_from))]
    pub fn member(&self, cursor: &mut Cursor<'_>) -> Result<Found<Member>, Fault>
        requires expr { NestsExpr self.now.depth (E.pre self.now.expr) (E.post self.now.expr) }
        requires declarator { NestsDeclarator self.now.depth (D.pre self.now.declarator)
            (D.post self.now.declarator) }
        requires member { NestsMember self.now.depth (M.pre self.now.member) (M.post self.now.member) }
        requires item { NestsItem self.now.depth (I.pre self.now.item) (I.post self.now.item) }
        ensures { Gives (spec.member_from self.now.depth (spec.readers self.now.depth)
            (input.here cursor.old) cursor.old) result cursor.new }
    {
        let spot = cursor.spot();
        let first = self.specifiers(cursor)?.first();
        let read = self.fields_behind(cursor, first)?;
        let (first, list) = cursor.closed(read, Punct::Semicolon)?;
        Ok(Found {
            tree: Member {
                spot,
                ordinal: 0,
                specifiers: first.tree,
                declarators: list.tree,
            },
            room: first.room.min(list.room),
        })
    }

    /// The value of an item, with its `=`, where there is one.
    #[tactic(auto, unfolding(crate::specs::Reading::value))]
    fn value(&self, cursor: &mut Cursor<'_>) -> Result<Found<Option<Expr>>, Fault>
        requires expr { NestsExpr self.now.depth (E.pre self.now.expr) (E.post self.now.expr) }
        ensures { Gives (spec.value self.now.depth (spec.readers self.now.depth)
            cursor.old) result cursor.new }
    {
        if !cursor.sees(Punct::Equal) {
            return Ok(Found {
                tree: None,
                room: self.depth,
            });
        }
        cursor.need(1, self.depth)?;
        cursor.take();
        let value = self.inner_expr(cursor, 2)?;
        Ok(Found {
            tree: Some(value.tree),
            room: value.room,
        })
    }

    /// An item of an enumeration. Its name is in scope behind it.
    #[tactic(auto, unfolding(crate::specs::Reading::item_from))]
    pub fn item(&self, cursor: &mut Cursor<'_>) -> Result<Found<Item>, Fault>
        requires expr { NestsExpr self.now.depth (E.pre self.now.expr) (E.post self.now.expr) }
        ensures { Gives (spec.item_from self.now.depth (spec.readers self.now.depth)
            (input.here cursor.old) cursor.old) result cursor.new }
    {
        let spot = cursor.spot();
        let name = cursor.word()?;
        let head = Head::Bare(name.copy()?);
        let value = self.value(cursor)?;
        let (name, value) = cursor.declared((name, value), head, false)?;
        Ok(Found {
            tree: Item {
                spot,
                ordinal: 0,
                name,
                value: value.tree,
            },
            room: value.room,
        })
    }
}
