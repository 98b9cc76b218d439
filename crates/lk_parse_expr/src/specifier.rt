//! Specifiers, structs and enumerations.
ghost use Rattle.std.specs.Prelude.{◌≡◌, ◌||◌};
ghost use Rattle.lk_parse_expr.specs.NestsTypes.{NestsMember, NestsItem};
ghost use Rattle.lk_parse_expr.specs.Reading as spec;
ghost use Rattle.lk_parse_expr.specs.Parts as part;
ghost use Rattle.lk_parse_expr.specs.Readers.{Gives};
ghost use Rattle.lk_parse_expr.specs.Words as words;

use crate::cursor::Cursor;
use crate::found::Found;
use crate::naming::{Head, Naming};
use crate::types::Types;
use crate::words::{is_type_word, is_typedef_word, specifier_of};
use lk_base::{Fault, Name, Seq};
use lk_lex::{Keyword, Punct, TokenKind};
use lk_tree::{Declarator, Expr, Item, Member, Specifier};
use std::alloc::Global;

/// Whether a type came before what follows this token, where `typed` says whether one came before it.
fn is_typed_behind(typed: bool, kind: TokenKind) -> bool
    ensures { result ≡ (typed || words.is_type_word kind) }
{
    typed || is_type_word(kind)
}

/// Whether one of two holds.
fn either(first: bool, second: bool) -> bool
    ensures { result ≡ (first || second) }
{
    first || second
}

impl<
    E: Fn(Global, &mut Cursor<'_>, usize, u8) -> Result<Found<Expr>, Fault>,
    D: Fn(Global, &mut Cursor<'_>, usize, Naming) -> Result<Found<(Declarator, Head)>, Fault>,
    M: Fn(Global, &mut Cursor<'_>, usize) -> Result<Found<Member>, Fault>,
    I: Fn(Global, &mut Cursor<'_>, usize) -> Result<Found<Item>, Fault>,
> Types<E, D, M, I> {
    /// A member inside.
    fn inner_member(&self, cursor: &mut Cursor<'_>) -> Result<Found<Member>, Fault>
        requires member { NestsMember self.now.depth (M.pre self.now.member) (M.post self.now.member) }
        ensures { Gives ((spec.readers self.now.depth).member cursor.old) result cursor.new }
    {
        (self.member)(self.alloc, cursor, self.depth)
    }

    /// An item inside.
    fn inner_item(&self, cursor: &mut Cursor<'_>) -> Result<Found<Item>, Fault>
        requires item { NestsItem self.now.depth (I.pre self.now.item) (I.post self.now.item) }
        ensures { Gives ((spec.readers self.now.depth).item cursor.old) result cursor.new }
    {
        (self.item)(self.alloc, cursor, self.depth)
    }

    /// The members of a struct, up to its `}`.
    fn members(
        &self,
        cursor: &mut Cursor<'_>,
        first: Found<Member>,
    ) -> Result<Found<Seq<Member>>, Fault>
        requires member { NestsMember self.now.depth (M.pre self.now.member) (M.post self.now.member) }
        ensures { Gives (spec.members self.now.depth (spec.readers self.now.depth)
            first cursor.old) result cursor.new }
    {
        let mut list = Vec::new(self.alloc);
        list.push(first.tree)?;
        let mut room = self.depth.min(first.room);
        for _turn in 0..cursor.left() {
            if cursor.sees(Punct::CloseBrace) {
                return Ok(Found {
                    tree: Seq::new(list),
                    room,
                });
            }
            let next = self.inner_member(cursor)?;
            list.push(next.tree)?;
            room = room.min(next.room);
        }
        Ok(Found {
            tree: Seq::new(list),
            room,
        })
    }

    /// Behind `struct` and its tag.
    #[tactic(auto, unfolding(crate::specs::Reading::struct_body))]
    fn struct_body(
        &self,
        cursor: &mut Cursor<'_>,
        tag: Option<Name>,
    ) -> Result<Found<Specifier>, Fault>
        requires member { NestsMember self.now.depth (M.pre self.now.member) (M.post self.now.member) }
        ensures { Gives (spec.struct_body self.now.depth (spec.readers self.now.depth)
            tag cursor.old) result cursor.new }
    {
        cursor.need(2, self.depth)?;
        cursor.expect(Punct::OpenBrace)?;
        let first = self.inner_member(cursor)?;
        let members = self.members(cursor, first)?;
        let members = cursor.closed(members, Punct::CloseBrace)?;
        Ok(Found {
            tree: Specifier::Struct(tag, members.tree),
            room: members.room,
        })
    }

    /// The items of an enumeration.
    fn items(&self, cursor: &mut Cursor<'_>) -> Result<Found<Seq<Item>>, Fault>
        requires item { NestsItem self.now.depth (I.pre self.now.item) (I.post self.now.item) }
        ensures { Gives (spec.items self.now.depth (spec.readers self.now.depth)
            cursor.old) result cursor.new }
    {
        let mut list = Vec::new(self.alloc);
        let mut room = self.depth;
        for _turn in 0..cursor.left() {
            let next = self.inner_item(cursor)?;
            list.push(next.tree)?;
            room = room.min(next.room);
            if !cursor.goes_on_in_braces() {
                return Ok(Found {
                    tree: Seq::new(list),
                    room,
                });
            }
            cursor.take();
        }
        Err(cursor.refuse())
    }

    /// Behind `enum` and its tag.
    #[tactic(auto, unfolding(crate::specs::Reading::enum_body))]
    fn enum_body(
        &self,
        cursor: &mut Cursor<'_>,
        tag: Option<Name>,
    ) -> Result<Found<Specifier>, Fault>
        requires item { NestsItem self.now.depth (I.pre self.now.item) (I.post self.now.item) }
        ensures { Gives (spec.enum_body self.now.depth (spec.readers self.now.depth)
            tag cursor.old) result cursor.new }
    {
        cursor.need(1, self.depth)?;
        cursor.expect(Punct::OpenBrace)?;
        let items = self.items(cursor)?;
        cursor.comma_if_any();
        let items = cursor.closed(items, Punct::CloseBrace)?;
        Ok(Found {
            tree: Specifier::Enum(tag, items.tree),
            room: items.room,
        })
    }

    /// Behind `struct` and the tag that was found.
    fn struct_of(
        &self,
        cursor: &mut Cursor<'_>,
        tag: Option<Name>,
    ) -> Result<Found<Specifier>, Fault>
        requires member { NestsMember self.now.depth (M.pre self.now.member) (M.post self.now.member) }
        ensures { Gives (spec.struct_by self.now.depth (spec.readers self.now.depth)
            tag cursor.old) result cursor.new }
    {
        if cursor.sees(Punct::OpenBrace) {
            return self.struct_body(cursor, tag);
        }
        match tag {
            None => Err(cursor.refuse()),
            Some(name) => Ok(Found {
                tree: Specifier::StructTag(name),
                room: self.depth,
            }),
        }
    }

    /// Behind `enum` and the tag that was found.
    fn enum_of(&self, cursor: &mut Cursor<'_>, tag: Option<Name>) -> Result<Found<Specifier>, Fault>
        requires item { NestsItem self.now.depth (I.pre self.now.item) (I.post self.now.item) }
        ensures { Gives (spec.enum_by self.now.depth (spec.readers self.now.depth)
            tag cursor.old) result cursor.new }
    {
        if cursor.sees(Punct::OpenBrace) {
            return self.enum_body(cursor, tag);
        }
        match tag {
            None => Err(cursor.refuse()),
            Some(name) => Ok(Found {
                tree: Specifier::EnumTag(name),
                room: self.depth,
            }),
        }
    }

    /// A specifier that is a struct, whose `struct` is next.
    fn struct_specifier(&self, cursor: &mut Cursor<'_>) -> Result<Found<Specifier>, Fault>
        requires member { NestsMember self.now.depth (M.pre self.now.member) (M.post self.now.member) }
        ensures { Gives (part.struct_specifier self.now.depth (spec.readers self.now.depth)
            cursor.old) result cursor.new }
    {
        cursor.take();
        let tag = cursor.tag()?;
        self.struct_of(cursor, tag)
    }

    /// A specifier that is an enumeration, whose `enum` is next.
    fn enum_specifier(&self, cursor: &mut Cursor<'_>) -> Result<Found<Specifier>, Fault>
        requires item { NestsItem self.now.depth (I.pre self.now.item) (I.post self.now.item) }
        ensures { Gives (part.enum_specifier self.now.depth (spec.readers self.now.depth)
            cursor.old) result cursor.new }
    {
        cursor.take();
        let tag = cursor.tag()?;
        self.enum_of(cursor, tag)
    }

    /// A specifier, where `typed` says whether a type came before it. With it, whether a type came before
    /// what follows, and whether it is `typedef`.
    #[tactic(auto, unfolding(crate::specs::Reading::specifier))]
    fn specifier(
        &self,
        cursor: &mut Cursor<'_>,
        typed: bool,
    ) -> Result<Found<(Specifier, bool, bool)>, Fault>
        requires member { NestsMember self.now.depth (M.pre self.now.member) (M.post self.now.member) }
        requires item { NestsItem self.now.depth (I.pre self.now.item) (I.post self.now.item) }
        ensures { Gives (spec.specifier self.now.depth (spec.readers self.now.depth)
            typed cursor.old) result cursor.new }
    {
        if cursor.sees_key(Keyword::Struct) {
            let one = self.struct_specifier(cursor)?;
            return Ok(Found {
                tree: (one.tree, true, false),
                room: one.room,
            });
        }
        if cursor.sees_key(Keyword::Enum) {
            let one = self.enum_specifier(cursor)?;
            return Ok(Found {
                tree: (one.tree, true, false),
                room: one.room,
            });
        }
        self.plain_specifier(cursor, typed)
    }

    /// A specifier that is a keyword by itself or a typedef name.
    fn plain_specifier(
        &self,
        cursor: &mut Cursor<'_>,
        typed: bool,
    ) -> Result<Found<(Specifier, bool, bool)>, Fault>
        ensures { Gives (spec.plain_specifier self.now.depth (spec.readers self.now.depth)
            typed cursor.old) result cursor.new }
    {
        let kind = cursor.peek();
        match specifier_of(kind) {
            Some(specifier) => {
                cursor.take();
                Ok(Found {
                    tree: (
                        specifier,
                        is_typed_behind(typed, kind),
                        is_typedef_word(kind),
                    ),
                    room: self.depth,
                })
            }
            None => {
                let name = cursor.word()?;
                Ok(Found {
                    tree: (Specifier::Typedef(name), true, false),
                    room: self.depth,
                })
            }
        }
    }

    /// Specifiers, one at least, and whether `typedef` is among them.
    #[tactic(auto, unfolding(crate::specs::Reading::specifiers))]
    pub fn specifiers(
        &self,
        cursor: &mut Cursor<'_>,
    ) -> Result<Found<(Seq<Specifier>, bool)>, Fault>
        requires member { NestsMember self.now.depth (M.pre self.now.member) (M.post self.now.member) }
        requires item { NestsItem self.now.depth (I.pre self.now.item) (I.post self.now.item) }
        ensures { Gives (spec.specifiers self.now.depth (spec.readers self.now.depth)
            cursor.old) result cursor.new }
    {
        if !cursor.continues_specifiers(false) {
            return Err(cursor.refuse());
        }
        let mut list = Vec::new(self.alloc);
        let mut room = self.depth;
        let mut typed = false;
        let mut typedef = false;
        for _turn in 0..cursor.left() {
            if !cursor.continues_specifiers(typed) {
                return Ok(Found {
                    tree: (Seq::new(list), typedef),
                    room,
                });
            }
            let one = self.specifier(cursor, typed)?;
            let (specifier, after, is_typedef) = one.tree;
            list.push(specifier)?;
            room = room.min(one.room);
            typed = after;
            typedef = either(typedef, is_typedef);
        }
        Ok(Found {
            tree: (Seq::new(list), typedef),
            room,
        })
    }
}
