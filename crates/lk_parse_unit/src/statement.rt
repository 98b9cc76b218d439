//! Statements.
ghost use Rattle.std.specs.Prelude.{◌≡◌, IfOk, None, Some, min};
ghost use Rattle.lk_parse_unit.specs.Nests.{NestsStmt};
ghost use Rattle.lk_parse_unit.specs.Reading as spec;
ghost use Rattle.lk_tree.specs.declared.statement.StmtForm.TheVariants as variant;
ghost use Rattle.lk_parse_expr.specs.Statements as grammar;
ghost use Rattle.lk_parse_expr.specs.Parts.{behind};
ghost use Rattle.lk_parse_expr.specs.Readers as reader;
ghost use Rattle.lk_parse_expr.specs.Readers.{Gives};

use crate::lead::{Lead, begins_stmt, is_colon, lead_of};
use lk_base::{Boxed, Fault, NoMemory, Seq, Spot};
use lk_boxes::{boxed_beside, boxed_two_beside};
use lk_lex::{Keyword, Punct, TokenKind};
use lk_parse_decl::read_declaration;
use lk_parse_expr::{Cursor, Found, read_expr};
use lk_tree::{BlockItem, Expr, ForFirst, Stmt, StmtForm};
use std::alloc::Global;

/// What reads statements, with the reader of those inside handed in, so that each form is proved by itself.
#[derive(Clone, Copy)]
pub struct Statements<S> {
    pub alloc: Global,
    /// How many levels there are inside the statement.
    pub depth: usize,
    pub stmt: S,
}

/// A statement without an ordinal yet.
pub fn at(spot: Spot, form: StmtForm) -> Stmt
    ensures { result ≡ grammar.stmt_on spot form }
{
    Stmt {
        spot,
        ordinal: 0,
        form,
    }
}

impl<S: Fn(Global, &mut Cursor<'_>, usize) -> Result<Found<Stmt>, Fault>> Statements<S> {
    /// A statement inside.
    fn inside(&self, cursor: &mut Cursor<'_>) -> Result<Found<Stmt>, Fault>
        requires { NestsStmt self.now.depth (S.pre self.now.stmt) (S.post self.now.stmt) }
        ensures { Gives (spec.stmt self.now.depth cursor.old) result cursor.new }
    {
        (self.stmt)(self.alloc, cursor, self.depth)
    }

    /// A statement inside, with what was read before it.
    fn behind<B: Drop>(&self, cursor: &mut Cursor<'_>, before: B) -> Result<(B, Found<Stmt>), Fault>
        requires { NestsStmt self.now.depth (S.pre self.now.stmt) (S.post self.now.stmt) }
        ensures { Gives (behind before (spec.stmt self.now.depth) cursor.old) result cursor.new }
    {
        let inner = self.inside(cursor)?;
        Ok((before, inner))
    }

    /// An expression before this token, where there is one.
    #[tactic(auto, unfolding(crate::specs::Reading::optional))]
    fn optional(&self, cursor: &mut Cursor<'_>, end: Punct) -> Result<Found<Option<Expr>>, Fault>
        ensures { Gives (spec.optional self.now.depth (spec.stmt self.now.depth) end cursor.old)
            result cursor.new }
    {
        if cursor.sees(end) {
            cursor.take();
            return Ok(Found {
                tree: None,
                room: self.depth,
            });
        }
        let value = read_expr(self.alloc, cursor, self.depth, 0)?;
        let value = cursor.closed(value, end)?;
        Ok(Found {
            tree: Some(value.tree),
            room: value.room,
        })
    }

    /// An expression before this token, where there is one, with what was read before it.
    fn optional_behind<B: Drop>(
        &self,
        cursor: &mut Cursor<'_>,
        before: B,
        end: Punct,
    ) -> Result<(B, Found<Option<Expr>>), Fault>
        ensures { Gives (behind before (spec.optional self.now.depth (spec.stmt self.now.depth) end)
            cursor.old) result cursor.new }
    {
        let value = self.optional(cursor, end)?;
        Ok((before, value))
    }

    /// An expression in parentheses.
    #[tactic(auto, unfolding(crate::specs::Reading::condition))]
    fn condition(&self, cursor: &mut Cursor<'_>) -> Result<Found<Expr>, Fault>
        ensures { Gives (spec.condition self.now.depth (spec.stmt self.now.depth) cursor.old)
            result cursor.new }
    {
        cursor.expect(Punct::OpenParen)?;
        let value = read_expr(self.alloc, cursor, self.depth, 0)?;
        cursor.closed(value, Punct::CloseParen)
    }

    /// An expression in parentheses, with what was read before it.
    fn condition_behind<B: Drop>(
        &self,
        cursor: &mut Cursor<'_>,
        before: B,
    ) -> Result<(B, Found<Expr>), Fault>
        ensures { Gives (behind before (spec.condition self.now.depth (spec.stmt self.now.depth))
            cursor.old) result cursor.new }
    {
        let value = self.condition(cursor)?;
        Ok((before, value))
    }

    /// A substatement, which is a scope.
    #[tactic(auto, unfolding(crate::specs::Reading::scope, lk_parse_expr::specs::Input::leave))]
    fn scope(&self, cursor: &mut Cursor<'_>) -> Result<Found<Stmt>, Fault>
        requires { NestsStmt self.now.depth (S.pre self.now.stmt) (S.post self.now.stmt) }
        ensures { Gives (spec.scope self.now.depth (spec.stmt self.now.depth) cursor.old) result cursor.new }
    {
        let mark = cursor.mark();
        let inner = self.inside(cursor)?;
        cursor.leave(mark);
        Ok(inner)
    }

    /// A substatement, which is a scope, with what was read before it.
    fn scope_behind<B: Drop>(
        &self,
        cursor: &mut Cursor<'_>,
        before: B,
    ) -> Result<(B, Found<Stmt>), Fault>
        requires { NestsStmt self.now.depth (S.pre self.now.stmt) (S.post self.now.stmt) }
        ensures { Gives (behind before (spec.scope self.now.depth (spec.stmt self.now.depth))
            cursor.old) result cursor.new }
    {
        let inner = self.scope(cursor)?;
        Ok((before, inner))
    }

    /// A statement with a label.
    #[tactic(auto, unfolding(crate::specs::Reading::labelled))]
    fn labelled(&self, cursor: &mut Cursor<'_>) -> Result<Found<Stmt>, Fault>
        requires { NestsStmt self.now.depth (S.pre self.now.stmt) (S.post self.now.stmt) }
        ensures { Gives (spec.labelled self.now.depth (spec.stmt self.now.depth) cursor.old cursor.old)
            result cursor.new }
    {
        let spot = cursor.spot();
        cursor.need(1, self.depth)?;
        let name = cursor.word()?;
        cursor.expect(Punct::Colon)?;
        let (name, inner) = self.behind(cursor, name)?;
        let room = inner.room;
        let (inner, name) = boxed_beside(self.alloc, inner.tree, name)?;
        Ok(Found {
            tree: at(spot, StmtForm::Label(name, inner)),
            room,
        })
    }

    /// A `case`.
    #[tactic(auto, unfolding(crate::specs::Reading::case_of))]
    fn case_of(&self, cursor: &mut Cursor<'_>) -> Result<Found<Stmt>, Fault>
        requires { NestsStmt self.now.depth (S.pre self.now.stmt) (S.post self.now.stmt) }
        ensures { Gives (spec.case_of self.now.depth (spec.stmt self.now.depth) cursor.old cursor.old)
            result cursor.new }
    {
        let spot = cursor.spot();
        cursor.need(1, self.depth)?;
        cursor.take();
        let value = read_expr(self.alloc, cursor, self.depth, 2)?;
        let value = cursor.closed(value, Punct::Colon)?;
        let (value, inner) = self.behind(cursor, value)?;
        let room = value.room.min(inner.room);
        let (inner, value) = boxed_beside(self.alloc, inner.tree, value.tree)?;
        Ok(Found {
            tree: at(spot, StmtForm::Case(value, inner)),
            room,
        })
    }

    /// A `default`.
    #[tactic(auto, unfolding(crate::specs::Reading::default_of))]
    fn default_of(&self, cursor: &mut Cursor<'_>) -> Result<Found<Stmt>, Fault>
        requires { NestsStmt self.now.depth (S.pre self.now.stmt) (S.post self.now.stmt) }
        ensures { Gives (spec.default_of self.now.depth (spec.stmt self.now.depth) cursor.old cursor.old)
            result cursor.new }
    {
        let spot = cursor.spot();
        cursor.need(1, self.depth)?;
        cursor.take();
        cursor.expect(Punct::Colon)?;
        let inner = self.inside(cursor)?;
        let form = StmtForm::Default(Boxed::new(self.alloc, inner.tree)?);
        Ok(Found {
            tree: at(spot, form),
            room: inner.room,
        })
    }

    /// Whether a label is next that is a typedef name, where no level is left for the statement behind it.
    fn is_late_label(&self, cursor: &Cursor<'_>) -> bool
        ensures { result ≡ spec.is_late_label self.now.depth cursor.now }
    {
        self.depth == 1 && cursor.continues_specifiers(false)
    }

    /// An item of a block.
    #[tactic(auto, unfolding(crate::specs::Reading::block_item))]
    fn block_item(&self, cursor: &mut Cursor<'_>) -> Result<Found<BlockItem>, Fault>
        requires { NestsStmt self.now.depth (S.pre self.now.stmt) (S.post self.now.stmt) }
        ensures { Gives (spec.block_item self.now.depth (spec.stmt self.now.depth) cursor.old)
            result cursor.new }
    {
        if begins_declaration(cursor) {
            let one = read_declaration(self.alloc, cursor, self.depth)?;
            return Ok(Found {
                tree: BlockItem::Declare(one.tree),
                room: one.room,
            });
        }
        if self.is_late_label(cursor) {
            cursor.take();
            return Err(cursor.exhaust());
        }
        let one = self.inside(cursor)?;
        Ok(Found {
            tree: BlockItem::Stmt(one.tree),
            room: one.room,
        })
    }

    /// The items of a block, up to its `}`.
    #[tactic(auto, unfolding(crate::specs::Reading::block_items))]
    pub fn block_items(&self, cursor: &mut Cursor<'_>) -> Result<Found<Seq<BlockItem>>, Fault>
        requires { NestsStmt self.now.depth (S.pre self.now.stmt) (S.post self.now.stmt) }
        ensures { Gives (spec.block_items self.now.depth (spec.stmt self.now.depth) cursor.old)
            result cursor.new }
    {
        let mut list = Vec::new(self.alloc);
        let mut room = self.depth;
        for _turn in 0..cursor.left() {
            if cursor.sees(Punct::CloseBrace) {
                return Ok(Found {
                    tree: Seq::new(list),
                    room,
                });
            }
            let next = self.block_item(cursor)?;
            list.push(next.tree)?;
            room = room.min(next.room);
        }
        Ok(Found {
            tree: Seq::new(list),
            room,
        })
    }

    /// A block.
    #[tactic(auto, unfolding(crate::specs::Reading::block, lk_parse_expr::specs::Input::leave))]
    fn block(&self, cursor: &mut Cursor<'_>) -> Result<Found<Stmt>, Fault>
        requires { NestsStmt self.now.depth (S.pre self.now.stmt) (S.post self.now.stmt) }
        ensures { Gives (spec.block self.now.depth (spec.stmt self.now.depth) cursor.old cursor.old)
            result cursor.new }
    {
        let spot = cursor.spot();
        let mark = cursor.mark();
        cursor.take();
        let items = self.block_items(cursor)?;
        let items = cursor.closed(items, Punct::CloseBrace)?;
        cursor.leave(mark);
        Ok(Found {
            tree: at(spot, StmtForm::Block(items.tree)),
            room: items.room,
        })
    }

    /// An expression as a statement, or an empty one.
    #[tactic(auto, unfolding(crate::specs::Reading::expression))]
    fn expression(&self, cursor: &mut Cursor<'_>) -> Result<Found<Stmt>, Fault>
        ensures { Gives (spec.expression self.now.depth (spec.stmt self.now.depth) cursor.old cursor.old)
            result cursor.new }
    {
        let spot = cursor.spot();
        let value = self.optional(cursor, Punct::Semicolon)?;
        Ok(Found {
            tree: at(spot, StmtForm::Do(value.tree)),
            room: value.room,
        })
    }

    /// What is behind the first substatement of an `if`: an `else` there is its own.
    #[tactic(auto, unfolding(crate::specs::Reading::if_behind))]
    fn if_behind(
        &self,
        cursor: &mut Cursor<'_>,
        read: (Found<Expr>, Found<Stmt>),
    ) -> Result<Found<StmtForm>, Fault>
        requires { NestsStmt self.now.depth (S.pre self.now.stmt) (S.post self.now.stmt) }
        ensures { Gives (spec.if_behind self.now.depth (spec.stmt self.now.depth) read.0 read.1 cursor.old)
            result cursor.new }
    {
        if !cursor.sees_key(Keyword::Else) {
            return Ok(self.if_alone(read)?);
        }
        cursor.take();
        let (read, other) = self.scope_behind(cursor, read)?;
        Ok(self.if_else(read, other)?)
    }

    /// An `if` without an `else`.
    fn if_alone(&self, read: (Found<Expr>, Found<Stmt>)) -> Result<Found<StmtForm>, NoMemory>
        ensures { IfOk result (λ form. form ≡ reader.found
            (variant.If read.0.tree read.1.tree None) (min read.0.room read.1.room)) }
    {
        let (value, taken) = read;
        let room = value.room.min(taken.room);
        let (inner, value) = boxed_beside(self.alloc, taken.tree, value.tree)?;
        Ok(Found {
            tree: StmtForm::If(value, inner, None),
            room,
        })
    }

    /// An `if` with an `else`.
    fn if_else(
        &self,
        read: (Found<Expr>, Found<Stmt>),
        other: Found<Stmt>,
    ) -> Result<Found<StmtForm>, NoMemory>
        ensures { IfOk result (λ form. form ≡ reader.found
            (variant.If read.0.tree read.1.tree (Some other.tree))
            (min read.0.room (min read.1.room other.room))) }
    {
        let (value, taken) = read;
        let room = value.room.min(taken.room.min(other.room));
        let (inner, last, value) = boxed_two_beside(
            self.alloc, taken.tree, other.tree, value.tree,
        )?;
        Ok(Found {
            tree: StmtForm::If(value, inner, Some(last)),
            room,
        })
    }

    /// An `if`.
    #[tactic(auto, unfolding(crate::specs::Reading::if_of, lk_parse_expr::specs::Input::leave))]
    fn if_of(&self, cursor: &mut Cursor<'_>) -> Result<Found<Stmt>, Fault>
        requires { NestsStmt self.now.depth (S.pre self.now.stmt) (S.post self.now.stmt) }
        ensures { Gives (spec.if_of self.now.depth (spec.stmt self.now.depth) cursor.old cursor.old)
            result cursor.new }
    {
        let spot = cursor.spot();
        let mark = cursor.mark();
        cursor.need(1, self.depth)?;
        cursor.take();
        let value = self.condition(cursor)?;
        let read = self.scope_behind(cursor, value)?;
        let form = self.if_behind(cursor, read)?;
        cursor.leave(mark);
        Ok(Found {
            tree: at(spot, form.tree),
            room: form.room,
        })
    }

    /// A `switch`.
    #[tactic(auto, unfolding(crate::specs::Reading::switch_of, lk_parse_expr::specs::Input::leave))]
    fn switch_of(&self, cursor: &mut Cursor<'_>) -> Result<Found<Stmt>, Fault>
        requires { NestsStmt self.now.depth (S.pre self.now.stmt) (S.post self.now.stmt) }
        ensures { Gives (spec.switch_of self.now.depth (spec.stmt self.now.depth) cursor.old cursor.old)
            result cursor.new }
    {
        let spot = cursor.spot();
        let mark = cursor.mark();
        cursor.need(1, self.depth)?;
        cursor.take();
        let value = self.condition(cursor)?;
        let (value, inner) = self.scope_behind(cursor, value)?;
        cursor.leave(mark);
        let room = value.room.min(inner.room);
        let (inner, value) = boxed_beside(self.alloc, inner.tree, value.tree)?;
        Ok(Found {
            tree: at(spot, StmtForm::Switch(value, inner)),
            room,
        })
    }

    /// A `while`.
    #[tactic(auto, unfolding(crate::specs::Reading::while_of, lk_parse_expr::specs::Input::leave))]
    fn while_of(&self, cursor: &mut Cursor<'_>) -> Result<Found<Stmt>, Fault>
        requires { NestsStmt self.now.depth (S.pre self.now.stmt) (S.post self.now.stmt) }
        ensures { Gives (spec.while_of self.now.depth (spec.stmt self.now.depth) cursor.old cursor.old)
            result cursor.new }
    {
        let spot = cursor.spot();
        let mark = cursor.mark();
        cursor.need(1, self.depth)?;
        cursor.take();
        let value = self.condition(cursor)?;
        let (value, inner) = self.scope_behind(cursor, value)?;
        cursor.leave(mark);
        let room = value.room.min(inner.room);
        let (inner, value) = boxed_beside(self.alloc, inner.tree, value.tree)?;
        Ok(Found {
            tree: at(spot, StmtForm::While(value, inner)),
            room,
        })
    }

    /// A `do`.
    #[tactic(auto, unfolding(crate::specs::Reading::until_of, lk_parse_expr::specs::Input::leave))]
    fn until_of(&self, cursor: &mut Cursor<'_>) -> Result<Found<Stmt>, Fault>
        requires { NestsStmt self.now.depth (S.pre self.now.stmt) (S.post self.now.stmt) }
        ensures { Gives (spec.until_of self.now.depth (spec.stmt self.now.depth) cursor.old cursor.old)
            result cursor.new }
    {
        let spot = cursor.spot();
        let mark = cursor.mark();
        cursor.need(1, self.depth)?;
        cursor.take();
        let inner = self.scope(cursor)?;
        let inner = cursor.closed_by_key(inner, Keyword::While)?;
        let read = self.condition_behind(cursor, inner)?;
        let (inner, value) = cursor.closed(read, Punct::Semicolon)?;
        cursor.leave(mark);
        let room = inner.room.min(value.room);
        let (inner, value) = boxed_beside(self.alloc, inner.tree, value.tree)?;
        Ok(Found {
            tree: at(spot, StmtForm::Until(inner, value)),
            room,
        })
    }

    /// The first part of a `for`.
    #[tactic(auto, unfolding(crate::specs::Reading::for_first))]
    fn for_first(&self, cursor: &mut Cursor<'_>) -> Result<Found<ForFirst>, Fault>
        ensures { Gives (spec.for_first self.now.depth (spec.stmt self.now.depth) cursor.old)
            result cursor.new }
    {
        if cursor.continues_specifiers(false) {
            let one = read_declaration(self.alloc, cursor, self.depth)?;
            return Ok(Found {
                tree: ForFirst::Declare(one.tree),
                room: one.room,
            });
        }
        let value = self.optional(cursor, Punct::Semicolon)?;
        Ok(Found {
            tree: ForFirst::Expr(value.tree),
            room: value.room,
        })
    }

    /// What stands in the parentheses of a `for`, with them.
    #[tactic(auto, unfolding(crate::specs::Reading::for_head))]
    fn for_head(
        &self,
        cursor: &mut Cursor<'_>,
    ) -> Result<Found<(ForFirst, Option<Expr>, Option<Expr>)>, Fault>
        ensures { Gives (spec.for_head self.now.depth (spec.stmt self.now.depth) cursor.old)
            result cursor.new }
    {
        cursor.expect(Punct::OpenParen)?;
        let start = self.for_first(cursor)?;
        let read = self.optional_behind(cursor, start, Punct::Semicolon)?;
        let (read, step) = self.optional_behind(cursor, read, Punct::CloseParen)?;
        let (start, value) = read;
        Ok(Found {
            tree: (start.tree, value.tree, step.tree),
            room: start.room.min(value.room.min(step.room)),
        })
    }

    /// A `for`.
    #[tactic(auto, unfolding(crate::specs::Reading::for_of, lk_parse_expr::specs::Input::leave))]
    fn for_of(&self, cursor: &mut Cursor<'_>) -> Result<Found<Stmt>, Fault>
        requires { NestsStmt self.now.depth (S.pre self.now.stmt) (S.post self.now.stmt) }
        ensures { Gives (spec.for_of self.now.depth (spec.stmt self.now.depth) cursor.old cursor.old)
            result cursor.new }
    {
        let spot = cursor.spot();
        let mark = cursor.mark();
        cursor.need(1, self.depth)?;
        cursor.take();
        let head = self.for_head(cursor)?;
        let (head, inner) = self.scope_behind(cursor, head)?;
        cursor.leave(mark);
        let room = head.room.min(inner.room);
        let (body, head) = boxed_beside(self.alloc, inner.tree, head.tree)?;
        let (start, value, step) = head;
        Ok(Found {
            tree: at(spot, StmtForm::For(start, value, step, body)),
            room,
        })
    }

    /// A `goto`.
    #[tactic(auto, unfolding(crate::specs::Reading::goto_of))]
    fn goto_of(&self, cursor: &mut Cursor<'_>) -> Result<Found<Stmt>, Fault>
        ensures { Gives (spec.goto_of self.now.depth (spec.stmt self.now.depth) cursor.old cursor.old)
            result cursor.new }
    {
        let spot = cursor.spot();
        cursor.take();
        let name = cursor.word()?;
        let name = cursor.closed(name, Punct::Semicolon)?;
        Ok(Found {
            tree: at(spot, StmtForm::Goto(name)),
            room: self.depth,
        })
    }

    /// A `return`.
    #[tactic(auto, unfolding(crate::specs::Reading::return_of))]
    fn return_of(&self, cursor: &mut Cursor<'_>) -> Result<Found<Stmt>, Fault>
        ensures { Gives (spec.return_of self.now.depth (spec.stmt self.now.depth) cursor.old cursor.old)
            result cursor.new }
    {
        let spot = cursor.spot();
        cursor.take();
        let value = self.optional(cursor, Punct::Semicolon)?;
        Ok(Found {
            tree: at(spot, StmtForm::Return(value.tree)),
            room: value.room,
        })
    }

    /// A `continue`.
    fn continue_of(&self, cursor: &mut Cursor<'_>) -> Result<Found<Stmt>, Fault>
        ensures { Gives (spec.word_alone self.now.depth (spec.stmt self.now.depth)
            cursor.old variant.Continue cursor.old) result cursor.new }
    {
        let spot = cursor.spot();
        cursor.take();
        cursor.expect(Punct::Semicolon)?;
        Ok(Found {
            tree: at(spot, StmtForm::Continue),
            room: self.depth,
        })
    }

    /// A `break`.
    fn break_of(&self, cursor: &mut Cursor<'_>) -> Result<Found<Stmt>, Fault>
        ensures { Gives (spec.word_alone self.now.depth (spec.stmt self.now.depth)
            cursor.old variant.Break cursor.old) result cursor.new }
    {
        let spot = cursor.spot();
        cursor.take();
        cursor.expect(Punct::Semicolon)?;
        Ok(Found {
            tree: at(spot, StmtForm::Break),
            room: self.depth,
        })
    }

    /// A statement.
    #[tactic(auto, unfolding(crate::specs::Reading::stmt_from))]
    pub fn stmt(&self, cursor: &mut Cursor<'_>) -> Result<Found<Stmt>, Fault>
        requires { NestsStmt self.now.depth (S.pre self.now.stmt) (S.post self.now.stmt) }
        ensures { Gives (spec.stmt_from self.now.depth (spec.stmt self.now.depth) cursor.old cursor.old)
            result cursor.new }
    {
        match lead_of(cursor.peek()) {
            Lead::Word => {
                if is_colon(cursor.second()) {
                    return self.labelled(cursor);
                }
                self.expression(cursor)
            }
            Lead::Case => self.case_of(cursor),
            Lead::Default => self.default_of(cursor),
            Lead::If => self.if_of(cursor),
            Lead::Switch => self.switch_of(cursor),
            Lead::While => self.while_of(cursor),
            Lead::Do => self.until_of(cursor),
            Lead::For => self.for_of(cursor),
            Lead::Goto => self.goto_of(cursor),
            Lead::Continue => self.continue_of(cursor),
            Lead::Break => self.break_of(cursor),
            Lead::Return => self.return_of(cursor),
            Lead::Block => self.block(cursor),
            Lead::Other => self.expression(cursor),
        }
    }
}

/// Whether an item of a block is a declaration.
fn begins_declaration(cursor: &Cursor<'_>) -> bool
    ensures { result ≡ grammar.begins_declaration cursor.now }
{
    cursor.continues_specifiers(false)
        && !(cursor.peek() == TokenKind::Word && is_colon(cursor.second()))
}

/// A statement, with so many levels for it and what stands in it (C99 6.8).
///
/// Refused with `Code::Syntax` at a token with which no tree goes on, or with `Code::TooDeep` at one with
/// which only trees of more levels do; `Fault::NoMemory` comes for want of memory. After any of these the
/// cursor is not to be used again.
pub fn read_stmt(alloc: Global, cursor: &mut Cursor<'_>, depth: usize) -> Result<Found<Stmt>, Fault>
    ensures { Gives (spec.stmt depth cursor.old) result cursor.new }
{
    if depth == 0 {
        return Err(cursor.exhausted(begins_stmt(cursor.peek())));
    }
    let inside = Statements {
        alloc,
        depth: depth - 1,
        stmt: read_stmt,
    };
    inside.stmt(cursor)
}
