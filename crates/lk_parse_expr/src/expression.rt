//! Expressions, by precedence climbing.
ghost use Rattle.std.specs.Prelude.{true, ◌≡◌, ◌-◌, IfOk};
ghost use Rattle.lk_parse_expr.specs.Grammar.{expr_on};
ghost use Rattle.lk_tree.specs.declared.expression.ExprForm.TheVariants as form_of;
ghost use Rattle.lk_parse_expr.specs.Nests.{NestsExpr, NestsTypeName};
ghost use Rattle.lk_parse_expr.specs.Reading as spec;
ghost use Rattle.lk_parse_expr.specs.Parts as part;
ghost use Rattle.lk_parse_expr.specs.Readers as reader;
ghost use Rattle.lk_parse_expr.specs.Readers.{Gives};

use crate::cursor::Cursor;
use crate::found::Found;
use crate::front::{Infix, Start, Suffix, begins_expr, infix_level, infix_of, start_of, suffix_of};
use crate::words::level_of;
use lk_base::{Boxed, Fault, NoMemory, Seq, Spot};
use lk_boxes::{boxed_beside, boxed_three, boxed_two};
use lk_lex::Punct;
use lk_tree::{
    AssignOperator, BinaryOperator, Expr, ExprForm, PrefixOperator, StepOperator, TypeName,
};
use std::alloc::Global;

/// What reads expressions, with the readers of what stands inside them handed in, so that
/// each form is proved by itself.
#[derive(Clone, Copy)]
pub struct Expressions<E, T> {
    pub alloc: Global,
    /// How many levels there are inside the expression.
    pub depth: usize,
    pub expr: E,
    pub type_name: T,
}

/// An expression without an ordinal yet.
fn at(spot: Spot, form: ExprForm) -> Expr
    ensures { result ≡ expr_on spot form }
{
    Expr {
        spot,
        ordinal: 0,
        form,
    }
}

/// A choice between two expressions.
fn choice_of(alloc: Global, condition: Expr, yes: Expr, no: Expr) -> Result<ExprForm, NoMemory>
    ensures { IfOk result (λ form. form ≡ form_of.Choice condition yes no) }
{
    let (condition, yes, no) = boxed_three(alloc, condition, yes, no)?;
    Ok(ExprForm::Choice(condition, yes, no))
}

impl<
    E: Fn(Global, &mut Cursor<'_>, usize, u8) -> Result<Found<Expr>, Fault>,
    T: Fn(Global, &mut Cursor<'_>, usize) -> Result<Found<TypeName>, Fault>,
> Expressions<E, T> {
    /// An expression inside.
    fn inside(&self, cursor: &mut Cursor<'_>, level: u8) -> Result<Found<Expr>, Fault>
        requires { NestsExpr self.now.depth (E.pre self.now.expr) (E.post self.now.expr) }
        ensures { Gives ((spec.readers self.now.depth).expr level cursor.old) result cursor.new }
    {
        (self.expr)(self.alloc, cursor, self.depth, level)
    }

    /// An expression inside, with what was read before it.
    fn behind<B: Drop>(
        &self,
        cursor: &mut Cursor<'_>,
        before: B,
        level: u8,
    ) -> Result<(B, Found<Expr>), Fault>
        requires { NestsExpr self.now.depth (E.pre self.now.expr) (E.post self.now.expr) }
        ensures { Gives (part.behind before ((spec.readers self.now.depth).expr level) cursor.old)
            result cursor.new }
    {
        let inner = self.inside(cursor, level)?;
        Ok((before, inner))
    }

    /// The arguments of a call, with what was read before them.
    fn arguments_behind<B: Drop>(
        &self,
        cursor: &mut Cursor<'_>,
        before: B,
    ) -> Result<(B, Found<Seq<Expr>>), Fault>
        requires { NestsExpr self.now.depth (E.pre self.now.expr) (E.post self.now.expr) }
        ensures { Gives (part.behind before (spec.arguments self.now.depth (spec.readers self.now.depth))
            cursor.old) result cursor.new }
    {
        let inner = self.arguments(cursor)?;
        Ok((before, inner))
    }

    /// An expression in parentheses, whose `(` is next.
    #[tactic(auto, unfolding(crate::specs::Reading::parens))]
    fn parens(&self, cursor: &mut Cursor<'_>, spot: Spot) -> Result<Found<Expr>, Fault>
        requires { NestsExpr self.now.depth (E.pre self.now.expr) (E.post self.now.expr) }
        ensures { Gives (spec.parens self.now.depth (spec.readers self.now.depth)
            spot cursor.old) result cursor.new }
    {
        cursor.need(1, self.depth)?;
        cursor.take();
        let inner = self.inside(cursor, 0)?;
        let inner = cursor.closed(inner, Punct::CloseParen)?;
        let form = ExprForm::Paren(Boxed::new(self.alloc, inner.tree)?);
        Ok(Found {
            tree: at(spot, form),
            room: inner.room,
        })
    }

    /// An expression with nothing inside.
    fn leaf(&self, spot: Spot, form: ExprForm) -> Found<Expr>
        ensures { result ≡ reader.found (expr_on spot form) self.now.depth }
    {
        Found {
            tree: at(spot, form),
            room: self.depth,
        }
    }

    /// A primary expression.
    #[tactic(auto, unfolding(crate::specs::Reading::primary))]
    fn primary(&self, cursor: &mut Cursor<'_>, spot: Spot) -> Result<Found<Expr>, Fault>
        requires { NestsExpr self.now.depth (E.pre self.now.expr) (E.post self.now.expr) }
        ensures { Gives (spec.primary self.now.depth (spec.readers self.now.depth)
            spot cursor.old) result cursor.new }
    {
        match start_of(cursor.peek()) {
            Start::Word => {
                let name = cursor.word()?;
                Ok(self.leaf(spot, ExprForm::Word(name)))
            }
            Start::Number(kind, value) => {
                cursor.take();
                Ok(self.leaf(spot, ExprForm::Number(kind, value)))
            }
            Start::Char(value) => {
                cursor.take();
                Ok(self.leaf(spot, ExprForm::Char(value)))
            }
            Start::Text => {
                let bytes = cursor.texts()?;
                Ok(self.leaf(spot, ExprForm::Text(bytes)))
            }
            Start::Open => self.parens(cursor, spot),
            Start::Step(_) => Err(cursor.refuse()),
            Start::Prefix(_) => Err(cursor.refuse()),
            Start::Sizeof => Err(cursor.refuse()),
            Start::Nothing => Err(cursor.refuse()),
        }
    }

    /// Behind the `[` of an index.
    #[tactic(auto, unfolding(crate::specs::Reading::index))]
    fn index(
        &self,
        cursor: &mut Cursor<'_>,
        spot: Spot,
        array: Found<Expr>,
    ) -> Result<Found<Expr>, Fault>
        requires { NestsExpr self.now.depth (E.pre self.now.expr) (E.post self.now.expr) }
        ensures { Gives (spec.index self.now.depth (spec.readers self.now.depth)
            spot array cursor.old) result cursor.new }
    {
        let read = self.behind(cursor, array, 0)?;
        let (array, inner) = cursor.closed(read, Punct::CloseBracket)?;
        let room = array.room.saturating_sub(1).min(inner.room);
        let (array, inner) = boxed_two(self.alloc, array.tree, inner.tree)?;
        Ok(Found {
            tree: at(spot, ExprForm::Index(array, inner)),
            room,
        })
    }

    /// Behind the `(` of a call.
    #[tactic(auto, unfolding(crate::specs::Reading::call))]
    fn call(
        &self,
        cursor: &mut Cursor<'_>,
        spot: Spot,
        function: Found<Expr>,
    ) -> Result<Found<Expr>, Fault>
        requires { NestsExpr self.now.depth (E.pre self.now.expr) (E.post self.now.expr) }
        ensures { Gives (spec.call self.now.depth (spec.readers self.now.depth)
            spot function cursor.old) result cursor.new }
    {
        let read = self.arguments_behind(cursor, function)?;
        let (function, inner) = cursor.closed(read, Punct::CloseParen)?;
        let room = function.room.saturating_sub(1).min(inner.room);
        let (function, arguments) = boxed_beside(self.alloc, function.tree, inner.tree)?;
        Ok(Found {
            tree: at(spot, ExprForm::Call(function, arguments)),
            room,
        })
    }

    /// Behind a `.`.
    fn member(
        &self,
        cursor: &mut Cursor<'_>,
        spot: Spot,
        operand: Found<Expr>,
    ) -> Result<Found<Expr>, Fault>
        ensures { Gives (spec.suffixed self.now.depth (spec.readers self.now.depth)
            spot operand Suffix.Member cursor.old) result cursor.new }
    {
        let (operand, name) = cursor.word_behind(operand)?;
        let room = operand.room.saturating_sub(1);
        let (operand, name) = boxed_beside(self.alloc, operand.tree, name)?;
        Ok(Found {
            tree: at(spot, ExprForm::Member(operand, name)),
            room,
        })
    }

    /// Behind a `->`.
    fn arrow(
        &self,
        cursor: &mut Cursor<'_>,
        spot: Spot,
        operand: Found<Expr>,
    ) -> Result<Found<Expr>, Fault>
        ensures { Gives (spec.suffixed self.now.depth (spec.readers self.now.depth)
            spot operand Suffix.Arrow cursor.old) result cursor.new }
    {
        let (operand, name) = cursor.word_behind(operand)?;
        let room = operand.room.saturating_sub(1);
        let (operand, name) = boxed_beside(self.alloc, operand.tree, name)?;
        Ok(Found {
            tree: at(spot, ExprForm::Arrow(operand, name)),
            room,
        })
    }

    /// An operand with a `++` or a `--` behind it.
    fn post(
        &self,
        spot: Spot,
        operand: Found<Expr>,
        operator: StepOperator,
    ) -> Result<Found<Expr>, NoMemory>
        ensures { IfOk result (λ found. found
            ≡ reader.found (expr_on spot (form_of.Post operator operand.tree)) (operand.room - 1)) }
    {
        let form = ExprForm::Post(operator, Boxed::new(self.alloc, operand.tree)?);
        Ok(Found {
            tree: at(spot, form),
            room: operand.room.saturating_sub(1),
        })
    }

    /// Behind the token that makes the operand a part of a greater one.
    fn suffixed(
        &self,
        cursor: &mut Cursor<'_>,
        spot: Spot,
        operand: Found<Expr>,
        suffix: Suffix,
    ) -> Result<Found<Expr>, Fault>
        requires { NestsExpr self.now.depth (E.pre self.now.expr) (E.post self.now.expr) }
        ensures { Gives (spec.suffixed self.now.depth (spec.readers self.now.depth)
            spot operand suffix cursor.old) result cursor.new }
    {
        match suffix {
            Suffix::Index => self.index(cursor, spot, operand),
            Suffix::Call => self.call(cursor, spot, operand),
            Suffix::Member => self.member(cursor, spot, operand),
            Suffix::Arrow => self.arrow(cursor, spot, operand),
            Suffix::Post(operator) => Ok(self.post(spot, operand, operator)?),
        }
    }

    /// Goes on with what makes the operand a part of a greater one.
    #[tactic(auto, unfolding(crate::specs::Reading::suffixes))]
    fn suffixes(
        &self,
        cursor: &mut Cursor<'_>,
        spot: Spot,
        mut operand: Found<Expr>,
    ) -> Result<Found<Expr>, Fault>
        requires { NestsExpr self.now.depth (E.pre self.now.expr) (E.post self.now.expr) }
        ensures { Gives (spec.suffixes self.now.depth (spec.readers self.now.depth)
            spot operand cursor.old) result cursor.new }
    {
        for _turn in 0..cursor.left() {
            let Some(suffix) = suffix_of(cursor.peek()) else {
                return Ok(operand);
            };
            let room = operand.room;
            let inner = cursor.rise(operand, room)?;
            operand = self.suffixed(cursor, spot, inner, suffix)?;
        }
        Ok(operand)
    }

    /// A postfix expression.
    #[tactic(auto, unfolding(crate::specs::Reading::postfix))]
    fn postfix(&self, cursor: &mut Cursor<'_>, spot: Spot) -> Result<Found<Expr>, Fault>
        requires { NestsExpr self.now.depth (E.pre self.now.expr) (E.post self.now.expr) }
        ensures { Gives (spec.postfix self.now.depth (spec.readers self.now.depth)
            spot cursor.old) result cursor.new }
    {
        let first = self.primary(cursor, spot)?;
        self.suffixes(cursor, spot, first)
    }

    /// Behind the `(` of a cast.
    #[tactic(auto, unfolding(crate::specs::Reading::cast))]
    fn cast(&self, cursor: &mut Cursor<'_>, spot: Spot) -> Result<Found<Expr>, Fault>
        requires expr { NestsExpr self.now.depth (E.pre self.now.expr) (E.post self.now.expr) }
        requires name { NestsTypeName self.now.depth (T.pre self.now.type_name) (T.post self.now.type_name) }
        ensures { Gives (spec.cast self.now.depth (spec.readers self.now.depth)
            spot cursor.old) result cursor.new }
    {
        let name = (self.type_name)(self.alloc, cursor, self.depth)?;
        let name = cursor.closed(name, Punct::CloseParen)?;
        let (name, operand) = self.behind(cursor, name, 13)?;
        let room = name.room.min(operand.room);
        let (name, operand) = boxed_two(self.alloc, name.tree, operand.tree)?;
        Ok(Found {
            tree: at(spot, ExprForm::Cast(name, operand)),
            room,
        })
    }

    /// The arguments of a call, perhaps none.
    #[tactic(auto, unfolding(crate::specs::Reading::arguments))]
    fn arguments(&self, cursor: &mut Cursor<'_>) -> Result<Found<Seq<Expr>>, Fault>
        requires { NestsExpr self.now.depth (E.pre self.now.expr) (E.post self.now.expr) }
        ensures { Gives (spec.arguments self.now.depth (spec.readers self.now.depth)
            cursor.old) result cursor.new }
    {
        let mut found = Vec::new(self.alloc);
        let mut room = self.depth;
        if cursor.sees(Punct::CloseParen) {
            return Ok(Found {
                tree: Seq::new(found),
                room,
            });
        }
        for _turn in 0..cursor.left() {
            let next = self.inside(cursor, 1)?;
            found.push(next.tree)?;
            room = room.min(next.room);
            if !cursor.sees(Punct::Comma) {
                return Ok(Found {
                    tree: Seq::new(found),
                    room,
                });
            }
            cursor.take();
        }
        Err(cursor.refuse())
    }

    /// The operand of `sizeof`.
    #[tactic(auto, unfolding(crate::specs::Reading::sizeof_operand))]
    fn sizeof_operand(&self, cursor: &mut Cursor<'_>) -> Result<Found<Expr>, Fault>
        requires { NestsExpr self.now.depth (E.pre self.now.expr) (E.post self.now.expr) }
        ensures { Gives (spec.sizeof_operand self.now.depth (spec.readers self.now.depth)
            cursor.old) result cursor.new }
    {
        if cursor.sees(Punct::OpenParen) && self.depth <= 1 {
            cursor.take();
            return Err(cursor.exhausted(begins_expr(cursor.peek())));
        }
        self.inside(cursor, 14)
    }

    /// Behind `sizeof`.
    #[tactic(auto, unfolding(crate::specs::Reading::sizeof))]
    fn sizeof(&self, cursor: &mut Cursor<'_>, spot: Spot) -> Result<Found<Expr>, Fault>
        requires expr { NestsExpr self.now.depth (E.pre self.now.expr) (E.post self.now.expr) }
        requires name { NestsTypeName self.now.depth (T.pre self.now.type_name) (T.post self.now.type_name) }
        ensures { Gives (spec.sizeof self.now.depth (spec.readers self.now.depth)
            spot cursor.old) result cursor.new }
    {
        if cursor.opens_type_name() {
            cursor.take();
            let name = (self.type_name)(self.alloc, cursor, self.depth)?;
            let name = cursor.closed(name, Punct::CloseParen)?;
            let form = ExprForm::SizeofType(Boxed::new(self.alloc, name.tree)?);
            return Ok(Found {
                tree: at(spot, form),
                room: name.room,
            });
        }
        let operand = self.sizeof_operand(cursor)?;
        let form = ExprForm::SizeofExpr(Boxed::new(self.alloc, operand.tree)?);
        Ok(Found {
            tree: at(spot, form),
            room: operand.room,
        })
    }

    /// Behind a `,`.
    fn sequence(
        &self,
        cursor: &mut Cursor<'_>,
        spot: Spot,
        before: Found<Expr>,
    ) -> Result<Found<Expr>, Fault>
        requires { NestsExpr self.now.depth (E.pre self.now.expr) (E.post self.now.expr) }
        ensures { Gives (spec.combined self.now.depth (spec.readers self.now.depth)
            spot before Infix.Comma cursor.old) result cursor.new }
    {
        let (before, right) = self.behind(cursor, before, 1)?;
        let room = before.room.saturating_sub(1).min(right.room);
        let (left, right) = boxed_two(self.alloc, before.tree, right.tree)?;
        Ok(Found {
            tree: at(spot, ExprForm::Comma(left, right)),
            room,
        })
    }

    /// Behind an operator of assignment.
    fn assignment(
        &self,
        cursor: &mut Cursor<'_>,
        spot: Spot,
        before: Found<Expr>,
        operator: AssignOperator,
    ) -> Result<Found<Expr>, Fault>
        requires { NestsExpr self.now.depth (E.pre self.now.expr) (E.post self.now.expr) }
        ensures { Gives (spec.combined self.now.depth (spec.readers self.now.depth)
            spot before (Infix.Assign operator) cursor.old) result cursor.new }
    {
        let (before, right) = self.behind(cursor, before, 1)?;
        let room = before.room.saturating_sub(1).min(right.room);
        let (left, right) = boxed_two(self.alloc, before.tree, right.tree)?;
        Ok(Found {
            tree: at(spot, ExprForm::Assign(operator, left, right)),
            room,
        })
    }

    /// Behind a binary operator, which groups to the left.
    fn binary(
        &self,
        cursor: &mut Cursor<'_>,
        spot: Spot,
        before: Found<Expr>,
        operator: BinaryOperator,
    ) -> Result<Found<Expr>, Fault>
        requires { NestsExpr self.now.depth (E.pre self.now.expr) (E.post self.now.expr) }
        ensures { Gives (spec.combined self.now.depth (spec.readers self.now.depth)
            spot before (Infix.Binary operator) cursor.old) result cursor.new }
    {
        let (before, right) = self.behind(cursor, before, level_of(operator) + 1)?;
        let room = before.room.saturating_sub(1).min(right.room);
        let (left, right) = boxed_two(self.alloc, before.tree, right.tree)?;
        Ok(Found {
            tree: at(spot, ExprForm::Binary(operator, left, right)),
            room,
        })
    }

    /// Behind the `:` of a choice.
    fn choice_end(
        &self,
        cursor: &mut Cursor<'_>,
        spot: Spot,
        read: (Found<Expr>, Found<Expr>),
    ) -> Result<Found<Expr>, Fault>
        requires { NestsExpr self.now.depth (E.pre self.now.expr) (E.post self.now.expr) }
        ensures { Gives (part.choice_end self.now.depth (spec.readers self.now.depth)
            spot read.0 read.1 cursor.old) result cursor.new }
    {
        let (read, right) = self.behind(cursor, read, 2)?;
        let (before, middle) = read;
        let room = before
            .room
            .saturating_sub(1)
            .min(middle.room.min(right.room));
        let form = choice_of(self.alloc, before.tree, middle.tree, right.tree)?;
        Ok(Found {
            tree: at(spot, form),
            room,
        })
    }

    /// Behind the `?` of a choice.
    fn choice(
        &self,
        cursor: &mut Cursor<'_>,
        spot: Spot,
        before: Found<Expr>,
    ) -> Result<Found<Expr>, Fault>
        requires { NestsExpr self.now.depth (E.pre self.now.expr) (E.post self.now.expr) }
        ensures { Gives (spec.combined self.now.depth (spec.readers self.now.depth)
            spot before Infix.Choice cursor.old) result cursor.new }
    {
        let read = self.behind(cursor, before, 0)?;
        let read = cursor.closed(read, Punct::Colon)?;
        self.choice_end(cursor, spot, read)
    }

    /// The operand behind an operator of two.
    fn combined(
        &self,
        cursor: &mut Cursor<'_>,
        spot: Spot,
        before: Found<Expr>,
        between: Infix,
    ) -> Result<Found<Expr>, Fault>
        requires { NestsExpr self.now.depth (E.pre self.now.expr) (E.post self.now.expr) }
        ensures { Gives (spec.combined self.now.depth (spec.readers self.now.depth)
            spot before between cursor.old) result cursor.new }
    {
        match between {
            Infix::Comma => self.sequence(cursor, spot, before),
            Infix::Assign(operator) => self.assignment(cursor, spot, before, operator),
            Infix::Choice => self.choice(cursor, spot, before),
            Infix::Binary(operator) => self.binary(cursor, spot, before, operator),
        }
    }

    /// Goes on with operators that bind as tightly as `least` or more tightly.
    #[tactic(auto, unfolding(crate::specs::Reading::climb))]
    fn climb(
        &self,
        cursor: &mut Cursor<'_>,
        least: u8,
        spot: Spot,
        mut before: Found<Expr>,
    ) -> Result<Found<Expr>, Fault>
        requires { NestsExpr self.now.depth (E.pre self.now.expr) (E.post self.now.expr) }
        ensures { Gives (spec.climb self.now.depth (spec.readers self.now.depth)
            least spot before cursor.old) result cursor.new }
    {
        for _turn in 0..cursor.left() {
            let Some(between) = infix_of(cursor.peek()) else {
                return Ok(before);
            };
            if infix_level(between) < least {
                return Ok(before);
            }
            let room = before.room;
            let left = cursor.rise(before, room)?;
            before = self.combined(cursor, spot, left, between)?;
        }
        Ok(before)
    }

    /// Behind the `(` of a cast, where one may stand here.
    fn cast_if(
        &self,
        cursor: &mut Cursor<'_>,
        casts: bool,
        spot: Spot,
    ) -> Result<Found<Expr>, Fault>
        requires expr { NestsExpr self.now.depth (E.pre self.now.expr) (E.post self.now.expr) }
        requires name { NestsTypeName self.now.depth (T.pre self.now.type_name) (T.post self.now.type_name) }
        ensures { Gives (spec.cast_if self.now.depth (spec.readers self.now.depth)
            casts spot cursor.old) result cursor.new }
    {
        if !casts {
            return Err(cursor.refuse());
        }
        self.cast(cursor, spot)
    }

    /// A `(` is next. `casts` says whether a cast may stand here.
    #[tactic(auto, unfolding(crate::specs::Reading::opened))]
    fn opened(&self, cursor: &mut Cursor<'_>, casts: bool, spot: Spot) -> Result<Found<Expr>, Fault>
        requires expr { NestsExpr self.now.depth (E.pre self.now.expr) (E.post self.now.expr) }
        requires name { NestsTypeName self.now.depth (T.pre self.now.type_name) (T.post self.now.type_name) }
        ensures { Gives (spec.opened self.now.depth (spec.readers self.now.depth)
            casts spot cursor.old) result cursor.new }
    {
        if !cursor.second_begins_specifiers() {
            return self.postfix(cursor, spot);
        }
        cursor.need(1, self.depth)?;
        cursor.take();
        self.cast_if(cursor, casts, spot)
    }

    /// A `++` or a `--` before its operand.
    fn step(
        &self,
        cursor: &mut Cursor<'_>,
        spot: Spot,
        operator: StepOperator,
    ) -> Result<Found<Expr>, Fault>
        requires { NestsExpr self.now.depth (E.pre self.now.expr) (E.post self.now.expr) }
        ensures { Gives (spec.operand_by self.now.depth (spec.readers self.now.depth)
            true spot (Start.Step operator) cursor.old) result cursor.new }
    {
        cursor.need(1, self.depth)?;
        cursor.take();
        let operand = self.inside(cursor, 14)?;
        let form = ExprForm::Pre(operator, Boxed::new(self.alloc, operand.tree)?);
        Ok(Found {
            tree: at(spot, form),
            room: operand.room,
        })
    }

    /// A prefix operator before its operand.
    fn prefix(
        &self,
        cursor: &mut Cursor<'_>,
        spot: Spot,
        operator: PrefixOperator,
    ) -> Result<Found<Expr>, Fault>
        requires { NestsExpr self.now.depth (E.pre self.now.expr) (E.post self.now.expr) }
        ensures { Gives (spec.operand_by self.now.depth (spec.readers self.now.depth)
            true spot (Start.Prefix operator) cursor.old) result cursor.new }
    {
        cursor.need(1, self.depth)?;
        cursor.take();
        let operand = self.inside(cursor, 13)?;
        let form = ExprForm::Prefix(operator, Boxed::new(self.alloc, operand.tree)?);
        Ok(Found {
            tree: at(spot, form),
            room: operand.room,
        })
    }

    /// What is first in an expression of this level, where `casts` says whether a cast may stand here.
    #[tactic(auto, unfolding(crate::specs::Reading::operand))]
    fn operand(
        &self,
        cursor: &mut Cursor<'_>,
        casts: bool,
        spot: Spot,
    ) -> Result<Found<Expr>, Fault>
        requires expr { NestsExpr self.now.depth (E.pre self.now.expr) (E.post self.now.expr) }
        requires name { NestsTypeName self.now.depth (T.pre self.now.type_name) (T.post self.now.type_name) }
        ensures { Gives (spec.operand self.now.depth (spec.readers self.now.depth)
            casts spot cursor.old) result cursor.new }
    {
        match start_of(cursor.peek()) {
            Start::Word => self.postfix(cursor, spot),
            Start::Number(_, _) => self.postfix(cursor, spot),
            Start::Char(_) => self.postfix(cursor, spot),
            Start::Text => self.postfix(cursor, spot),
            Start::Open => self.opened(cursor, casts, spot),
            Start::Step(operator) => self.step(cursor, spot, operator),
            Start::Prefix(operator) => self.prefix(cursor, spot, operator),
            Start::Sizeof => {
                cursor.need(1, self.depth)?;
                cursor.take();
                self.sizeof(cursor, spot)
            }
            Start::Nothing => Err(cursor.refuse()),
        }
    }

    /// An expression that binds as tightly as `least` or more tightly.
    #[tactic(auto, unfolding(crate::specs::Reading::expr))]
    pub fn expr(&self, cursor: &mut Cursor<'_>, least: u8) -> Result<Found<Expr>, Fault>
        requires expr { NestsExpr self.now.depth (E.pre self.now.expr) (E.post self.now.expr) }
        requires name { NestsTypeName self.now.depth (T.pre self.now.type_name) (T.post self.now.type_name) }
        ensures { Gives (spec.expr self.now.depth (spec.readers self.now.depth)
            least cursor.old) result cursor.new }
    {
        let spot = cursor.spot();
        let first = self.operand(cursor, least <= 13, spot)?;
        self.climb(cursor, least, spot, first)
    }
}
