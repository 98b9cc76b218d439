//! Statements: their steps, and where control goes on after them (C99 6.8).
ghost use Rattle.std.specs.Prelude.{map};
ghost use Rattle.std.specs.Option.{option_map};
ghost use Rattle.lk_lower_expr.specs.Reads.{names_by, part_by};
ghost use Rattle.lk_lower_expr.specs.Statements as rules;
ghost use Rattle.lk_lower_stmt.specs.Flows.{flow_by, item_by, then_flow};
ghost use Rattle.lk_lower_stmt.specs.Lays.{Lays};

use crate::cells::Cells;
use crate::jump::{push_expression, push_return};
use crate::lowering::{BodyLowering, Lowered};
use crate::make::{branch, step};
use crate::switch::switch_step;
use crate::turns::{first_or, for_steps, push_given, turn_steps};
use lk_base::{Boxed, NoMemory, Spot};
use lk_facts::Action;
use lk_lower_expr::{Goals, Labelled, lay};
use lk_typed::{SwitchCase, TypedExpr, TypedFirst, TypedItem, TypedStmt, TypedStmtForm};
use std::mem;

/// The node of a statement.
#[derive(Clone, Copy)]
struct StmtNode {
    ordinal: u32,
    spot: Spot,
}

impl<C: Cells> BodyLowering<'_, C> {
    /// Adds the steps of a statement, what stands last in it first, and each `case` and `default` in it that
    /// belongs to the `switch` around it. Answers the point at which it begins.
    ///
    /// `Err` comes for want of memory.
    #[cycle(lowers)]
    pub fn push_statement(
        &self,
        s: &TypedStmt,
        go: Goals,
        out: &mut Lowered,
    ) -> Result<u32, NoMemory>
        ensures { Lays (flow_by self.now.source (C.places self.now.cells.now) s.now) go out.old out.new
            result }
    {
        let node = StmtNode {
            ordinal: s.ordinal,
            spot: s.spot,
        };
        match &s.form {
            TypedStmtForm::Label(a) => self.push_label(a.get(), node, go, out),
            TypedStmtForm::Case(a) => self.push_case(a.get(), node, go, out),
            TypedStmtForm::Default(a) => self.push_case(a.get(), node, go, out),
            TypedStmtForm::Block(items) => self.push_items(items.list(), go, out),
            TypedStmtForm::Do(e) => push_expression(&self.source, e, go, &mut out.steps),
            TypedStmtForm::If(c, a, b) => {
                let no = self.push_else(b, go, out)?;
                self.push_then(a.get(), c, no, node, go, out)
            }
            TypedStmtForm::Switch(v, cases, default, a) => {
                self.push_switch(a.get(), v, cases.list(), *default, node, go, out)
            }
            TypedStmtForm::While(c, a) => self.push_while(a.get(), c, node, go, out),
            TypedStmtForm::Until(a, c) => self.push_until(a.get(), c, node, go, out),
            TypedStmtForm::For(first, c, last, a) => {
                self.push_for(a.get(), first, c, last, node, go, out)
            }
            TypedStmtForm::Goto(label) => Ok(self.source.names.at(*label, 0)),
            TypedStmtForm::Continue => Ok(go.continues),
            TypedStmtForm::Break => Ok(go.breaks),
            TypedStmtForm::Return(e) => push_return(&self.source, s, e, go, &mut out.steps),
        }
    }

    /// Adds the steps of the items of a block, one after the other.
    #[cycle(lowers)]
    fn push_items(&self, items: &[TypedItem], go: Goals, out: &mut Lowered) -> Result<u32, NoMemory>
        ensures { Lays (rules.in_turn (map (item_by self.now.source (C.places self.now.cells.now))
            items.now)) go
            out.old out.new result }
    {
        let mut next = go.next;
        for k in 0..items.len() {
            let item = &items[items.len() - 1 - k];
            next = self.push_item(item, go.to(next), out)?;
        }
        Ok(next)
    }

    /// Adds the steps of an item of a block.
    #[cycle(lowers)]
    fn push_item(&self, item: &TypedItem, go: Goals, out: &mut Lowered) -> Result<u32, NoMemory>
        ensures { Lays (item_by self.now.source (C.places self.now.cells.now) item.now) go out.old out.new
            result }
    {
        match item {
            TypedItem::Declare(list) => self.push_inits(list.list(), go, &mut out.steps),
            TypedItem::Stmt(s) => self.push_statement(s, go, out),
        }
    }

    /// Adds the steps of `label: statement`, which begins with the point to which `goto` leads (C99 6.8.1).
    #[cycle(lowers)]
    fn push_label(
        &self,
        a: &TypedStmt,
        node: StmtNode,
        go: Goals,
        out: &mut Lowered,
    ) -> Result<u32, NoMemory>
        ensures { Lays (rules.label_flow (names_by self.now.source) node.ordinal node.spot
            (flow_by self.now.source (C.places self.now.cells.now) a.now)) go out.old out.new result }
    {
        let begins = self.push_statement(a, go, out)?;
        let is = step(self.source.alloc, Action::Skip, node.spot, begins)?;
        lay(
            node.ordinal,
            vec![in self.source.alloc; is]?,
            &mut out.steps,
        )?;
        Ok(self.source.names.at(node.ordinal, 0))
    }

    /// Adds the steps of the statement behind `case value:` or `default:`, and where it begins.
    #[cycle(lowers)]
    fn push_case(
        &self,
        a: &TypedStmt,
        node: StmtNode,
        go: Goals,
        out: &mut Lowered,
    ) -> Result<u32, NoMemory>
        ensures { Lays (rules.case_flow node.ordinal (flow_by self.now.source (C.places self.now.cells.now)
            a.now)) go
            out.old out.new result }
    {
        let first = self.push_statement(a, go, out)?;
        out.labelled.push(Labelled {
            node: node.ordinal,
            first,
        })?;
        Ok(first)
    }

    /// Adds the steps of the statement behind `else`, where there is one.
    #[cycle(lowers)]
    fn push_else(
        &self,
        b: &Option<Boxed<TypedStmt>>,
        go: Goals,
        out: &mut Lowered,
    ) -> Result<u32, NoMemory>
        ensures { Lays (rules.otherwise (option_map (flow_by self.now.source (C.places self.now.cells.now))
            b.now)) go
            out.old out.new result }
    {
        match b {
            None => Ok(go.next),
            Some(b) => self.push_statement(b.get(), go, out),
        }
    }

    /// Adds the steps of an `if` whose second statement begins at a point; without one that is
    /// behind the `if` (C99 6.8.4.1).
    #[cycle(lowers)]
    fn push_then(
        &self,
        a: &TypedStmt,
        c: &TypedExpr,
        no: u32,
        node: StmtNode,
        go: Goals,
        out: &mut Lowered,
    ) -> Result<u32, NoMemory>
        ensures { Lays (then_flow (names_by self.now.source) node.ordinal node.spot
            (part_by self.now.source c.now)
            (flow_by self.now.source (C.places self.now.cells.now) a.now) no) go out.old out.new result }
    {
        let yes = self.push_statement(a, go, out)?;
        let own = self.source.names.at(node.ordinal, 0);
        self.source.push_steps(c, own, &mut out.steps)?;
        let value = self.source.value_of(c)?;
        let is = branch(self.source.alloc, node.spot, value, yes, no)?;
        lay(
            node.ordinal,
            vec![in self.source.alloc; is]?,
            &mut out.steps,
        )?;
        self.source.first_of(c)
    }

    /// Adds the steps of `switch`: control goes to each case in the order of the text, and last to the
    /// default or past the statement (C99 6.8.4.2).
    #[cycle(lowers)]
    fn push_switch(
        &self,
        a: &TypedStmt,
        v: &TypedExpr,
        cases: &[SwitchCase],
        default: Option<u32>,
        node: StmtNode,
        go: Goals,
        out: &mut Lowered,
    ) -> Result<u32, NoMemory>
        ensures { Lays (rules.switch_flow (names_by self.now.source) node.ordinal node.spot
            (part_by self.now.source v.now) cases.now default
            (flow_by self.now.source (C.places self.now.cells.now) a.now)) go out.old out.new result }
    {
        let around = mem::replace(&mut out.labelled, Vec::new(self.source.alloc));
        self.push_statement(a, go.inside_switch(), out)?;
        let inside = mem::replace(&mut out.labelled, around);
        let own = self.source.names.at(node.ordinal, 0);
        self.source.push_steps(v, own, &mut out.steps)?;
        let value = self.source.value_of(v)?;
        let is = switch_step(
            self.source.alloc,
            node.spot,
            value,
            cases,
            default,
            &inside,
            go.next,
        )?;
        lay(
            node.ordinal,
            vec![in self.source.alloc; is]?,
            &mut out.steps,
        )?;
        self.source.first_of(v)
    }

    /// Adds the steps of `while`: each turn begins at a point of its own (C99 6.8.5.1).
    #[cycle(lowers)]
    fn push_while(
        &self,
        a: &TypedStmt,
        c: &TypedExpr,
        node: StmtNode,
        go: Goals,
        out: &mut Lowered,
    ) -> Result<u32, NoMemory>
        ensures { Lays (rules.while_flow (names_by self.now.source) node.ordinal node.spot
            (part_by self.now.source c.now) (flow_by self.now.source (C.places self.now.cells.now) a.now)) go
            out.old out.new result }
    {
        let turn = self.source.names.at(node.ordinal, 0);
        let body = self.push_statement(a, go.inside_loop(turn), out)?;
        let own = self.source.names.at(node.ordinal, 1);
        self.source.push_steps(c, own, &mut out.steps)?;
        let own = turn_steps(&self.source, node.spot, c, body, go.next)?;
        lay(node.ordinal, own, &mut out.steps)?;
        Ok(turn)
    }

    /// Adds the steps of `do statement while (condition);`: `continue` goes to the condition (C99 6.8.5.2).
    #[cycle(lowers)]
    fn push_until(
        &self,
        a: &TypedStmt,
        c: &TypedExpr,
        node: StmtNode,
        go: Goals,
        out: &mut Lowered,
    ) -> Result<u32, NoMemory>
        ensures { Lays (rules.until_flow (names_by self.now.source) node.ordinal node.spot
            (flow_by self.now.source (C.places self.now.cells.now) a.now) (part_by self.now.source c.now)) go
            out.old out.new result }
    {
        let turn = self.source.names.at(node.ordinal, 0);
        let own = self.source.names.at(node.ordinal, 1);
        self.source.push_steps(c, own, &mut out.steps)?;
        let asks = self.source.first_of(c)?;
        let body = self.push_statement(a, go.inside_loop(asks), out)?;
        let value = self.source.value_of(c)?;
        let skip = step(self.source.alloc, Action::Skip, node.spot, body)?;
        let mut own = vec![in self.source.alloc; skip]?;
        own.push(branch(self.source.alloc, node.spot, value, turn, go.next)?)?;
        lay(node.ordinal, own, &mut out.steps)?;
        Ok(turn)
    }

    /// Adds the steps of `for`: each turn begins behind the first part, and `continue`
    /// goes to the third (C99 6.8.5.3).
    #[cycle(lowers)]
    fn push_for(
        &self,
        a: &TypedStmt,
        first: &TypedFirst,
        c: &Option<TypedExpr>,
        last: &Option<TypedExpr>,
        node: StmtNode,
        go: Goals,
        out: &mut Lowered,
    ) -> Result<u32, NoMemory>
        ensures { Lays (rules.for_flow (names_by self.now.source) node.ordinal node.spot
            (rules.first_flow (names_by self.now.source) (C.places self.now.cells.now) first.now)
            (rules.part_of (names_by self.now.source) c.now) (rules.part_of (names_by self.now.source)
            last.now)
            (flow_by self.now.source (C.places self.now.cells.now) a.now)) go out.old out.new result }
    {
        let turn = self.source.names.at(node.ordinal, 0);
        let inside = go.inside_loop(first_or(&self.source, last, turn)?);
        let body = self.push_statement(a, inside, out)?;
        push_given(&self.source, last, turn, &mut out.steps)?;
        let own = self.source.names.at(node.ordinal, 1);
        push_given(&self.source, c, own, &mut out.steps)?;
        let begins = self.push_first(first, go.to(turn), &mut out.steps)?;
        let own = for_steps(&self.source, node.spot, c, body, go.next)?;
        lay(node.ordinal, own, &mut out.steps)?;
        Ok(begins)
    }
}
