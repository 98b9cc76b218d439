//! The steps of an expression and of what is inside it, with their names.
ghost use Rattle.std.specs.Prelude.{◌≡◌, ◌∷◌, [], map, OnOk};
ghost use Rattle.lk_lower_expr.specs.Expressions.{library_part};
ghost use Rattle.lk_lower_expr.specs.Laid.{laid};
ghost use Rattle.lk_lower_expr.specs.Naming.{at_of, node_of};
ghost use Rattle.lk_lower_expr.specs.Parts.{goes, in_turn, place_of, standing_at};
ghost use Rattle.lk_lower_expr.specs.Reads.{names_by, part_by};
ghost use Rattle.lk_lower_expr.specs.Walk.{◌then◌};

use crate::decide::way_on;
use crate::layout::lay;
use crate::lowering::Lowering;
use crate::step::NamedStep;
use lk_base::NoMemory;
use lk_typed::{Callee, LibraryCall, TypedExpr, TypedForm};

impl Lowering<'_> {
    /// Adds the steps of an expression, where control goes on at a point behind it: each with its name, and
    /// those inside a node before its own.
    ///
    /// `Err` comes for want of memory.
    #[cycle(lays)]
    #[tactic(auto, using(crate::proofs::Nodes::stands_at))]
    pub fn push_steps(
        &self,
        e: &TypedExpr,
        on: u32,
        out: &mut Vec<NamedStep>,
    ) -> Result<(), NoMemory>
        ensures { OnOk result (out.new.items ≡ laid (goes (part_by self.now e.now) on) out.old.items) }
    {
        self.push_inside(e, on, out)?;
        let steps = self.own_steps(e, on)?;
        lay(e.ordinal, steps, out)
    }

    /// Adds the steps of a place that is read or written at once: a slot has none.
    #[cycle(lays)]
    fn push_place(
        &self,
        place: &TypedExpr,
        on: u32,
        out: &mut Vec<NamedStep>,
    ) -> Result<(), NoMemory>
        ensures { OnOk result (out.new.items ≡ laid (in_turn (place_of (names_by self.now)
            (part_by self.now place.now).slot (part_by self.now place.now)) on) out.old.items) }
    {
        match self.slot_of(place) {
            None => self.push_steps(place, on, out),
            Some(_) => Ok(()),
        }
    }

    /// Adds the steps of operands, one after the other.
    #[cycle(lays)]
    fn push_operands(
        &self,
        operands: &[TypedExpr],
        on: u32,
        out: &mut Vec<NamedStep>,
    ) -> Result<(), NoMemory>
        ensures { OnOk result (out.new.items ≡
            laid (in_turn (map (part_by self.now) operands.now) on) out.old.items) }
    {
        let mut next = on;
        for k in 0..operands.len() {
            let operand = &operands[operands.len() - 1 - k];
            self.push_steps(operand, next, out)?;
            next = self.first_of(operand)?;
        }
        Ok(())
    }

    /// Adds the steps of two operands, one after the other.
    #[cycle(lays)]
    fn push_both(
        &self,
        a: &TypedExpr,
        b: &TypedExpr,
        on: u32,
        out: &mut Vec<NamedStep>,
    ) -> Result<(), NoMemory>
        ensures { OnOk result (out.new.items ≡
            laid (in_turn (part_by self.now a.now ∷ part_by self.now b.now ∷ []) on) out.old.items) }
    {
        self.push_steps(b, on, out)?;
        let begins = self.first_of(b)?;
        self.push_steps(a, begins, out)
    }

    /// Adds the steps of the operands of `&&` and `||`: each leads to a step of the node.
    #[cycle(lays)]
    fn push_deciding(
        &self,
        a: &TypedExpr,
        b: &TypedExpr,
        node: u32,
        out: &mut Vec<NamedStep>,
    ) -> Result<(), NoMemory>
        ensures { OnOk result (out.new.items ≡ laid
            (goes (part_by self.now a.now) (at_of self.now.names.now node 0)
            then goes (part_by self.now b.now) (at_of self.now.names.now node 1)) out.old.items) }
    {
        self.push_steps(b, self.names.at(node, 1), out)?;
        self.push_steps(a, self.names.at(node, 0), out)
    }

    /// Adds the steps of the operands of `=`: the place, and then the value that is written at `own`.
    #[cycle(lays)]
    fn push_assigned(
        &self,
        place: &TypedExpr,
        value: &TypedExpr,
        own: u32,
        out: &mut Vec<NamedStep>,
    ) -> Result<(), NoMemory>
        ensures { OnOk result (out.new.items ≡ laid (in_turn (place_of (names_by self.now)
            (part_by self.now place.now).slot (part_by self.now place.now)) (part_by self.now value.now).first
            then goes (part_by self.now value.now) own) out.old.items) }
    {
        self.push_steps(value, own, out)?;
        let begins = self.first_of(value)?;
        self.push_place(place, begins, out)
    }

    /// Adds the steps of the operands of `op=`: the place, which is read, and then the value.
    #[cycle(lays)]
    fn push_updated(
        &self,
        place: &TypedExpr,
        value: &TypedExpr,
        node: u32,
        out: &mut Vec<NamedStep>,
    ) -> Result<(), NoMemory>
        ensures { OnOk result (out.new.items ≡ laid (in_turn (place_of (names_by self.now)
            (part_by self.now place.now).slot (part_by self.now place.now)) (at_of self.now.names.now node 0)
            then goes (part_by self.now value.now) (at_of self.now.names.now node 1)) out.old.items) }
    {
        self.push_steps(value, self.names.at(node, 1), out)?;
        self.push_place(place, self.names.at(node, 0), out)
    }

    /// Adds the steps inside a place or a value that is read or converted at a node, behind those that it has
    /// there. All steps of what a cast converts are inside the cast (C99 6.5.4).
    #[cycle(lays)]
    #[tactic(auto, using(crate::proofs::Nodes::stands_at))]
    fn push_followed(
        &self,
        a: &TypedExpr,
        node: u32,
        out: &mut Vec<NamedStep>,
    ) -> Result<(), NoMemory>
        ensures { OnOk result (out.new.items ≡ laid ((standing_at node (part_by self.now a.now)).inside
            (at_of self.now.names.now node (standing_at node (part_by self.now a.now)).count)) out.old.items) }
    {
        let own = self.behind(node, a, 0)?;
        if a.ordinal == node {
            self.push_inside(a, own, out)
        } else {
            self.push_steps(a, own, out)
        }
    }

    /// Adds the steps of what is inside an expression.
    #[cycle(lays)]
    #[tactic(auto, unfolding(crate::specs::Expressions::part))]
    fn push_inside(&self, e: &TypedExpr, on: u32, out: &mut Vec<NamedStep>) -> Result<(), NoMemory>
        ensures { OnOk result (out.new.items ≡ laid ((part_by self.now e.now).inside on) out.old.items) }
    {
        let node = e.ordinal;
        let own = self.names.at(node, 0);
        match &e.form {
            TypedForm::Object(_) => Ok(()),
            TypedForm::Text(_)
            | TypedForm::Number(_)
            | TypedForm::Function(_)
            | TypedForm::Size(_)
            | TypedForm::Null => Ok(()),
            TypedForm::Member(a, _) => self.push_steps(a.get(), own, out),
            TypedForm::Arrow(a, _) => self.push_steps(a.get(), own, out),
            TypedForm::Unary(_, a) => self.push_steps(a.get(), own, out),
            TypedForm::Indirection(a) => self.push_steps(a.get(), on, out),
            TypedForm::Address(a) => self.push_steps(a.get(), on, out),
            TypedForm::Discard(a) => self.push_steps(a.get(), on, out),
            TypedForm::Paren(a) => self.push_place(a.get(), on, out),
            TypedForm::Index(a, b) => self.push_both(a.get(), b.get(), own, out),
            TypedForm::Binary(_, a, b) => self.push_both(a.get(), b.get(), own, out),
            TypedForm::Comma(a, b) => self.push_both(a.get(), b.get(), on, out),
            TypedForm::And(a, b) => self.push_deciding(a.get(), b.get(), node, out),
            TypedForm::Or(a, b) => self.push_deciding(a.get(), b.get(), node, out),
            TypedForm::Choice(c, a, b) => {
                let taken = way_on(self.table, e.ty, self.names.at(node, 1), on);
                let other = way_on(self.table, e.ty, self.names.at(node, 2), on);
                self.push_steps(b.get(), other, out)?;
                self.push_steps(a.get(), taken, out)?;
                self.push_steps(c.get(), own, out)
            }
            TypedForm::Assign(a, b) => self.push_assigned(a.get(), b.get(), own, out),
            TypedForm::Compound(_, a, b, _) => self.push_updated(a.get(), b.get(), node, out),
            TypedForm::Step(_, _, a, _) => self.push_place(a.get(), own, out),
            TypedForm::Call(Callee::Function(_), args) => {
                self.push_operands(args.list(), own, out)
            }
            TypedForm::Call(Callee::Pointer(function), args) => {
                self.push_operands(args.list(), own, out)?;
                let begins = self.operands_first(args.list(), node)?;
                self.push_steps(function.get(), begins, out)
            }
            TypedForm::Library(call) => self.push_library(call, e, on, out),
            TypedForm::Extern(_, args) => self.push_operands(args.list(), own, out),
            TypedForm::Load(a) => self.push_followed(a.get(), node, out),
            TypedForm::Decay(a) => self.push_followed(a.get(), node, out),
            TypedForm::Convert(a) => self.push_followed(a.get(), node, out),
        }
    }

    /// Adds the steps of the operands of a call of the library, at the node of an expression.
    #[cycle(lays)]
    #[tactic(auto, unfolding(crate::specs::Expressions::library_part))]
    fn push_library(
        &self,
        call: &LibraryCall,
        e: &TypedExpr,
        on: u32,
        out: &mut Vec<NamedStep>,
    ) -> Result<(), NoMemory>
        ensures { OnOk result (out.new.items ≡
            laid ((library_part (names_by self.now) call.now (node_of e.now)).inside on) out.old.items) }
    {
        let own = self.names.at(e.ordinal, 0);
        match call {
            LibraryCall::Create(id, _, argument) => self.push_both(
                id.get(),
                argument.get(),
                own,
                out,
            ),
            LibraryCall::Join(a) => self.push_steps(a.get(), own, out),
            LibraryCall::Detach(a) => self.push_steps(a.get(), own, out),
            LibraryCall::ExitThread(a) => self.push_steps(a.get(), own, out),
            LibraryCall::Init(a) => self.push_steps(a.get(), own, out),
            LibraryCall::Destroy(a) => self.push_steps(a.get(), own, out),
            LibraryCall::Lock(a) => self.push_steps(a.get(), own, out),
            LibraryCall::Unlock(a) => self.push_steps(a.get(), own, out),
            LibraryCall::Signal(a) => self.push_steps(a.get(), own, out),
            LibraryCall::Free(a) => self.push_steps(a.get(), own, out),
            LibraryCall::Scan(a) => self.push_steps(a.get(), own, out),
            LibraryCall::SelfId => Ok(()),
            LibraryCall::Equal(a, b) => self.push_both(a.get(), b.get(), own, out),
            LibraryCall::Wait(cond, mutex) => self.push_both(cond.get(), mutex.get(), own, out),
            LibraryCall::Allocate(_, count, _) => match count {
                None => Ok(()),
                Some(count) => self.push_steps(count.get(), own, out),
            },
            LibraryCall::Exit(status) => match status {
                None => Ok(()),
                Some(status) => self.push_steps(status.get(), own, out),
            },
            LibraryCall::Print(format, args) => {
                self.push_operands(args.list(), own, out)?;
                let begins = self.operands_first(args.list(), e.ordinal)?;
                self.push_steps(format.get(), begins, out)
            }
            LibraryCall::Compute(args) => self.push_operands(args.list(), own, out),
        }
    }
}
