//! The steps of the operators that decide on the way (C99 6.5.13 to 6.5.15).
ghost use Rattle.std.specs.Prelude.{◌≡◌, ◌++◌, get_or, IfOk};
ghost use Rattle.lk_lower_expr.specs.Counts as counts;
ghost use Rattle.lk_lower_expr.specs.Reads.{names_by, part_by};
ghost use Rattle.lk_lower_expr.specs.Naming.{at_of, node_of};
ghost use Rattle.lk_lower_expr.specs.Values as rules;
ghost use Rattle.lk_types.specs.Table.{type_at};

use crate::lowering::Lowering;
use crate::make::{alone, then};
use crate::step::Step;
use crate::value::is_void;
use lk_base::{Kind, NoMemory, Seq};
use lk_facts::Action;
use lk_typed::TypedExpr;
use lk_types::{CType, TypeId, TypeTable};
use std::alloc::Global;

/// A step that goes on at `yes` where the operand is neither zero nor null, else at `no`.
fn branch(alloc: Global, e: &TypedExpr, a: u32, yes: u32, no: u32) -> Result<Step, NoMemory>
    ensures { IfOk result (λ is. is ≡ rules.branch (node_of e.now) a yes no) }
{
    Ok(Step {
        does: Action::Branch(a),
        gives: None,
        next: Seq::new(vec![in alloc; yes, no]?),
        spot: e.spot,
    })
}

/// Where control goes on behind a way of `?:`: behind it where its type is void, else at a step of its own.
pub(crate) fn way_on(table: &TypeTable, ty: TypeId, own: u32, on: u32) -> u32
    ensures { result ≡ counts.way_on (type_at table.now ty) own on }
{
    if is_void(table, ty) { on } else { own }
}

impl Lowering<'_> {
    /// These steps, and behind them the two results of `&&` and `||`, each put into the hidden slot.
    fn with_truths(&self, steps: Vec<Step>, e: &TypedExpr, on: u32) -> Result<Vec<Step>, NoMemory>
        ensures { IfOk result (λ longer. longer.items ≡ steps.items ++
            rules.truths (at_of self.now.names.now e.now.ordinal)
            (get_or self.now.names.now.by_node e.now.ordinal 0) (node_of e.now) on) }
    {
        let node = e.ordinal;
        let int = TypeId::of_kind(Kind::Int);
        let slot = self.names.node_number(node);
        let one = Action::Value { number: 1, ty: int };
        let steps = self.with_step(steps, one, Some(int), e.spot, self.names.at(node, 3))?;
        let a = self.names.at(node, 2);
        let keep = Action::SlotWrite { slot, a };
        let steps = self.with_step(steps, keep, None, e.spot, self.names.at(node, 6))?;
        let zero = Action::Value { number: 0, ty: int };
        let steps = self.with_step(steps, zero, Some(int), e.spot, self.names.at(node, 5))?;
        let a = self.names.at(node, 4);
        let keep = Action::SlotWrite { slot, a };
        let steps = self.with_step(steps, keep, None, e.spot, self.names.at(node, 6))?;
        let read = Action::SlotRead(slot);
        self.with_step(steps, read, Some(int), e.spot, on)
    }

    /// The steps of `left && right`.
    pub(crate) fn and_steps(
        &self,
        e: &TypedExpr,
        left: &TypedExpr,
        right: &TypedExpr,
        on: u32,
    ) -> Result<Vec<Step>, NoMemory>
        ensures { IfOk result (λ steps. steps.items ≡ (rules.and_part (names_by self.now) (node_of e.now)
            (part_by self.now left.now) (part_by self.now right.now)).steps on) }
    {
        let node = e.ordinal;
        let a = self.value_of(left)?;
        let b = self.value_of(right)?;
        let begins = self.first_of(right)?;
        let yes = self.names.at(node, 2);
        let no = self.names.at(node, 4);
        let steps = alone(self.alloc, branch(self.alloc, e, a, begins, no))?;
        let steps = then(steps, branch(self.alloc, e, b, yes, no))?;
        self.with_truths(steps, e, on)
    }

    /// The steps of `left || right`.
    pub(crate) fn or_steps(
        &self,
        e: &TypedExpr,
        left: &TypedExpr,
        right: &TypedExpr,
        on: u32,
    ) -> Result<Vec<Step>, NoMemory>
        ensures { IfOk result (λ steps. steps.items ≡ (rules.or_part (names_by self.now) (node_of e.now)
            (part_by self.now left.now) (part_by self.now right.now)).steps on) }
    {
        let node = e.ordinal;
        let a = self.value_of(left)?;
        let b = self.value_of(right)?;
        let begins = self.first_of(right)?;
        let yes = self.names.at(node, 2);
        let no = self.names.at(node, 4);
        let steps = alone(self.alloc, branch(self.alloc, e, a, yes, begins))?;
        let steps = then(steps, branch(self.alloc, e, b, yes, no))?;
        self.with_truths(steps, e, on)
    }

    /// The steps of `condition ? taken : other` of type void.
    fn void_steps(
        &self,
        e: &TypedExpr,
        condition: &TypedExpr,
        taken: &TypedExpr,
        other: &TypedExpr,
        on: u32,
    ) -> Result<Vec<Step>, NoMemory>
        ensures { IfOk result (λ steps.
            steps.items ≡ (rules.void_choice (names_by self.now) (node_of e.now)
            (part_by self.now condition.now)
            (part_by self.now taken.now) (part_by self.now other.now)).steps on) }
    {
        let c = self.value_of(condition)?;
        let yes = self.first_of(taken)?;
        let no = self.first_of(other)?;
        alone(self.alloc, branch(self.alloc, e, c, yes, no))
    }

    /// The steps of `condition ? taken : other` of another type: each value goes into the hidden slot.
    fn value_steps(
        &self,
        e: &TypedExpr,
        condition: &TypedExpr,
        taken: &TypedExpr,
        other: &TypedExpr,
        on: u32,
    ) -> Result<Vec<Step>, NoMemory>
        ensures { IfOk result (λ steps.
            steps.items ≡ (rules.value_choice (names_by self.now) (node_of e.now)
            (part_by self.now condition.now)
            (part_by self.now taken.now) (part_by self.now other.now)).steps on) }
    {
        let slot = self.names.node_number(e.ordinal);
        let read = self.names.at(e.ordinal, 3);
        let a = self.value_of(taken)?;
        let b = self.value_of(other)?;
        let steps = self.void_steps(e, condition, taken, other, on)?;
        let keep_taken = Action::SlotWrite { slot, a };
        let steps = self.with_step(steps, keep_taken, None, e.spot, read)?;
        let keep_other = Action::SlotWrite { slot, a: b };
        let steps = self.with_step(steps, keep_other, None, e.spot, read)?;
        let gives = self.value_type(e.ty);
        self.with_step(steps, Action::SlotRead(slot), gives, e.spot, on)
    }

    /// The steps of `condition ? taken : other`.
    #[tactic(auto, unfolding(crate::specs::Values::choice_part))]
    pub(crate) fn choice_steps(
        &self,
        e: &TypedExpr,
        condition: &TypedExpr,
        taken: &TypedExpr,
        other: &TypedExpr,
        on: u32,
    ) -> Result<Vec<Step>, NoMemory>
        ensures { IfOk result (λ steps.
            steps.items ≡ (rules.choice_part (names_by self.now) (node_of e.now)
            (part_by self.now condition.now)
            (part_by self.now taken.now) (part_by self.now other.now)).steps on) }
    {
        if e.ty.0 >= self.table.count() {
            return self.void_steps(e, condition, taken, other, on);
        }
        match self.table.get(e.ty) {
            CType::Void => self.void_steps(e, condition, taken, other, on),
            CType::Int(_)
            | CType::ThreadId
            | CType::Mutex
            | CType::Cond
            | CType::Pointer(_)
            | CType::Array(_, _)
            | CType::Struct(_)
            | CType::Function { .. }
            | CType::Opaque(_) => { self.value_steps(e, condition, taken, other, on) }
        }
    }
}
