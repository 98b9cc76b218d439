//! The steps of `op=`, `++` and `--` (C99 6.5.2.4, 6.5.3.1, 6.5.16.2).
ghost use Rattle.std.specs.Prelude.{◌≡◌, ◌∷◌, ◌++◌, [], IfOk};
ghost use Rattle.lk_lower_expr.specs.Parts as parts;
ghost use Rattle.lk_lower_expr.specs.Reads.{names_by, part_by};
ghost use Rattle.lk_lower_expr.specs.Naming.{node_of};
ghost use Rattle.lk_lower_expr.specs.Values as rules;
ghost use Rattle.lk_typed.specs.declared.expression.Change.TheVariants.{After};

use crate::lowering::Lowering;
use crate::make::{alone, int_step, then};
use crate::step::Step;
use crate::value::is_pointer;
use lk_arith::Op;
use lk_base::{Kind, NoMemory};
use lk_facts::Action;
use lk_tree::StepOperator;
use lk_typed::TypedExpr;
use lk_types::TypeId;

/// The operator that `++` or `--` computes.
fn operator_of(operator: StepOperator) -> Op
    ensures { result ≡ rules.operator_of operator }
{
    match operator {
        StepOperator::Increment => Op::Add,
        StepOperator::Decrement => Op::Subtract,
    }
}

impl Lowering<'_> {
    /// The step that reads a place, first of others.
    fn read_first(&self, place: &TypedExpr, on: u32) -> Result<Vec<Step>, NoMemory>
        ensures { IfOk result (λ steps. steps.items ≡
            rules.reading (names_by self.now) (part_by self.now place.now) on ∷ []) }
    {
        alone(self.alloc, self.reading(place, on))
    }

    /// These steps, and behind them the one that converts a value to a type.
    fn with_converted(
        &self,
        steps: Vec<Step>,
        e: &TypedExpr,
        value: u32,
        ty: TypeId,
        on: u32,
    ) -> Result<Vec<Step>, NoMemory>
        ensures { IfOk result (λ longer. longer.items ≡
            steps.items ++ rules.converting (names_by self.now) (node_of e.now) value ty on ∷ []) }
    {
        let does = Action::Convert {
            a: value,
            ty: self.names.type_number(ty),
        };
        self.with_step(steps, does, self.value_type(ty), e.spot, on)
    }

    /// These steps, and behind them the one that computes an action of a type.
    fn with_computed(
        &self,
        steps: Vec<Step>,
        e: &TypedExpr,
        does: Action,
        ty: TypeId,
        on: u32,
    ) -> Result<Vec<Step>, NoMemory>
        ensures { IfOk result (λ longer. longer.items ≡
            steps.items ++ parts.step does (parts.value_of (names_by self.now) ty) e.now.spot on ∷ []) }
    {
        self.with_step(steps, does, self.value_type(ty), e.spot, on)
    }

    /// These steps, and behind them the one that writes a value into a place.
    fn with_written(
        &self,
        steps: Vec<Step>,
        place: &TypedExpr,
        value: u32,
        on: u32,
    ) -> Result<Vec<Step>, NoMemory>
        ensures { IfOk result (λ longer. longer.items ≡
            steps.items ++ rules.writing (names_by self.now) (part_by self.now place.now) value on ∷ []) }
    {
        then(steps, self.writing(place, value, on))
    }

    /// These steps, and behind them the one that gives 1.
    fn with_one(&self, steps: Vec<Step>, e: &TypedExpr, on: u32) -> Result<Vec<Step>, NoMemory>
        ensures { IfOk result (λ longer. longer.items ≡
            steps.items ++ rules.one_of (names_by self.now) (node_of e.now) on ∷ []) }
    {
        then(steps, int_step(self.alloc, e, 1, on))
    }

    /// The steps of `place op= value`, where the place has the type in which it is computed.
    fn alike_steps(
        &self,
        e: &TypedExpr,
        op: Op,
        place: &TypedExpr,
        value: &TypedExpr,
        ty: TypeId,
        on: u32,
    ) -> Result<Vec<Step>, NoMemory>
        ensures { IfOk result (λ steps.
            steps.items ≡ (rules.compound_alike (names_by self.now) (node_of e.now) op
            (part_by self.now place.now) (part_by self.now value.now) ty).steps on) }
    {
        let node = e.ordinal;
        let begins = self.first_of(value)?;
        let b = self.value_of(value)?;
        let steps = self.read_first(place, begins)?;
        let a = self.names.at(node, 0);
        let does = Action::Binary { op, a, b };
        let steps = self.with_computed(steps, e, does, ty, self.names.at(node, 2))?;
        self.with_written(steps, place, self.names.at(node, 1), on)
    }

    /// The steps of `place op= value`, where the place is converted to the type in
    /// which it is computed and back.
    #[tactic(auto, using(crate::proofs::Nodes::stands_at))]
    fn converted_steps(
        &self,
        e: &TypedExpr,
        op: Op,
        place: &TypedExpr,
        value: &TypedExpr,
        ty: TypeId,
        on: u32,
    ) -> Result<Vec<Step>, NoMemory>
        ensures { IfOk result (λ steps.
            steps.items ≡ (rules.compound_converted (names_by self.now) (node_of e.now) op
            (part_by self.now place.now) (part_by self.now value.now) ty).steps on) }
    {
        let node = e.ordinal;
        let begins = self.first_of(value)?;
        let b = self.value_of(value)?;
        let steps = self.read_first(place, begins)?;
        let read = self.names.at(node, 0);
        let steps = self.with_converted(steps, e, read, ty, self.names.at(node, 2))?;
        let a = self.names.at(node, 1);
        let does = Action::Binary { op, a, b };
        let steps = self.with_computed(steps, e, does, ty, self.names.at(node, 3))?;
        let computed = self.names.at(node, 2);
        let steps = self.with_converted(steps, e, computed, place.ty, self.names.at(node, 4))?;
        self.with_written(steps, place, self.names.at(node, 3), on)
    }

    /// The steps of `place op= value`.
    #[tactic(auto, using(crate::proofs::Chosen::type_of), unfolding(crate::specs::Values::compound_part))]
    pub(crate) fn compound_steps(
        &self,
        e: &TypedExpr,
        op: Op,
        place: &TypedExpr,
        value: &TypedExpr,
        ty: TypeId,
        on: u32,
    ) -> Result<Vec<Step>, NoMemory>
        ensures { IfOk result (λ steps.
            steps.items ≡ (rules.compound_part (names_by self.now) (node_of e.now) op
            (part_by self.now place.now) (part_by self.now value.now) ty).steps on) }
    {
        if place.ty == ty {
            self.alike_steps(e, op, place, value, ty, on)
        } else {
            self.converted_steps(e, op, place, value, ty, on)
        }
    }

    /// The steps of `++` and `--` of a place of pointers or of int.
    #[tactic(auto, using(crate::proofs::Nodes::stands_at))]
    fn plain_steps(
        &self,
        e: &TypedExpr,
        op: Op,
        place: &TypedExpr,
        ty: TypeId,
        on: u32,
    ) -> Result<Vec<Step>, NoMemory>
        ensures { IfOk result (λ steps.
            steps.items ≡ (rules.step_plain (names_by self.now) (node_of e.now) op After
            (part_by self.now place.now) ty).steps on) }
    {
        let node = e.ordinal;
        let steps = self.read_first(place, self.names.at(node, 1))?;
        let steps = self.with_one(steps, e, self.names.at(node, 2))?;
        let does = Action::Binary {
            op,
            a: self.names.at(node, 0),
            b: self.names.at(node, 1),
        };
        let steps = self.with_computed(steps, e, does, ty, self.names.at(node, 3))?;
        self.with_written(steps, place, self.names.at(node, 2), on)
    }

    /// The steps of `++` and `--` of a place of integers that rank above int: the 1 is converted.
    #[tactic(auto, using(crate::proofs::Nodes::stands_at))]
    fn wide_steps(
        &self,
        e: &TypedExpr,
        op: Op,
        place: &TypedExpr,
        ty: TypeId,
        on: u32,
    ) -> Result<Vec<Step>, NoMemory>
        ensures { IfOk result (λ steps.
            steps.items ≡ (rules.step_wide (names_by self.now) (node_of e.now) op After
            (part_by self.now place.now) ty).steps on) }
    {
        let node = e.ordinal;
        let steps = self.read_first(place, self.names.at(node, 1))?;
        let steps = self.with_one(steps, e, self.names.at(node, 2))?;
        let one = self.names.at(node, 1);
        let steps = self.with_converted(steps, e, one, ty, self.names.at(node, 3))?;
        let does = Action::Binary {
            op,
            a: self.names.at(node, 0),
            b: self.names.at(node, 2),
        };
        let steps = self.with_computed(steps, e, does, ty, self.names.at(node, 4))?;
        self.with_written(steps, place, self.names.at(node, 3), on)
    }

    /// The steps of `++` and `--` of a place of integers that rank below int: it
    /// is converted to int and back.
    #[tactic(auto, using(crate::proofs::Nodes::stands_at))]
    fn narrow_steps(
        &self,
        e: &TypedExpr,
        op: Op,
        place: &TypedExpr,
        ty: TypeId,
        on: u32,
    ) -> Result<Vec<Step>, NoMemory>
        ensures { IfOk result (λ steps.
            steps.items ≡ (rules.step_narrow (names_by self.now) (node_of e.now) op After
            (part_by self.now place.now) ty).steps on) }
    {
        let node = e.ordinal;
        let steps = self.read_first(place, self.names.at(node, 1))?;
        let steps = self.with_one(steps, e, self.names.at(node, 2))?;
        let read = self.names.at(node, 0);
        let steps = self.with_converted(steps, e, read, ty, self.names.at(node, 3))?;
        let does = Action::Binary {
            op,
            a: self.names.at(node, 2),
            b: self.names.at(node, 1),
        };
        let steps = self.with_computed(steps, e, does, ty, self.names.at(node, 4))?;
        let computed = self.names.at(node, 3);
        let steps = self.with_converted(steps, e, computed, place.ty, self.names.at(node, 5))?;
        self.with_written(steps, place, self.names.at(node, 4), on)
    }

    /// The steps of `++` and `--`.
    #[tactic(auto, using(crate::proofs::Chosen::type_of), unfolding(crate::specs::Values::step_part))]
    pub(crate) fn change_steps(
        &self,
        e: &TypedExpr,
        operator: StepOperator,
        place: &TypedExpr,
        ty: TypeId,
        on: u32,
    ) -> Result<Vec<Step>, NoMemory>
        ensures { IfOk result (λ steps.
            steps.items ≡ (rules.step_part (names_by self.now) (node_of e.now) operator After
            (part_by self.now place.now) ty).steps on) }
    {
        let op = operator_of(operator);
        if place.ty != ty {
            return self.narrow_steps(e, op, place, ty, on);
        }
        if is_pointer(self.table, ty) || ty == TypeId::of_kind(Kind::Int) {
            return self.plain_steps(e, op, place, ty, on);
        }
        self.wide_steps(e, op, place, ty, on)
    }
}
