//! The steps of assignments (C99 6.5.16, 6.5.2.4, 6.5.3.1).
ghost use Rattle.std.specs.Prelude.{◌≡◌, IfOk};
ghost use Rattle.lk_lower_expr.specs.Reads.{names_by, part_by};
ghost use Rattle.lk_lower_expr.specs.Naming.{node_of};
ghost use Rattle.lk_lower_expr.specs.Values as rules;

use crate::lowering::Lowering;
use crate::make::{alone, step};
use crate::step::Step;
use lk_base::NoMemory;
use lk_typed::TypedExpr;

impl Lowering<'_> {
    /// The step that reads a place.
    #[tactic(auto, using(crate::proofs::Nodes::stands_at))]
    pub(crate) fn reading(&self, place: &TypedExpr, on: u32) -> Result<Step, NoMemory>
        ensures { IfOk result (λ is.
            is ≡ rules.reading (names_by self.now) (part_by self.now place.now) on) }
    {
        let does = self.read_of(place)?;
        step(self.alloc, does, self.value_type(place.ty), place.spot, on)
    }

    /// The step that writes a value into a place.
    #[tactic(auto, using(crate::proofs::Nodes::stands_at))]
    pub(crate) fn writing(&self, place: &TypedExpr, value: u32, on: u32) -> Result<Step, NoMemory>
        ensures { IfOk result (λ is. is
            ≡ rules.writing (names_by self.now) (part_by self.now place.now) value on) }
    {
        let does = self.write_of(place, value)?;
        step(self.alloc, does, None, place.spot, on)
    }

    /// The steps of `place = value`.
    pub(crate) fn assign_steps(
        &self,
        e: &TypedExpr,
        place: &TypedExpr,
        value: &TypedExpr,
        on: u32,
    ) -> Result<Vec<Step>, NoMemory>
        ensures { IfOk result (λ steps.
            steps.items ≡ (rules.assign_part (names_by self.now) (node_of e.now)
            (part_by self.now place.now) (part_by self.now value.now)).steps on) }
    {
        let value = self.value_of(value)?;
        alone(self.alloc, self.writing(place, value, on))
    }
}
