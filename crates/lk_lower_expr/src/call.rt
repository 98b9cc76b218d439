//! The step of a call of a function (C99 6.5.2.2).
ghost use Rattle.std.specs.Prelude.{◌≡◌, map, IfOk};
ghost use Rattle.lk_lower_expr.specs.Expressions.{callee_part};
ghost use Rattle.lk_lower_expr.specs.Library as calls;
ghost use Rattle.lk_lower_expr.specs.Reads.{names_by, part_by};
ghost use Rattle.lk_lower_expr.specs.Naming.{node_of};
ghost use Rattle.lk_lower_expr.specs.Parts as parts;

use crate::lowering::Lowering;
use crate::make::one_step;
use crate::step::Step;
use lk_base::{NoMemory, Seq};
use lk_facts::Action;
use lk_typed::{Callee, TypedExpr};

impl Lowering<'_> {
    /// The points that give the values of operands.
    pub(crate) fn values_of(&self, operands: &[TypedExpr]) -> Result<Seq<u32>, NoMemory>
        ensures { IfOk result (λ points. points ≡ parts.values (map (part_by self.now) operands.now)) }
    {
        let mut values = Vec::new(self.alloc);
        for operand in operands {
            values.push(self.value_of(operand)?)?;
        }
        Ok(Seq::new(values))
    }

    /// The step of a call of a function of the program.
    #[tactic(auto, unfolding(crate::specs::Expressions::callee_part))]
    pub(crate) fn call_steps(
        &self,
        e: &TypedExpr,
        callee: &Callee,
        operands: &[TypedExpr],
        on: u32,
    ) -> Result<Vec<Step>, NoMemory>
        ensures { IfOk result (λ steps.
            steps.items ≡ (calls.call_part (names_by self.now) (node_of e.now)
            (callee_part (names_by self.now) callee.now)
            (map (part_by self.now) operands.now)).steps on) }
    {
        let args = self.values_of(operands)?;
        let gives = self.value_type(e.ty);
        match callee {
            Callee::Function(entity) => {
                let function = self.names.function_number(*entity);
                one_step(
                    self.alloc,
                    Action::Call { function, args },
                    gives,
                    e.spot,
                    on,
                )
            }
            Callee::Pointer(function) => {
                let a = self.value_of(function.get())?;
                one_step(
                    self.alloc,
                    Action::PointerCall { a, args },
                    gives,
                    e.spot,
                    on,
                )
            }
        }
    }

    /// The step of a call that touches nothing.
    pub(crate) fn compute_steps(
        &self,
        e: &TypedExpr,
        operands: &[TypedExpr],
        on: u32,
    ) -> Result<Vec<Step>, NoMemory>
        ensures { IfOk result (λ steps.
            steps.items ≡ (calls.compute_part (names_by self.now) (node_of e.now)
            (map (part_by self.now) operands.now)).steps on) }
    {
        let does = Action::Compute {
            args: self.values_of(operands)?,
            ty: self.names.type_number(e.ty),
            equal: false,
        };
        one_step(self.alloc, does, self.value_type(e.ty), e.spot, on)
    }

    /// The step of a call of a function that `--externs` names: of the function where a source defines it.
    pub(crate) fn extern_steps(
        &self,
        e: &TypedExpr,
        entity: u32,
        operands: &[TypedExpr],
        on: u32,
    ) -> Result<Vec<Step>, NoMemory>
        ensures { IfOk result (λ steps.
            steps.items ≡ (calls.extern_part (names_by self.now) (node_of e.now) entity
            (map (part_by self.now) operands.now)).steps on) }
    {
        if !self.names.is_defined(entity) {
            return self.compute_steps(e, operands, on);
        }
        let function = self.names.function_number(entity);
        let args = self.values_of(operands)?;
        let gives = self.value_type(e.ty);
        one_step(
            self.alloc,
            Action::Call { function, args },
            gives,
            e.spot,
            on,
        )
    }
}
