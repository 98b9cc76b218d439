//! The steps of the calls of the library that read texts (C99 7.19.6.1).
ghost use Rattle.std.specs.Prelude.{◌≡◌, ◌++◌, map, IfOk, OnOk};
ghost use Rattle.lk_lower_expr.specs.Counts.{on_by};
ghost use Rattle.lk_lower_expr.specs.Library as calls;
ghost use Rattle.lk_lower_expr.specs.Reads.{names_by, part_by};
ghost use Rattle.lk_lower_expr.specs.Naming.{at_of, node_of};

use crate::lowering::Lowering;
use crate::make::{alone, step};
use crate::step::Step;
use crate::value::{is_text, text_count, with_more};
use lk_base::NoMemory;
use lk_facts::Action;
use lk_typed::TypedExpr;
use lk_types::TypeId;

impl Lowering<'_> {
    /// The step of a read of a text, at the operand that points to it.
    #[tactic(auto, using(crate::proofs::Nodes::stands_at))]
    fn scan_step(&self, text: &TypedExpr, gives: Option<TypeId>, on: u32) -> Result<Step, NoMemory>
        ensures { IfOk result (λ is.
            is ≡ calls.scan (names_by self.now) (part_by self.now text.now) gives on) }
    {
        let does = Action::Scan(self.value_of(text)?);
        step(self.alloc, does, gives, text.spot, on)
    }

    /// The step of a call that reads one text.
    pub(crate) fn scan_steps(
        &self,
        e: &TypedExpr,
        text: &TypedExpr,
        on: u32,
    ) -> Result<Vec<Step>, NoMemory>
        ensures { IfOk result (λ steps.
            steps.items ≡ (calls.scan_part (names_by self.now) (node_of e.now)
            (part_by self.now text.now)).steps on) }
    {
        let gives = self.value_type(e.ty);
        alone(self.alloc, self.scan_step(text, gives, on))
    }

    /// Where control goes on before the step `k` of a call that reads that many texts more.
    fn text_point(&self, node: u32, k: u32, left: u32, on: u32) -> Result<u32, NoMemory>
        ensures { IfOk result (λ point. point ≡ on_by left (at_of self.now.names.now node k) on) }
    {
        if left == 0 {
            return Ok(on);
        }
        if k >= 1 << 31 {
            return Err(NoMemory);
        }
        Ok(self.names.at(node, k))
    }

    /// Adds the reads of those operands of `printf` that are texts.
    fn push_scans(
        &self,
        e: &TypedExpr,
        operands: &[TypedExpr],
        on: u32,
        steps: &mut Vec<Step>,
    ) -> Result<(), NoMemory>
        ensures { OnOk result (steps.new.items ≡ steps.old.items ++
            calls.scans (names_by self.now) (node_of e.now) 1
            (calls.texts_of (names_by self.now) (map (part_by self.now) operands.now)) on) }
    {
        let mut left = text_count(self.table, operands)?;
        let mut k = 1;
        for operand in operands {
            if !is_text(self.table, operand.ty) {
                continue;
            }
            left -= 1;
            k = with_more(k, 1)?;
            let next = self.text_point(e.ordinal, k, left, on)?;
            steps.push(self.scan_step(operand, None, next)?)?;
        }
        Ok(())
    }

    /// The steps of `printf`: the format is read, and then each later operand of type `char *`.
    pub(crate) fn print_steps(
        &self,
        e: &TypedExpr,
        format: &TypedExpr,
        operands: &[TypedExpr],
        on: u32,
    ) -> Result<Vec<Step>, NoMemory>
        ensures { IfOk result (λ steps.
            steps.items ≡ (calls.print_part (names_by self.now) (node_of e.now)
            (part_by self.now format.now) (map (part_by self.now) operands.now)).steps on) }
    {
        let count = text_count(self.table, operands)?;
        let next = self.text_point(e.ordinal, 1, count, on)?;
        let gives = self.value_type(e.ty);
        let first = self.scan_step(format, gives, next)?;
        let mut steps = vec![in self.alloc; first]?;
        self.push_scans(e, operands, on, &mut steps)?;
        Ok(steps)
    }
}
