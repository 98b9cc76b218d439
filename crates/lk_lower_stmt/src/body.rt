//! The definition of a function (C99 6.9.1).
ghost use Rattle.std.specs.Prelude.{◌≡◌, ◌∷◌, [], IfOk, OnOk, None};
ghost use Rattle.lk_facts.specs.declared.action.Action.TheVariants as does;
ghost use Rattle.lk_lower_expr.specs.Laid.{laid};
ghost use Rattle.lk_lower_expr.specs.Parts as parts;
ghost use Rattle.lk_lower_expr.specs.Reads.{names_by};
ghost use Rattle.lk_lower_expr.specs.Statements as rules;

use crate::cells::Cells;
use crate::lowering::{BodyLowering, Lowered};
use crate::make::step;
use lk_base::{NoMemory, Seq, Spot};
use lk_facts::Action;
use lk_lower_expr::{Goals, Step, lay};
use lk_typed::Body;
use std::alloc::Global;

/// The steps of a body of its own: its entry, the Return of its end, and its exit.
fn own_steps(alloc: Global, spot: Spot, first: u32, exit: u32) -> Result<Vec<Step>, NoMemory>
    ensures { IfOk result (λ steps. steps.items ≡ rules.skip spot first ∷
        parts.step (does.Return None) None spot exit ∷
        record { does = does.Skip; gives = None; next = []; spot = spot } ∷ []) }
{
    let entry = step(alloc, Action::Skip, spot, first)?;
    let mut steps = vec![in alloc; entry]?;
    steps.push(step(alloc, Action::Return(None), spot, exit)?)?;
    steps.push(Step {
        does: Action::Skip,
        gives: None,
        next: Seq::new(Vec::new(alloc)),
        spot,
    })?;
    Ok(steps)
}

impl<C: Cells> BodyLowering<'_, C> {
    /// Adds the steps of the definition of a function: those of its block, and those of its own.
    ///
    /// `Err` comes for want of memory.
    pub fn push_body(&self, body: &Body, out: &mut Lowered) -> Result<(), NoMemory>
        ensures { OnOk result (out.new.steps.items ≡ laid (rules.body_walk (names_by self.now.source)
            (C.places self.now.cells.now) body.now.ordinal body.now.spot body.now.block)
            out.old.steps.items) }
    {
        let end = self.source.names.at(body.ordinal, 1);
        let exit = self.source.names.at(body.ordinal, 2);
        let go = Goals {
            next: end,
            breaks: end,
            continues: end,
            exit,
        };
        let first = self.push_statement(&body.block, go, out)?;
        let own = own_steps(self.source.alloc, body.spot, first, exit)?;
        lay(body.ordinal, own, &mut out.steps)
    }
}
