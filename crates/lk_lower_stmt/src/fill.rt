//! The cells of a declared object that its initialiser doesn't name (C99 6.7.8, 21).
ghost use Rattle.std.specs.Prelude.{◌≡◌, ◌++◌, length, None, OnOk, IfOk};
ghost use Rattle.lk_facts.specs.declared.action.Action.TheVariants as does;
ghost use Rattle.lk_lower_expr.specs.Initialisers as initialisers;
ghost use Rattle.lk_lower_expr.specs.Naming.{node_of_local};
ghost use Rattle.lk_lower_expr.specs.Reads.{names_by};

use crate::cells::Cells;
use crate::lowering::BodyLowering;
use crate::way::push_way;
use lk_base::{CellStep, NoMemory, Seq};
use lk_facts::Action;
use lk_lower_expr::{Deed, LocalNames};
use lk_typed::AbsentCells;
use std::alloc::Global;

/// The steps to cells, once more.
fn copied(alloc: Global, paths: &[Seq<CellStep>]) -> Result<Seq<Seq<CellStep>>, NoMemory>
    ensures { IfOk result (λ copies. copies ≡ paths.now) }
{
    let mut copies = Vec::new(alloc);
    for path in paths {
        copies.push(Seq::new(path.list().to_vec(alloc)?))?;
    }
    Ok(Seq::new(copies))
}

impl<C: Cells> BodyLowering<'_, C> {
    /// Adds the steps to the first of some cells, and the step that fills them.
    fn push_fill(
        &self,
        object: u32,
        local: &LocalNames,
        absent: &AbsentCells,
        deeds: &mut Vec<Deed>,
    ) -> Result<(), NoMemory>
        ensures deeds { OnOk result (deeds.new.items ≡ deeds.old.items ++
            initialisers.settled (names_by self.now.source) (node_of_local local.now) local.now.number
            (length deeds.old.items) absent.now.first None
            (λ pointer. does.Fill pointer (C.places self.now.cells.now object absent.now.first)
            absent.now.named)) }
        ensures past { OnOk result (length deeds.new.items ≡
            initialisers.past_part (length deeds.old.items) absent.now.first) }
    {
        let first = absent.first.list();
        let pointer = push_way(&self.source, local, first, deeds)?;
        let does = Action::Fill {
            a: self.source.names.at(local.ordinal, pointer),
            place: self.cells.place(object, first),
            named: copied(self.source.alloc, absent.named.list())?,
        };
        deeds.push(Deed {
            does,
            gives: None,
            comes: None,
        })?;
        Ok(())
    }

    /// Adds the steps of the cells of a local that its initialiser doesn't name, one after the other.
    pub(crate) fn push_fills(
        &self,
        object: u32,
        local: &LocalNames,
        absent: &[AbsentCells],
        deeds: &mut Vec<Deed>,
    ) -> Result<(), NoMemory>
        ensures { OnOk result (deeds.new.items ≡ deeds.old.items ++
            initialisers.fills_deeds (names_by self.now.source) (node_of_local local.now)
            (C.places self.now.cells.now object) local.now.number (length deeds.old.items) absent.now) }
    {
        for one in absent {
            self.push_fill(object, local, one, deeds)?;
        }
        Ok(())
    }
}
