//! Declarations of locals with a value (C99 6.7.8).
ghost use Rattle.lk_lower_expr.specs.Reads.{names_by, part_by};
ghost use Rattle.lk_lower_stmt.specs.Lays.{Adds};
ghost use Rattle.lk_lower_expr.specs.Statements as rules;

use crate::cells::Cells;
use crate::jump::push_expression;
use crate::lowering::BodyLowering;
use crate::make::step;
use crate::number::numbered;
use crate::part::push_parts;
use lk_base::NoMemory;
use lk_facts::Action;
use lk_lower_expr::{Goals, Lowering, NamedStep, lay};
use lk_typed::{AbsentCells, LocalInit, LocalPart, LocalValue, TypedExpr, TypedFirst};

/// Adds the steps of a slot's value, which is written at the slot's declared name.
fn push_slot(
    source: &Lowering<'_>,
    local: u32,
    slot: u32,
    e: &TypedExpr,
    go: Goals,
    steps: &mut Vec<NamedStep>,
) -> Result<u32, NoMemory>
    ensures { Adds (rules.slot_flow (names_by source.now) local slot (part_by source.now e.now)) go
        steps.old.items steps.new.items result }
{
    let node = source.names.local(local);
    source.push_steps(e, source.names.at(node.ordinal, 0), steps)?;
    let does = Action::SlotWrite {
        slot,
        a: source.value_of(e)?,
    };
    let is = step(source.alloc, does, node.spot, go.next)?;
    lay(node.ordinal, vec![in source.alloc; is]?, steps)?;
    source.first_of(e)
}

/// Adds the steps of a slot's initialiser: its one part is the whole of it, an expression.
fn push_whole(
    source: &Lowering<'_>,
    local: u32,
    slot: u32,
    named: &[LocalPart],
    go: Goals,
    steps: &mut Vec<NamedStep>,
) -> Result<u32, NoMemory>
    ensures { Adds (rules.whole_flow (names_by source.now) local slot named.now) go steps.old.items
        steps.new.items result }
{
    let Some(part) = named.first() else {
        return Ok(go.next);
    };
    match &part.value {
        LocalValue::Expr(e) => push_slot(source, local, slot, e, go, steps),
        LocalValue::Text(_, _, _) | LocalValue::Ready => Ok(go.next),
    }
}

impl<C: Cells> BodyLowering<'_, C> {
    /// Adds the steps of an object's initialiser: those of the parts that it names, and then those of
    /// the cells that it doesn't name.
    fn push_object(
        &self,
        object: u32,
        named: &[LocalPart],
        absent: &[AbsentCells],
        go: Goals,
        steps: &mut Vec<NamedStep>,
    ) -> Result<u32, NoMemory>
        ensures { Adds (rules.object_flow (names_by self.now.source) (C.places self.now.cells.now) object
            named.now absent.now) go steps.old.items steps.new.items result }
    {
        let local = self.source.names.local(object);
        let mut deeds = Vec::new(self.source.alloc);
        push_parts(&self.source, &local, named, &mut deeds, steps)?;
        self.push_fills(object, &local, absent, &mut deeds)?;
        let own = numbered(&self.source, &local, deeds, go.next)?;
        lay(local.ordinal, own, steps)?;
        Ok(self.source.names.at(local.ordinal, 0))
    }

    /// Adds the steps of a local's initialiser.
    fn push_init(
        &self,
        is: &LocalInit,
        go: Goals,
        steps: &mut Vec<NamedStep>,
    ) -> Result<u32, NoMemory>
        ensures { Adds (rules.init_flow (names_by self.now.source) (C.places self.now.cells.now) is.now) go
            steps.old.items steps.new.items result }
    {
        let local = is.local;
        let named = is.named.list();
        match self.source.names.local(local).slot() {
            None => {
                let absent = is.absent.list();
                self.push_object(local, named, absent, go, steps)
            }
            Some(slot) => push_whole(&self.source, local, slot, named, go, steps),
        }
    }

    /// Adds the steps of the initialisers of a declaration, one after the other.
    pub(crate) fn push_inits(
        &self,
        list: &[LocalInit],
        go: Goals,
        steps: &mut Vec<NamedStep>,
    ) -> Result<u32, NoMemory>
        ensures { Adds (rules.inits_flow (names_by self.now.source) (C.places self.now.cells.now) list.now)
            go steps.old.items steps.new.items result }
    {
        let mut next = go.next;
        for k in 0..list.len() {
            let local = &list[list.len() - 1 - k];
            next = self.push_init(local, go.to(next), steps)?;
        }
        Ok(next)
    }

    /// Adds the steps of the first part of a `for`.
    pub(crate) fn push_first(
        &self,
        first: &TypedFirst,
        go: Goals,
        steps: &mut Vec<NamedStep>,
    ) -> Result<u32, NoMemory>
        ensures { Adds (rules.first_flow (names_by self.now.source) (C.places self.now.cells.now) first.now)
            go steps.old.items steps.new.items result }
    {
        match first {
            TypedFirst::Expr(e) => push_expression(&self.source, e, go, steps),
            TypedFirst::Declare(list) => self.push_inits(list.list(), go, steps),
        }
    }
}
