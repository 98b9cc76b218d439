//! What the steps of expressions are made of.
ghost use Rattle.std.specs.Prelude.{◌≡◌, ◌∷◌, ◌++◌, [], IfOk, IsOkAnd, Some};
ghost use Rattle.lk_base.specs.declared.kind.Kind.TheVariants.{Int as IntKind};
ghost use Rattle.lk_facts.specs.declared.action.Action.TheVariants as does;
ghost use Rattle.lk_lower_expr.specs.Reads.{names_by, part_by};
ghost use Rattle.lk_lower_expr.specs.Parts as parts;
ghost use Rattle.lk_types.specs.Predeclared.{kind_id};

use crate::lowering::Lowering;
use crate::step::Step;
use lk_base::{Kind, NoMemory, Seq, Spot};
use lk_facts::Action;
use lk_typed::TypedExpr;
use lk_types::{CType, TypeId};
use std::alloc::Global;

/// A list of one item, where that is there. It is generic, so that steps are let go in one place.
pub(crate) fn alone<T: Drop>(alloc: Global, item: Result<T, NoMemory>) -> Result<Vec<T>, NoMemory>
    ensures { IfOk result (λ list. IsOkAnd item (λ item. list.items ≡ item ∷ [])) }
{
    let item = item?;
    let mut list = Vec::new(alloc);
    list.push(item)?;
    Ok(list)
}

/// A list with one more item behind it, where that is there.
pub(crate) fn then<T: Drop>(list: Vec<T>, item: Result<T, NoMemory>) -> Result<Vec<T>, NoMemory>
    ensures { IfOk result (λ longer. IsOkAnd item (λ item. longer.items ≡ list.items ++ item ∷ [])) }
{
    let item = item?;
    let mut longer = list;
    longer.push(item)?;
    Ok(longer)
}

/// A step after which control goes on at one point.
pub(crate) fn step(
    alloc: Global,
    does: Action,
    gives: Option<TypeId>,
    spot: Spot,
    on: u32,
) -> Result<Step, NoMemory>
    ensures { IfOk result (λ is. is ≡ parts.step does gives spot on) }
{
    Ok(Step {
        does,
        gives,
        next: Seq::new(vec![in alloc; on]?),
        spot,
    })
}

/// The only step of a node.
pub(crate) fn one_step(
    alloc: Global,
    does: Action,
    gives: Option<TypeId>,
    spot: Spot,
    on: u32,
) -> Result<Vec<Step>, NoMemory>
    ensures { IfOk result (λ steps. steps.items ≡ parts.step does gives spot on ∷ []) }
{
    alone(alloc, step(alloc, does, gives, spot, on))
}

/// The step that gives a number of type int.
pub(crate) fn int_step(
    alloc: Global,
    e: &TypedExpr,
    number: i128,
    on: u32,
) -> Result<Step, NoMemory>
    ensures { IfOk result (λ is.
        is ≡ parts.step (does.Value number (kind_id IntKind)) (Some (kind_id IntKind)) e.now.spot on) }
{
    let int = TypeId::of_kind(Kind::Int);
    let does = Action::Value { number, ty: int };
    step(alloc, does, Some(int), e.spot, on)
}

impl Lowering<'_> {
    /// These steps, and behind them one after which control goes on at one point.
    pub(crate) fn with_step(
        &self,
        steps: Vec<Step>,
        does: Action,
        gives: Option<TypeId>,
        spot: Spot,
        on: u32,
    ) -> Result<Vec<Step>, NoMemory>
        ensures { IfOk result (λ longer.
            longer.items ≡ steps.items ++ parts.step does gives spot on ∷ []) }
    {
        then(steps, step(self.alloc, does, gives, spot, on))
    }

    /// The type of a value: void has none.
    pub fn value_type(&self, ty: TypeId) -> Option<TypeId>
        ensures { result ≡ parts.value_of (names_by self.now) ty }
    {
        if ty.0 >= self.table.count() {
            return None;
        }
        match self.table.get(ty) {
            CType::Void => None,
            CType::Int(_)
            | CType::ThreadId
            | CType::Mutex
            | CType::Cond
            | CType::Pointer(_)
            | CType::Array(_, _)
            | CType::Struct(_)
            | CType::Function { .. }
            | CType::Opaque(_) => Some(self.names.type_number(ty)),
        }
    }

    /// What reads a place.
    pub(crate) fn read_of(&self, place: &TypedExpr) -> Result<Action, NoMemory>
        ensures { IfOk result (λ does. does ≡ parts.reads (names_by self.now)
            (part_by self.now place.now).slot (part_by self.now place.now).value) }
    {
        match self.slot_of(place) {
            None => Ok(Action::Read {
                a: self.value_of(place)?,
                raw: false,
            }),
            Some(slot) => Ok(Action::SlotRead(slot)),
        }
    }

    /// What writes a value into a place.
    pub(crate) fn write_of(&self, place: &TypedExpr, value: u32) -> Result<Action, NoMemory>
        ensures { IfOk result (λ does. does ≡ parts.writes (names_by self.now)
            (part_by self.now place.now).slot (part_by self.now place.now).value value) }
    {
        match self.slot_of(place) {
            None => Ok(Action::Write {
                a: self.value_of(place)?,
                b: value,
                raw: false,
            }),
            Some(slot) => Ok(Action::SlotWrite { slot, a: value }),
        }
    }
}
