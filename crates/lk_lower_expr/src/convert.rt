//! The steps that read a place or convert a value, behind those that it has at the node (C99 6.3).
ghost use Rattle.std.specs.Prelude.{◌≡◌, true, IfOk};
ghost use Rattle.lk_facts.specs.declared.action.Action.TheVariants as does;
ghost use Rattle.lk_lower_expr.specs.Reads.{names_by, part_by};
ghost use Rattle.lk_lower_expr.specs.Parts as parts;

use crate::lowering::Lowering;
use crate::make::step;
use crate::step::Step;
use lk_base::NoMemory;
use lk_facts::Action;
use lk_typed::TypedExpr;

impl Lowering<'_> {
    /// The step that gives the value of a place.
    pub(crate) fn load_step(
        &self,
        e: &TypedExpr,
        place: &TypedExpr,
        on: u32,
    ) -> Result<Step, NoMemory>
        ensures { IfOk result (λ is. is ≡ parts.step
            (parts.reads (names_by self.now) (part_by self.now place.now).slot
            (part_by self.now place.now).value)
            (parts.value_of (names_by self.now) e.now.ty) e.now.spot on) }
    {
        let does = self.read_of(place)?;
        step(self.alloc, does, self.value_type(e.ty), e.spot, on)
    }

    /// The step that converts a value.
    pub(crate) fn convert_step(
        &self,
        e: &TypedExpr,
        value: &TypedExpr,
        on: u32,
    ) -> Result<Step, NoMemory>
        ensures { IfOk result (λ is. is ≡ parts.step
            (does.Convert (part_by self.now value.now).value
            ((names_by self.now).type e.now.ty))
            (parts.value_of (names_by self.now) e.now.ty) e.now.spot on) }
    {
        let does = Action::Convert {
            a: self.value_of(value)?,
            ty: self.names.type_number(e.ty),
        };
        step(self.alloc, does, self.value_type(e.ty), e.spot, on)
    }

    /// The step that gives the pointer to the first element of an array, by the point that gives the index 0.
    pub(crate) fn element_step(
        &self,
        e: &TypedExpr,
        array: &TypedExpr,
        zero: u32,
        on: u32,
    ) -> Result<Step, NoMemory>
        ensures { IfOk result (λ is.
            is ≡ parts.step (does.Index (part_by self.now array.now).value zero true)
            (parts.value_of (names_by self.now) e.now.ty) e.now.spot on) }
    {
        let does = Action::Index {
            a: self.value_of(array)?,
            b: zero,
            into: true,
        };
        step(self.alloc, does, self.value_type(e.ty), e.spot, on)
    }
}
