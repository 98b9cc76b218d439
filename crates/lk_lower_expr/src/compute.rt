//! The one step of a form that computes one value (C99 6.5.1 to 6.5.14).
ghost use Rattle.std.specs.Prelude.{◌≡◌, IfOk};
ghost use Rattle.lk_lower_expr.specs.Reads.{names_by, part_by};
ghost use Rattle.lk_lower_expr.specs.Naming.{node_of};
ghost use Rattle.lk_lower_expr.specs.Values as rules;

use crate::lowering::Lowering;
use crate::make::one_step;
use crate::step::Step;
use lk_arith::{Op, UnaryOp};
use lk_base::NoMemory;
use lk_facts::Action;
use lk_typed::{Storage, TypedExpr};

impl Lowering<'_> {
    /// The step of the name of an object that is no slot.
    fn object_steps(&self, e: &TypedExpr, storage: Storage, on: u32) -> Result<Vec<Step>, NoMemory>
        ensures { IfOk result (λ steps.
            steps.items ≡ (rules.object_part (names_by self.now) (node_of e.now) storage).steps on) }
    {
        let does = Action::Root(self.names.object_number(storage));
        one_step(
            self.alloc,
            does,
            Some(self.names.pointer_number(e.ty)),
            e.spot,
            on,
        )
    }

    /// The steps of a name: a slot has none.
    pub(crate) fn name_steps(
        &self,
        e: &TypedExpr,
        storage: Storage,
        on: u32,
    ) -> Result<Vec<Step>, NoMemory>
        ensures { IfOk result (λ steps.
            steps.items ≡ (rules.name_part (names_by self.now) (node_of e.now) storage).steps on) }
    {
        match self.names.slot(storage) {
            None => self.object_steps(e, storage, on),
            Some(_) => Ok(Vec::new(self.alloc)),
        }
    }

    /// The step of a string literal.
    pub(crate) fn text_steps(&self, e: &TypedExpr, on: u32) -> Result<Vec<Step>, NoMemory>
        ensures { IfOk result (λ steps.
            steps.items ≡ (rules.text_part (names_by self.now) (node_of e.now)).steps on) }
    {
        let does = Action::Text(self.names.node_number(e.ordinal));
        one_step(
            self.alloc,
            does,
            Some(self.names.pointer_number(e.ty)),
            e.spot,
            on,
        )
    }

    /// The step of `place.member` and of `pointer->member`.
    pub(crate) fn member_steps(
        &self,
        e: &TypedExpr,
        inner: &TypedExpr,
        member: u32,
        on: u32,
    ) -> Result<Vec<Step>, NoMemory>
        ensures { IfOk result (λ steps.
            steps.items ≡ (rules.member_part (names_by self.now) (node_of e.now)
            (part_by self.now inner.now) member).steps on) }
    {
        let a = self.value_of(inner)?;
        let does = Action::Field { a, member };
        one_step(
            self.alloc,
            does,
            Some(self.names.pointer_number(e.ty)),
            e.spot,
            on,
        )
    }

    /// The step of `pointer[index]`.
    pub(crate) fn index_steps(
        &self,
        e: &TypedExpr,
        pointer: &TypedExpr,
        index: &TypedExpr,
        on: u32,
    ) -> Result<Vec<Step>, NoMemory>
        ensures { IfOk result (λ steps.
            steps.items ≡ (rules.index_part (names_by self.now) (node_of e.now)
            (part_by self.now pointer.now) (part_by self.now index.now)).steps on) }
    {
        let a = self.value_of(pointer)?;
        let b = self.value_of(index)?;
        let does = Action::Index { a, b, into: false };
        one_step(
            self.alloc,
            does,
            Some(self.names.pointer_number(e.ty)),
            e.spot,
            on,
        )
    }

    /// The step of a number.
    pub(crate) fn number_steps(
        &self,
        e: &TypedExpr,
        number: i128,
        on: u32,
    ) -> Result<Vec<Step>, NoMemory>
        ensures { IfOk result (λ steps.
            steps.items ≡ (rules.number_part (names_by self.now) (node_of e.now) number).steps on) }
    {
        let does = Action::Value {
            number,
            ty: self.names.type_number(e.ty),
        };
        one_step(self.alloc, does, self.value_type(e.ty), e.spot, on)
    }

    /// The step of the name of a function.
    pub(crate) fn function_steps(
        &self,
        e: &TypedExpr,
        entity: u32,
        on: u32,
    ) -> Result<Vec<Step>, NoMemory>
        ensures { IfOk result (λ steps. steps.items
            ≡ (rules.function_part (names_by self.now) (node_of e.now) entity).steps on) }
    {
        let does = Action::Func {
            function: self.names.function_number(entity),
        };
        one_step(self.alloc, does, self.value_type(e.ty), e.spot, on)
    }

    /// The step of a null pointer constant.
    pub(crate) fn null_steps(&self, e: &TypedExpr, on: u32) -> Result<Vec<Step>, NoMemory>
        ensures { IfOk result (λ steps.
            steps.items ≡ (rules.null_part (names_by self.now) (node_of e.now)).steps on) }
    {
        let does = Action::Null {
            ty: self.names.type_number(e.ty),
        };
        one_step(self.alloc, does, self.value_type(e.ty), e.spot, on)
    }

    /// The step of an operator before its operand.
    pub(crate) fn unary_steps(
        &self,
        e: &TypedExpr,
        op: UnaryOp,
        inner: &TypedExpr,
        on: u32,
    ) -> Result<Vec<Step>, NoMemory>
        ensures { IfOk result (λ steps.
            steps.items ≡ (rules.unary_part (names_by self.now) (node_of e.now) op
            (part_by self.now inner.now)).steps on) }
    {
        let a = self.value_of(inner)?;
        let does = Action::Unary { op, a };
        one_step(self.alloc, does, self.value_type(e.ty), e.spot, on)
    }

    /// The step of an operator between two operands.
    pub(crate) fn binary_steps(
        &self,
        e: &TypedExpr,
        op: Op,
        left: &TypedExpr,
        right: &TypedExpr,
        on: u32,
    ) -> Result<Vec<Step>, NoMemory>
        ensures { IfOk result (λ steps.
            steps.items ≡ (rules.binary_part (names_by self.now) (node_of e.now) op
            (part_by self.now left.now) (part_by self.now right.now)).steps on) }
    {
        let a = self.value_of(left)?;
        let b = self.value_of(right)?;
        let does = Action::Binary { op, a, b };
        one_step(self.alloc, does, self.value_type(e.ty), e.spot, on)
    }
}
