//! The steps of an expression's own node.
ghost use Rattle.std.specs.Prelude.{◌≡◌, IfOk};
ghost use Rattle.lk_lower_expr.specs.Naming.{node_of};
ghost use Rattle.lk_lower_expr.specs.Parts.{standing_at};
ghost use Rattle.lk_lower_expr.specs.Reads.{names_by, part_by};
ghost use Rattle.lk_lower_expr.specs.Values as rules;

use crate::lowering::Lowering;
use crate::make::{int_step, then};
use crate::step::Step;
use lk_base::NoMemory;
use lk_typed::{TypedExpr, TypedForm};

impl Lowering<'_> {
    /// The steps of the node of an expression, in their order, where control goes on at a point behind it. A
    /// slot has none until it is read or written.
    ///
    /// `Err` comes for want of memory.
    #[cycle(owns)]
    #[tactic(auto, unfolding(crate::specs::Expressions::part))]
    pub fn own_steps(&self, e: &TypedExpr, on: u32) -> Result<Vec<Step>, NoMemory>
        ensures { IfOk result (λ steps. steps.items ≡ (part_by self.now e.now).steps on) }
    {
        match &e.form {
            TypedForm::Object(storage) => self.name_steps(e, *storage, on),
            TypedForm::Text(_) => self.text_steps(e, on),
            TypedForm::Member(a, k) => self.member_steps(e, a.get(), *k, on),
            TypedForm::Arrow(a, k) => self.member_steps(e, a.get(), *k, on),
            TypedForm::Index(a, b) => self.index_steps(e, a.get(), b.get(), on),
            TypedForm::Number(number) => self.number_steps(e, *number, on),
            TypedForm::Size(count) => self.number_steps(e, i128::from(*count), on),
            TypedForm::Function(entity) => self.function_steps(e, *entity, on),
            TypedForm::Null => self.null_steps(e, on),
            TypedForm::Unary(op, a) => self.unary_steps(e, *op, a.get(), on),
            TypedForm::Binary(op, a, b) => self.binary_steps(e, *op, a.get(), b.get(), on),
            TypedForm::And(a, b) => self.and_steps(e, a.get(), b.get(), on),
            TypedForm::Or(a, b) => self.or_steps(e, a.get(), b.get(), on),
            TypedForm::Choice(c, a, b) => self.choice_steps(e, c.get(), a.get(), b.get(), on),
            TypedForm::Assign(a, b) => self.assign_steps(e, a.get(), b.get(), on),
            TypedForm::Compound(op, a, b, ty) => {
                self.compound_steps(e, *op, a.get(), b.get(), *ty, on)
            }
            TypedForm::Step(operator, _, a, ty) => {
                self.change_steps(e, *operator, a.get(), *ty, on)
            }
            TypedForm::Call(callee, args) => self.call_steps(e, callee, args.list(), on),
            TypedForm::Library(call) => self.library_steps(e, call, on),
            TypedForm::Extern(entity, args) => self.extern_steps(e, *entity, args.list(), on),
            TypedForm::Paren(_) => Ok(Vec::new(self.alloc)),
            TypedForm::Indirection(_)
            | TypedForm::Address(_)
            | TypedForm::Comma(_, _)
            | TypedForm::Discard(_) => Ok(Vec::new(self.alloc)),
            TypedForm::Load(place) => self.load_steps(e, place.get(), on),
            TypedForm::Convert(value) => self.convert_steps(e, value.get(), on),
            TypedForm::Decay(array) => self.decay_steps(e, array.get(), on),
        }
    }

    /// The steps that a place or a value has at a node: those of its own where it stands there, and none
    /// where that is the node of a cast (C99 6.5.4).
    #[cycle(owns)]
    #[tactic(auto, using(crate::proofs::Nodes::stands_at))]
    fn steps_at(&self, node: u32, inner: &TypedExpr, on: u32) -> Result<Vec<Step>, NoMemory>
        ensures { IfOk result (λ steps. steps.items ≡ (standing_at node (part_by self.now inner.now)).steps on) }
    {
        if inner.ordinal == node {
            self.own_steps(inner, on)
        } else {
            Ok(Vec::new(self.alloc))
        }
    }

    /// The steps of a place, and then that of its value.
    #[cycle(owns)]
    fn load_steps(&self, e: &TypedExpr, place: &TypedExpr, on: u32) -> Result<Vec<Step>, NoMemory>
        ensures { IfOk result (λ steps. steps.items ≡
            (rules.load_part (names_by self.now) (node_of e.now) (part_by self.now place.now)).steps on) }
    {
        let own = self.behind(e.ordinal, place, 0)?;
        let steps = self.steps_at(e.ordinal, place, own)?;
        then(steps, self.load_step(e, place, on))
    }

    /// The steps of a value, and then that of its conversion.
    #[cycle(owns)]
    fn convert_steps(
        &self,
        e: &TypedExpr,
        value: &TypedExpr,
        on: u32,
    ) -> Result<Vec<Step>, NoMemory>
        ensures { IfOk result (λ steps. steps.items ≡
            (rules.convert_part (names_by self.now) (node_of e.now) (part_by self.now value.now)).steps on) }
    {
        let own = self.behind(e.ordinal, value, 0)?;
        let steps = self.steps_at(e.ordinal, value, own)?;
        then(steps, self.convert_step(e, value, on))
    }

    /// The steps of an array, and then those of the pointer to its first element.
    #[cycle(owns)]
    fn decay_steps(&self, e: &TypedExpr, array: &TypedExpr, on: u32) -> Result<Vec<Step>, NoMemory>
        ensures { IfOk result (λ steps. steps.items ≡
            (rules.decay_part (names_by self.now) (node_of e.now) (part_by self.now array.now)).steps on) }
    {
        let zero = self.behind(e.ordinal, array, 0)?;
        let own = self.behind(e.ordinal, array, 1)?;
        let steps = self.steps_at(e.ordinal, array, zero)?;
        let steps = then(steps, int_step(self.alloc, e, 0, own))?;
        then(steps, self.element_step(e, array, zero, on))
    }
}
