//! Where an expression begins.
ghost use Rattle.std.specs.Prelude.{◌≡◌, IfOk, map};
ghost use Rattle.lk_lower_expr.specs.Expressions.{library_part};
ghost use Rattle.lk_lower_expr.specs.Counts as begun;
ghost use Rattle.lk_lower_expr.specs.Reads.{names_by, part_by};
ghost use Rattle.lk_lower_expr.specs.Naming.{at_of, node_of};
ghost use Rattle.lk_lower_expr.specs.Parts as parts;

use crate::lowering::Lowering;
use lk_base::NoMemory;
use lk_typed::{Callee, LibraryCall, TypedExpr, TypedForm};

impl Lowering<'_> {
    /// Where an expression begins that reads a place at once: with the place, but for a slot,
    /// which has no steps of its own.
    #[cycle(begins)]
    #[tactic(auto, unfolding(crate::specs::Expressions::part))]
    fn place_first(&self, place: &TypedExpr, node: u32) -> Result<u32, NoMemory>
        ensures { IfOk result (λ point. point
            ≡ begun.place_first (names_by self.now) (part_by self.now place.now) node) }
    {
        match self.slot_of(place) {
            None => self.first_of(place),
            Some(_) => Ok(self.names.at(node, 0)),
        }
    }

    /// Where the first of some operands begins; the first step of the node where there is none.
    #[cycle(begins)]
    #[tactic(auto, unfolding(crate::specs::Expressions::part))]
    pub(crate) fn operands_first(&self, operands: &[TypedExpr], node: u32) -> Result<u32, NoMemory>
        ensures { IfOk result (λ point.
            point ≡ parts.first_of (map (part_by self.now) operands.now) (at_of self.now.names.now node 0)) }
    {
        match operands.first() {
            None => Ok(self.names.at(node, 0)),
            Some(first) => self.first_of(first),
        }
    }

    /// The point at which an expression begins.
    #[cycle(begins)]
    #[tactic(auto, unfolding(crate::specs::Expressions::part))]
    pub fn first_of(&self, e: &TypedExpr) -> Result<u32, NoMemory>
        ensures { IfOk result (λ point. point ≡ (part_by self.now e.now).first) }
    {
        let node = e.ordinal;
        match &e.form {
            TypedForm::Load(inner)
            | TypedForm::Decay(inner)
            | TypedForm::Convert(inner)
            | TypedForm::Indirection(inner)
            | TypedForm::Address(inner)
            | TypedForm::Discard(inner) => self.first_of(inner.get()),
            TypedForm::Member(inner, _) | TypedForm::Arrow(inner, _) => self.first_of(inner.get()),
            TypedForm::Unary(_, inner) => self.first_of(inner.get()),
            TypedForm::Index(left, _)
            | TypedForm::And(left, _)
            | TypedForm::Or(left, _)
            | TypedForm::Comma(left, _) => self.first_of(left.get()),
            TypedForm::Binary(_, left, _) => self.first_of(left.get()),
            TypedForm::Choice(condition, _, _) => self.first_of(condition.get()),
            TypedForm::Paren(inner) => self.place_first(inner.get(), node),
            TypedForm::Assign(place, value) => match self.slot_of(place.get()) {
                None => self.first_of(place.get()),
                Some(_) => self.first_of(value.get()),
            },
            TypedForm::Compound(_, place, _, _) => self.place_first(place.get(), node),
            TypedForm::Step(_, _, place, _) => self.place_first(place.get(), node),
            TypedForm::Call(Callee::Function(_), args) => self.operands_first(args.list(), node),
            TypedForm::Call(Callee::Pointer(function), _) => self.first_of(function.get()),
            TypedForm::Library(call) => self.library_first(call, e),
            TypedForm::Extern(_, args) => self.operands_first(args.list(), node),
            TypedForm::Object(_) => Ok(self.names.at(node, 0)),
            TypedForm::Text(_)
            | TypedForm::Number(_)
            | TypedForm::Function(_)
            | TypedForm::Size(_)
            | TypedForm::Null => Ok(self.names.at(node, 0)),
        }
    }

    /// The point at which a call of the library begins, at the node of an expression.
    #[cycle(begins)]
    #[tactic(auto, unfolding(crate::specs::Expressions::part, crate::specs::Expressions::library_part))]
    fn library_first(&self, call: &LibraryCall, e: &TypedExpr) -> Result<u32, NoMemory>
        ensures { IfOk result (λ point. point ≡
            (library_part (names_by self.now) call.now (node_of e.now)).first) }
    {
        let node = e.ordinal;
        match call {
            LibraryCall::Create(id, _, _) => self.first_of(id.get()),
            LibraryCall::Join(a)
            | LibraryCall::Detach(a)
            | LibraryCall::ExitThread(a)
            | LibraryCall::Init(a)
            | LibraryCall::Destroy(a)
            | LibraryCall::Lock(a)
            | LibraryCall::Unlock(a)
            | LibraryCall::Signal(a)
            | LibraryCall::Free(a)
            | LibraryCall::Scan(a) => self.first_of(a.get()),
            LibraryCall::SelfId => Ok(self.names.at(node, 0)),
            LibraryCall::Equal(a, _) | LibraryCall::Wait(a, _) => self.first_of(a.get()),
            LibraryCall::Allocate(_, None, _) | LibraryCall::Exit(None) => Ok(
                self.names.at(node, 0),
            ),
            LibraryCall::Allocate(_, Some(count), _) => self.first_of(count.get()),
            LibraryCall::Exit(Some(status)) => self.first_of(status.get()),
            LibraryCall::Print(format, _) => self.first_of(format.get()),
            LibraryCall::Compute(args) => self.operands_first(args.list(), node),
        }
    }
}
