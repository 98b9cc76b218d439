//! The steps of calls of the library (C99 7, POSIX pthread.h).
ghost use Rattle.std.specs.Prelude.{◌≡◌, ◌∷◌, [], IfOk};
ghost use Rattle.std.specs.Option.{option_map};
ghost use Rattle.lk_facts.specs.declared.action.Action.TheVariants as does;
ghost use Rattle.lk_lower_expr.specs.Expressions.{library_part};
ghost use Rattle.lk_lower_expr.specs.Library as calls;
ghost use Rattle.lk_lower_expr.specs.Parts as parts;
ghost use Rattle.lk_lower_expr.specs.Reads.{names_by, part_by};
ghost use Rattle.lk_lower_expr.specs.Naming.{node_of};

use crate::lowering::Lowering;
use crate::make::{alone, one_step, step};
use crate::step::Step;
use lk_base::{Boxed, NoMemory, Seq};
use lk_facts::Action;
use lk_typed::{LibraryCall, TypedExpr};
use lk_types::TypeId;
use std::alloc::Global;

/// The step of a call after which control ends.
fn end_steps(alloc: Global, e: &TypedExpr, does: Action) -> Result<Vec<Step>, NoMemory>
    ensures { IfOk result (λ steps. steps.items ≡ calls.last does e.now.spot ∷ []) }
{
    let is = Step {
        does,
        gives: None,
        next: Seq::new(Vec::new(alloc)),
        spot: e.spot,
    };
    Ok(vec![in alloc; is]?)
}

impl Lowering<'_> {
    /// The steps of `pthread_create`: the thread, and then the store of its id unless there is none.
    #[tactic(auto, using(crate::proofs::Nodes::stands_at))]
    fn create_steps(
        &self,
        e: &TypedExpr,
        id: &TypedExpr,
        entity: u32,
        argument: &TypedExpr,
        on: u32,
    ) -> Result<Vec<Step>, NoMemory>
        ensures { IfOk result (λ steps.
            steps.items ≡ (calls.create_part (names_by self.now) (node_of e.now)
            (part_by self.now id.now)
            entity (part_by self.now argument.now)).steps on) }
    {
        let a = self.value_of(argument)?;
        let id_at = self.value_of(id)?;
        let next = vec![in self.alloc; self.names.at(e.ordinal, 1), on]?;
        let first = Step {
            does: Action::Create {
                function: self.names.function_number(entity),
                a,
            },
            gives: self.value_type(e.ty),
            next: Seq::new(next),
            spot: e.spot,
        };
        let steps = alone(self.alloc, Ok(first))?;
        self.with_step(steps, Action::StoreId(id_at), None, id.spot, on)
    }

    /// The steps of `pthread_cond_wait`: the mutex is released and then taken again.
    fn wait_steps(
        &self,
        e: &TypedExpr,
        cond: &TypedExpr,
        mutex: &TypedExpr,
        on: u32,
    ) -> Result<Vec<Step>, NoMemory>
        ensures { IfOk result (λ steps.
            steps.items ≡ (calls.wait_part (names_by self.now) (node_of e.now)
            (part_by self.now cond.now)
            (part_by self.now mutex.now)).steps on) }
    {
        let mutex = self.value_of(mutex)?;
        let cond = self.value_of(cond)?;
        let release = Action::Release { cond, mutex };
        let gives = self.value_type(e.ty);
        let own = self.names.at(e.ordinal, 1);
        let steps = alone(self.alloc, step(self.alloc, release, gives, e.spot, own))?;
        self.with_step(steps, Action::Retake(mutex), None, e.spot, on)
    }

    /// The step of an allocation of so many elements.
    fn allocation(
        &self,
        e: &TypedExpr,
        ty: TypeId,
        count: Option<u32>,
        zero: bool,
        on: u32,
    ) -> Result<Vec<Step>, NoMemory>
        ensures { IfOk result (λ steps.
            steps.items ≡ parts.step (does.Allocate ((names_by self.now).type ty) count zero
            ((names_by self.now).heap e.now.ordinal))
            (parts.value_of (names_by self.now) e.now.ty) e.now.spot on ∷ []) }
    {
        let does = Action::Allocate {
            ty: self.names.type_number(ty),
            count,
            zero,
            root: self.names.node_number(e.ordinal),
        };
        one_step(self.alloc, does, self.value_type(e.ty), e.spot, on)
    }

    /// The step of `malloc` and `calloc`: of the size only the count is computed.
    fn allocate_steps(
        &self,
        e: &TypedExpr,
        ty: TypeId,
        count: &Option<Boxed<TypedExpr>>,
        zero: bool,
        on: u32,
    ) -> Result<Vec<Step>, NoMemory>
        ensures { IfOk result (λ steps.
            steps.items ≡ (calls.allocate_part (names_by self.now) (node_of e.now) ty
            (option_map (part_by self.now) count.now) zero).steps on) }
    {
        match count {
            None => self.allocation(e, ty, None, zero, on),
            Some(count) => {
                let count = self.value_of(count.get())?;
                self.allocation(e, ty, Some(count), zero, on)
            }
        }
    }

    /// The step of `pthread_equal`.
    fn equal_steps(
        &self,
        e: &TypedExpr,
        a: &TypedExpr,
        b: &TypedExpr,
        on: u32,
    ) -> Result<Vec<Step>, NoMemory>
        ensures { IfOk result (λ steps.
            steps.items ≡ (calls.equal_part (names_by self.now) (node_of e.now)
            (part_by self.now a.now) (part_by self.now b.now)).steps on) }
    {
        let a = self.value_of(a)?;
        let b = self.value_of(b)?;
        let does = Action::Compute {
            args: Seq::new(vec![in self.alloc; a, b]?),
            ty: self.names.type_number(e.ty),
            equal: true,
        };
        one_step(self.alloc, does, self.value_type(e.ty), e.spot, on)
    }

    /// The step of a call that is one action.
    fn action_steps(&self, e: &TypedExpr, does: Action, on: u32) -> Result<Vec<Step>, NoMemory>
        ensures { IfOk result (λ steps. steps.items ≡
            parts.step does (parts.value_of (names_by self.now) e.now.ty) e.now.spot on ∷ []) }
    {
        one_step(self.alloc, does, self.value_type(e.ty), e.spot, on)
    }

    /// The steps of a call of the library.
    #[tactic(auto, unfolding(crate::specs::Expressions::library_part))]
    pub(crate) fn library_steps(
        &self,
        e: &TypedExpr,
        call: &LibraryCall,
        on: u32,
    ) -> Result<Vec<Step>, NoMemory>
        ensures { IfOk result (λ steps.
            steps.items ≡ (library_part (names_by self.now) call.now (node_of e.now)).steps on) }
    {
        match call {
            LibraryCall::Create(id, entity, argument) => self.create_steps(
                e,
                id.get(),
                *entity,
                argument.get(),
                on,
            ),
            LibraryCall::Join(a) => self.action_steps(e, Action::Join(self.value_of(a.get())?), on),
            LibraryCall::Detach(a) => self.action_steps(
                e,
                Action::Detach(self.value_of(a.get())?),
                on,
            ),
            LibraryCall::Init(a) => self.action_steps(e, Action::Init(self.value_of(a.get())?), on),
            LibraryCall::Destroy(a) => self.action_steps(
                e,
                Action::Destroy(self.value_of(a.get())?),
                on,
            ),
            LibraryCall::Lock(a) => self.action_steps(e, Action::Lock(self.value_of(a.get())?), on),
            LibraryCall::Unlock(a) => self.action_steps(
                e,
                Action::Unlock(self.value_of(a.get())?),
                on,
            ),
            LibraryCall::Signal(a) => self.action_steps(
                e,
                Action::Signal(self.value_of(a.get())?),
                on,
            ),
            LibraryCall::Free(a) => self.action_steps(e, Action::Free(self.value_of(a.get())?), on),
            LibraryCall::ExitThread(_) => end_steps(self.alloc, e, Action::ExitThread),
            LibraryCall::Exit(_) => end_steps(self.alloc, e, Action::ExitProcess),
            LibraryCall::SelfId => self.action_steps(e, Action::SelfId, on),
            LibraryCall::Equal(a, b) => self.equal_steps(e, a.get(), b.get(), on),
            LibraryCall::Wait(cond, mutex) => self.wait_steps(e, cond.get(), mutex.get(), on),
            LibraryCall::Allocate(ty, count, zero) => {
                self.allocate_steps(e, *ty, count, *zero, on)
            }
            LibraryCall::Scan(a) => self.scan_steps(e, a.get(), on),
            LibraryCall::Print(format, args) => self.print_steps(e, format.get(), args.list(), on),
            LibraryCall::Compute(args) => self.compute_steps(e, args.list(), on),
        }
    }
}
