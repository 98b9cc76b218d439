//! Where an expression begins, and which point gives its value.
ghost use Rattle.std.specs.Prelude.{◌≡◌, ◌+◌, ◌<◌, ◌^◌, IfOk};
ghost use Rattle.lk_lower_expr.specs.Counts as counts;
ghost use Rattle.lk_lower_expr.specs.Values as rules;
ghost use Rattle.lk_types.specs.Table.{type_at};
ghost use Rattle.lk_lower_expr.specs.Expressions.{library_part};
ghost use Rattle.lk_lower_expr.specs.Library as calls;
ghost use Rattle.lk_lower_expr.specs.Parts.{standing_at};
ghost use Rattle.lk_lower_expr.specs.Reads.{names_by, part_by};
ghost use Rattle.lk_lower_expr.specs.Naming.{at_of, node_of, slot_of};

use crate::lowering::Lowering;
use lk_base::{Kind, NoMemory};
use lk_typed::{Change, LibraryCall, Storage, TypedExpr, TypedForm};
use lk_types::{CType, TypeId, TypeTable};

/// Whether a type is void; it is where the table has no type of that number.
pub(crate) fn is_void(table: &TypeTable, ty: TypeId) -> bool
    ensures { result ≡ counts.is_void (type_at table.now ty) }
{
    if ty.0 >= table.count() {
        return true;
    }
    match table.get(ty) {
        CType::Void => true,
        CType::Int(_)
        | CType::ThreadId
        | CType::Mutex
        | CType::Cond
        | CType::Pointer(_)
        | CType::Array(_, _)
        | CType::Struct(_)
        | CType::Function { .. }
        | CType::Opaque(_) => false,
    }
}

/// Whether a type is of pointers.
pub(crate) fn is_pointer(table: &TypeTable, ty: TypeId) -> bool
    ensures { result ≡ rules.is_pointer (type_at table.now ty) }
{
    if ty.0 >= table.count() {
        return false;
    }
    match table.get(ty) {
        CType::Pointer(_) => true,
        CType::Void
        | CType::Int(_)
        | CType::ThreadId
        | CType::Mutex
        | CType::Cond
        | CType::Array(_, _)
        | CType::Struct(_)
        | CType::Function { .. }
        | CType::Opaque(_) => false,
    }
}

/// How many steps `?:` has of its own.
fn choice_count(table: &TypeTable, ty: TypeId) -> u32
    ensures { result ≡ counts.choice_count (type_at table.now ty) }
{
    if is_void(table, ty) { 1 } else { 4 }
}

/// How many steps `op=` has of its own, by the types of its place and of its computation.
fn compound_count(place: TypeId, computed: TypeId) -> u32
    ensures { result ≡ counts.compound_count place computed }
{
    if place == computed { 3 } else { 5 }
}

/// How many steps `++` or `--` has of its own, by the types of its place and of its computation.
fn step_count(table: &TypeTable, place: TypeId, computed: TypeId) -> u32
    ensures { result ≡ counts.step_count (type_at table.now computed) place computed }
{
    if place != computed {
        return 6;
    }
    if is_pointer(table, computed) || computed == TypeId::of_kind(Kind::Int) {
        return 4;
    }
    5
}

/// A number of steps with more of them.
pub(crate) fn with_more(count: u32, more: u32) -> Result<u32, NoMemory>
    ensures { IfOk result (λ sum. sum ≡ count + more) }
{
    count.checked_add(more).ok_or(NoMemory)
}

/// Whether a type is `char *`.
pub(crate) fn is_text(table: &TypeTable, ty: TypeId) -> bool
    ensures { result ≡ calls.is_text (type_at table.now ty) }
{
    if ty.0 >= table.count() {
        return false;
    }
    match table.get(ty) {
        CType::Pointer(inner) => *inner == TypeId::of_kind(Kind::Char),
        CType::Void
        | CType::Int(_)
        | CType::ThreadId
        | CType::Mutex
        | CType::Cond
        | CType::Array(_, _)
        | CType::Struct(_)
        | CType::Function { .. }
        | CType::Opaque(_) => false,
    }
}

/// How many of the operands of `printf` are read as texts.
pub(crate) fn text_count(table: &TypeTable, args: &[TypedExpr]) -> Result<u32, NoMemory>
    ensures { IfOk result (λ count. count ≡ counts.text_count table.now args.now) }
{
    let mut count = 0;
    for arg in args {
        if is_text(table, arg.ty) {
            count = with_more(count, 1)?;
        }
    }
    Ok(count)
}

/// The step of `?:` that gives its value.
fn choice_step(table: &TypeTable, ty: TypeId) -> u32
    ensures value { result ≡ counts.choice_step (type_at table.now ty) }
    ensures few { result < 2 ^ 31 }
{
    if is_void(table, ty) { 0 } else { 3 }
}

/// The step of `op=` that gives its value, by the types of its place and of its computation.
fn compound_step(place: TypeId, computed: TypeId) -> u32
    ensures value { result ≡ counts.compound_step place computed }
    ensures few { result < 2 ^ 31 }
{
    if place == computed { 1 } else { 3 }
}

/// The step of `++` or `--` that gives what is written, by the types of its place and of its computation.
fn written_step(table: &TypeTable, place: TypeId, computed: TypeId) -> u32
    ensures value { result ≡ counts.written_step (type_at table.now computed) place computed }
    ensures few { result < 2 ^ 31 }
{
    if place != computed {
        return 4;
    }
    if is_pointer(table, computed) || computed == TypeId::of_kind(Kind::Int) {
        return 2;
    }
    3
}

impl Lowering<'_> {
    /// The slot that an expression names, where it names one.
    #[tactic(auto, unfolding(crate::specs::Expressions::part))]
    pub fn slot_of(&self, e: &TypedExpr) -> Option<u32>
        ensures { result ≡ (part_by self.now e.now).slot }
    {
        match &e.form {
            TypedForm::Object(storage) => self.names.slot(*storage),
            TypedForm::Paren(inner) => self.slot_of(inner.get()),
            TypedForm::Choice(_, _, _) => None,
            TypedForm::Compound(_, _, _, _) => None,
            TypedForm::Step(_, _, _, _) => None,
            TypedForm::Text(_)
            | TypedForm::Member(_, _)
            | TypedForm::Arrow(_, _)
            | TypedForm::Index(_, _)
            | TypedForm::Indirection(_)
            | TypedForm::Number(_)
            | TypedForm::Function(_)
            | TypedForm::Address(_)
            | TypedForm::Unary(_, _)
            | TypedForm::Binary(_, _, _)
            | TypedForm::And(_, _)
            | TypedForm::Or(_, _)
            | TypedForm::Comma(_, _)
            | TypedForm::Assign(_, _)
            | TypedForm::Call(_, _)
            | TypedForm::Library(_)
            | TypedForm::Extern(_, _)
            | TypedForm::Size(_)
            | TypedForm::Load(_)
            | TypedForm::Decay(_)
            | TypedForm::Convert(_)
            | TypedForm::Discard(_)
            | TypedForm::Null => None,
        }
    }

    /// How many steps the name of an object has: a slot has none.
    fn name_count(&self, storage: Storage) -> u32
        ensures { result ≡ counts.name_count (rules.slot_named (slot_of self.now.names.now.locals) storage) }
    {
        match self.names.slot(storage) {
            None => 1,
            Some(_) => 0,
        }
    }

    /// How many steps of its own the node of an expression has.
    #[cycle(counts)]
    #[tactic(auto, unfolding(crate::specs::Expressions::part))]
    pub fn count_of(&self, e: &TypedExpr) -> Result<u32, NoMemory>
        ensures { IfOk result (λ count. count ≡ (part_by self.now e.now).count) }
    {
        match &e.form {
            TypedForm::Load(inner) => {
                let count = self.count_at(e.ordinal, inner.get())?;
                with_more(count, 1)
            }
            TypedForm::Decay(inner) => {
                let count = self.count_at(e.ordinal, inner.get())?;
                with_more(count, 2)
            }
            TypedForm::Convert(inner) => {
                let count = self.count_at(e.ordinal, inner.get())?;
                with_more(count, 1)
            }
            TypedForm::Choice(_, _, _) => Ok(choice_count(self.table, e.ty)),
            TypedForm::Compound(_, place, _, ty) => Ok(compound_count(place.get().ty, *ty)),
            TypedForm::Step(_, _, place, ty) => Ok(step_count(self.table, place.get().ty, *ty)),
            TypedForm::And(_, _) | TypedForm::Or(_, _) => Ok(7),
            TypedForm::Paren(_) => Ok(0),
            TypedForm::Call(_, _) => Ok(1),
            TypedForm::Library(call) => self.library_count(call, e),
            TypedForm::Object(storage) => Ok(self.name_count(*storage)),
            TypedForm::Indirection(_)
            | TypedForm::Address(_)
            | TypedForm::Comma(_, _)
            | TypedForm::Discard(_) => Ok(0),
            TypedForm::Text(_)
            | TypedForm::Member(_, _)
            | TypedForm::Arrow(_, _)
            | TypedForm::Index(_, _)
            | TypedForm::Number(_)
            | TypedForm::Function(_)
            | TypedForm::Unary(_, _)
            | TypedForm::Binary(_, _, _)
            | TypedForm::Assign(_, _)
            | TypedForm::Extern(_, _)
            | TypedForm::Size(_)
            | TypedForm::Null => Ok(1),
        }
    }

    /// How many steps a call of the library has, at the node of an expression.
    #[tactic(auto, unfolding(crate::specs::Expressions::library_part))]
    fn library_count(&self, call: &LibraryCall, e: &TypedExpr) -> Result<u32, NoMemory>
        ensures { IfOk result (λ count. count ≡
            (library_part (names_by self.now) call.now (node_of e.now)).count) }
    {
        match call {
            LibraryCall::Print(_, args) => {
                let count = text_count(self.table, args.list())?;
                with_more(count, 1)
            }
            LibraryCall::Create(_, _, _) | LibraryCall::Wait(_, _) => Ok(2),
            LibraryCall::Join(_)
            | LibraryCall::Detach(_)
            | LibraryCall::ExitThread(_)
            | LibraryCall::SelfId
            | LibraryCall::Equal(_, _)
            | LibraryCall::Init(_)
            | LibraryCall::Destroy(_)
            | LibraryCall::Lock(_)
            | LibraryCall::Unlock(_)
            | LibraryCall::Signal(_)
            | LibraryCall::Allocate(_, _, _)
            | LibraryCall::Free(_)
            | LibraryCall::Exit(_)
            | LibraryCall::Scan(_)
            | LibraryCall::Compute(_) => Ok(1),
        }
    }

    /// How many steps a place or a value has at a node: those of its own where it stands there, and none
    /// where that is the node of a cast (C99 6.5.4).
    #[cycle(counts)]
    #[tactic(auto, using(crate::proofs::Nodes::stands_at))]
    fn count_at(&self, node: u32, inner: &TypedExpr) -> Result<u32, NoMemory>
        ensures { IfOk result (λ count. count ≡ (standing_at node (part_by self.now inner.now)).count) }
    {
        if inner.ordinal == node {
            self.count_of(inner)
        } else {
            Ok(0)
        }
    }

    /// The step behind those that a place or a value has at its node, where its value is read or converted.
    pub(crate) fn behind(&self, node: u32, inner: &TypedExpr, more: u32) -> Result<u32, NoMemory>
        ensures { IfOk result (λ point.
            point ≡ at_of self.now.names.now node
            ((standing_at node (part_by self.now inner.now)).count + more)) }
    {
        let count = self.count_at(node, inner)?;
        let step = with_more(count, more)?;
        if step >= 1 << 31 {
            return Err(NoMemory);
        }
        Ok(self.names.at(node, step))
    }

    /// The point that gives the value of an expression, or the pointer to the place that it names.
    #[tactic(auto, unfolding(crate::specs::Expressions::part))]
    pub fn value_of(&self, e: &TypedExpr) -> Result<u32, NoMemory>
        ensures { IfOk result (λ point. point ≡ (part_by self.now e.now).value) }
    {
        let node = e.ordinal;
        match &e.form {
            TypedForm::Load(inner) => self.behind(node, inner.get(), 0),
            TypedForm::Decay(inner) => self.behind(node, inner.get(), 1),
            TypedForm::Convert(inner) => self.behind(node, inner.get(), 0),
            TypedForm::Indirection(inner) => self.value_of(inner.get()),
            TypedForm::Address(inner) => self.value_of(inner.get()),
            TypedForm::Discard(inner) => self.value_of(inner.get()),
            TypedForm::Paren(inner) => match self.slot_of(inner.get()) {
                None => self.value_of(inner.get()),
                Some(_) => Ok(self.names.at(node, 0)),
            },
            TypedForm::Comma(_, right) => self.value_of(right.get()),
            TypedForm::Assign(_, right) => self.value_of(right.get()),
            TypedForm::And(_, _) | TypedForm::Or(_, _) => Ok(self.names.at(node, 6)),
            TypedForm::Choice(_, _, _) => Ok(self.names.at(node, choice_step(self.table, e.ty))),
            TypedForm::Compound(_, place, _, ty) => Ok(
                self.names.at(node, compound_step(place.get().ty, *ty)),
            ),
            TypedForm::Step(_, change, place, ty) => match change {
                Change::After => Ok(self.names.at(node, 0)),
                Change::Before => Ok(
                    self.names
                        .at(node, written_step(self.table, place.get().ty, *ty)),
                ),
            },
            TypedForm::Call(_, _) => Ok(self.names.at(node, 0)),
            TypedForm::Library(_) => Ok(self.names.at(node, 0)),
            TypedForm::Object(_) => Ok(self.names.at(node, 0)),
            TypedForm::Text(_)
            | TypedForm::Member(_, _)
            | TypedForm::Arrow(_, _)
            | TypedForm::Index(_, _)
            | TypedForm::Number(_)
            | TypedForm::Function(_)
            | TypedForm::Unary(_, _)
            | TypedForm::Binary(_, _, _)
            | TypedForm::Extern(_, _)
            | TypedForm::Size(_)
            | TypedForm::Null => Ok(self.names.at(node, 0)),
        }
    }
}
