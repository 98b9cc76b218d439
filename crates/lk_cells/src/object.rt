//! Objects.

ghost use Rattle.std.specs.Prelude.{◌≡◌, IfOk};
ghost use Rattle.std.specs.Option.{option_copied};
ghost use Rattle.lk_cells.specs.Cells as spec;

use crate::kind::CellKind;
use crate::parts::{form_of, type_along};
use lk_base::{Kind, NoMemory};
use lk_types::{CType, TypeId, TypeTable};
use lk_values::{Condition, Mutex, Path, Table, Value};
use std::alloc::Global;

/// What the cells of an object hold before anything is put into them.
#[derive(Clone, Copy)]
pub enum Initial {
    /// Zero, a null pointer or the id of no thread; its mutexes and condition
    /// variables are ready (C99 6.7.8, 10).
    Zero,
    /// An indeterminate value; its mutexes and condition variables aren't ready (C99 6.7.8, 10; 7.20.3.3).
    Indeterminate,
}

/// An object: a region of storage (C99 3.14). Its number is its place in the list of a state's objects.
#[derive(Drop)]
pub struct Object {
    /// The root that it is an object of.
    pub root: u32,
    /// Its type.
    pub ty: TypeId,
    /// How many elements it has, where its type is an array without a size.
    pub length: u64,
    /// Whether it lives (C99 6.2.4).
    pub lives: bool,
    /// What its cells held at first.
    pub initial: Initial,
    /// What was put into its cells, other than mutexes and condition variables.
    pub values: Table<Path, Value>,
    /// The mutexes among its cells whose state was changed.
    pub mutexes: Table<Path, Mutex>,
    /// The condition variables among its cells whose state was changed.
    pub conditions: Table<Path, Condition>,
}

/// What a cell of a type is, for the types that have no parts (C99 6.2.5, 21).
pub fn kind_of(form: &CType) -> Option<CellKind>
    ensures { result ≡ spec.kind_of form.now }
{
    match form {
        CType::Int(_) | CType::ThreadId | CType::Pointer(_) => Some(CellKind::Value),
        CType::Mutex => Some(CellKind::Mutex),
        CType::Cond => Some(CellKind::Condition),
        CType::Void
        | CType::Array(_, _)
        | CType::Struct(_)
        | CType::Function { .. }
        | CType::Opaque(_) => None,
    }
}

/// The value of a scalar type whose bits are zero, as static storage begins with (C99 6.7.8, 10).
pub fn zero_of(form: &CType) -> Option<Value>
    ensures { result ≡ spec.zero_of form.now }
{
    match form {
        CType::Int(kind) => Some(Value::Number(*kind, 0)),
        CType::ThreadId => Some(Value::Thread(None)),
        CType::Pointer(_) => Some(Value::Null),
        CType::Void
        | CType::Mutex
        | CType::Cond
        | CType::Array(_, _)
        | CType::Struct(_)
        | CType::Function { .. }
        | CType::Opaque(_) => None,
    }
}

/// The kind of an integer type.
pub fn int_kind(form: &CType) -> Option<Kind>
    ensures { result ≡ spec.int_kind form.now }
{
    match form {
        CType::Int(kind) => Some(*kind),
        CType::Void
        | CType::ThreadId
        | CType::Mutex
        | CType::Cond
        | CType::Pointer(_)
        | CType::Array(_, _)
        | CType::Struct(_)
        | CType::Function { .. }
        | CType::Opaque(_) => None,
    }
}

/// A number as a value of an integer type; other types have none.
pub fn number_of_type(form: &CType, number: i128) -> Option<Value>
    ensures { result ≡ spec.number_of_type form.now number }
{
    let kind = int_kind(form)?;
    Some(Value::Number(kind, number))
}

impl Initial {
    /// What a cell of a scalar type holds before anything is put into it.
    fn value(self, form: &CType) -> Option<Value>
        ensures { result ≡ spec.first_value self form.now }
    {
        let zero = zero_of(form)?;
        match self {
            Initial::Zero => Some(zero),
            Initial::Indeterminate => Some(Value::Indeterminate),
        }
    }

    /// The state of a mutex before it is changed.
    fn mutex(self) -> Mutex
        ensures { result ≡ spec.first_mutex self }
    {
        match self {
            Initial::Zero => Mutex::Free,
            Initial::Indeterminate => Mutex::NotReady,
        }
    }

    /// The state of a condition variable before it is changed.
    fn condition(self) -> Condition
        ensures { result ≡ spec.first_condition self }
    {
        match self {
            Initial::Zero => Condition::Ready,
            Initial::Indeterminate => Condition::NotReady,
        }
    }
}

impl Object {
    /// An object that begins its life. It takes no memory.
    pub fn new(alloc: Global, root: u32, ty: TypeId, length: u64, initial: Initial) -> Object
        ensures { result ≡ spec.new_object root ty length initial }
    {
        Object {
            root,
            ty,
            length,
            lives: true,
            initial,
            values: Table::new(alloc),
            mutexes: Table::new(alloc),
            conditions: Table::new(alloc),
        }
    }

    /// The form of the part at a path, where there is one.
    pub fn form_at<'a>(&self, types: &'a TypeTable, path: &Path) -> Option<&'a CType>
        ensures { option_copied result ≡ spec.form_at types.now self.now path.now }
    {
        let ty = type_along(types, self.length, path.list(), self.ty)?;
        form_of(types, ty)
    }

    /// What the cell at a path is, where there is one.
    pub fn kind_at(&self, types: &TypeTable, path: &Path) -> Option<CellKind>
        ensures { result ≡ spec.kind_at types.now self.now path.now }
    {
        let form = self.form_at(types, path)?;
        kind_of(form)
    }

    /// The value that a cell holds: what was put into it, else what it held at first.
    pub fn value_at(&self, types: &TypeTable, path: &Path) -> Result<Option<Value>, NoMemory>
        ensures { IfOk result (λ value. value ≡ spec.value_at types.now self.now path.now) }
    {
        if let Some(value) = self.values.get(path) {
            let value = value.copy()?;
            return Ok(Some(value));
        }
        match self.form_at(types, path) {
            Some(form) => Ok(self.initial.value(form)),
            None => Ok(None),
        }
    }

    /// The state of the mutex at a path, where there is one.
    pub fn mutex_at(&self, types: &TypeTable, path: &Path) -> Option<Mutex>
        ensures { result ≡ spec.mutex_at types.now self.now path.now }
    {
        match self.kind_at(types, path)? {
            CellKind::Mutex => match self.mutexes.get(path) {
                Some(mutex) => Some(*mutex),
                None => Some(self.initial.mutex()),
            },
            CellKind::Value | CellKind::Condition => None,
        }
    }

    /// The state of the condition variable at a path, where there is one.
    pub fn condition_at(&self, types: &TypeTable, path: &Path) -> Option<Condition>
        ensures { result ≡ spec.condition_at types.now self.now path.now }
    {
        match self.kind_at(types, path)? {
            CellKind::Condition => match self.conditions.get(path) {
                Some(condition) => Some(*condition),
                None => Some(self.initial.condition()),
            },
            CellKind::Value | CellKind::Mutex => None,
        }
    }

    /// Whether a mutex in it is owned.
    pub fn has_owned(&self) -> bool
        ensures { result ≡ spec.has_owned self.now }
    {
        self.mutexes.is_any_owned()
    }
}
