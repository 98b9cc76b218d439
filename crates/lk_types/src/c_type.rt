//! The forms of types.
ghost use Rattle.std.specs.Prelude.{◌≡◌, IfOk};
ghost use Rattle.lk_types.specs.Table.{struct_of};
ghost use Rattle.lk_types.specs.Objects.{is_value, is_cell};

use crate::type_id::TypeId;
use crate::type_ids::TypeIds;
use lk_base::{Kind, NoMemory};

/// A type of C (C99 6.2.5) by its form; the types that it is made of are numbers in the same table.
///
/// Qualifiers count nowhere, and an enumeration is `int`.
#[derive(Drop, PartialEq, Eq, Hash)]
pub enum CType {
    /// `void`.
    Void,
    /// An integer type.
    Int(Kind),
    /// `pthread_t`.
    ThreadId,
    /// `pthread_mutex_t`.
    Mutex,
    /// `pthread_cond_t`.
    Cond,
    /// A pointer to a type.
    Pointer(TypeId),
    /// An array of elements of a type, and how many there are; 0 stands for no size.
    Array(TypeId, u64),
    /// The struct with this number. Its members stand in the table.
    Struct(u32),
    /// A function.
    Function {
        /// What it returns.
        result: TypeId,
        /// The types of its parameters.
        params: TypeIds,
        /// Whether further arguments may follow (`...`).
        dots: bool,
    },
    /// A type that is never complete, as that of `pthread_attr_t`. Different numbers are different types.
    Opaque(u32),
}

impl CType {
    /// The number of the struct, where the type is one.
    pub fn struct_number(&self) -> Option<u32>
        ensures { result ≡ struct_of self.now }
    {
        match self {
            CType::Struct(number) => Some(*number),
            CType::Void
            | CType::Int(_)
            | CType::ThreadId
            | CType::Mutex
            | CType::Cond
            | CType::Pointer(_)
            | CType::Array(_, _)
            | CType::Function { .. }
            | CType::Opaque(_) => None,
        }
    }

    /// Whether an object of this type holds a value: it is an integer, a thread id or a pointer.
    pub fn is_value(&self) -> bool
        ensures { result ≡ is_value self.now }
    {
        match self {
            CType::Int(_) | CType::ThreadId | CType::Pointer(_) => true,
            CType::Void
            | CType::Mutex
            | CType::Cond
            | CType::Array(_, _)
            | CType::Struct(_)
            | CType::Function { .. }
            | CType::Opaque(_) => false,
        }
    }

    /// Whether an object of this type is a cell: it holds a value, or is a mutex or a condition variable. So
    /// it counts these two as well, unlike C99 6.2.5, 21, whose scalar types are the arithmetic and the
    /// pointer types.
    pub fn is_cell(&self) -> bool
        ensures { result ≡ is_cell self.now }
    {
        self.is_value() || matches!(self, CType::Mutex | CType::Cond)
    }

    /// An equal type.
    pub fn copy(&self) -> Result<CType, NoMemory>
        ensures { IfOk result (λ form. form ≡ self.now) }
    {
        Ok(match self {
            CType::Void => CType::Void,
            CType::Int(kind) => CType::Int(*kind),
            CType::ThreadId => CType::ThreadId,
            CType::Mutex => CType::Mutex,
            CType::Cond => CType::Cond,
            CType::Pointer(target) => CType::Pointer(*target),
            CType::Array(element, size) => CType::Array(*element, *size),
            CType::Struct(number) => CType::Struct(*number),
            CType::Function {
                result,
                params,
                dots,
            } => CType::Function {
                result: *result,
                params: params.copy()?,
                dots: *dots,
            },
            CType::Opaque(number) => CType::Opaque(*number),
        })
    }
}
