//! The types that each table has from the start.
ghost use Rattle.std.specs.Prelude.{◌≡◌, slice_get};
ghost use Rattle.lk_types.specs.Predeclared.{predeclared, kind_id};

use crate::c_type::CType;
use crate::type_id::TypeId;
use lk_base::Kind;

impl TypeId {
    /// `void`.
    pub const VOID: TypeId = TypeId(0);
    /// `char`.
    pub const CHAR: TypeId = TypeId(2);
    /// `int`.
    pub const INT: TypeId = TypeId(7);
    /// `unsigned int`.
    pub const UNSIGNED: TypeId = TypeId(8);
    /// `long`.
    pub const LONG: TypeId = TypeId(9);
    /// `size_t`, which is `unsigned long`.
    pub const SIZE: TypeId = TypeId(10);
    /// `pthread_t`.
    pub const THREAD: TypeId = TypeId(13);
    /// `pthread_mutex_t`.
    pub const MUTEX: TypeId = TypeId(14);
    /// `pthread_cond_t`.
    pub const COND: TypeId = TypeId(15);
    /// `pthread_attr_t`, which is incomplete.
    pub const THREAD_ATTRIBUTES: TypeId = TypeId(16);
    /// `pthread_mutexattr_t`, which is incomplete.
    pub const MUTEX_ATTRIBUTES: TypeId = TypeId(17);
    /// `pthread_condattr_t`, which is incomplete.
    pub const COND_ATTRIBUTES: TypeId = TypeId(18);

    /// The type of an integer kind.
    pub fn of_kind(kind: Kind) -> TypeId
        ensures { result ≡ kind_id kind }
    {
        TypeId(match kind {
            Kind::Bool => 1,
            Kind::Char => 2,
            Kind::SChar => 3,
            Kind::UChar => 4,
            Kind::Short => 5,
            Kind::UShort => 6,
            Kind::Int => 7,
            Kind::UInt => 8,
            Kind::Long => 9,
            Kind::ULong => 10,
            Kind::LLong => 11,
            Kind::ULLong => 12,
        })
    }
}

/// The predeclared type with this number, or nothing past the last.
pub(crate) fn predeclared(number: u32) -> Option<CType>
    ensures { result ≡ slice_get predeclared number }
{
    Some(match number {
        0 => CType::Void,
        1 => CType::Int(Kind::Bool),
        2 => CType::Int(Kind::Char),
        3 => CType::Int(Kind::SChar),
        4 => CType::Int(Kind::UChar),
        5 => CType::Int(Kind::Short),
        6 => CType::Int(Kind::UShort),
        7 => CType::Int(Kind::Int),
        8 => CType::Int(Kind::UInt),
        9 => CType::Int(Kind::Long),
        10 => CType::Int(Kind::ULong),
        11 => CType::Int(Kind::LLong),
        12 => CType::Int(Kind::ULLong),
        13 => CType::ThreadId,
        14 => CType::Mutex,
        15 => CType::Cond,
        16 => CType::Opaque(0),
        17 => CType::Opaque(1),
        18 => CType::Opaque(2),
        _ => return None,
    })
}
