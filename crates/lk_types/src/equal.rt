//! When two types count as one although an array in them has another size.
ghost use Rattle.std.specs.Prelude.{◌↔◌, IsTrue, All};
ghost use Rattle.lk_types.specs.Table.{IsKnown, HasKnown};
ghost use Rattle.lk_types.specs.Equal.{IsAlike, IsRedeclarable, AreMadeAlike, AreEqualBut, SizesOrNone};

use crate::c_type::CType;
use crate::table::TypeTable;
use crate::type_id::TypeId;

/// Whether two sizes of arrays are equal or one is absent.
fn are_sizes_redeclarable(a: u64, b: u64) -> bool
    ensures { IsTrue result ↔ SizesOrNone a b }
{
    a == b || a == 0 || b == 0
}

impl TypeTable {
    /// Whether two types are equal but for the sizes of arrays: all sizes, and none, count as one.
    pub fn are_alike(&self, a: TypeId, b: TypeId) -> bool
        requires a { IsKnown self.now a }
        requires b { IsKnown self.now b }
        ensures { IsTrue result ↔ IsAlike self.now.types a b }
    {
        self.least_alike(a) == self.least_alike(b)
    }

    /// Whether two types are equal but for absent sizes of arrays, as two declarations of one name may be: an
    /// array type without a size equals one with a size and the same elements (C99 6.2.7).
    #[cycle(redeclarable)]
    pub fn are_redeclarable(&self, a: TypeId, b: TypeId) -> bool
        requires a { IsKnown self.now a }
        requires b { IsKnown self.now b }
        ensures { IsTrue result ↔ IsRedeclarable self.now.types a b }
    {
        if a == b {
            return true;
        }
        self.are_made_alike(self.get(a), self.get(b))
    }

    /// Whether two forms are made in the same way of types that are equal but for absent sizes.
    #[cycle(redeclarable)]
    fn are_made_alike(&self, a: &CType, b: &CType) -> bool
        requires a { HasKnown self.now a.now }
        requires b { HasKnown self.now b.now }
        ensures { IsTrue result ↔ AreMadeAlike self.now.types a.now b.now }
    {
        match (a, b) {
            (CType::Pointer(s), CType::Pointer(t)) => self.are_redeclarable(*s, *t),
            (CType::Array(s, n), CType::Array(t, m)) => are_sizes_redeclarable(*n, *m)
                && self.are_redeclarable(*s, *t),
            (
                CType::Function {
                    result: r,
                    params: ps,
                    dots: d,
                },
                CType::Function {
                    result: s,
                    params: qs,
                    dots: e,
                },
            ) => {
                d == e
                    && self.are_redeclarable(*r, *s)
                    && self.are_all_redeclarable(ps.list(), qs.list())
            }
            (
                CType::Void
                | CType::Int(_)
                | CType::ThreadId
                | CType::Mutex
                | CType::Cond
                | CType::Pointer(_)
                | CType::Array(_, _)
                | CType::Struct(_)
                | CType::Function { .. }
                | CType::Opaque(_),
                _,
            ) => false,
        }
    }

    /// Whether the types of two lists are equal but for absent sizes, one by one.
    #[cycle(redeclarable)]
    fn are_all_redeclarable(&self, a: &[TypeId], b: &[TypeId]) -> bool
        requires a { All (IsKnown self.now) a.now }
        requires b { All (IsKnown self.now) b.now }
        ensures { IsTrue result ↔ AreEqualBut SizesOrNone self.now.types a.now b.now }
    {
        if a.len() != b.len() {
            return false;
        }
        for place in 0..a.len() {
            if !self.are_redeclarable(a[place], b[place]) {
                return false;
            }
        }
        true
    }
}
