//! What the rules ask of structs.
ghost use Rattle.std.specs.Prelude.{◌≡◌};
ghost use Rattle.lk_types.specs.Table.{Table, IsKnown};
ghost use Rattle.lk_typed.specs.Env.{members_of};
ghost use Rattle.lk_typed.specs.Sizes as spec;
ghost use Rattle.lk_typed.specs.Meaning.{meaning};
ghost use Rattle.lk_typed.specs.Typings.{structs_in};

use crate::forms::form;
use crate::members::Members;
use lk_types::{CType, TypeId, TypeTable};

/// Whether the members of a struct are known, or its definition is faulty.
fn are_known(structs: &[Members], s: u32) -> bool
    ensures { (table : Table) → result ≡ spec.are_known (members_of (structs_in table structs.now) s) }
{
    match structs.get(s as usize) {
        Some(members) => match members {
            Members::Known(_) | Members::Faulty => true,
            Members::NotYet | Members::Begun => false,
        },
        None => false,
    }
}

/// Whether a type is a complete object type: its size is known (C99 6.2.5, 1).
pub fn is_complete(types: &TypeTable, structs: &[Members], t: TypeId) -> bool
    requires { IsKnown types.now t }
    ensures { result ≡ spec.is_complete (structs_in types.now structs.now) (meaning types.now t) }
{
    match form(types, t) {
        CType::Int(_) | CType::ThreadId | CType::Mutex | CType::Cond | CType::Pointer(_) => true,
        CType::Array(element, count) => *count != 0 && is_complete(types, structs, *element),
        CType::Struct(s) => are_known(structs, *s),
        CType::Void | CType::Function { .. } | CType::Opaque(_) => false,
    }
}
