//! The size that an initialiser gives to the type of its object (C99 6.7.8, 22).
ghost use Rattle.std.specs.Prelude.{◌≡◌, Some, IfOk, IfSome, OnErr};
ghost use Rattle.std.specs.Option.{option_map};
ghost use Rattle.lk_tree.specs.declared.declaration.Init.{Init};
ghost use Rattle.lk_types.specs.Building.{IsLonger, IsPartOfObjects};
ghost use Rattle.lk_types.specs.Table.{IsKnown};
ghost use Rattle.lk_typed.specs.Declarations as spec;
ghost use Rattle.lk_typed.specs.Elements.{HasFewElements};
ghost use Rattle.lk_typed.specs.InitialiserRules.{given_rules};
ghost use Rattle.lk_typed.specs.Meaning.{meaning};
ghost use Rattle.lk_check_decl.specs.Breaches.{told};
ghost use Rattle.lk_typed.specs.Ty.{array_of};
ghost use Rattle.lk_check_decl.specs.GivenSizes.{elements_in, GivesSize, IsSizedBy, IsUnsized};

use crate::arrays::has_few;
use crate::breaches::unless;
use crate::storing::stored_array;
use lk_base::{Code, NoMemory};
use lk_types::{CType, TypeId, TypeTable};

/// What an array is made of.
#[derive(Clone, Copy)]
struct ArrayParts {
    element: TypeId,
    /// How many elements it has; 0 where no size is known.
    count: u64,
}

/// What a type is made of where it is an array.
fn array_parts(types: &TypeTable, t: TypeId) -> Option<ArrayParts>
    requires { IsKnown types.now t }
    ensures value { option_map (elements_in types.now) result ≡ array_of (meaning types.now t) }
    ensures part { IfSome result (λ parts. IsPartOfObjects types.now parts.element) }
{
    match types.get(t) {
        CType::Array(element, count) => Some(ArrayParts {
            element: *element,
            count: *count,
        }),
        CType::Void
        | CType::Int(_)
        | CType::ThreadId
        | CType::Mutex
        | CType::Cond
        | CType::Pointer(_)
        | CType::Struct(_)
        | CType::Function { .. }
        | CType::Opaque(_) => None,
    }
}

/// The element type of an array without a size.
fn unsized_element(types: &TypeTable, t: TypeId) -> Option<TypeId>
    requires { IsKnown types.now t }
    ensures value { IsUnsized types.now (meaning types.now t) result }
    ensures part { IfSome result (IsPartOfObjects types.now) }
{
    match array_parts(types, t) {
        Some(parts) => {
            if parts.count == 0 {
                Some(parts.element)
            } else {
                None
            }
        }
        None => None,
    }
}

/// The type of arrays of so many elements; nothing exactly where they are more than an array may have, or the
/// type is over one of the bounds of a table.
fn sized(types: &mut TypeTable, element: TypeId, size: u64) -> Result<Option<TypeId>, NoMemory>
    requires { IsPartOfObjects types.old element }
    ensures ok { IfOk result (IsSizedBy types.old types.new (meaning types.old element) size) }
    ensures longer { IsLonger types.old types.new }
    ensures members { types.new.members ≡ types.old.members }
    ensures few { HasFewElements types.old → HasFewElements types.new }
    ensures err { OnErr result (types.new ≡ types.old) }
{
    if !has_few(types, size, element) {
        return Ok(None);
    }
    let made = stored_array(types, element, size)?;
    Ok(made)
}

/// The code of the size of an object with an initialiser, where that gives an array such a size:
/// `Code::VariableArray` where it has more elements than an array may have. It stands at the declared name.
pub fn given_code(types: &TypeTable, t: TypeId, size: u64) -> Option<Code>
    requires { IsKnown types.now t }
    ensures { (init : Init) → GivesSize init (meaning types.now t) size →
        result ≡ told (given_rules (spec.elements_given (Some init) (Some (meaning types.now t)))) }
{
    let is_few = match unsized_element(types, t) {
        Some(element) => has_few(types, size, element),
        None => has_few(types, 1, t),
    };
    unless(is_few, Code::VariableArray)
}

/// The type of an object with the size that its initialiser gives, where it is an array without one; nothing
/// exactly where `given_code` has a code.
pub fn completed(types: &mut TypeTable, t: TypeId, size: u64) -> Result<Option<TypeId>, NoMemory>
    requires { IsKnown types.old t }
    ensures means { IfOk result (λ made. (init : Init) → GivesSize init (meaning types.old t) size →
        option_map (meaning types.new) made ≡ spec.completed (Some init) (Some (meaning types.old t))) }
    ensures known { IfOk result (λ made. IfSome made (IsKnown types.new)) }
    ensures longer { IsLonger types.old types.new }
    ensures members { types.new.members ≡ types.old.members }
    ensures few { HasFewElements types.old → HasFewElements types.new }
    ensures err { OnErr result (types.new ≡ types.old) }
{
    types.is_table();
    match unsized_element(types, t) {
        Some(element) => {
            let made = sized(types, element, size)?;
            Ok(made)
        }
        None => {
            if has_few(types, 1, t) {
                Ok(Some(t))
            } else {
                Ok(None)
            }
        }
    }
}
