//! Types that declarators make (C99 6.7.5). A type over one of the bounds of the language isn't made:
//! `Code::LargeType` holds there.
ghost use Rattle.std.specs.Prelude.{◌≡◌, ◌∷◌, ◌*◌, ◌<◌, ◌^◌, All, OnErr, IfOk, IfSome};
ghost use Rattle.lk_types.specs.Building.{IsForm, IsLonger, IsPartOfObjects, IsPassed};
ghost use Rattle.lk_types.specs.Table.{IsKnown};
ghost use Rattle.lk_typed.specs.DeclaratorRules.{adjusted, elements};
ghost use Rattle.lk_typed.specs.Elements.{HasFewElements, IsFew};
ghost use Rattle.lk_typed.specs.Meaning.{meaning, tree_of};
ghost use Rattle.lk_typed.specs.Ty.{Pointer, Array};
ghost use Rattle.lk_check_decl.specs.Making.{function_tree, IsAdjusted, IsDerived, IsMade};

use crate::storing::store;
use lk_base::NoMemory;
use lk_typed::form;
use lk_types::{CType, TypeId, TypeIds, TypeTable};

/// The type of a form.
fn made(types: &mut TypeTable, form: CType) -> Result<Option<TypeId>, NoMemory>
    requires form { IsForm types.old form }
    requires derived { IsDerived form }
    ensures ok { IfOk result (IsMade types.old types.new (tree_of (meaning types.old) form)) }
    ensures longer { IsLonger types.old types.new }
    ensures members { types.new.members ≡ types.old.members }
    ensures few { IsFew types.old form → HasFewElements types.old → HasFewElements types.new }
    ensures err { OnErr result (types.new ≡ types.old) }
{
    types.is_table();
    if types.is_large_form(&form) {
        return Ok(None);
    }
    let t = store(types, form)?;
    Ok(Some(t))
}

/// The type of pointers to a type, or nothing exactly where it is over one of the bounds of the language.
pub fn pointer_to(types: &mut TypeTable, target: TypeId) -> Result<Option<TypeId>, NoMemory>
    requires { IsKnown types.old target }
    ensures ok { IfOk result (IsMade types.old types.new (Pointer (meaning types.old target))) }
    ensures longer { IsLonger types.old types.new }
    ensures members { types.new.members ≡ types.old.members }
    ensures few { HasFewElements types.old → HasFewElements types.new }
    ensures err { OnErr result (types.new ≡ types.old) }
{
    made(types, CType::Pointer(target))
}

/// The type of arrays of so many elements, 0 where no size is known; or nothing exactly where it is over one
/// of the bounds of the language.
pub fn array_of(
    types: &mut TypeTable,
    element: TypeId,
    count: u64,
) -> Result<Option<TypeId>, NoMemory>
    requires { IsPartOfObjects types.old element }
    ensures ok { IfOk result (IsMade types.old types.new (Array (meaning types.old element) count)) }
    ensures longer { IsLonger types.old types.new }
    ensures members { types.new.members ≡ types.old.members }
    ensures few { count * elements (meaning types.old element) < 2 ^ 64 →
        HasFewElements types.old → HasFewElements types.new }
    ensures err { OnErr result (types.new ≡ types.old) }
{
    made(types, CType::Array(element, count))
}

/// The type of functions with this result and these parameters, or nothing exactly where it is over one
/// of the bounds of the language.
pub fn function_of(
    types: &mut TypeTable,
    returned: TypeId,
    params: TypeIds,
    dots: bool,
) -> Result<Option<TypeId>, NoMemory>
    requires { All (IsPassed types.old) (returned ∷ params) }
    ensures ok { IfOk result (IsMade types.old types.new (function_tree types.old returned params dots)) }
    ensures longer { IsLonger types.old types.new }
    ensures members { types.new.members ≡ types.old.members }
    ensures few { HasFewElements types.old → HasFewElements types.new }
    ensures err { OnErr result (types.new ≡ types.old) }
{
    made(
        types,
        CType::Function {
            result: returned,
            params,
            dots,
        },
    )
}

/// What the type of a parameter points to where it is written as an array or a function.
fn adjusted_target(types: &TypeTable, t: TypeId) -> Option<TypeId>
    requires { IsKnown types.now t }
    ensures value { IsAdjusted types.now (meaning types.now t) result }
    ensures known { IfSome result (IsKnown types.now) }
{
    match form(types, t) {
        CType::Array(element, _) => Some(*element),
        CType::Function { .. } => Some(t),
        CType::Void
        | CType::Int(_)
        | CType::ThreadId
        | CType::Mutex
        | CType::Cond
        | CType::Pointer(_)
        | CType::Struct(_)
        | CType::Opaque(_) => None,
    }
}

/// A type of the table, or nothing exactly where it is over one of the bounds of the language.
fn bounded(types: &TypeTable, t: TypeId) -> Option<TypeId>
    requires { IsKnown types.now t }
    ensures { IsMade types.now types.now (meaning types.now t) result }
{
    types.is_table();
    if types.size(t).is_too_large() {
        return None;
    }
    Some(t)
}

/// The type of a parameter, which is a pointer where it is written as an array or a function (C99 6.7.5.3, 7
/// and 8); or nothing exactly where that is over one of the bounds of the language.
pub fn adjusted(types: &mut TypeTable, t: TypeId) -> Result<Option<TypeId>, NoMemory>
    requires { IsKnown types.old t }
    ensures ok { IfOk result (IsMade types.old types.new (adjusted (meaning types.old t))) }
    ensures longer { IsLonger types.old types.new }
    ensures members { types.new.members ≡ types.old.members }
    ensures few { HasFewElements types.old → HasFewElements types.new }
    ensures err { OnErr result (types.new ≡ types.old) }
{
    types.is_table();
    match adjusted_target(types, t) {
        Some(target) => pointer_to(types, target),
        None => Ok(bounded(types, t)),
    }
}
