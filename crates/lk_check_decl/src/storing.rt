//! Types that a table stores, whether a declarator can make them or not: the types of addresses,
//! composites, and arrays with the size that an initialiser gives. A table has room for larger
//! types than declarators make.
ghost use Rattle.std.specs.Prelude.{◌≡◌, ◌∷◌, ◌*◌, ◌<◌, ◌^◌, false, All, IfOk, OnErr};
ghost use Rattle.lk_types.specs.Building.{IsForm, IsLonger, IsPartOfObjects, IsPassed};
ghost use Rattle.lk_types.specs.Sizes.{form_size, is_over};
ghost use Rattle.lk_types.specs.Table.{IsKnown};
ghost use Rattle.lk_typed.specs.DeclaratorRules.{elements};
ghost use Rattle.lk_typed.specs.Elements.{HasFewElements, IsFew};
ghost use Rattle.lk_typed.specs.Meaning.{meaning, tree_of};
ghost use Rattle.lk_typed.specs.Ty.{Pointer, Array};
ghost use Rattle.lk_check_decl.specs.Composites.{Stands};
ghost use Rattle.lk_check_decl.specs.Making.{function_tree, IsDerived};
ghost use Rattle.lk_check_decl.specs.Storing.{IsStored};

use lk_base::NoMemory;
use lk_types::{CType, TypeId, TypeIds, TypeTable};

/// Stores the type of a form that isn't over the bounds of a table.
pub(crate) fn store(types: &mut TypeTable, form: CType) -> Result<TypeId, NoMemory>
    requires form { IsForm types.old form }
    requires derived { IsDerived form }
    requires small { is_over (form_size types.old form) ≡ false }
    ensures ok { IfOk result (Stands types.new (tree_of (meaning types.old) form)) }
    ensures longer { IsLonger types.old types.new }
    ensures members { types.new.members ≡ types.old.members }
    ensures few { IsFew types.old form → HasFewElements types.old → HasFewElements types.new }
    ensures err { OnErr result (types.new ≡ types.old) }
{
    types.is_table();
    if types.count() == u32::MAX {
        return Err(NoMemory);
    }
    let t = types.put(form)?;
    types.is_table();
    Ok(t)
}

/// The type of a form, or nothing exactly where it is over one of the bounds of a table.
fn stored(types: &mut TypeTable, form: CType) -> Result<Option<TypeId>, NoMemory>
    requires form { IsForm types.old form }
    requires derived { IsDerived form }
    ensures ok { IfOk result (IsStored types.old types.new (tree_of (meaning types.old) form)) }
    ensures longer { IsLonger types.old types.new }
    ensures members { types.new.members ≡ types.old.members }
    ensures few { IsFew types.old form → HasFewElements types.old → HasFewElements types.new }
    ensures err { OnErr result (types.new ≡ types.old) }
{
    types.is_table();
    if types.form_size(&form).is_none() {
        return Ok(None);
    }
    let t = store(types, form)?;
    Ok(Some(t))
}

/// The type of pointers to a type, or nothing exactly where it is over one of the bounds of a table: it never
/// is where the type that it points to is within the bounds of the language.
pub fn stored_pointer(types: &mut TypeTable, target: TypeId) -> Result<Option<TypeId>, NoMemory>
    requires { IsKnown types.old target }
    ensures ok { IfOk result (IsStored types.old types.new (Pointer (meaning types.old target))) }
    ensures longer { IsLonger types.old types.new }
    ensures members { types.new.members ≡ types.old.members }
    ensures few { HasFewElements types.old → HasFewElements types.new }
    ensures err { OnErr result (types.new ≡ types.old) }
{
    stored(types, CType::Pointer(target))
}

/// The type of arrays of so many elements, 0 where no size is known; or nothing exactly where it is over
/// one of the bounds of a table.
pub(crate) fn stored_array(
    types: &mut TypeTable,
    element: TypeId,
    count: u64,
) -> Result<Option<TypeId>, NoMemory>
    requires { IsPartOfObjects types.old element }
    ensures ok { IfOk result (IsStored types.old types.new (Array (meaning types.old element) count)) }
    ensures longer { IsLonger types.old types.new }
    ensures members { types.new.members ≡ types.old.members }
    ensures few { count * elements (meaning types.old element) < 2 ^ 64 →
        HasFewElements types.old → HasFewElements types.new }
    ensures err { OnErr result (types.new ≡ types.old) }
{
    stored(types, CType::Array(element, count))
}

/// The type of functions with this result and these parameters, or nothing exactly where it is over
/// one of the bounds of a table.
pub(crate) fn stored_function(
    types: &mut TypeTable,
    returned: TypeId,
    params: TypeIds,
    dots: bool,
) -> Result<Option<TypeId>, NoMemory>
    requires { All (IsPassed types.old) (returned ∷ params) }
    ensures ok { IfOk result (IsStored types.old types.new (function_tree types.old returned params dots)) }
    ensures longer { IsLonger types.old types.new }
    ensures members { types.new.members ≡ types.old.members }
    ensures few { HasFewElements types.old → HasFewElements types.new }
    ensures err { OnErr result (types.new ≡ types.old) }
{
    stored(
        types,
        CType::Function {
            result: returned,
            params,
            dots,
        },
    )
}
