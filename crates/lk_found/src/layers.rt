//! The types that the forms of a declarator make of the type on its left, each with its code (C99 6.7.5).
ghost use Rattle.std.specs.Prelude.{◌≡◌, ◌*◌, ◌<◌, ◌^◌, true, false, Some, None, IfOk, OnErr, IfSome, All};
ghost use Rattle.std.specs.Option.{option_map};
ghost use Rattle.lk_types.specs.Building.{IsPassed, IsPartOfObjects};
ghost use Rattle.lk_types.specs.Table.{IsKnown};
ghost use Rattle.lk_typed.specs.DeclaratorRules.{array_type, elements};
ghost use Rattle.lk_typed.specs.Meaning.{meaning};
ghost use Rattle.lk_typed.specs.Ty.{Ty, Array};
ghost use Rattle.lk_typed.specs.MemberRules.{fields_in};
ghost use Rattle.lk_typed.specs.Told.{Span};
ghost use Rattle.lk_check_decl.specs.Arrays.{size_of, is_in_range};
ghost use Rattle.lk_check_decl.specs.Making.{AreFields};
ghost use Rattle.lk_found.specs.Shapes.{APointer, AnArray, AFunction, form_in, params_in, is_faulty, IsArrayMade, IsElement, IsElementIn, IsKnownMade, IsKnownLayer, IsMadeBy, IsGrown};

use lk_base::{Code, NoMemory};
use lk_check_decl::{
    ArraySize, array_code, array_count, array_of, function_code, function_of, pointer_code,
    pointer_to,
};
use lk_types::{TypeId, TypeIds, TypeTable};

/// What a form of a declarator makes of the type on its left.
#[derive(Drop)]
pub enum Layer {
    /// A pointer to it.
    Pointer,
    /// An array of it.
    Array(ArraySize),
    /// A function that returns it. The types of the parameters are missing where one of them is faulty; the
    /// flag says whether `...` ends them.
    Function(Option<TypeIds>, bool),
}

/// What is asked of a type that may become that of elements, where the declarator begins.
#[derive(Clone, Copy)]
pub struct Element {
    /// Whether it is complete.
    pub is_complete: bool,
    /// Whether it is a faulty struct, or an array of such.
    pub is_broken: bool,
}

/// What a form made of a type.
#[derive(Clone, Copy)]
pub struct Made {
    /// The code that holds at the form.
    pub code: Option<Code>,
    /// The type, where it is within the bounds and no code takes it away.
    pub ty: Option<TypeId>,
    /// What is asked of it as the type of elements.
    pub element: Element,
    /// Whether it is over a bound.
    pub is_large: bool,
}

/// No type.
fn nothing(code: Option<Code>) -> Made
    ensures code { result.code ≡ code }
    ensures ty { result.ty ≡ None }
    ensures large { result.is_large ≡ false }
{
    Made {
        code,
        ty: None,
        element: Element {
            is_complete: false,
            is_broken: false,
        },
        is_large: false,
    }
}

/// A pointer to a type.
fn pointer(types: &mut TypeTable, target: TypeId) -> Result<Made, NoMemory>
    requires { IsKnown types.old target }
    ensures made { IfOk result (λ made. (span : Span) → AreFields types.old (fields_in span.behind) →
        IsMadeBy types.old types.new span APointer (Some (meaning types.old target)) made) }
    ensures known { IfOk result (IsKnownMade types.new) }
    ensures grown { IsGrown types.old types.new }
    ensures err { OnErr result (types.new ≡ types.old) }
{
    types.is_table();
    let code = pointer_code(types, Some(target));
    if code.is_some() {
        return Ok(nothing(code));
    }
    let ty = pointer_to(types, target)?;
    types.is_table();
    Ok(Made {
        code: None,
        ty,
        element: Element {
            is_complete: true,
            is_broken: false,
        },
        is_large: ty.is_none(),
    })
}

/// An array of so many elements.
fn array(types: &mut TypeTable, element: TypeId, count: u64) -> Result<Made, NoMemory>
    requires element { IsPartOfObjects types.old element }
    requires few { count * elements (meaning types.old element) < 2 ^ 64 }
    ensures made { IfOk result (λ made. (span : Span) → AreFields types.old (fields_in span.behind) →
        IsArrayMade types.old types.new span (meaning types.old element) count made) }
    ensures known { IfOk result (IsKnownMade types.new) }
    ensures grown { IsGrown types.old types.new }
    ensures err { OnErr result (types.new ≡ types.old) }
{
    types.is_table();
    let ty = array_of(types, element, count)?;
    types.is_table();
    Ok(Made {
        code: None,
        ty,
        element: Element {
            is_complete: count != 0,
            is_broken: false,
        },
        is_large: ty.is_none(),
    })
}

/// How many elements an array has by its size, where it may be made of these elements.
fn count_in(element: Element, size: ArraySize) -> Option<u64>
    ensures whole { IfSome result (λ n. (element.is_complete ≡ true) × (element.is_broken ≡ false)) }
    ensures count { element.is_complete ≡ true → element.is_broken ≡ false → is_in_range size ≡ true →
        (t : Ty) → option_map (Array t) result ≡ array_type (size_of size) t }
{
    if element.is_complete && !element.is_broken {
        array_count(size)
    } else {
        None
    }
}

/// An array of a type by its size.
fn sized_array(
    types: &mut TypeTable,
    t: TypeId,
    element: Element,
    may_be_absent: bool,
    size: ArraySize,
) -> Result<Made, NoMemory>
    requires known { IsKnown types.old t }
    requires element { IsElementIn types.old element t }
    requires size { is_faulty size ≡ false }
    ensures made { IfOk result (λ made. (span : Span) → AreFields types.old (fields_in span.behind) →
        IsElement span.env.structs element (Some (meaning types.old t)) → span.may_be_absent ≡ may_be_absent →
        IsMadeBy types.old types.new span (AnArray (size_of size)) (Some (meaning types.old t)) made) }
    ensures known { IfOk result (IsKnownMade types.new) }
    ensures grown { IsGrown types.old types.new }
    ensures err { OnErr result (types.new ≡ types.old) }
{
    let code = array_code(types, may_be_absent, Some(t), element.is_complete, size);
    if code.is_some() {
        return Ok(nothing(code));
    }
    match count_in(element, size) {
        Some(count) => {
            let made = array(types, t, count)?;
            Ok(made)
        }
        None => Ok(nothing(None)),
    }
}

/// Whether it is the size in which a fault stands.
fn is_faulty(size: ArraySize) -> bool
    ensures { result ≡ is_faulty size }
{
    match size {
        ArraySize::Faulty => true,
        ArraySize::Absent | ArraySize::Written(_) => false,
    }
}

/// An array.
fn made_array(
    types: &mut TypeTable,
    left: Option<TypeId>,
    element: Element,
    may_be_absent: bool,
    size: ArraySize,
) -> Result<Made, NoMemory>
    requires known { IfSome left (IsKnown types.old) }
    requires element { IfSome left (IsElementIn types.old element) }
    ensures made { IfOk result (λ made. (span : Span) → AreFields types.old (fields_in span.behind) →
        IsElement span.env.structs element (option_map (meaning types.old) left) →
        span.may_be_absent ≡ may_be_absent →
        IsMadeBy types.old types.new span (AnArray (size_of size)) (option_map (meaning types.old) left) made) }
    ensures known { IfOk result (IsKnownMade types.new) }
    ensures grown { IsGrown types.old types.new }
    ensures err { OnErr result (types.new ≡ types.old) }
{
    if is_faulty(size) {
        return Ok(nothing(None));
    }
    match left {
        Some(t) => sized_array(types, t, element, may_be_absent, size),
        None => {
            let code = array_code(types, may_be_absent, None, false, size);
            Ok(nothing(code))
        }
    }
}

/// A function that returns a type.
fn function(
    types: &mut TypeTable,
    returned: TypeId,
    params: Option<TypeIds>,
    dots: bool,
) -> Result<Made, NoMemory>
    requires known { IsKnown types.old returned }
    requires passed { IfSome params (All (IsPassed types.old)) }
    ensures made { IfOk result (λ made. (span : Span) → AreFields types.old (fields_in span.behind) →
        IsMadeBy types.old types.new span (AFunction (params_in types.old params) dots)
        (Some (meaning types.old returned)) made) }
    ensures known { IfOk result (IsKnownMade types.new) }
    ensures grown { IsGrown types.old types.new }
    ensures err { OnErr result (types.new ≡ types.old) }
{
    types.is_table();
    let code = function_code(types, Some(returned));
    if code.is_some() {
        return Ok(nothing(code));
    }
    let Some(params) = params else {
        return Ok(nothing(None));
    };
    let ty = function_of(types, returned, params, dots)?;
    types.is_table();
    Ok(Made {
        code: None,
        ty,
        element: Element {
            is_complete: false,
            is_broken: false,
        },
        is_large: ty.is_none(),
    })
}

/// What a form makes of the type on its left.
pub fn made_by(
    types: &mut TypeTable,
    layer: Layer,
    left: Option<TypeId>,
    element: Element,
    may_be_absent: bool,
) -> Result<Made, NoMemory>
    requires known { IfSome left (IsKnown types.old) }
    requires element { IfSome left (IsElementIn types.old element) }
    requires layer { IsKnownLayer types.old layer }
    ensures made { IfOk result (λ made. (span : Span) → AreFields types.old (fields_in span.behind) →
        IsElement span.env.structs element (option_map (meaning types.old) left) →
        span.may_be_absent ≡ may_be_absent →
        IsMadeBy types.old types.new span (form_in types.old layer)
        (option_map (meaning types.old) left) made) }
    ensures known { IfOk result (IsKnownMade types.new) }
    ensures grown { IsGrown types.old types.new }
    ensures err { OnErr result (types.new ≡ types.old) }
{
    match layer {
        Layer::Pointer => match left {
            Some(target) => {
                let made = pointer(types, target)?;
                Ok(made)
            }
            None => Ok(nothing(None)),
        },
        Layer::Array(size) => made_array(types, left, element, may_be_absent, size),
        Layer::Function(params, dots) => match left {
            Some(returned) => {
                let made = function(types, returned, params, dots)?;
                Ok(made)
            }
            None => Ok(nothing(None)),
        },
    }
}
