//! What is asked and found of declarators, and the names that they declare (C99 6.7.5).
ghost use Rattle.std.specs.Prelude.{◌≡◌, Some, not};
ghost use Rattle.std.specs.Option.{option_map};
ghost use Rattle.lk_base.specs.declared.code.Code.TheVariants as codes;
ghost use Rattle.lk_typed.specs.DeclaratorRules.{unless};
ghost use Rattle.lk_typed.specs.Expressions.{declarator_found};
ghost use Rattle.lk_check_decl.specs.Arrays.{size_of};
ghost use Rattle.lk_check_decl.specs.Breaches.{told};
ghost use Rattle.lk_found.specs.Named.{name_in};
ghost use Rattle.lk_found.specs.Walked.{layer_of};

use crate::found::{At, Found};
use crate::walked::SizeFound;
use lk_base::{Boxed, Code, Name};
use lk_check_decl::ArraySize;
use lk_names::LeftScope;
use lk_tree::{Declarator, DeclaratorForm};
use lk_types::TypeId;

/// What is asked of a declarator.
#[derive(Clone, Copy)]
pub struct Asked {
    /// Whether `[]` may stand.
    pub may_be_absent: bool,
    /// Whether it stands in the size of an allocation.
    pub in_size: bool,
}

/// What is found of a declarator.
#[derive(Drop)]
pub struct DeclaratorFound {
    /// The declared type, where no fault holds that takes it away.
    pub ty: Option<TypeId>,
    /// Whether a `sizeof` stands in it.
    pub holds_sizeof: bool,
    /// What the parameters declare of the function declarator beside the name, where there is one.
    pub parameters: Option<LeftScope>,
}

/// The declared name, with its node.
#[derive(Clone, Copy)]
pub struct DeclaredName<'a> {
    /// The name.
    pub name: &'a Name,
    /// Where it stands.
    pub at: At,
}

/// Where a declarator stands.
pub fn at_declarator(d: &Declarator) -> At
    ensures spot { result.spot ≡ d.now.spot }
    ensures ordinal { result.ordinal ≡ d.now.ordinal }
{
    At {
        spot: d.spot,
        ordinal: d.ordinal,
    }
}

/// `Code::LargeType`, where a type is over a bound.
pub fn large_code(is_large: bool) -> Option<Code>
    ensures { result ≡ told (unless (not is_large) codes.LargeType) }
{
    if is_large {
        Some(Code::LargeType)
    } else {
        None
    }
}

/// The size of an array, by what is found of the expression that is written there.
pub fn size_by(found: &Found) -> SizeFound
    ensures size { size_of result.size ≡ Some (option_map (λ t. t.constant) found.now.typing) }
    ensures holds_sizeof { result.holds_sizeof ≡ found.now.look.holds_sizeof }
{
    let size = match found.typing {
        Some(typing) => ArraySize::Written(typing.constant),
        None => ArraySize::Faulty,
    };
    SizeFound {
        size,
        holds_sizeof: found.look.holds_sizeof,
    }
}

/// The name that a declarator declares, where it has one.
#[cycle(declared_name)]
pub fn declared_name(d: &Declarator) -> Option<DeclaredName<'_>>
    ensures { option_map name_in result ≡ (declarator_found d.now).name }
{
    match &d.form {
        DeclaratorForm::Star(_, inner) => inner_name(inner),
        DeclaratorForm::Named(name) => Some(DeclaredName {
            name,
            at: at_declarator(d),
        }),
        DeclaratorForm::Group(inner) => declared_name(inner.get()),
        DeclaratorForm::ArrayOf(inner, _) => inner_name(inner),
        DeclaratorForm::FunctionOf(inner, _, _) => inner_name(inner),
    }
}

/// The name that the declarator inside another one declares, where there is one.
#[cycle(declared_name)]
fn inner_name(inner: &Option<Boxed<Declarator>>) -> Option<DeclaredName<'_>>
    ensures { option_map name_in result ≡ (layer_of inner.now).told.name }
{
    match inner {
        Some(inner) => declared_name(inner.get()),
        None => None,
    }
}
