//! The rules of members (C99 6.7.2.1).
ghost use Rattle.std.specs.Prelude.{◌≡◌, false, List, map};
ghost use Rattle.lk_tree.specs.declared.expression.MemberDeclarator.{out-MemberDeclarator};
ghost use Rattle.lk_types.specs.Sizes.{is_too_large};
ghost use Rattle.lk_types.specs.Table.{IsKnown};
ghost use Rattle.lk_typed.specs.Env.{Env, Field as SpecField};
ghost use Rattle.lk_typed.specs.HolderRules.{has_bit_field, is_bit_field};
ghost use Rattle.lk_typed.specs.Meaning.{meaning};
ghost use Rattle.lk_typed.specs.MemberRules as spec;
ghost use Rattle.lk_typed.specs.Typings.{field_in, structs_in};
ghost use Rattle.lk_check_decl.specs.Breaches.{told};
ghost use Rattle.lk_check_decl.specs.Making.{AreFields};
ghost use Rattle.lk_check_decl.specs.Members.{size_with, types_of, IsWithMember};

use crate::breaches::unless;
use crate::fields::Fields;
use lk_base::{Code, Name};
use lk_tree::MemberDeclarator;
use lk_typed::{Members, is_complete, lesser};
use lk_types::{TypeId, TypeSize, TypeTable};

/// The code of a member's name: `Code::Redeclared` where the struct has one before it, `Code::Incomplete`
/// where its type is incomplete, `void` or a function (C99 6.7.2.1, 2). `before` are the members before it.
pub fn member_code(
    types: &TypeTable,
    structs: &[Members],
    before: &Fields,
    name: &Name,
    t: TypeId,
) -> Option<Code>
    requires { IsKnown types.now t }
    ensures { (env : Env) → env.structs ≡ structs_in types.now structs.now → result
        ≡ told (spec.member_rules env (map (field_in types.now) before.now) name.now (meaning types.now t)) }
{
    let again = unless(!before.has(name), Code::Redeclared);
    let incomplete = unless(is_complete(types, structs, t), Code::Incomplete);
    lesser(again, incomplete)
}

/// The size of a struct with one more member, or nothing exactly where `Code::LargeType` holds at the
/// member's declarator. `size` is that of the struct with the members before it, `TypeSize::START` where
/// there are none.
pub fn with_member(types: &TypeTable, size: TypeSize, t: TypeId) -> Option<TypeSize>
    requires known { IsKnown types.now t }
    requires small { is_too_large size ≡ false }
    ensures { (env : Env) (before : List SpecField) → AreFields types.now (spec.fields_in env) →
        size ≡ size_with env (types_of before) → IsWithMember env before (meaning types.now t) result }
{
    types.is_table();
    types.with_field(size, t)
}

/// Whether a declarator of a member is a bit-field.
fn is_bit_field(declarator: &MemberDeclarator) -> bool
    ensures { result ≡ is_bit_field (out-MemberDeclarator declarator.now) }
{
    match declarator {
        MemberDeclarator::Plain(_) => false,
        MemberDeclarator::Field(_, _) | MemberDeclarator::Unnamed(_) => true,
    }
}

/// Whether one of a member's declarators is a bit-field, which is `Code::BitField` at the member
/// (C99 6.7.2.1, 8).
pub fn has_bit_field(declarators: &[MemberDeclarator]) -> bool
    ensures { result ≡ has_bit_field declarators.now }
{
    for declarator in declarators {
        if is_bit_field(declarator) {
            return true;
        }
    }
    false
}
