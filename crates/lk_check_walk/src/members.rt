//! Members of structs (C99 6.7.2.1).
ghost use Rattle.std.specs.Prelude.{IfOk, IfSome, OnOk};
ghost use Rattle.lk_types.specs.Table.{IsKnown};
ghost use Rattle.lk_found.specs.MembersOf.{HasFields};
ghost use Rattle.lk_checker.specs.Moves.{IsFurther};
ghost use Rattle.lk_checker.specs.States.{IsSound};
ghost use Rattle.lk_check_walk.specs.MembersOf.{DeclaresField, DeclaresMember, DeclaresMembers, DeclaresWidth, FindsAll, FindsMember};

use crate::declarators::declarator;
use crate::expressions::judge;
use crate::specifying::specifiers;
use lk_base::NoMemory;
use lk_check_decl::{Holder, has_bit_field};
use lk_checker::Checker;
use lk_found::{Asked, At, MembersFound, Stands, both};
use lk_tree::{Declarator, Expr, Member, MemberDeclarator};
use lk_types::TypeId;

/// The members of a struct. Each fault in them is kept.
#[cycle(walk)]
pub(crate) fn members(
    checker: &mut Checker,
    list: &[Member],
    in_size: bool,
) -> Result<MembersFound, NoMemory>
    requires { IsSound checker.old }
    ensures found { IfOk result (FindsAll checker.old checker.new in_size list.now) }
    ensures further { OnOk result (IsFurther checker.old checker.new) }
    ensures fields { IfOk result (HasFields checker.new.types) }
{
    let mut found = MembersFound::new(checker.alloc);
    for m in list {
        member(checker, m, in_size, &mut found)?;
    }
    Ok(found)
}

/// Puts the fields of a member behind those before it.
#[cycle(walk)]
fn member(
    checker: &mut Checker,
    m: &Member,
    in_size: bool,
    out: &mut MembersFound,
) -> Result<(), NoMemory>
    requires sound { IsSound checker.old }
    requires fields { HasFields checker.old.types out.old }
    ensures found { OnOk result (FindsMember checker.old checker.new in_size m.now out.old out.new) }
    ensures further { OnOk result (IsFurther checker.old checker.new) }
    ensures fields { OnOk result (HasFields checker.new.types out.new) }
{
    let at = At {
        spot: m.spot,
        ordinal: m.ordinal,
    };
    let told = specifiers(checker, m.specifiers.list(), Holder::Type, false, in_size)?;
    checker.put_specified(&told, out);
    let are_typed = member_declarators(checker, m.declarators.list(), &told.ty, in_size, out)?;
    let has_bit_field = has_bit_field(m.declarators.list());
    checker.keep_member(at, told.breaches.as_slice(), has_bit_field, are_typed)?;
    Ok(())
}

/// Puts the fields of a member's declarators behind those before them. The answer says
/// whether all widths have types.
#[cycle(walk)]
fn member_declarators(
    checker: &mut Checker,
    list: &[MemberDeclarator],
    left: &Option<TypeId>,
    in_size: bool,
    out: &mut MembersFound,
) -> Result<bool, NoMemory>
    requires sound { IsSound checker.old }
    requires left { IfSome left.now (IsKnown checker.old.types) }
    requires fields { HasFields checker.old.types out.old }
    ensures declared { IfOk result
        (DeclaresMembers checker.old checker.new in_size left.now list.now out.old out.new) }
    ensures further { OnOk result (IsFurther checker.old checker.new) }
    ensures fields { OnOk result (HasFields checker.new.types out.new) }
{
    let mut are_typed = true;
    for d in list {
        let is_typed = member_declarator(checker, d, left, in_size, out)?;
        are_typed = both(are_typed, is_typed);
    }
    Ok(are_typed)
}

/// Puts the field of a member's declarator. The answer says whether its width,
/// where there is one, has a type.
#[cycle(walk)]
fn member_declarator(
    checker: &mut Checker,
    d: &MemberDeclarator,
    left: &Option<TypeId>,
    in_size: bool,
    out: &mut MembersFound,
) -> Result<bool, NoMemory>
    requires sound { IsSound checker.old }
    requires left { IfSome left.now (IsKnown checker.old.types) }
    requires fields { HasFields checker.old.types out.old }
    ensures declared { IfOk result
        (DeclaresMember checker.old checker.new in_size left.now d.now out.old out.new) }
    ensures further { OnOk result (IsFurther checker.old checker.new) }
    ensures fields { OnOk result (HasFields checker.new.types out.new) }
{
    match d {
        MemberDeclarator::Plain(inner) => {
            field(checker, inner, left, in_size, false, out)?;
            Ok(true)
        }
        MemberDeclarator::Field(inner, bits) => {
            field(checker, inner, left, in_size, true, out)?;
            let is_typed = width(checker, bits, in_size, out)?;
            Ok(is_typed)
        }
        MemberDeclarator::Unnamed(bits) => {
            let is_typed = width(checker, bits, in_size, out)?;
            Ok(is_typed)
        }
    }
}

/// Puts the field that a declarator declares; a bit-field is none.
#[cycle(walk)]
fn field(
    checker: &mut Checker,
    d: &Declarator,
    left: &Option<TypeId>,
    in_size: bool,
    is_bit_field: bool,
    out: &mut MembersFound,
) -> Result<(), NoMemory>
    requires sound { IsSound checker.old }
    requires left { IfSome left.now (IsKnown checker.old.types) }
    requires fields { HasFields checker.old.types out.old }
    ensures declared { OnOk result
        (DeclaresField checker.old checker.new in_size left.now is_bit_field d.now out.old out.new) }
    ensures further { OnOk result (IsFurther checker.old checker.new) }
    ensures fields { OnOk result (HasFields checker.new.types out.new) }
{
    let asked = Asked {
        may_be_absent: false,
        in_size,
    };
    let found = declarator(checker, d, *left, asked)?;
    checker.put_member(d, &found, is_bit_field, out)?;
    Ok(())
}

/// The width of a bit-field. The answer says whether it has a type.
#[cycle(walk)]
fn width(
    checker: &mut Checker,
    e: &Expr,
    in_size: bool,
    out: &mut MembersFound,
) -> Result<bool, NoMemory>
    requires sound { IsSound checker.old }
    requires fields { HasFields checker.old.types out.old }
    ensures declared { IfOk result (DeclaresWidth checker.old checker.new in_size e.now out.old out.new) }
    ensures further { OnOk result (IsFurther checker.old checker.new) }
    ensures fields { OnOk result (HasFields checker.new.types out.new) }
{
    let found = match judge(checker, e, Stands::operand(in_size)) {
        Ok(found) => found,
        Err(fault) => return Err(fault),
    };
    let is_typed = out.put_width(found);
    Ok(is_typed)
}
