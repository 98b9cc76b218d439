//! Specifiers (C99 6.7.2).
ghost use Rattle.std.specs.Prelude.{IfOk, IfSome, OnOk};
ghost use Rattle.std.specs.Option.{option_copied};
ghost use Rattle.lk_types.specs.Table.{IsKnown};
ghost use Rattle.lk_check_decl.specs.Twins.{holder_of};
ghost use Rattle.lk_checker.specs.Moves.{IsFurther};
ghost use Rattle.lk_checker.specs.States.{IsSound};
ghost use Rattle.lk_check_walk.specs.Specifying.{Gathers, GathersEnum, GathersStruct, Specifies};

use crate::items::items;
use crate::members::members;
use lk_base::{Name, NoMemory};
use lk_check_decl::Holder;
use lk_checker::Checker;
use lk_found::{Gathered, Specified};
use lk_names::TagUse;
use lk_tree::{Item, Member, Specifier};

/// What specifiers tell, each behind those before it. Faults in them are kept; the codes of the specifiers
/// themselves are for what they stand in. `alone` says that they are all of a declaration.
///
/// `Err` comes for want of memory.
#[cycle(walk)]
pub fn specifiers(
    checker: &mut Checker,
    list: &[Specifier],
    holder: Holder,
    alone: bool,
    in_size: bool,
) -> Result<Specified, NoMemory>
    requires { IsSound checker.old }
    ensures specified { IfOk result
        (Specifies checker.old checker.new (holder_of holder) alone in_size list.now) }
    ensures further { OnOk result (IsFurther checker.old checker.new) }
    ensures named { IfOk result (λ specified. IfSome specified.named (IsKnown checker.new.types)) }
    ensures known { IfOk result (λ specified. IfSome specified.ty (IsKnown checker.new.types)) }
{
    let mut gathered = Gathered::new(checker.alloc);
    for s in list {
        specifier(checker, s, alone, in_size, &mut gathered)?;
    }
    let specified = gathered.specified(holder)?;
    Ok(specified)
}

/// Gathers a specifier. Faults in it are kept.
#[cycle(walk)]
fn specifier(
    checker: &mut Checker,
    specifier: &Specifier,
    alone: bool,
    in_size: bool,
    out: &mut Gathered,
) -> Result<(), NoMemory>
    requires { IsSound checker.old }
    ensures { OnOk result (Gathers checker.old checker.new alone in_size specifier.now out.old out.new) }
{
    match specifier {
        Specifier::Storage(word) => out.put_storage(*word)?,
        Specifier::Inline => {}
        Specifier::Qualifier(_) => {}
        Specifier::Type(word) => out.put_word(*word)?,
        Specifier::Struct(tag, members) => {
            struct_defined(checker, tag.as_ref(), members.list(), in_size, out)?;
        }
        Specifier::StructTag(name) => checker.struct_named(name, alone, out)?,
        Specifier::Enum(tag, items) => {
            enum_defined(checker, tag.as_ref(), items.list(), in_size, out)?;
        }
        Specifier::EnumTag(name) => checker.enum_named(name, out)?,
        Specifier::Typedef(name) => checker.typedef_named(name, out),
    }
    Ok(())
}

/// `struct tag { members }` (C99 6.7.2.1).
#[cycle(walk)]
fn struct_defined(
    checker: &mut Checker,
    tag: Option<&Name>,
    list: &[Member],
    in_size: bool,
    out: &mut Gathered,
) -> Result<(), NoMemory>
    requires { IsSound checker.old }
    ensures { OnOk result (GathersStruct checker.old checker.new in_size
        (option_copied tag.entry) list.now out.old out.new) }
{
    let begun = checker.begin_struct(tag, out)?;
    let found = members(checker, list, in_size)?;
    checker.end_struct(begun, found, out)?;
    Ok(())
}

/// `enum tag { items }` (C99 6.7.2.2).
#[cycle(walk)]
fn enum_defined(
    checker: &mut Checker,
    tag: Option<&Name>,
    list: &[Item],
    in_size: bool,
    out: &mut Gathered,
) -> Result<(), NoMemory>
    requires { IsSound checker.old }
    ensures { OnOk result (GathersEnum checker.old checker.new in_size
        (option_copied tag.entry) list.now out.old out.new) }
{
    let is_admitted = checker.put_tag_use(TagUse::DefinesEnum, tag, out)?;
    let holds_sizeof = items(checker, list, in_size)?;
    checker.end_enum(tag, is_admitted, holds_sizeof, out)?;
    Ok(())
}
