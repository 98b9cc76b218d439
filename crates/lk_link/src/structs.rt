//! Structs of two sources compared, and what declares a name alike.
ghost use Rattle.std.specs.Prelude.{◌≡◌, ◌<◌, ◌↔◌, IsTrue, IfOk, length};
ghost use Rattle.std.specs.Option.{option_copied};
ghost use Rattle.lk_link.specs.Pairs.{IsAnswered, IsAmong};
ghost use Rattle.lk_link.specs.Sources.{AreSources, IsStruct, IsTypeOf};
ghost use Rattle.lk_link.specs.Structs.{AreResolved, IsPair, IsSideOf, HasNoDifference, IsNoDifference, IsSettled, AreDeclaredAlike, tag_name};

use crate::compare::{compare_members, compare_types};
use crate::pairs::Pairs;
use crate::place::{SizeRule, StructOf, StructPair, TypeOf};
use crate::side::Side;
use lk_base::{Name, NoMemory, Seq};
use lk_typed::TypedUnit;
use std::alloc::Global;

/// The tag of a struct, where it has one.
fn tag_of(units: &[TypedUnit], s: StructOf) -> Option<&Name>
    requires sources { AreSources units.now }
    requires known { IsStruct units.now s }
    ensures { option_copied result ≡ tag_name units.now s }
{
    units[s.source as usize].structs.list()[s.number as usize]
        .tag
        .as_ref()
}

/// Whether two structs have the same tag, or both have none.
fn have_one_tag(units: &[TypedUnit], pair: StructPair) -> bool
    requires sources { AreSources units.now }
    requires known { IsPair units.now pair }
    ensures { IsTrue result ↔ (tag_name units.now pair.first ≡ tag_name units.now pair.second) }
{
    match (tag_of(units, pair.first), tag_of(units, pair.second)) {
        (Some(tag), Some(other)) => tag == other,
        (None, None) => true,
        (Some(_), None) | (None, Some(_)) => false,
    }
}

/// The types of a source, and what its structs are in the program.
fn side_of<'a>(units: &'a [TypedUnit], becomes: &'a [Seq<StructOf>], source: u32) -> Side<'a>
    requires resolved { AreResolved units.now becomes.now }
    requires known { source < length units.now }
    ensures { IsSideOf units.now becomes.now source result }
{
    let types = &units[source as usize].types;
    types.is_table();
    Side::new(types, becomes[source as usize].list())
}

/// Whether a comparison finds no difference between two structs. Pairs of structs on which that
/// depends are put to the others.
fn compare_pair(
    units: &[TypedUnit],
    becomes: &[Seq<StructOf>],
    pairs: &mut Pairs,
    pair: StructPair,
) -> Result<bool, NoMemory>
    requires sources { AreSources units.now }
    requires resolved { AreResolved units.now becomes.now }
    requires known { IsPair units.now pair }
    ensures { IfOk result (IsAnswered (IsPair units.now) pairs.old pairs.new
        (λ ps. HasNoDifference units.now ps pair)) }
{
    if pair.first.source == pair.second.source {
        return Ok(false);
    }
    if !have_one_tag(units, pair) {
        return Ok(false);
    }
    let first = side_of(units, becomes, pair.first.source);
    let second = side_of(units, becomes, pair.second.source);
    let members = first.members(pair.first.number);
    let others = second.members(pair.second.number);
    let answer = compare_members(&first, &second, pairs, members, others)?;
    Ok(answer)
}

/// Whether pairs of structs are kept by their own comparisons. Pairs on which that depends are put to them.
fn settle(
    units: &[TypedUnit],
    becomes: &[Seq<StructOf>],
    pairs: &mut Pairs,
) -> Result<bool, NoMemory>
    requires sources { AreSources units.now }
    requires resolved { AreResolved units.now becomes.now }
    requires known { (pair : StructPair) → IsAmong pairs.old pair → IsPair units.now pair }
    ensures { IfOk result (IsSettled units.now pairs.old pairs.new) }
{
    let mut place = 0;
    while place < pairs.len() {
        let pair = pairs.at(place);
        if !compare_pair(units, becomes, pairs, pair)? {
            return Ok(false);
        }
        place += 1;
    }
    Ok(true)
}

/// Whether two structs are the same, or stand in different sources and a comparison finds no difference
/// between them: by tag, and by the names, order and types of their members, struct by struct. Such
/// structs are one in the program.
///
/// `becomes` tells of each struct of each source what it is in the program, as
/// `resolve` gives it; both are such.
pub fn have_no_difference(
    alloc: Global,
    units: &[TypedUnit],
    becomes: &[Seq<StructOf>],
    pair: StructPair,
) -> Result<bool, NoMemory>
    requires sources { AreSources units.now }
    requires resolved { AreResolved units.now becomes.now }
    requires known { IsPair units.now pair }
    ensures { IfOk result (λ answer. IsTrue answer ↔ IsNoDifference units.now pair) }
{
    if pair.first == pair.second {
        return Ok(true);
    }
    let mut pairs = Pairs::new(alloc);
    pairs.put(pair)?;
    let answer = settle(units, becomes, &mut pairs)?;
    Ok(answer)
}

/// Whether two types of sources are one but for absent sizes of arrays, as two declarations of one name have
/// to be (C99 6.2.7). Structs of different sources are compared by their tags and members, struct by struct.
///
/// `becomes` tells of each struct of each source what it is in the program, as `resolve` gives it.
pub fn are_declared_alike(
    alloc: Global,
    units: &[TypedUnit],
    becomes: &[Seq<StructOf>],
    t: TypeOf,
    u: TypeOf,
) -> Result<bool, NoMemory>
    requires sources { AreSources units.now }
    requires resolved { AreResolved units.now becomes.now }
    requires first { IsTypeOf units.now t }
    requires second { IsTypeOf units.now u }
    ensures { IfOk result (λ answer. IsTrue answer ↔ AreDeclaredAlike units.now t u) }
{
    let first = side_of(units, becomes, t.source);
    let second = side_of(units, becomes, u.source);
    let mut pairs = Pairs::new(alloc);
    if !compare_types(
        &first,
        &second,
        SizeRule::SameOrAbsent,
        &mut pairs,
        t.number,
        u.number,
    )? {
        return Ok(false);
    }
    let answer = settle(units, becomes, &mut pairs)?;
    Ok(answer)
}
