//! Types and structs of two sources compared.
ghost use Rattle.std.specs.Prelude.{◌<◌, IfOk, All, length};
ghost use Rattle.lk_link.specs.Comparing.{IsAnsweredHere, AreOneHere, AreAllOneHere, AreMadeAs, AreOnePair, AreOneMembersHere};
ghost use Rattle.lk_types.specs.Building.{types_of};
ghost use Rattle.lk_types.specs.Table.{IsKnown, HasKnown};

use crate::pairs::Pairs;
use crate::place::{SizeRule, StructPair};
use crate::side::Side;
use lk_base::NoMemory;
use lk_types::{CType, StructMember, TypeId};

/// Whether two types are one. Pairs of structs on which that depends are put to the others.
#[cycle(types)]
pub(crate) fn compare_types(
    first: &Side<'_>,
    second: &Side<'_>,
    rule: SizeRule,
    pairs: &mut Pairs,
    t: TypeId,
    u: TypeId,
) -> Result<bool, NoMemory>
    requires first { IsKnown first.now.types t }
    requires second { IsKnown second.now.types u }
    ensures { IfOk result (IsAnsweredHere first.now second.now pairs.old pairs.new
        (λ ps. AreOneHere first.now second.now ps rule t u)) }
{
    let answer = compare_forms(first, second, rule, pairs, first.form(t), second.form(u))?;
    Ok(answer)
}

/// Whether two forms are made in the same way of types that are one.
#[cycle(types)]
fn compare_forms(
    first: &Side<'_>,
    second: &Side<'_>,
    rule: SizeRule,
    pairs: &mut Pairs,
    form: &CType,
    other: &CType,
) -> Result<bool, NoMemory>
    requires first { HasKnown first.now.types form.now }
    requires second { HasKnown second.now.types other.now }
    ensures { IfOk result (IsAnsweredHere first.now second.now pairs.old pairs.new
        (λ ps. AreMadeAs first.now second.now ps rule form.now other.now)) }
{
    match (form, other) {
        (CType::Pointer(a), CType::Pointer(b)) => {
            let answer = compare_types(first, second, rule, pairs, *a, *b)?;
            Ok(answer)
        }
        (CType::Array(a, n), CType::Array(b, m)) => {
            if !rule.holds(*n, *m) {
                return Ok(false);
            }
            let answer = compare_types(first, second, rule, pairs, *a, *b)?;
            Ok(answer)
        }
        (CType::Struct(a), CType::Struct(b)) => {
            let answer = compare_structs(first, second, pairs, *a, *b)?;
            Ok(answer)
        }
        (
            CType::Function {
                result: a,
                params: ps,
                dots: d,
            },
            CType::Function {
                result: b,
                params: qs,
                dots: e,
            },
        ) => {
            if d != e || !compare_types(first, second, rule, pairs, *a, *b)? {
                return Ok(false);
            }
            let answer = compare_all(first, second, rule, pairs, ps.list(), qs.list())?;
            Ok(answer)
        }
        (CType::Int(kind), CType::Int(other)) => Ok(kind == other),
        (CType::Opaque(number), CType::Opaque(other)) => Ok(number == other),
        (CType::Void, CType::Void)
        | (CType::ThreadId, CType::ThreadId)
        | (CType::Mutex, CType::Mutex)
        | (CType::Cond, CType::Cond) => Ok(true),
        (
            CType::Pointer(_)
            | CType::Array(_, _)
            | CType::Struct(_)
            | CType::Function { .. }
            | CType::Int(_)
            | CType::Opaque(_)
            | CType::Void
            | CType::ThreadId
            | CType::Mutex
            | CType::Cond,
            _,
        ) => Ok(false),
    }
}

/// Whether the types of two lists are one, one by one.
#[cycle(types)]
fn compare_all(
    first: &Side<'_>,
    second: &Side<'_>,
    rule: SizeRule,
    pairs: &mut Pairs,
    ts: &[TypeId],
    us: &[TypeId],
) -> Result<bool, NoMemory>
    requires first { All (IsKnown first.now.types) ts.now }
    requires second { All (IsKnown second.now.types) us.now }
    ensures { IfOk result (IsAnsweredHere first.now second.now pairs.old pairs.new
        (λ ps. AreAllOneHere first.now second.now ps rule ts.now us.now)) }
{
    if ts.len() != us.len() {
        return Ok(false);
    }
    for place in 0..ts.len() {
        if !compare_types(first, second, rule, pairs, ts[place], us[place])? {
            return Ok(false);
        }
    }
    Ok(true)
}

/// Whether two structs are one in the program, or may be: they are a pair that is to be compared then.
fn compare_structs(
    first: &Side<'_>,
    second: &Side<'_>,
    pairs: &mut Pairs,
    a: u32,
    b: u32,
) -> Result<bool, NoMemory>
    requires first { a < length first.now.types.members }
    requires second { b < length second.now.types.members }
    ensures { IfOk result (IsAnsweredHere first.now second.now pairs.old pairs.new
        (λ ps. AreOnePair first.now second.now ps a b)) }
{
    let pair = StructPair {
        first: first.whole(a),
        second: second.whole(b),
    };
    if pair.first == pair.second {
        return Ok(true);
    }
    pairs.put(pair)?;
    Ok(true)
}

/// Whether the members of two structs are the same by name, order and type.
pub(crate) fn compare_members(
    first: &Side<'_>,
    second: &Side<'_>,
    pairs: &mut Pairs,
    members: &[StructMember],
    others: &[StructMember],
) -> Result<bool, NoMemory>
    requires first { All (IsKnown first.now.types) (types_of members.now) }
    requires second { All (IsKnown second.now.types) (types_of others.now) }
    ensures { IfOk result (IsAnsweredHere first.now second.now pairs.old pairs.new
        (λ ps. AreOneMembersHere first.now second.now ps members.now others.now)) }
{
    if members.len() != others.len() {
        return Ok(false);
    }
    for place in 0..members.len() {
        let (a, b) = (&members[place], &others[place]);
        if a.name != b.name {
            return Ok(false);
        }
        if !compare_types(first, second, SizeRule::Same, pairs, a.ty, b.ty)? {
            return Ok(false);
        }
    }
    Ok(true)
}
