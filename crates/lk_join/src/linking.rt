//! The program that sources make together.
ghost use Rattle.std.specs.Prelude.{◌≡◌, ◌<◌, ◌^◌, IfErr, IfOk, Some, length};
ghost use Rattle.lk_join.specs.Agreeing.{AreAgreed};
ghost use Rattle.lk_join.specs.Entities.{AreEntityRows};
ghost use Rattle.lk_join.specs.Program.{HasMainAt, IsFault, IsLinked, no_main, refusal_of};
ghost use Rattle.lk_join.specs.Sources.{AreLinked, AreTypesOf};
ghost use Rattle.lk_join.specs.Joining.{IsJoined};
ghost use Rattle.lk_link.specs.Clashes.{HasMain};
ghost use Rattle.lk_link.specs.Sources.{AreSources};

use crate::entities::{Joined, join_entities};
use crate::numbers::number_structs;
use crate::types::{Types, join_types};
use lk_base::{Code, Fault, Name, NoMemory, Refusal, Seq, Spot};
use lk_link::{Clash, first_clash, has_main, resolve};
use lk_typed::{Linked, TypedUnit, Whole};
use lk_types::TypeId;
use std::alloc::Global;

/// That no source defines `main`: it is told at the beginning of the first source.
fn no_main(alloc: Global) -> Refusal
    ensures { result ≡ no_main }
{
    Refusal {
        code: Code::NoMain,
        spot: Spot {
            file: 0,
            line: 1,
            col: 1,
        },
        name: Name::empty(alloc),
    }
}

/// What speaks against the sources as a program, as it is told.
fn refusal_of(clash: Clash) -> Refusal
    ensures { result ≡ refusal_of clash }
{
    let Clash {
        source: _,
        ordinal: _,
        spot,
        code,
        name,
    } = clash;
    Refusal { code, spot, name }
}

/// The sources with the program's numbers of their types and entities.
fn linked(
    alloc: Global,
    units: Vec<TypedUnit>,
    types: Vec<Seq<TypeId>>,
    entities: Vec<Seq<u32>>,
) -> Result<Seq<Linked>, NoMemory>
    requires types { length types.items ≡ length units.items }
    requires entities { length entities.items ≡ length units.items }
    ensures { IfOk result (AreLinked units.items types.items entities.items) }
{
    let mut sources = Vec::new(alloc);
    let mut rows = types.into_iter();
    let mut numbers = entities.into_iter();
    for unit in units {
        let types = rows.next().unwrap();
        let entities = numbers.next().unwrap();
        sources.push(Linked {
            unit,
            types,
            entities,
        })?;
    }
    Ok(Seq::new(sources))
}

/// What the program has of the types of the sources.
fn types_of(alloc: Global, units: &[TypedUnit]) -> Result<Types, NoMemory>
    requires sources { AreSources units.now }
    requires few { length units.now < 2 ^ 32 }
    ensures { IfOk result (λ types. AreTypesOf units.now types.table types.rows.items) }
{
    let becomes = resolve(alloc, units)?;
    let numbers = number_structs(alloc, units, becomes.as_slice())?;
    let types = join_types(alloc, units, &numbers)?;
    Ok(types)
}

/// The program of these sources, types and entities.
fn whole_of(
    alloc: Global,
    units: Vec<TypedUnit>,
    types: Types,
    joined: Joined,
) -> Result<Whole, NoMemory>
    requires types { AreTypesOf units.items types.table types.rows.items }
    requires entities { AreEntityRows units.items types.rows.items joined.rows.items joined.entities
        (length units.items) }
    requires main_at { HasMainAt joined.entities joined.main }
    ensures { IfOk result (λ whole. IsJoined whole units.items) }
{
    let Types { table, rows } = types;
    let Joined {
        entities,
        main,
        rows: numbers,
    } = joined;
    let sources = linked(alloc, units, rows, numbers)?;
    Ok(Whole {
        sources,
        types: table,
        entities,
        main,
    })
}

/// The program that sources make which speak against nothing.
fn join(alloc: Global, units: Vec<TypedUnit>) -> Result<Whole, NoMemory>
    requires sources { AreSources units.items }
    requires agreed { AreAgreed units.items }
    requires few { length units.items < 2 ^ 32 }
    requires main { HasMain units.items }
    ensures { IfOk result (λ whole. IsJoined whole units.items) }
{
    let types = types_of(alloc, units.as_slice())?;
    let joined = join_entities(alloc, units.as_slice(), types.rows.as_slice())?;
    whole_of(alloc, units, types, joined)
}

/// The program that checked sources make together, where `externs` has the names that `--externs` lists
/// (C99 5.1.2.2.1, 6.2.7, 6.9). They are refused with `Code::NoMain` exactly where none of them has a `main`,
/// else with the first clash: `Code::DefinedTwice`, `Code::TypesDiffer` or `Code::NotDefined` where one of
/// these holds. `Fault::NoMemory` comes for want of memory, or where a number would need more than 32 bits.
pub fn link(alloc: Global, units: Vec<TypedUnit>, externs: &[Name]) -> Result<Whole, Fault>
    requires sources { AreSources units.items }
    requires few { length units.items < 2 ^ 32 }
    ensures ok { IfOk result (IsLinked units.items externs.now) }
    ensures err { IfErr result (IsFault units.items externs.now) }
{
    if !has_main(units.as_slice()) {
        return Err(Fault::Refused(no_main(alloc)));
    }
    match first_clash(alloc, units.as_slice(), externs)? {
        Some(clash) => Err(Fault::Refused(refusal_of(clash))),
        None => {
            let whole = join(alloc, units)?;
            Ok(whole)
        }
    }
}
