//! What the structs of the sources are in the program.
ghost use Rattle.std.specs.Prelude.{◌≡◌, ◌<◌, ◌+◌, ◌^◌, ℕ, List, [], length, OnOk, IfOk, MatchOption};
ghost use Rattle.lk_link.specs.Sources.{AreSources, IsStruct};
ghost use Rattle.lk_link.specs.Structs.{AreResolved, Becomes, IsRowOf, IsOutside, members_in};
ghost use Rattle.lk_link.specs.Tags.{AreFirsts, IsPutAt, struct_at};
ghost use Rattle.lk_types.specs.Table.{is_empty};

use crate::place::StructOf;
use indexmap::IndexMap;
use lk_base::{Name, NoMemory, Seq};
use lk_typed::TypedUnit;
use std::alloc::Global;
use std::marker::Model;

/// Of each tag at file scope the first struct that completes it, in the order of the sources.
#[derive(Drop)]
struct Tags {
    structs: IndexMap<Name, StructOf>,
}

impl Model for Tags {
    ghost use Rattle.std.specs.Prelude.{ℕ, List};
    ghost use Rattle.lk_link.specs.declared.place.StructOf.{StructOf};

    ghost Value = { List (List ℕ × StructOf) };

    ghost view = { λ tags. tags.structs.entries };
}

/// The tag of a struct that is declared at file scope.
fn outside_tag(units: &[TypedUnit], s: StructOf) -> Option<&Name>
    requires sources { AreSources units.now }
    requires known { IsStruct units.now s }
    ensures { MatchOption result ((name : List ℕ) → IsOutside units.now s name → ⊥)
        (λ name. IsOutside units.now s name.now) }
{
    let tag = &units[s.source as usize].structs.list()[s.number as usize];
    if tag.is_outside {
        tag.tag.as_ref()
    } else {
        None
    }
}

/// Whether a struct is incomplete.
fn is_open(units: &[TypedUnit], s: StructOf) -> bool
    requires { IsStruct units.now s }
    ensures { result ≡ is_empty (members_in units.now s) }
{
    units[s.source as usize].types.members(s.number).is_empty()
}

impl Tags {
    /// No tags.
    fn new(alloc: Global) -> Tags
        ensures { result ≡ [] }
    {
        Tags {
            structs: IndexMap::new(alloc),
        }
    }

    /// The struct that completes a tag, where there is one.
    fn find(&self, name: &Name) -> Option<StructOf>
        ensures { result ≡ struct_at self.now name.now }
    {
        self.structs.get(name).copied()
    }

    /// Puts a struct at a tag, unless one is there.
    fn put(&mut self, name: &Name, s: StructOf) -> Result<(), NoMemory>
        ensures { OnOk result (IsPutAt self.old self.new name.now s) }
    {
        if self.structs.get(name).is_some() {
            return Ok(());
        }
        self.structs.insert(name.copy()?, s)?;
        Ok(())
    }

    /// Puts a struct at its tag, where it is the first that completes it.
    fn note(&mut self, units: &[TypedUnit], s: StructOf) -> Result<(), NoMemory>
        requires sources { AreSources units.now }
        requires known { IsStruct units.now s }
        requires firsts { AreFirsts units.now self.old s.source s.number }
        ensures { OnOk result (AreFirsts units.now self.new s.source (s.number + 1)) }
    {
        if is_open(units, s) {
            return Ok(());
        }
        match outside_tag(units, s) {
            Some(name) => {
                self.put(name, s)?;
                Ok(())
            }
            None => Ok(()),
        }
    }

    /// Puts the structs of a source at their tags.
    fn note_source(&mut self, units: &[TypedUnit], source: u32) -> Result<(), NoMemory>
        requires sources { AreSources units.now }
        requires known { source < length units.now }
        requires firsts { AreFirsts units.now self.old source 0 }
        ensures { OnOk result (AreFirsts units.now self.new (source + 1) 0) }
    {
        for number in 0..units[source as usize].types.structs() {
            self.note(units, StructOf { source, number })?;
        }
        Ok(())
    }

    /// The tags of these sources.
    fn of_sources(alloc: Global, units: &[TypedUnit]) -> Result<Tags, NoMemory>
        requires sources { AreSources units.now }
        requires few { length units.now < 2 ^ 32 }
        ensures { IfOk result (λ tags. AreFirsts units.now tags (length units.now) 0) }
    {
        let mut tags = Tags::new(alloc);
        for source in 0..units.len() as u32 {
            tags.note_source(units, source)?;
        }
        Ok(tags)
    }

    /// What a struct is in the program.
    fn becomes(&self, units: &[TypedUnit], s: StructOf) -> StructOf
        requires sources { AreSources units.now }
        requires known { IsStruct units.now s }
        requires firsts { AreFirsts units.now self.now (length units.now) 0 }
        ensures becomes { Becomes units.now s result }
        ensures known { IsStruct units.now result }
    {
        if !is_open(units, s) {
            return s;
        }
        match outside_tag(units, s) {
            Some(name) => self.find(name).unwrap_or(s),
            None => s,
        }
    }

    /// What each struct of a source is in the program.
    fn row(
        &self,
        alloc: Global,
        units: &[TypedUnit],
        source: u32,
    ) -> Result<Seq<StructOf>, NoMemory>
        requires sources { AreSources units.now }
        requires known { source < length units.now }
        requires firsts { AreFirsts units.now self.now (length units.now) 0 }
        ensures { IfOk result (λ row. IsRowOf units.now source row) }
    {
        let mut row = Vec::new(alloc);
        for number in 0..units[source as usize].types.structs() {
            row.push(self.becomes(units, StructOf { source, number }))?;
        }
        Ok(Seq::new(row))
    }
}

/// Of each struct of each source what it is in the program: an incomplete one of a tag at file
/// scope is the first that completes this tag at file scope, in the order of the sources, and each
/// other is itself (C99 6.2.7).
pub fn resolve(alloc: Global, units: &[TypedUnit]) -> Result<Vec<Seq<StructOf>>, NoMemory>
    requires sources { AreSources units.now }
    requires few { length units.now < 2 ^ 32 }
    ensures { IfOk result (λ rows. AreResolved units.now rows.items) }
{
    let tags = Tags::of_sources(alloc, units)?;
    let mut rows = Vec::new(alloc);
    for source in 0..units.len() as u32 {
        rows.push(tags.row(alloc, units, source)?)?;
    }
    Ok(rows)
}
