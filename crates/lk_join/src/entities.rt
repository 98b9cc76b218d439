//! The functions and objects of static storage of the program.
ghost use Rattle.std.specs.Prelude.{◌≡◌, ◌↔◌, ◌<◌, ◌≤◌, ◌^◌, [], All, IfOk, IsTrue, OnOk, length};
ghost use Rattle.std.specs.List.{Any};
ghost use Rattle.lk_join.specs.Agreeing.{AreAgreed, FitFrom, MayPut, MayTellAt};
ghost use Rattle.lk_join.specs.Entities.{AreEntityRows, AreNamed, ArePut, HaveNumbers, IsListed, IsPushed, IsPushedNamed, IsSaid, IsToldAt, number_named};
ghost use Rattle.lk_join.specs.Program.{HasMainAt, IsMainFunction};
ghost use Rattle.lk_link.specs.Clashes.{HasMain};
ghost use Rattle.lk_link.specs.Sources.{AreSources, HaveOwnNames};
ghost use Rattle.lk_typed.specs.declared.entity.Linkage.TheVariants as linkage;

use crate::forms::here;
use crate::narrow::narrow;
use indexmap::IndexMap;
use lk_base::{Name, NoMemory, Seq};
use lk_link::is_defined;
use lk_typed::{Entity, EntityKind, Linkage, TypedUnit, WholeEntity};
use lk_types::TypeId;
use std::alloc::Global;
use std::marker::Model;

/// The program's entities while those of the sources are put to them.
#[derive(Drop)]
struct Entities {
    /// Of each name of external linkage the number of its entity.
    by_name: IndexMap<Name, u32>,
    list: Vec<WholeEntity>,
}

impl Model for Entities {
    ghost use Rattle.std.specs.Prelude.{◌≤◌, ◌^◌, length};
    ghost use Rattle.lk_join.specs.Entities.{Gathered};

    ghost Value = { Gathered };

    ghost view = { λ entities. record { list = entities.list.items; names = entities.by_name.entries } };

    ghost invariant = { λ entities. length entities.list.items ≤ 2 ^ 32 };
}

/// What a source says of an entity, with the program's type.
fn entity_here(entity: &Entity, place: (u32, u32), row: &[TypeId]) -> Result<WholeEntity, NoMemory>
    requires { entity.now.ty < length row.now }
    ensures { IfOk result (IsSaid row.now place entity.now) }
{
    let ty = here(row, entity.ty);
    let name = entity.name.copy()?;
    let defined = if is_defined(entity) {
        Some(place)
    } else {
        None
    };
    Ok(WholeEntity {
        name,
        linkage: entity.linkage,
        kind: entity.kind,
        ty,
        defined,
    })
}

/// Whether an entity is a function `main` of external linkage.
fn is_main(entity: &WholeEntity) -> bool
    ensures { IsTrue result ↔ IsMainFunction entity.now }
{
    matches!(entity.kind, EntityKind::Function)
        && matches!(entity.linkage, Linkage::External)
        && entity.name.bytes() == b"main".as_slice()
}

/// The number of the function `main` of external linkage.
fn main_of(entities: &[WholeEntity]) -> u32
    requires few { length entities.now ≤ 2 ^ 32 }
    requires there { Any IsMainFunction entities.now }
    ensures { HasMainAt entities.now result }
{
    for number in 0..entities.len() {
        if is_main(&entities[number]) {
            return number as u32;
        }
    }
    unreachable!()
}

impl Entities {
    /// No entities.
    fn new(alloc: Global) -> Entities
        ensures list { result.list ≡ [] }
        ensures names { result.names ≡ [] }
    {
        Entities {
            by_name: IndexMap::new(alloc),
            list: Vec::new(alloc),
        }
    }

    /// Puts an entity behind the others.
    fn push(&mut self, is: WholeEntity) -> Result<u32, NoMemory>
        ensures { IfOk result (IsPushed self.old self.new is) }
    {
        let number = narrow(self.list.len())?;
        self.list.push(is)?;
        Ok(number)
    }

    /// Tells of an entity that is there what a source says of it: where that defines it,
    /// the source and its type there.
    fn tell(&mut self, number: u32, is: &WholeEntity)
        requires there { number < length self.old.list }
        requires may { MayTellAt self.old.list number is.now }
        ensures { IsToldAt self.old self.new number is.now }
    {
        let there = &mut self.list[number as usize];
        if is.defined.is_none() {
            return;
        }
        there.defined = is.defined;
        there.ty = is.ty;
    }

    /// Puts an entity behind the others, under its name.
    fn push_named(&mut self, is: WholeEntity) -> Result<u32, NoMemory>
        ensures { IfOk result (IsPushedNamed self.old self.new is) }
    {
        let name = is.name.copy()?;
        let number = self.push(is)?;
        self.by_name.insert(name, number)?;
        Ok(number)
    }

    /// The number of the entity of external linkage that has a name, where there is one.
    fn find(&self, name: &Name) -> Option<u32>
        ensures { result ≡ number_named self.now.names name.now }
    {
        self.by_name.get(name).copied()
    }

    /// Puts an entity of external linkage: each name has one (C99 6.2.2, 2).
    fn put_external(&mut self, is: WholeEntity) -> Result<u32, NoMemory>
        requires named { AreNamed self.old }
        requires may { MayPut self.old.list is }
        requires external { is.linkage ≡ linkage.External }
        ensures listed { IfOk result (IsListed self.old.list self.new.list is) }
        ensures named { OnOk result (AreNamed self.new) }
    {
        match self.find(&is.name) {
            Some(number) => {
                self.tell(number, &is);
                Ok(number)
            }
            None => {
                let number = self.push_named(is)?;
                Ok(number)
            }
        }
    }

    /// Puts an entity that has a name in its source alone.
    fn put_inside(&mut self, is: WholeEntity) -> Result<u32, NoMemory>
        requires named { AreNamed self.old }
        requires inside { is.linkage ≡ linkage.External → ⊥ }
        ensures listed { IfOk result (IsListed self.old.list self.new.list is) }
        ensures named { OnOk result (AreNamed self.new) }
    {
        let number = self.push(is)?;
        Ok(number)
    }

    /// Puts an entity of a source. Answers its number in the program.
    fn put(&mut self, is: WholeEntity) -> Result<u32, NoMemory>
        requires named { AreNamed self.old }
        requires may { MayPut self.old.list is }
        ensures listed { IfOk result (IsListed self.old.list self.new.list is) }
        ensures named { OnOk result (AreNamed self.new) }
    {
        match is.linkage {
            Linkage::External => self.put_external(is),
            Linkage::Internal | Linkage::None => self.put_inside(is),
        }
    }

    /// Puts the entities of a source. Answers their numbers in the program.
    fn put_source(
        &mut self,
        alloc: Global,
        source: u32,
        entities: &[Entity],
        row: &[TypeId],
    ) -> Result<Seq<u32>, NoMemory>
        requires named { AreNamed self.old }
        requires fit { FitFrom self.old.list entities.now 0 }
        requires names { HaveOwnNames entities.now }
        requires numbered { All (λ entity. entity.ty < length row.now) entities.now }
        ensures put { IfOk result (λ numbers.
            ArePut source row.now self.old.list entities.now numbers self.new.list) }
        ensures named { OnOk result (AreNamed self.new) }
    {
        let mut numbers = Vec::new(alloc);
        for entity in entities {
            let place = narrow(numbers.len())?;
            let said = entity_here(entity, (source, place), row)?;
            let number = self.put(said)?;
            numbers.push(number)?;
        }
        Ok(Seq::new(numbers))
    }

    /// Puts the entities of the sources, where none are put yet. Answers of each entity of each
    /// source its number in the program.
    fn put_sources(
        &mut self,
        alloc: Global,
        units: &[TypedUnit],
        types: &[Seq<TypeId>],
    ) -> Result<Vec<Seq<u32>>, NoMemory>
        requires few { length units.now < 2 ^ 32 }
        requires sources { AreSources units.now }
        requires agreed { AreAgreed units.now }
        requires types { length types.now ≡ length units.now }
        requires numbers { HaveNumbers units.now types.now }
        requires empty { self.old.list ≡ [] }
        requires named { AreNamed self.old }
        ensures { IfOk result (λ rows.
            AreEntityRows units.now types.now rows.items self.new.list (length units.now)) }
    {
        let mut rows = Vec::new(alloc);
        for source in 0..units.len() as u32 {
            let entities = units[source as usize].entities.list();
            let row = types[source as usize].list();
            let numbers = self.put_source(alloc, source, entities, row)?;
            rows.push(numbers)?;
        }
        Ok(rows)
    }
}

/// The program's entities with the number of `main`, and of each entity of each source its number among them.
#[derive(Drop)]
pub(crate) struct Joined {
    pub(crate) entities: Seq<WholeEntity>,
    pub(crate) main: u32,
    pub(crate) rows: Vec<Seq<u32>>,
}

/// The entities of the program that the sources make: one for each name of external linkage, and one of each
/// source for each other, in the order of their first declarations.
pub(crate) fn join_entities(
    alloc: Global,
    units: &[TypedUnit],
    types: &[Seq<TypeId>],
) -> Result<Joined, NoMemory>
    requires few { length units.now < 2 ^ 32 }
    requires sources { AreSources units.now }
    requires agreed { AreAgreed units.now }
    requires types { length types.now ≡ length units.now }
    requires numbers { HaveNumbers units.now types.now }
    requires main { HasMain units.now }
    ensures main_at { IfOk result (λ joined. HasMainAt joined.entities joined.main) }
    ensures rows { IfOk result (λ joined.
        AreEntityRows units.now types.now joined.rows.items joined.entities (length units.now)) }
{
    let mut entities = Entities::new(alloc);
    let rows = entities.put_sources(alloc, units, types)?;
    let Entities { by_name: _, list } = entities;
    let main = main_of(list.as_slice());
    Ok(Joined {
        entities: Seq::new(list),
        main,
        rows,
    })
}
