//! What is kept of the declarations of each name.
ghost use Rattle.std.specs.Prelude.{◌≡◌, ◌↔◌, [], IsTrue, OnOk, IfOk};
ghost use Rattle.std.specs.List.{Any};
ghost use Rattle.lk_link.specs.Sites.{AreGroups, AreSites, IsAdded, IsPushedAt, IsSite, StandsFor, group_at};

use crate::sites::{Site, entity_at};
use indexmap::IndexMap;
use lk_base::{Name, NoMemory, Seq};
use lk_typed::{Defines, TypedUnit};
use std::alloc::Global;
use std::marker::Model;

/// Of each name some of its declarations: of those in one source with one type the first ones.
#[derive(Drop)]
pub(crate) struct Groups {
    groups: IndexMap<Name, Seq<Site>>,
}

impl Model for Groups {
    ghost use Rattle.std.specs.Prelude.{ℕ, List};
    ghost use Rattle.lk_link.specs.declared.sites.Site.{Site};

    ghost Value = { List (List ℕ × List Site) };

    ghost view = { λ groups. groups.groups.entries };
}

/// Whether two declarations define alike.
fn define_alike(a: Defines, b: Defines) -> bool
    ensures { IsTrue result ↔ (a ≡ b) }
{
    match a {
        Defines::Nothing => matches!(b, Defines::Nothing),
        Defines::Tentative => matches!(b, Defines::Tentative),
        Defines::Whole => matches!(b, Defines::Whole),
    }
}

/// Whether a declaration stands for another one of the same name.
fn stands_for(site: &Site, other: &Site) -> bool
    ensures { IsTrue result ↔ StandsFor site.now other.now }
{
    site.entity.source == other.entity.source
        && site.ty.0 == other.ty.0
        && define_alike(site.defines, other.defines)
        && site.ordinal <= other.ordinal
}

/// Whether one of these declarations stands for another one of the same name.
fn is_covered(group: &[Site], other: &Site) -> bool
    ensures { IsTrue result ↔ Any (λ site. StandsFor site other.now) group.now }
{
    group.iter().any(|site| stands_for(site, other))
}

impl Groups {
    /// No names.
    fn new(alloc: Global) -> Groups
        ensures { result ≡ [] }
    {
        Groups {
            groups: IndexMap::new(alloc),
        }
    }

    /// The declarations that are kept of a name.
    pub(crate) fn group(&self, name: &Name) -> &[Site]
        ensures { result.now ≡ group_at self.now name.now }
    {
        match self.groups.get(name) {
            Some(group) => group.list(),
            None => &[],
        }
    }

    /// Puts a declaration to those of its name.
    fn push(&mut self, alloc: Global, name: &Name, site: Site) -> Result<(), NoMemory>
        ensures { OnOk result (IsPushedAt self.old self.new name.now site) }
    {
        let mut group = match self.groups.swap_remove(name) {
            Some(group) => group,
            None => Seq::new(Vec::new(alloc)),
        };
        group.push(site)?;
        self.groups.insert(name.copy()?, group)?;
        Ok(())
    }

    /// Puts a declaration to those of its name, unless one of them stands for it.
    fn add(&mut self, alloc: Global, name: &Name, site: Site) -> Result<(), NoMemory>
        ensures { OnOk result (IsAdded self.old self.new name.now site) }
    {
        if is_covered(self.group(name), &site) {
            return Ok(());
        }
        self.push(alloc, name, site)?;
        Ok(())
    }

    /// What is kept of these declarations, which are all of external linkage.
    pub(crate) fn of(alloc: Global, units: &[TypedUnit], sites: &[Site]) -> Result<Groups, NoMemory>
        requires { AreSites units.now sites.now }
        ensures { IfOk result (AreGroups (IsSite units.now)) }
    {
        let mut groups = Groups::new(alloc);
        for site in sites {
            let name = &entity_at(units, site.entity).name;
            groups.add(alloc, name, *site)?;
        }
        Ok(groups)
    }
}
