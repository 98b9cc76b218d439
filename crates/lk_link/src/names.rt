//! The names of external linkage of all sources: who declares them, and with what types.
ghost use Rattle.std.specs.Prelude.{◌≡◌, ◌<◌, ◌^◌, length, IfOk};
ghost use Rattle.lk_link.specs.Sites.{AreNames, group_at};

use crate::groups::Groups;
use crate::sites::{EntityOf, Site, externals, sites};
use lk_base::{Name, NoMemory, Seq};
use lk_typed::TypedUnit;
use std::alloc::Global;
use std::marker::Model;

/// The entities and declarations of external linkage of all sources, and what is kept of each name.
#[derive(Drop)]
pub struct Names {
    externals: Seq<EntityOf>,
    sites: Seq<Site>,
    groups: Groups,
}

impl Model for Names {
    ghost use Rattle.lk_link.specs.Sites.{NameIndex};

    ghost Value = { NameIndex };

    ghost view = { λ names. record { externals = names.externals; sites = names.sites; groups = names.groups } };
}

impl Names {
    /// The names of external linkage of these sources.
    pub fn of(alloc: Global, units: &[TypedUnit]) -> Result<Names, NoMemory>
        requires { length units.now < 2 ^ 32 }
        ensures { IfOk result (AreNames units.now) }
    {
        let externals = externals(alloc, units)?;
        let sites = sites(alloc, units, externals.as_slice())?;
        let groups = Groups::of(alloc, units, sites.as_slice())?;
        Ok(Names {
            externals: Seq::new(externals),
            sites: Seq::new(sites),
            groups,
        })
    }

    /// The entities of external linkage.
    pub(crate) fn externals(&self) -> &[EntityOf]
        ensures { result.now ≡ self.now.externals }
    {
        self.externals.list()
    }

    /// Their declarations.
    pub(crate) fn sites(&self) -> &[Site]
        ensures { result.now ≡ self.now.sites }
    {
        self.sites.list()
    }

    /// The declarations that are kept of a name.
    pub(crate) fn group(&self, name: &Name) -> &[Site]
        ensures { result.now ≡ group_at self.now.groups name.now }
    {
        self.groups.group(name)
    }
}
