//! What racing items begin with.
ghost use Rattle.std.specs.Prelude.{◌≡◌, ◌<◌, ◌↔◌, Contains, length, All, OnOk};
ghost use Rattle.lk_conflict.specs.Bases.{Adds, IsInConflict};
ghost use Rattle.lk_conflict.specs.Kinds.{IsRacingKind, kind_of};
ghost use Rattle.lk_conflict.specs.Settings.{setting};
ghost use Rattle.lk_facts.specs.Facts.{basis_of};
ghost use Rattle.lk_rise.specs.Correlations.{has_of};
ghost use Rattle.lk_rise.specs.PointItems.{IsItemInRange, IsItemOf};
ghost use Rattle.lk_rise.specs.declared.point_items.ItemAt.{ItemAt};
ghost use Rattle.lk_sets.specs.Rows.{has};

use crate::grounds::Grounds;
use crate::pairs::Kind;
use indexmap::IndexSet;
use lk_base::NoMemory;
use lk_rise::{Correlation, ItemAt};
use lk_sets::IdSet;
use std::alloc::Global;

impl Grounds<'_> {
    /// Puts the racing item of a function for a location that an item of a point begins behind the others.
    fn push_basis(
        &self,
        alloc: Global,
        function: u32,
        location: u32,
        item: &ItemAt,
        based: &mut Vec<(Correlation, IdSet)>,
    ) -> Result<(), NoMemory>
        requires function { function < length self.now.items.now.facts.program.functions }
        requires location { location < self.now.items.now.facts.program.locations }
        requires in_range { IsItemInRange self.now.items.now.facts item.now }
        requires item { IsItemOf (basis_of self.now.items.now.facts)
            (has_of self.now.items.now.entries) function item.now }
        ensures { OnOk result (Adds self.now.items.now.facts (setting self.now)
            (λ f o i. (f ≡ function) × (o ≡ location) × (i ≡ item.now)) based.old.items based.new.items) }
    {
        let locks = self.items.locks(alloc, item)?;
        let racing = Correlation {
            function,
            child: item.child,
            subject: location,
            access: item.access,
        };
        based.push((racing, locks))?;
        Ok(())
    }

    /// Does so where the item is of one of the kinds.
    fn push_conflict(
        &self,
        alloc: Global,
        function: u32,
        location: u32,
        item: &ItemAt,
        racing: &IndexSet<Kind>,
        based: &mut Vec<(Correlation, IdSet)>,
    ) -> Result<(), NoMemory>
        requires function { function < length self.now.items.now.facts.program.functions }
        requires location { location < self.now.items.now.facts.program.locations }
        requires in_range { IsItemInRange self.now.items.now.facts item.now }
        requires item { IsItemOf (basis_of self.now.items.now.facts)
            (has_of self.now.items.now.entries) function item.now }
        ensures { OnOk result (Adds self.now.items.now.facts (setting self.now)
            (λ f o i. (f ≡ function) × (o ≡ location) × (i ≡ item.now)
            × Contains racing.now.keys (kind_of self.now.items.now.facts.program i))
            based.old.items based.new.items) }
    {
        if !racing.contains(&self.kind(item)) {
            return Ok(());
        }
        self.push_basis(alloc, function, location, item, based)?;
        Ok(())
    }

    /// Does so for each of the items that is in conflict with one of them.
    fn push_each(
        &self,
        alloc: Global,
        function: u32,
        location: u32,
        items: &[ItemAt],
        based: &mut Vec<(Correlation, IdSet)>,
    ) -> Result<(), NoMemory>
        requires function { function < length self.now.items.now.facts.program.functions }
        requires location { location < self.now.items.now.facts.program.locations }
        requires in_range { All (IsItemInRange self.now.items.now.facts) items.now }
        requires items { All (IsItemOf (basis_of self.now.items.now.facts)
            (has_of self.now.items.now.entries) function) items.now }
        ensures { OnOk result (Adds self.now.items.now.facts (setting self.now)
            (λ f o i. (f ≡ function) × (o ≡ location) × Contains items.now i
            × IsRacingKind self.now.items.now.facts.program (has self.now.after.now) items.now
            (kind_of self.now.items.now.facts.program i)) based.old.items based.new.items) }
    {
        let racing = self.racing_kinds(alloc, items)?;
        for item in items {
            self.push_conflict(alloc, function, location, item, &racing, based)?;
        }
        Ok(())
    }

    /// Puts the racing items that a function's conflicts for a location begin behind the others.
    fn push_at_location(
        &self,
        alloc: Global,
        function: u32,
        location: u32,
        items: &[ItemAt],
        based: &mut Vec<(Correlation, IdSet)>,
    ) -> Result<(), NoMemory>
        requires function { function < length self.now.items.now.facts.program.functions }
        requires location { location < self.now.items.now.facts.program.locations }
        requires in_range { All (IsItemInRange self.now.items.now.facts) items.now }
        requires label { location < length self.now.items.now.facts.labels.entries }
        requires items { (i : ItemAt) → Contains items.now i
            ↔ IsItemOf (basis_of self.now.items.now.facts) (has_of self.now.items.now.entries) function i }
        ensures { OnOk result (Adds self.now.items.now.facts (setting self.now)
            (λ f o i. (f ≡ function) × (o ≡ location)
            × IsInConflict self.now.items.now.facts (setting self.now) f o i)
            based.old.items based.new.items) }
    {
        let here = self.at_location(alloc, location, items)?;
        self.push_each(alloc, function, location, &here, based)?;
        Ok(())
    }

    /// Puts the racing items that a function's conflicts between these items begin behind the others.
    fn push_at_locations(
        &self,
        alloc: Global,
        function: u32,
        items: &[ItemAt],
        based: &mut Vec<(Correlation, IdSet)>,
    ) -> Result<(), NoMemory>
        requires function { function < length self.now.items.now.facts.program.functions }
        requires in_range { All (IsItemInRange self.now.items.now.facts) items.now }
        requires items { (i : ItemAt) → Contains items.now i
            ↔ IsItemOf (basis_of self.now.items.now.facts) (has_of self.now.items.now.entries) function i }
        ensures { OnOk result (Adds self.now.items.now.facts (setting self.now)
            (λ f o i. (f ≡ function) × IsInConflict self.now.items.now.facts (setting self.now) f o i)
            based.old.items based.new.items) }
    {
        let locations = self.items.facts().points().locations();
        for location in 0..locations {
            self.push_at_location(alloc, function, location, items, based)?;
        }
        Ok(())
    }

    /// Puts the racing items that a function's conflicts begin behind the others.
    pub(crate) fn push_conflicts(
        &self,
        alloc: Global,
        function: u32,
        based: &mut Vec<(Correlation, IdSet)>,
    ) -> Result<(), NoMemory>
        requires { function < length self.now.items.now.facts.program.functions }
        ensures { OnOk result (Adds self.now.items.now.facts (setting self.now)
            (λ f o i. (f ≡ function) × IsInConflict self.now.items.now.facts (setting self.now) f o i)
            based.old.items based.new.items) }
    {
        if !self.items.may_start(function) {
            return Ok(());
        }
        let items = self.items.items_in(alloc, function)?;
        self.push_at_locations(alloc, function, &items, based)?;
        Ok(())
    }
}
