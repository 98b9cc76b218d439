//! The items of points, with their locks.
ghost use Rattle.std.specs.Prelude.{◌≡◌, ◌<◌, ◌+◌, ◌⊎◌, ◌↔◌, ◌++◌, ℕ, Some, true, false, Contains, length, All, IfOk, OnOk};
ghost use Rattle.std.specs.List.{flat_map};
ghost use Rattle.lk_facts.specs.Analysis.{held_table};
ghost use Rattle.lk_facts.specs.Facts.{basis_of};
ghost use Rattle.lk_facts.specs.Flow.{RisesAs};
ghost use Rattle.lk_facts.specs.Items.{HasLock};
ghost use Rattle.lk_facts.specs.LockSets.{keep_of};
ghost use Rattle.lk_facts.specs.Origins.{flow_of, IsSetBelow};
ghost use Rattle.lk_facts.specs.Program.{function_at};
ghost use Rattle.lk_links.specs.Links.{AreLinks};
ghost use Rattle.lk_rise.specs.Correlations.{AreInRange, has_lock, has_of, locks_of};
ghost use Rattle.lk_rise.specs.PointItems.{AreBelow, HasNoChild, IsItemInRange, IsItemOf, StartsNothing, functions_of, items_by, items_from, items_through};
ghost use Rattle.lk_rise.specs.PointItems.{own_access_of, point_functions, point_table, risen_by, source_of};
ghost use Rattle.lk_rise.specs.declared.point_items.ItemAt.{ItemAt};
ghost use Rattle.lk_sets.specs.Ids.{has_id};

use crate::accesses::accessed;
use crate::correlations::{Correlation, Correlations};
use crate::groups::Groups;
use crate::items::Items;
use lk_above::with_kept;
use lk_base::{MOST_POINTS, NoMemory};
use lk_facts::{Facts, Held, Source, Way};
use lk_links::{Link, Links, push_over, risen};
use lk_sets::IdSet;
use std::alloc::Global;
use std::marker::Model;

/// An item of a point: what it accesses, itself or in what it runs or starts.
#[derive(Clone, Copy, PartialEq, Eq)]
pub struct ItemAt {
    /// The point.
    pub point: u32,
    /// Where the item comes from.
    pub source: Source,
    /// Whether a thread makes the access that is started at the point or below.
    pub child: bool,
    /// The label of what is accessed.
    pub subject: u32,
    /// The point of the access.
    pub access: u32,
}

/// The items of functions, by the functions.
#[derive(Drop)]
struct Below<'a> {
    /// What is known of the program.
    facts: &'a Facts<'a>,
    /// The items.
    items: &'a Correlations,
    /// Their numbers, for each function.
    numbers: Groups,
}

/// The items of the points of a program, with the locks of each.
///
/// A contract sees what they rest on: what is known of the program, the locks that are held at its points,
/// and the items of its functions with theirs.
#[derive(Drop)]
pub struct PointItems<'a> {
    below: Below<'a>,
    held: &'a Held,
    links: &'a Links,
    /// The points of each function.
    points: Groups,
}

impl<'a> Model for PointItems<'a> {
    ghost use Rattle.lk_rise.specs.PointItems.{ArePointItems, PointTable, point_table};

    ghost Value = { PointTable };

    ghost view = { λ a. point_table a.below.facts.now a.held.now a.below.items.now };

    ghost invariant = { λ a.
        ArePointItems (point_table a.below.facts.now a.held.now a.below.items.now)
        a.links.now a.points a.below.numbers };
}

/// The item of a point that is its own access.
fn own_access(point: u32, subject: u32) -> ItemAt
    ensures { result ≡ own_access_of point subject }
{
    ItemAt {
        point,
        source: Source::OwnAccess,
        child: false,
        subject,
        access: point,
    }
}

/// An item below as the source of items of a point that goes into its function by this way.
fn source_below(item: &Correlation, way: Way) -> Source
    ensures { result ≡ source_of item.now way }
{
    Source::ItemBelow {
        way,
        function: item.function,
        child: item.child,
        subject: item.subject,
    }
}

/// The item of a call or creation that rises from an item below, whose subject is this one above.
fn risen_item(link: &Link, item: &Correlation, source: Source, subject: u32) -> ItemAt
    ensures { result ≡ risen_by link.now item.now source subject }
{
    ItemAt {
        point: link.point,
        source,
        child: item.child || link.starts,
        subject,
        access: item.access,
    }
}

/// The functions of items, in the order of the items.
fn item_functions(alloc: Global, items: &Correlations) -> Result<Vec<u32>, NoMemory>
    ensures { IfOk result (λ keys. keys.items ≡ functions_of items.now) }
{
    let mut keys = Vec::new(alloc);
    for i in 0..items.count() {
        keys.push(items.item(i).function)?;
    }
    Ok(keys)
}

/// The functions of points, in the order of the points.
fn functions_of_points(alloc: Global, facts: &Facts<'_>) -> Result<Vec<u32>, NoMemory>
    ensures keys { IfOk result (λ keys. keys.items ≡ point_functions facts.now.program.points) }
    ensures below { IfOk result (λ keys. All (λ f. f < length facts.now.program.functions + 1) keys.items) }
{
    let mut keys = Vec::new(alloc);
    for point in 0..facts.points().count() {
        keys.push(facts.points().function(point))?;
    }
    Ok(keys)
}

impl Below<'_> {
    /// Puts the items of a call or creation that rise from an item of the function below
    /// behind those that were found.
    fn push_risen(
        &self,
        alloc: Global,
        link: &Link,
        item: &Correlation,
        found: &mut Vec<ItemAt>,
    ) -> Result<(), NoMemory>
        requires { item.now.subject < length self.now.facts.now.labels.entries }
        ensures { OnOk result (found.new.items
            ≡ found.old.items ++ items_through self.now.facts.now.origins link.now item.now) }
    {
        let mut subjects = Vec::new(alloc);
        push_over(self.facts, &link.way, item.subject, &mut subjects)?;
        for subject in &subjects {
            let source = source_below(item, link.way);
            found.push(risen_item(link, item, source, *subject))?;
        }
        Ok(())
    }

    /// Does so for the item with a number.
    fn push_item(
        &self,
        alloc: Global,
        link: &Link,
        number: usize,
        found: &mut Vec<ItemAt>,
    ) -> Result<(), NoMemory>
        requires below { AreBelow self.now.facts.now self.now.items.now self.now.numbers }
        requires number { number < length self.now.items.now }
        ensures { OnOk result (found.new.items
            ≡ found.old.items ++ items_from self.now.facts.now.origins self.now.items.now link.now number) }
    {
        let item = self.items.item(number);
        self.push_risen(alloc, link, &item, found)?;
        Ok(())
    }

    /// Puts the items of a call or creation behind those that were found.
    fn push_by_link(
        &self,
        alloc: Global,
        link: &Link,
        found: &mut Vec<ItemAt>,
    ) -> Result<(), NoMemory>
        requires below { AreBelow self.now.facts.now self.now.items.now self.now.numbers }
        requires link { link.now.below < length self.now.facts.now.program.functions }
        ensures { OnOk result (found.new.items ≡ found.old.items
            ++ items_by self.now.facts.now.origins self.now.items.now self.now.numbers link.now) }
    {
        for number in self.numbers.at(link.below) {
            self.push_item(alloc, link, *number, found)?;
        }
        Ok(())
    }

    /// The items of all links of a point.
    fn items_of_links(&self, alloc: Global, links: &[Link]) -> Result<Vec<ItemAt>, NoMemory>
        requires below { AreBelow self.now.facts.now self.now.items.now self.now.numbers }
        requires links { All (λ link. link.below < length self.now.facts.now.program.functions) links.now }
        ensures { IfOk result (λ found. found.items
            ≡ flat_map (items_by self.now.facts.now.origins self.now.items.now self.now.numbers) links.now) }
    {
        let mut found = Vec::new(alloc);
        for link in links {
            self.push_by_link(alloc, link, &mut found)?;
        }
        Ok(found)
    }

    /// Whether an item of a function is of a thread that was started in it or below.
    fn has_child(&self, function: u32) -> bool
        requires below { AreBelow self.now.facts.now self.now.items.now self.now.numbers }
        requires function { function < length self.now.facts.now.program.functions }
        ensures { result ≡ false → HasNoChild self.now.items.now function }
    {
        for number in self.numbers.at(function) {
            if self.items.item(*number).child {
                return true;
            }
        }
        false
    }

    /// Whether one of the links starts a thread, or goes into a function with an
    /// item that is of a started one.
    fn may_start(&self, links: &[Link]) -> bool
        requires below { AreBelow self.now.facts.now self.now.items.now self.now.numbers }
        requires links { All (λ link. link.below < length self.now.facts.now.program.functions) links.now }
        ensures { result ≡ false → All (StartsNothing self.now.items.now) links.now }
    {
        for link in links {
            if link.starts || self.has_child(link.below) {
                return true;
            }
        }
        false
    }

    /// The locks that are held at an item of a function, and none where it has no such item.
    fn locks(&self, item: Correlation) -> &[u32]
        requires { AreBelow self.now.facts.now self.now.items.now self.now.numbers }
        ensures members { (x : ℕ) → has_id result.now x ≡ has_lock self.now.items.now item x }
        ensures in_range { All (λ x. x < length self.now.facts.now.labels.entries) result.now }
    {
        match self.items.find(item) {
            Some(locks) => locks,
            None => &[],
        }
    }
}

impl<'a> PointItems<'a> {
    /// What offers the items of the points of a program. Lock sets, links and items are those of the program.
    pub fn new(
        alloc: Global,
        facts: &'a Facts<'a>,
        held: &'a Held,
        links: &'a Links,
        items: &'a Items,
    ) -> Result<PointItems<'a>, NoMemory>
        requires held_points { length held.now.at ≡ length facts.now.program.points }
        requires held_labels { held.now.labels ≡ length facts.now.labels.entries }
        requires links { AreLinks (basis_of facts.now) links.now }
        requires items { AreInRange facts.now (length facts.now.labels.entries) items.now.entries }
        ensures { IfOk result (λ points. points ≡ point_table facts.now held.now items.now.entries) }
    {
        let functions = functions_of_points(alloc, facts)?;
        let points = Groups::new(alloc, &functions, facts.points().functions() as usize + 1)?;
        let items = items.correlations();
        let keys = item_functions(alloc, items)?;
        let numbers = Groups::new(alloc, &keys, facts.points().functions() as usize)?;
        let below = Below {
            facts,
            items,
            numbers,
        };
        Ok(PointItems {
            below,
            held,
            links,
            points,
        })
    }

    /// What is known of the program.
    pub fn facts(&self) -> &Facts<'a>
        ensures { result.now ≡ self.now.facts }
    {
        self.below.facts
    }

    /// Whether an item of a point may be of a thread that was started there or below.
    fn may_start_at(&self, point: u32) -> bool
        requires { point < length self.now.facts.program.points }
        ensures { result ≡ false → (f : ℕ) → (i : ItemAt) → i.point ≡ point →
            IsItemOf (basis_of self.now.facts) (has_of self.now.entries) f i → i.child ≡ false }
    {
        self.below.may_start(self.links.at(point))
    }

    /// Whether an item of a point of a function may be of a thread that was started there or below.
    pub fn may_start(&self, function: u32) -> bool
        requires { function < length self.now.facts.program.functions }
        ensures { result ≡ false → (i : ItemAt) →
            IsItemOf (basis_of self.now.facts) (has_of self.now.entries) function i → i.child ≡ false }
    {
        prove!(self.below.facts.points().count() <= MOST_POINTS);
        for point in self.points.at(function) {
            if self.may_start_at(*point as u32) {
                return true;
            }
        }
        false
    }

    /// The items of a point.
    fn items_at(&self, alloc: Global, point: u32) -> Result<Vec<ItemAt>, NoMemory>
        requires { point < length self.now.facts.program.points }
        ensures { IfOk result (λ found. (f : ℕ) → function_at self.now.facts.program point ≡ Some f →
            (i : ItemAt) → Contains found.items i
            ↔ ((i.point ≡ point) × IsItemOf (basis_of self.now.facts) (has_of self.now.entries) f i)) }
    {
        if let Some(label) = accessed(self.below.facts, point) {
            return Ok(vec![in alloc; own_access(point, label.0)]?);
        }
        let found = self.below.items_of_links(alloc, self.links.at(point))?;
        Ok(found)
    }

    /// The items of all points of a function.
    pub fn items_in(&self, alloc: Global, function: u32) -> Result<Vec<ItemAt>, NoMemory>
        requires { function < length self.now.facts.program.functions }
        ensures in_range { IfOk result (λ found. All (IsItemInRange self.now.facts) found.items) }
        ensures members { IfOk result (λ found. (i : ItemAt) → Contains found.items i
            ↔ IsItemOf (basis_of self.now.facts) (has_of self.now.entries) function i) }
    {
        prove!(self.below.facts.points().count() <= MOST_POINTS);
        prove!(self.below.facts.origins().labels() == self.below.facts.labels().count());
        let mut found = Vec::new(alloc);
        for point in self.points.at(function) {
            let items = self.items_at(alloc, *point as u32)?;
            found.extend_from_slice(&items)?;
        }
        Ok(found)
    }

    /// The locks with which an item below rises to a point by a way into its function.
    fn risen_locks(
        &self,
        alloc: Global,
        point: u32,
        way: &Way,
        below: Correlation,
        child: bool,
    ) -> Result<IdSet, NoMemory>
        requires { point < length self.now.facts.program.points }
        ensures members { IfOk result (λ set. (x : ℕ) → (has_id set x ≡ true)
            ↔ (((y : ℕ) × (has_lock self.now.entries below y ≡ true)
            × RisesAs (flow_of self.now.facts.origins) way.now y x)
            ⊎ ((child ≡ false) × (has_id (keep_of self.now.held point) x ≡ true)))) }
        ensures in_range { IfOk result (IsSetBelow (length self.now.facts.labels.entries)) }
    {
        let risen = risen(alloc, self.below.facts, way, self.below.locks(below))?;
        let set = with_kept(self.held, point, child, &risen)?;
        Ok(set)
    }

    /// The locks that are held at an item of a point.
    pub fn locks(&self, alloc: Global, item: &ItemAt) -> Result<IdSet, NoMemory>
        requires { IsItemInRange self.now.facts item.now }
        ensures members { IfOk result (λ set. (x : ℕ) → (has_id set x ≡ true)
            ↔ HasLock (basis_of self.now.facts) (held_table self.now.held) (locks_of self.now.entries)
            item.now.point item.now.source item.now.child item.now.access x) }
        ensures in_range { IfOk result (IsSetBelow (length self.now.facts.labels.entries)) }
    {
        match item.source {
            Source::OwnAccess => {
                let set = self.held.at(item.point).copy()?;
                Ok(set)
            }
            Source::ItemBelow {
                way,
                function,
                child,
                subject,
            } => {
                let below = Correlation {
                    function,
                    child,
                    subject,
                    access: item.access,
                };
                let set = self.risen_locks(alloc, item.point, &way, below, item.child)?;
                Ok(set)
            }
        }
    }
}
