//! How items rise.
ghost use Rattle.std.specs.Prelude.{◌≡◌, ◌<◌, ◌||◌, ◌↔◌, ℕ, true, [], length, slice_get, Some, All, Contains, IfOk, OnOk, IsTrue};
ghost use Rattle.lk_facts.specs.Facts.{basis_of};
ghost use Rattle.lk_facts.specs.Lists.{Lists};
ghost use Rattle.lk_facts.specs.Origins.{flow_of};
ghost use Rattle.lk_facts.specs.declared.way.Way.{Way};
ghost use Rattle.lk_links.specs.Links.{IsLink};
ghost use Rattle.lk_links.specs.declared.link.Link.{Link};
ghost use Rattle.lk_rise.specs.Correlations.{AreInRange, has_item, set_of};
ghost use Rattle.lk_rise.specs.Links.{AreLinksInto};
ghost use Rattle.lk_rise.specs.Passing.{IsPassage, IsUpBy};
ghost use Rattle.lk_rise.specs.Rising.{Carries, subjects_below};
ghost use Rattle.lk_rise.specs.Tables.{Fits, IsSound, Steps, Works, Grows, HasBased, HasWithin, above_of, setting};
ghost use Rattle.lk_rise.specs.Tables.{AreAbove, AreAboveWithin, IsOffer, AreMet, HasPassed, IsSettled};
ghost use Rattle.lk_rise.specs.declared.correlations.Correlation.{Correlation};

use crate::correlations::{Correlation, Correlations};
use crate::rising::{Rising, Subjects};
use lk_above::{is_child_above, with_kept};
use lk_base::{NoMemory, Seq};
use lk_facts::Way;
use lk_links::{Link, outside, risen};
use lk_sets::IdSet;
use std::alloc::Global;

/// An item with its locks, and what both are above by a way into its function.
#[derive(Drop)]
pub(crate) struct Passage {
    /// The item.
    pub item: Correlation,
    /// Its locks.
    pub locks: IdSet,
    /// The way.
    pub way: Way,
    /// What the item's subject is above.
    pub subjects: IdSet,
    /// The locks with which it rises.
    pub risen: IdSet,
}

/// Whether two ways are the same.
fn are_same(a: Way, b: Way) -> bool
    ensures { IsTrue result ↔ (a ≡ b) }
{
    a == b
}

/// The item above, for an item below and what its subject is above.
fn above(link: Link, item: Correlation, subject: u32) -> Correlation
    ensures { result ≡ above_of link item subject }
{
    let function = link.above;
    let child = is_child_above(link, item.child);
    let access = item.access;
    Correlation {
        function,
        child,
        subject,
        access,
    }
}

impl Rising<'_> {
    /// What a subject below is above, by a way into its function.
    fn carried(&self, alloc: Global, way: &Way, subject: u32) -> Result<IdSet, NoMemory>
        requires { subject < subjects_below self.now.facts.now self.now.subjects }
        ensures exact { IfOk result
            (Lists (Carries (flow_of self.now.facts.now.origins) self.now.subjects way.now subject)) }
        ensures in_range { IfOk result (All (λ x. x < subjects_below self.now.facts.now self.now.subjects)) }
    {
        match self.subjects {
            Subjects::AsTheyAre => {
                let same = IdSet::from_list(alloc, &[subject])?;
                Ok(same)
            }
            Subjects::AsOutside => {
                let labels = outside(alloc, self.facts, way, &[subject])?;
                Ok(labels)
            }
        }
    }

    /// What an item with these locks is above by a way into its function.
    fn passage(
        &self,
        alloc: Global,
        item: Correlation,
        locks: IdSet,
        way: Way,
    ) -> Result<Passage, NoMemory>
        requires { Fits (setting self.now) item locks }
        ensures { IfOk result (IsUpBy (setting self.now) item locks way) }
    {
        let subjects = self.carried(alloc, &way, item.subject)?;
        let risen = risen(alloc, self.facts, &way, locks.ids())?;
        Ok(Passage {
            item,
            locks,
            way,
            subjects,
            risen,
        })
    }

    /// Turns what an item is above by one way into what it is by another.
    fn turn(&self, alloc: Global, passage: &mut Passage, way: Way) -> Result<(), NoMemory>
        requires { IsPassage (setting self.now) passage.old }
        ensures { OnOk result (IsUpBy (setting self.now) passage.old.item passage.old.locks way passage.new) }
    {
        if are_same(passage.way, way) {
            return Ok(());
        }
        passage.subjects = self.carried(alloc, &way, passage.item.subject)?;
        passage.risen = risen(alloc, self.facts, &way, passage.locks.ids())?;
        passage.way = way;
        Ok(())
    }

    /// What an item of the table is above by a way into its function.
    fn passage_of(
        &self,
        alloc: Global,
        item: Correlation,
        way: Way,
        table: &Correlations,
    ) -> Result<Passage, NoMemory>
        requires there { has_item table.now item ≡ true }
        requires sound { IsSound (setting self.now) table.now }
        ensures { IfOk result (λ passage. (set_of table.now item ≡ Some passage.locks)
            × IsUpBy (setting self.now) item passage.locks way passage) }
    {
        let Some(set) = table.set(item) else {
            unreachable!()
        };
        let locks = set.copy()?;
        self.passage(alloc, item, locks, way)
    }

    /// Offers the set to an item. It is to rise again where it was there and has fewer locks now.
    fn offer(
        &self,
        alloc: Global,
        item: Correlation,
        set: &IdSet,
        table: &mut Correlations,
        again: &mut Vec<Correlation>,
    ) -> Result<(), NoMemory>
        requires { Fits (setting self.now) item set.now }
        ensures { OnOk result (Works (setting self.now)
            (λ entries. has_item entries item ≡ true) (HasWithin item set.now)
            table.old table.new again.old.items again.new.items) }
    {
        if table.offer(alloc, item, set)? {
            again.push(item)?;
        }
        Ok(())
    }

    /// Offers the set to the items above an item. Those of them are to rise again that have fewer locks now.
    fn offer_above(
        &self,
        alloc: Global,
        link: &Link,
        passage: &Passage,
        set: &IdSet,
        table: &mut Correlations,
        again: &mut Vec<Correlation>,
    ) -> Result<(), NoMemory>
        requires passage { IsPassage (setting self.now) passage.now }
        requires way { passage.now.way ≡ link.now.way }
        requires offer { IsOffer (setting self.now) link.now passage.now.item set.now }
        ensures { OnOk result (Works (setting self.now)
            (AreAbove (setting self.now) link.now passage.now.item)
            (AreAboveWithin (setting self.now) link.now passage.now.item set.now)
            table.old table.new again.old.items again.new.items) }
    {
        for subject in passage.subjects.ids() {
            let item = above(*link, passage.item, *subject);
            self.offer(alloc, item, set, table, again)?;
        }
        Ok(())
    }

    /// Lets an item rise by a link. Those above it are to rise again that have fewer locks now.
    fn pass_link(
        &self,
        alloc: Global,
        link: &Link,
        passage: &Passage,
        table: &mut Correlations,
        again: &mut Vec<Correlation>,
    ) -> Result<(), NoMemory>
        requires link { IsLink (basis_of self.now.facts.now) link.now.point link.now }
        requires below { passage.now.item.function ≡ link.now.below }
        requires way { passage.now.way ≡ link.now.way }
        requires passage { IsPassage (setting self.now) passage.now }
        ensures { OnOk result (Works (setting self.now)
            (AreAbove (setting self.now) link.now passage.now.item)
            (AreMet (setting self.now) link.now passage.now.item passage.now.locks)
            table.old table.new again.old.items again.new.items) }
    {
        let child = is_child_above(*link, passage.item.child);
        let set = with_kept(self.held, link.point, child, &passage.risen)?;
        self.offer_above(alloc, link, passage, &set, table, again)?;
        Ok(())
    }

    /// Lets an item rise by each of the links. Those above it are to rise again that have fewer locks now.
    fn pass_each_link(
        &self,
        alloc: Global,
        links: &[Link],
        mut passage: Passage,
        table: &mut Correlations,
        again: &mut Vec<Correlation>,
    ) -> Result<(), NoMemory>
        requires links { (link : Link) → Contains links.now link →
            IsLink (basis_of self.now.facts.now) link.point link }
        requires below { (link : Link) → Contains links.now link → passage.item.function ≡ link.below }
        requires passage { IsPassage (setting self.now) passage }
        ensures { OnOk result (Works (setting self.now)
            (λ entries. (j : ℕ) → j < length links.now → (link : Link) → slice_get links.now j ≡ Some link →
            AreAbove (setting self.now) link passage.item entries)
            (λ entries. (j : ℕ) → j < length links.now → (link : Link) → slice_get links.now j ≡ Some link →
            AreMet (setting self.now) link passage.item passage.locks entries)
            table.old table.new again.old.items again.new.items) }
    {
        for link in links {
            self.turn(alloc, &mut passage, link.way)?;
            self.pass_link(alloc, link, &passage, table, again)?;
        }
        Ok(())
    }

    /// Lets an item of the table rise by all links into its function. Those above it are to rise
    /// again that have fewer locks now.
    fn pass_item(
        &self,
        alloc: Global,
        into: &[Seq<Link>],
        item: Correlation,
        table: &mut Correlations,
        again: &mut Vec<Correlation>,
    ) -> Result<(), NoMemory>
        requires functions { length into.now ≡ length self.now.facts.now.program.functions }
        requires into { AreLinksInto (basis_of self.now.facts.now) into.now }
        requires there { has_item table.old item ≡ true }
        requires sound { IsSound (setting self.now) table.old }
        ensures steps { OnOk result (Steps (setting self.now) (HasPassed (setting self.now) into.now item)
            table.old table.new again.old.items again.new.items) }
        ensures settled { OnOk result
            (IsSettled (setting self.now) into.now again.new.items item table.new) }
    {
        let links = into[item.function as usize].list();
        let Some(first) = links.first() else {
            return Ok(());
        };
        let passage = self.passage_of(alloc, item, first.way, table)?;
        self.pass_each_link(alloc, links, passage, table, again)?;
        Ok(())
    }

    /// Lets each item rise, those too that are found on the way, and answers those that are to rise again.
    pub(crate) fn pass_all(
        &self,
        alloc: Global,
        into: &[Seq<Link>],
        table: &mut Correlations,
    ) -> Result<Vec<Correlation>, NoMemory>
        requires functions { length into.now ≡ length self.now.facts.now.program.functions }
        requires into { AreLinksInto (basis_of self.now.facts.now) into.now }
        requires sound { IsSound (setting self.now) table.old }
        ensures grows { OnOk result (Grows (setting self.now) table.old table.new) }
        ensures there { IfOk result (λ again.
            (item : Correlation) → Contains again.items item → has_item table.new item ≡ true) }
        ensures passed { OnOk result ((item : Correlation) → has_item table.new item ≡ true →
            HasPassed (setting self.now) into.now item table.new) }
        ensures settled { IfOk result (λ again. (item : Correlation) → has_item table.new item ≡ true →
            IsSettled (setting self.now) into.now again.items item table.new) }
    {
        let mut again = Vec::new(alloc);
        for k in 0..usize::MAX {
            if k >= table.count() {
                return Ok(again);
            }
            let item = table.item(k);
            self.pass_item(alloc, into, item, table, &mut again)?;
        }
        unreachable!()
    }

    /// Lets each of the items rise once more, and answers those that are to rise again.
    pub(crate) fn pass_again(
        &self,
        alloc: Global,
        into: &[Seq<Link>],
        items: &[Correlation],
        table: &mut Correlations,
    ) -> Result<Vec<Correlation>, NoMemory>
        requires functions { length into.now ≡ length self.now.facts.now.program.functions }
        requires into { AreLinksInto (basis_of self.now.facts.now) into.now }
        requires there { (item : Correlation) → Contains items.now item → has_item table.old item ≡ true }
        requires sound { IsSound (setting self.now) table.old }
        ensures steps { IfOk result (λ again. Steps (setting self.now) (λ entries. (item : Correlation) →
            Contains items.now item → HasPassed (setting self.now) into.now item entries)
            table.old table.new [] again.items) }
        ensures settled { IfOk result (λ again. (item : Correlation) → Contains items.now item →
            IsSettled (setting self.now) into.now again.items item table.new) }
    {
        let mut again = Vec::new(alloc);
        for item in items {
            self.pass_item(alloc, into, *item, table, &mut again)?;
        }
        Ok(again)
    }

    /// Offers the given items to the table.
    pub(crate) fn put_base(&self, alloc: Global, table: &mut Correlations) -> Result<(), NoMemory>
        requires { AreInRange self.now.facts.now
            (subjects_below self.now.facts.now self.now.subjects) self.now.base.now }
        ensures grows { OnOk result (Grows (setting self.now) table.old table.new) }
        ensures based { OnOk result ((i : ℕ) → i < length self.now.base.now →
            HasBased (setting self.now) i table.new) }
    {
        for entry in self.base {
            table.offer(alloc, entry.0, &entry.1)?;
        }
        Ok(())
    }
}
