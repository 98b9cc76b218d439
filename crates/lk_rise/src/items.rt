//! The items of a program.
ghost use Rattle.std.specs.Prelude.{◌≡◌, ◌<◌, Some, length, map, slice_get, IfOk};
ghost use Rattle.std.specs.List.Sorted.{IsStrictlyIncreasing};
ghost use Rattle.std.specs.Option.{option_map};
ghost use Rattle.lk_rise.specs.Correlations.{AreInRange};
ghost use Rattle.lk_rise.specs.Items.{item_in, item_with, items_of};

use crate::correlations::{Correlation, Correlations};
use lk_base::NoMemory;
use lk_facts::{Facts, Label, Subject};
use std::alloc::Global;
use std::marker::Model;

/// An item: an access that a function makes, itself or in what it runs or starts.
#[derive(Clone, Copy)]
pub struct Item {
    /// The function.
    pub function: u32,
    /// Whether a thread makes the access that was started in the function, and not its own thread.
    pub child: bool,
    /// What is accessed, as the function names it.
    pub subject: Subject,
    /// The point of the access.
    pub access: u32,
}

/// The items of a program, each once, with the locks that are held at each.
///
/// A contract sees them as the correlations that they are, and as the list of items, in one order.
#[derive(Drop)]
pub struct Items {
    found: Correlations,
    items: Vec<Item>,
}

impl Model for Items {
    ghost use Rattle.std.specs.Prelude.{◌≡◌, length};
    ghost use Rattle.lk_rise.specs.Items.{ItemTable, items_of};

    ghost Value = { ItemTable };

    ghost view = { λ a. items_of a.found a.items.items };

    ghost invariant = { λ a. length a.items.items ≡ length a.found };
}

/// The item of a correlation, whose subject is a label.
fn named(facts: &Facts<'_>, correlation: Correlation) -> Item
    requires { correlation.subject < length facts.now.labels.entries }
    ensures { result ≡ item_with facts.now.labels correlation }
{
    Item {
        function: correlation.function,
        child: correlation.child,
        subject: facts.labels().subject(Label(correlation.subject)),
        access: correlation.access,
    }
}

/// The items of correlations, in their order.
fn all_named(alloc: Global, facts: &Facts<'_>, found: &Correlations) -> Result<Vec<Item>, NoMemory>
    requires { AreInRange facts.now (length facts.now.labels.entries) found.now }
    ensures { IfOk result (λ items. items.items ≡ map (item_in facts.now.labels) found.now) }
{
    let mut items = Vec::new(alloc);
    for i in 0..found.count() {
        items.push(named(facts, found.item(i)))?;
    }
    Ok(items)
}

impl Items {
    /// The items that these correlations are.
    pub fn new(alloc: Global, facts: &Facts<'_>, found: Correlations) -> Result<Items, NoMemory>
        requires { AreInRange facts.now (length facts.now.labels.entries) found }
        ensures { IfOk result (λ items. items ≡ items_of found (map (item_in facts.now.labels) found)) }
    {
        let items = all_named(alloc, facts, &found)?;
        Ok(Items { found, items })
    }

    /// How many items there are.
    pub fn count(&self) -> usize
        ensures value { result ≡ length self.now.entries }
        ensures items { length self.now.items ≡ length self.now.entries }
    {
        self.items.len()
    }

    /// The item with this number.
    pub fn item(&self, i: usize) -> &Item
        requires { i < length self.now.entries }
        ensures { slice_get self.now.items i ≡ Some result.now }
    {
        &self.items[i]
    }

    /// The locks that are held at the item with this number, in ascending order.
    pub fn locks(&self, i: usize) -> &[u32]
        requires { i < length self.now.entries }
        ensures value { option_map (λ entry. entry.1) (slice_get self.now.entries i) ≡ Some result.now }
        ensures sorted { IsStrictlyIncreasing result.now }
    {
        self.found.locks(i)
    }

    /// The items, by the numbers of the labels that they access.
    pub fn correlations(&self) -> &Correlations
        ensures { result.now ≡ self.now.entries }
    {
        &self.found
    }
}
