//! A list of what is declared by names.
ghost use Rattle.std.specs.Prelude.{◌≡◌, ◌<◌, ◌≤◌, ◌-◌, Some, slice_get, vec_capacity, cond, IsSome, ◌++◌, ◌∷◌, [], List, ℕ, length, reverse, take, drop, OnOk, OnErr, IfOk, MatchOption};
ghost use Rattle.std.specs.Map.{lookup};
ghost use Rattle.std.specs.Option.{option_copied};
ghost use Rattle.lk_scopes.specs.Latest.{latest, is_name};

use crate::bytes::Bytes;
use crate::named::Named;
use indexmap::IndexMap;
use lk_base::{Name, NoMemory};
use std::alloc::Global;
use std::marker::Model;

/// What is declared, and what it hides.
#[derive(Drop)]
struct Entry<T> {
    /// What is declared.
    item: T,
    /// The place of the latest one before it that has its name.
    hides: Option<usize>,
}

/// What is declared by names, the oldest first. The latest one of a name is found in constant time.
///
/// A contract sees it as the list of these.
#[derive(Drop)]
pub struct Declarations<T: Named> {
    entries: Vec<Entry<T>>,
    latest: IndexMap<Name, usize>,
}

impl<T: Named> Model for Declarations<T> {
    ghost use Rattle.std.specs.Prelude.{List, map};
    ghost use Rattle.lk_scopes.specs.Places.{AreLatest};

    ghost Value = { List T };

    ghost view = { λ declared. map (λ entry. entry.item) declared.entries.items };

    ghost invariant = { λ declared. AreLatest
        (map T.name_of (map (λ entry. entry.item) declared.entries.items))
        (map (λ entry. entry.hides) declared.entries.items)
        declared.latest.entries };
}

/// Puts the place that was hidden in the place of a name's latest one.
fn put_back(latest: &mut IndexMap<Name, usize>, name: &Name, hidden: Option<usize>)
    requires { IsSome (lookup (is_name name.now) latest.old.entries) }
    ensures { (q : List ℕ) →
        lookup (is_name q) latest.new.entries ≡
        cond (is_name name.now q) hidden (lookup (is_name q) latest.old.entries) }
{
    match hidden {
        Some(place) => {
            if let Some(latest) = latest.get_mut(name) {
                *latest = place;
            }
        }
        None => {
            latest.swap_remove(name);
        }
    }
}

impl<T: Named> Declarations<T> {
    /// Nothing is declared. It takes no memory.
    pub fn new(alloc: Global) -> Declarations<T>
        ensures { result ≡ [] }
    {
        Declarations {
            entries: Vec::new(alloc),
            latest: IndexMap::new(alloc),
        }
    }

    /// How many are declared.
    pub fn len(&self) -> usize
        ensures { result ≡ length self.now }
    {
        self.entries.len()
    }

    /// The one that was declared behind so many others.
    pub fn get(&self, place: usize) -> &T
        requires { place < length self.now }
        ensures { slice_get self.now place ≡ Some result.now }
    {
        &self.entries[place].item
    }

    /// The latest one whose name has these bytes.
    pub fn look_up(&self, name: &[u8]) -> Option<&T>
        ensures { option_copied result ≡ latest (λ item. is_name (T.name_of item) name.now) self.now }
    {
        match self.latest.get(Bytes { bytes: name }) {
            Some(place) => Some(&self.entries[*place].item),
            None => None,
        }
    }

    /// The latest one whose name has these bytes, of those behind the first `base`.
    pub fn look_up_behind(&self, base: usize, name: &[u8]) -> Option<&T>
        ensures { option_copied result ≡
            latest (λ item. is_name (T.name_of item) name.now) (drop base self.now) }
    {
        match self.latest.get(Bytes { bytes: name }) {
            Some(place) => {
                if *place < base {
                    return None;
                }
                Some(&self.entries[*place].item)
            }
            None => None,
        }
    }
}

impl<T: Named + Drop> Declarations<T> {
    /// Declares one more. Where no memory is found all is as before.
    pub fn push(&mut self, item: T) -> Result<(), NoMemory>
        ensures ok { OnOk result (self.new ≡ self.old ++ item ∷ []) }
        ensures err { OnErr result (self.new ≡ self.old) }
    {
        self.entries.reserve(1)?;
        let name = item.name().copy()?;
        let place = self.entries.len();
        let hides = self.latest.insert(name, place)?;
        self.entries.push_reserved(Entry { item, hides });
        Ok(())
    }

    /// Declares more. Where no memory is found, some of them may be declared.
    pub fn push_all(&mut self, items: Vec<T>) -> Result<(), NoMemory>
        ensures { OnOk result (self.new ≡ self.old ++ items.items) }
    {
        for item in items {
            self.push(item)?;
        }
        Ok(())
    }

    /// Takes the last one away, if there is one; what it hid is the latest of its name again.
    fn pop(&mut self) -> Option<T>
        ensures { MatchOption result
            (self.new ≡ self.old × (self.old ≡ []))
            (λ item. self.old ≡ self.new ++ item ∷ []) }
    {
        match self.entries.pop() {
            Some(Entry { item, hides }) => {
                put_back(&mut self.latest, item.name(), hides);
                Some(item)
            }
            None => None,
        }
    }

    /// Takes away all but the first `count`: those that they hid are in sight again.
    pub fn truncate(&mut self, count: usize)
        ensures { self.new ≡ take count self.old }
    {
        while self.entries.len() > count {
            self.pop();
        }
    }

    /// How many stand behind the first `count`.
    fn behind(&self, count: usize) -> usize
        ensures { result ≡ length self.now - count }
    {
        self.entries.len().saturating_sub(count)
    }

    /// Room for those behind the first `count`.
    pub fn room(&self, alloc: Global, count: usize) -> Result<Vec<T>, NoMemory>
        ensures empty { IfOk result (λ taken. taken.items ≡ []) }
        ensures room { IfOk result (λ taken. length self.now - count ≤ vec_capacity taken) }
    {
        let taken = Vec::with_capacity(alloc, self.behind(count))?;
        Ok(taken)
    }

    /// Takes away all but the first `count`, the last one first, and puts them into a list in this order.
    fn unwind(&mut self, count: usize, taken: &mut Vec<T>)
        requires empty { taken.old.items ≡ [] }
        requires room { length self.old - count ≤ vec_capacity taken.old }
        ensures rest { self.new ≡ take count self.old }
        ensures taken { reverse taken.new.items ≡ drop count self.old }
    {
        while self.behind(count) > 0 {
            if let Some(item) = self.pop() {
                taken.push_reserved(item);
            }
        }
    }

    /// Takes away all but the first `count`, as `truncate` does, and puts them into a list, the oldest first.
    pub fn split_into(&mut self, count: usize, taken: &mut Vec<T>)
        requires empty { taken.old.items ≡ [] }
        requires room { length self.old - count ≤ vec_capacity taken.old }
        ensures rest { self.new ≡ take count self.old }
        ensures taken { taken.new.items ≡ drop count self.old }
    {
        self.unwind(count, taken);
        taken.reverse();
    }
}
