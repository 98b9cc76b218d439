//! The places of a list by what stands there.
ghost use Rattle.std.specs.Prelude.{◌≡◌, ◌≢◌, ◌<◌, ◌++◌, ◌∷◌, ℕ, [], length, All, IfOk, OnOk};
ghost use Rattle.lk_rise.specs.Groups.{lists_of, group_at, AreGroups};

use lk_base::NoMemory;
use std::alloc::Global;
use std::marker::Model;

/// For each key the places of a list at which it stands. A contract sees them as lists, one for each key.
#[derive(Drop)]
pub struct Groups {
    lists: Vec<Vec<usize>>,
}

impl Model for Groups {
    ghost use Rattle.std.specs.Prelude.{ℕ, List};
    ghost use Rattle.lk_rise.specs.Groups.{lists_of};

    ghost Value = { List (List ℕ) };

    ghost view = { λ groups. lists_of groups.lists.items };
}

/// So many empty lists.
fn empty_lists(alloc: Global, count: usize) -> Result<Vec<Vec<usize>>, NoMemory>
    ensures length { IfOk result (λ lists. length lists.items ≡ count) }
    ensures empty { IfOk result (λ lists. (key : ℕ) → group_at (lists_of lists.items) key ≡ []) }
{
    let mut lists = Vec::new(alloc);
    for _ in 0..count {
        lists.push(Vec::new(alloc))?;
    }
    Ok(lists)
}

/// Puts a place behind those of its key.
fn push_place(lists: &mut Vec<Vec<usize>>, key: u32, place: usize) -> Result<(), NoMemory>
    requires { key < length lists.old.items }
    ensures length { OnOk result (length lists.new.items ≡ length lists.old.items) }
    ensures here { OnOk result (group_at (lists_of lists.new.items) key
        ≡ group_at (lists_of lists.old.items) key ++ place ∷ []) }
    ensures others { OnOk result ((k : ℕ) → k ≢ key →
        group_at (lists_of lists.new.items) k ≡ group_at (lists_of lists.old.items) k) }
{
    lists[key as usize].push(place)?;
    Ok(())
}

impl Groups {
    /// The places of these keys, which are below `count`.
    pub fn new(alloc: Global, keys: &[u32], count: usize) -> Result<Groups, NoMemory>
        requires { All (λ key. key < count) keys.now }
        ensures length { IfOk result (λ groups. length groups ≡ count) }
        ensures groups { IfOk result (AreGroups keys.now) }
    {
        let mut lists = empty_lists(alloc, count)?;
        for place in 0..keys.len() {
            push_place(&mut lists, keys[place], place)?;
        }
        Ok(Groups { lists })
    }

    /// The places at which a key stands.
    pub fn at(&self, key: u32) -> &[usize]
        requires { key < length self.now }
        ensures { result.now ≡ group_at self.now key }
    {
        &self.lists[key as usize]
    }
}
