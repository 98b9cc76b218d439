//! Forms of types in the order in which they came, each with something that is kept of it.
ghost use Rattle.std.specs.Prelude.{◌≡◌, ◌<◌, ◌++◌, ◌∷◌, [], length, slice_get, take, Some, IfOk, OnOk, OnErr, MatchOption};
ghost use Rattle.lk_types.specs.Forms.{IsAbsent, AreApart, IsAt};

use crate::c_type::CType;
use indexmap::IndexMap;
use lk_base::NoMemory;
use std::alloc::Global;
use std::marker::Model;

/// Different forms of types in the order in which they came, each with something that is kept of it. A
/// contract sees them as a list of pairs.
#[derive(Drop)]
pub struct Forms<V> {
    entries: IndexMap<CType, V>,
}

impl<V> Model for Forms<V> {
    ghost use Rattle.std.specs.Prelude.{List};
    ghost use Rattle.lk_types.specs.declared.c_type.CType.{CType};

    ghost Value = { List (CType × V) };

    ghost view = { λ forms. forms.entries.entries };
}

impl<V> Forms<V> {
    /// No forms.
    pub fn new(alloc: Global) -> Forms<V>
        ensures { result ≡ [] }
    {
        Forms {
            entries: IndexMap::new(alloc),
        }
    }

    /// How many forms there are.
    pub fn len(&self) -> usize
        ensures value { result ≡ length self.now }
        ensures apart { AreApart self.now }
    {
        self.entries.len()
    }

    /// The form at a place, and what is kept of it.
    pub fn at(&self, place: usize) -> (&CType, &V)
        requires { place < length self.now }
        ensures { slice_get self.now place ≡ Some (result.0.now, result.1.now) }
    {
        self.entries.get_index(place).unwrap()
    }

    /// The place of a form, or nothing where it isn't there.
    pub fn find(&self, form: &CType) -> Option<usize>
        ensures { MatchOption result (IsAbsent self.now form.now) (λ place. IsAt self.now form.now place) }
    {
        match self.entries.get_full(form) {
            Some((place, _, _)) => Some(place),
            None => None,
        }
    }
}

impl<V: Drop> Forms<V> {
    /// Puts a new form at the end. Where no memory is found the forms are as before.
    pub fn push(&mut self, form: CType, kept: V) -> Result<(), NoMemory>
        requires { IsAbsent self.old form }
        ensures ok { OnOk result (self.new ≡ self.old ++ (form, kept) ∷ []) }
        ensures err { OnErr result (self.new ≡ self.old) }
    {
        self.entries.insert(form, kept)?;
        Ok(())
    }

    /// Keeps the first so many forms.
    pub fn truncate(&mut self, count: usize)
        ensures { self.new ≡ take count self.old }
    {
        self.entries.truncate(count);
    }
}

impl<V: Copy + Drop> Forms<V> {
    /// An equal list.
    pub fn copy(&self, alloc: Global) -> Result<Forms<V>, NoMemory>
        ensures { IfOk result (λ forms. forms ≡ self.now) }
    {
        let mut forms = Forms::new(alloc);
        for place in 0..self.len() {
            let (form, kept) = self.at(place);
            forms.push(form.copy()?, *kept)?;
        }
        Ok(forms)
    }
}
