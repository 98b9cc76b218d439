//! The values of the cases of a `switch`.
ghost use Rattle.std.specs.Prelude.{◌≡◌, ◌++◌, ◌∷◌, [], OnErr, OnOk};
ghost use Rattle.std.specs.List.{list_any};
ghost use Rattle.lk_typed.specs.StatementRules.{are_equal};

use indexmap::IndexSet;
use lk_base::NoMemory;
use std::alloc::Global;
use std::marker::Model;

/// The values of the cases of a `switch` so far, in the order of the text. Whether a value is among
/// them is found in constant time.
///
/// A contract sees them as a list, with nothing for a case of which no value is known.
#[derive(Drop)]
pub struct CaseValues {
    list: Vec<Option<i128>>,
    /// The same, each once.
    set: IndexSet<Option<i128>>,
}

impl Model for CaseValues {
    ghost use Rattle.std.specs.Prelude.{List, Option, ℤ};
    ghost use Rattle.std.specs.Option.{option_eq};
    ghost use Rattle.std.specs.Ordering.{int_eq};
    ghost use Rattle.lk_check_decl.specs.Sets.{HasSame};

    ghost Value = { List (Option ℤ) };

    ghost view = { λ values. values.list.items };

    ghost invariant = { λ values. HasSame (option_eq int_eq) values.set.keys values.list.items };
}

impl CaseValues {
    /// No values. It takes no memory.
    pub fn new(alloc: Global) -> CaseValues
        ensures { result ≡ [] }
    {
        CaseValues {
            list: Vec::new(alloc),
            set: IndexSet::new(alloc),
        }
    }

    /// Whether a value is known and among them.
    pub(crate) fn has(&self, value: Option<i128>) -> bool
        ensures { result ≡ list_any (are_equal value) self.now }
    {
        match value {
            Some(_) => self.set.contains(&value),
            None => false,
        }
    }

    /// Puts the value of one more case behind the others. Where no memory is found they are as before.
    pub fn push(&mut self, value: Option<i128>) -> Result<(), NoMemory>
        ensures ok { OnOk result (self.new ≡ self.old ++ value ∷ []) }
        ensures err { OnErr result (self.new ≡ self.old) }
    {
        self.list.reserve(1)?;
        self.set.insert(value)?;
        self.list.push_reserved(value);
        Ok(())
    }
}
