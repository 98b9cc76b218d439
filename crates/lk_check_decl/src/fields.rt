//! The fields of a struct while its members are read.
ghost use Rattle.std.specs.Prelude.{◌≡◌, ◌++◌, ◌∷◌, [], is_some, map, OnErr, OnOk};
ghost use Rattle.lk_types.specs.Table.{Table, is_empty};
ghost use Rattle.lk_typed.specs.Env.{field_of};
ghost use Rattle.lk_typed.specs.Typings.{field_in};

use indexmap::IndexSet;
use lk_base::{Name, NoMemory};
use lk_typed::Field;
use std::alloc::Global;
use std::marker::Model;

/// The fields of a struct so far, in their order. Whether one of them has a name is found in constant time.
///
/// A contract sees them as a list.
#[derive(Drop)]
pub struct Fields {
    list: Vec<Field>,
    /// Their names, each once.
    names: IndexSet<Name>,
}

impl Model for Fields {
    ghost use Rattle.std.specs.Prelude.{List, map};
    ghost use Rattle.lk_typed.specs.Env.{is_name};
    ghost use Rattle.lk_typed.specs.declared.members.Field.{Field};
    ghost use Rattle.lk_check_decl.specs.Sets.{HasSame};

    ghost Value = { List Field };

    ghost view = { λ fields. fields.list.items };

    ghost invariant = { λ fields. HasSame is_name fields.names.keys
        (map (λ field. field.name) fields.list.items) };
}

impl Fields {
    /// No fields. It takes no memory.
    pub fn new(alloc: Global) -> Fields
        ensures { result ≡ [] }
    {
        Fields {
            list: Vec::new(alloc),
            names: IndexSet::new(alloc),
        }
    }

    /// Whether there are none.
    pub fn is_empty(&self) -> bool
        ensures { result ≡ is_empty self.now }
    {
        self.list.is_empty()
    }

    /// Whether one of them has this name.
    pub(crate) fn has(&self, name: &Name) -> bool
        ensures { (table : Table) → result ≡ is_some (field_of (map (field_in table) self.now) name.now) }
    {
        self.names.contains(name)
    }

    /// Puts one more behind the others. Where no memory is found they are as before.
    pub fn push(&mut self, field: Field) -> Result<(), NoMemory>
        ensures ok { OnOk result (self.new ≡ self.old ++ field ∷ []) }
        ensures err { OnErr result (self.new ≡ self.old) }
    {
        self.list.reserve(1)?;
        let name = field.name.copy()?;
        self.names.insert(name)?;
        self.list.push_reserved(field);
        Ok(())
    }

    /// The fields. It takes no memory.
    pub fn into_vec(self) -> Vec<Field>
        ensures { result.items ≡ self }
    {
        let Fields { list, .. } = self;
        list
    }
}
