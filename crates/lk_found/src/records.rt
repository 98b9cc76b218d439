//! What is found at the nodes of a source, by their numbers.
ghost use Rattle.std.specs.Prelude.{◌≡◌, ◌++◌, ◌∷◌, [], Some, length, nat_eq, is_some, IfOk, OnOk};
ghost use Rattle.std.specs.Map.{lookup};
ghost use Rattle.std.specs.Option.{option_copied};
ghost use Rattle.indexmap.specs.IndexMap.{insert_entry};
ghost use Rattle.lk_found.specs.Recorded as spec;
ghost use Rattle.lk_found.specs.Recorded.{nothing_recorded, with_declared, with_expression, with_named, with_taken, with_use, with_word};

use crate::by_number::ByNumber;
use crate::found::Found;
use lk_base::{Name, NoMemory};
use lk_tree::Expr;
use lk_typed::{Defines, Linkage, Meaning, StructTag, Use};
use lk_types::TypeId;
use std::alloc::Global;
use std::marker::Model;

/// What a name stands for where an expression is that name.
#[derive(Clone, Copy)]
pub struct Meant {
    /// What it stands for.
    pub meaning: Meaning,
    /// The number of the node that declares it; 0 of what is predeclared.
    pub ordinal: u32,
}

/// What the names in scope stand for of which an expression speaks itself.
#[derive(Clone, Copy)]
pub struct NamesIn {
    /// The name that it is.
    pub word: Option<Meant>,
    /// The name whose address it takes (C99 6.5.3.2).
    pub taken: Option<Meant>,
}

/// What an initialiser is that is one expression (C99 6.7.8, 11).
#[derive(Clone, Copy)]
pub enum InitialiserKind {
    /// An initialiser word for objects of this type (POSIX, `pthread.h`).
    Word(TypeId),
    /// A value, or a text.
    Value,
}

/// A name that a declaration or a definition declares. An enumerator and a parameter are none.
#[derive(Clone, Copy)]
pub struct DeclaredHere {
    /// What it stands for.
    pub meaning: Meaning,
    /// Its linkage.
    pub linkage: Linkage,
    /// What the declaration defines.
    pub defines: Defines,
    /// Its type, with the size that its initialiser gives.
    pub ty: TypeId,
}

/// What is found at the nodes of a source, by their numbers. A contract sees it as lists.
#[derive(Drop)]
pub struct Records {
    founds: ByNumber<Found>,
    meant: ByNumber<Meant>,
    first_uses: ByNumber<Use>,
    taken: ByNumber<Use>,
    named: ByNumber<TypeId>,
    initialisers: ByNumber<InitialiserKind>,
    declared: ByNumber<DeclaredHere>,
    tags: Vec<StructTag>,
}

impl Model for Records {
    ghost use Rattle.lk_found.specs.Recorded.{Recorded};

    ghost Value = { Recorded };

    ghost view = { λ records. record {
      founds = records.founds;
      meant = records.meant;
      first_uses = records.first_uses;
      taken = records.taken;
      named = records.named;
      initialisers = records.initialisers;
      declared = records.declared;
      tags = records.tags.items;
    } };
}

/// The use of a name that is the first of two.
fn earlier(before: Option<Use>, later: Use) -> Use
    ensures { result ≡ spec.earlier before later }
{
    match before {
        Some(before) => {
            if later.ordinal < before.ordinal {
                later
            } else {
                before
            }
        }
        None => later,
    }
}

/// A tag of its own.
fn copied(tag: Option<&Name>) -> Result<Option<Name>, NoMemory>
    ensures { IfOk result (λ copied. copied ≡ option_copied tag.entry) }
{
    match tag {
        Some(name) => {
            let name = name.copy()?;
            Ok(Some(name))
        }
        None => Ok(None),
    }
}

impl Records {
    /// Nothing. It takes no memory.
    pub fn new(alloc: Global) -> Records
        ensures { result ≡ nothing_recorded }
    {
        Records {
            founds: ByNumber::new(alloc),
            meant: ByNumber::new(alloc),
            first_uses: ByNumber::new(alloc),
            taken: ByNumber::new(alloc),
            named: ByNumber::new(alloc),
            initialisers: ByNumber::new(alloc),
            declared: ByNumber::new(alloc),
            tags: Vec::new(alloc),
        }
    }

    /// What is found of the expression with this number.
    pub fn found(&self, ordinal: u32) -> Option<Found>
        ensures { result ≡ lookup (nat_eq ordinal) self.now.founds }
    {
        self.founds.get(ordinal)
    }

    /// What a name stands for, where the expression with this number is one.
    pub fn meant(&self, ordinal: u32) -> Option<Meant>
        ensures { result ≡ lookup (nat_eq ordinal) self.now.meant }
    {
        self.meant.get(ordinal)
    }

    /// The first use of the name that the node with this number declares.
    pub fn first_use(&self, declaring: u32) -> Option<Use>
        ensures { result ≡ lookup (nat_eq declaring) self.now.first_uses }
    {
        self.first_uses.get(declaring)
    }

    /// Whether `&` is applied to the name that the node with this number declares, perhaps
    /// in parentheses (C99 6.5.3.2).
    pub fn is_taken(&self, declaring: u32) -> bool
        ensures { result ≡ is_some (lookup (nat_eq declaring) self.now.taken) }
    {
        self.taken.get(declaring).is_some()
    }

    /// The type that the type name with this number names.
    pub fn type_named(&self, ordinal: u32) -> Option<TypeId>
        ensures { result ≡ lookup (nat_eq ordinal) self.now.named }
    {
        self.named.get(ordinal)
    }

    /// What the initialiser is that is the expression with this number.
    pub fn initialiser(&self, ordinal: u32) -> Option<InitialiserKind>
        ensures { result ≡ lookup (nat_eq ordinal) self.now.initialisers }
    {
        self.initialisers.get(ordinal)
    }

    /// What the declarator with this number declares, which names it.
    pub fn declared(&self, ordinal: u32) -> Option<DeclaredHere>
        ensures { result ≡ lookup (nat_eq ordinal) self.now.declared }
    {
        self.declared.get(ordinal)
    }

    /// The tags of the structs, by the numbers of these.
    pub fn tags(self) -> Vec<StructTag>
        ensures { result.items ≡ self.tags }
    {
        let Records { tags, .. } = self;
        tags
    }

    /// Puts what a name stands for, where the expression with this number is that name.
    fn put_meant(&mut self, ordinal: u32, meant: Meant) -> Result<(), NoMemory>
        ensures { OnOk result (self.new ≡
            record self.old { meant = insert_entry nat_eq self.old.meant ordinal meant }) }
    {
        self.meant.put(ordinal, &meant)
    }

    /// Puts a use of the name that a node declares.
    fn put_use(&mut self, declaring: u32, used: Use) -> Result<(), NoMemory>
        ensures { OnOk result (self.new ≡
            record self.old { first_uses = with_use declaring used self.old.first_uses }) }
    {
        let first = earlier(self.first_use(declaring), used);
        self.first_uses.put(declaring, &first)
    }

    /// Puts what a name stands for that an expression is.
    fn put_meaning(&mut self, used: Use, meant: Meant) -> Result<(), NoMemory>
        ensures { OnOk result (self.new ≡ with_word used (Some meant) self.old) }
    {
        let ordinal = used.ordinal;
        let declaring = meant.ordinal;
        self.put_meant(ordinal, meant)?;
        self.put_use(declaring, used)
    }

    /// The same, where an expression is a name.
    fn put_word(&mut self, used: Use, word: Option<Meant>) -> Result<(), NoMemory>
        ensures { OnOk result (self.new ≡ with_word used word self.old) }
    {
        match word {
            Some(meant) => self.put_meaning(used, meant),
            None => Ok(()),
        }
    }

    /// Puts a name whose address an expression takes, where it takes one's.
    fn put_taken(&mut self, used: Use, taken: Option<Meant>) -> Result<(), NoMemory>
        ensures { OnOk result (self.new ≡ with_taken used taken self.old) }
    {
        match taken {
            Some(meant) => {
                let first = earlier(self.taken.get(meant.ordinal), used);
                self.taken.put(meant.ordinal, &first)
            }
            None => Ok(()),
        }
    }

    /// Puts what is found of an expression, which speaks of these names.
    pub fn put_expression(
        &mut self,
        e: &Expr,
        found: &Found,
        names: NamesIn,
    ) -> Result<(), NoMemory>
        ensures { OnOk result (self.new ≡ with_expression e.now found.now names self.old) }
    {
        self.founds.put(e.ordinal, found)?;
        let used = Use {
            spot: e.spot,
            ordinal: e.ordinal,
        };
        self.put_word(used, names.word)?;
        self.put_taken(used, names.taken)
    }

    /// Puts the type of the type name with this number, where it has one.
    pub fn put_named(&mut self, ordinal: u32, ty: Option<TypeId>) -> Result<(), NoMemory>
        ensures { OnOk result (self.new ≡ with_named ordinal ty self.old) }
    {
        match ty {
            Some(ty) => { self.named.put(ordinal, &ty) }
            None => Ok(()),
        }
    }

    /// Puts what the initialiser is that is the expression with this number.
    pub fn put_initialiser(&mut self, ordinal: u32, kind: InitialiserKind) -> Result<(), NoMemory>
        ensures { OnOk result (self.new ≡
            record self.old { initialisers = insert_entry nat_eq self.old.initialisers ordinal kind }) }
    {
        self.initialisers.put(ordinal, &kind)
    }

    /// Puts what the declarator with this number declares, where that has a type.
    pub fn put_declared(
        &mut self,
        ordinal: u32,
        declared: Option<DeclaredHere>,
    ) -> Result<(), NoMemory>
        ensures { OnOk result (self.new ≡ with_declared ordinal declared self.old) }
    {
        match declared {
            Some(declared) => { self.declared.put(ordinal, &declared) }
            None => Ok(()),
        }
    }

    /// How many tags are recorded.
    pub fn tag_count(&self) -> usize
        ensures { result ≡ length self.now.tags }
    {
        self.tags.len()
    }

    /// Puts the tag of one more struct, where it has one.
    pub fn put_tag(&mut self, tag: Option<&Name>, is_outside: bool) -> Result<(), NoMemory>
        ensures { OnOk result (self.new ≡ record self.old {
          tags = self.old.tags ++ record { tag = option_copied tag.entry; is_outside = is_outside } ∷ [];
        }) }
    {
        let tag = copied(tag)?;
        self.tags.push(StructTag { tag, is_outside })?;
        Ok(())
    }
}
