//! The names, tags and structs in scope.
ghost use Rattle.std.specs.Prelude.{◌≡◌, ◌<◌, ◌++◌, ◌∷◌, [], length, drop, nat_eq, slice_get, slice_set};
ghost use Rattle.std.specs.Prelude.{OnOk, OnErr, IfOk, IfSome};
ghost use Rattle.std.specs.Option.{option_copied, option_map};
ghost use Rattle.lk_types.specs.Table.{Table};
ghost use Rattle.lk_typed.specs.Env as spec;
ghost use Rattle.lk_typed.specs.Env.{Env, Begins, Completes, is_name, latest};
ghost use Rattle.lk_typed.specs.Names.{declared_in, tag_in, IsKnownName};
ghost use Rattle.lk_typed.specs.Redeclared.{is_given_here};
ghost use Rattle.lk_typed.specs.Told.{steps};
ghost use Rattle.lk_typed.specs.Typings.{members_in, HasKnownFields};
ghost use Rattle.lk_typed.specs.declared.members.Members.TheVariants.{NotYet};
ghost use Rattle.lk_names.specs.InScope.{env_in, nothing_in_scope, HasStruct, IsKnownScope};
ghost use Rattle.lk_names.specs.Growing.{Adds, Enters, GivesBack, IsKnownLeft, IsMarkOf, Leaves, in_innermost, left, name_added, scope_added, tag_added};

use crate::declaring::gives_name;
use crate::scoped::{Scoped, latest_behind, latest_of};
use lk_base::{Name, NoMemory, Seq};
use lk_scopes::Declarations;
use lk_typed::{Declared, Members, Tag};
use std::alloc::Global;
use std::marker::Model;

/// The names, tags and structs in scope at a place of a source.
#[derive(Drop)]
pub struct Names {
    declared: Declarations<Scoped<Declared>>,
    base: usize,
    tags: Declarations<Scoped<Tag>>,
    tag_base: usize,
    structs: Seq<Members>,
}

impl Model for Names {
    ghost use Rattle.lk_names.specs.InScope.{InScope};

    ghost Value = { InScope };

    ghost view = { λ names. record {
      declared = names.declared;
      base = names.base;
      tags = names.tags;
      tag_base = names.tag_base;
      structs = names.structs;
    } };
}

/// Where the scope began in which another one was entered.
#[derive(Drop)]
pub struct Mark {
    base: usize,
    tag_base: usize,
}

/// What was declared in a scope that was left, the oldest first. It names no struct that its scope didn't.
#[derive(Drop)]
pub struct LeftScope {
    declared: Vec<Scoped<Declared>>,
    tags: Vec<Scoped<Tag>>,
}

impl Model for LeftScope {
    ghost use Rattle.lk_names.specs.Growing.{InLeftScope};

    ghost Value = { InLeftScope };

    ghost view = { λ scope. record {
      declared = scope.declared.items;
      tags = scope.tags.items;
    } };
}

impl Names {
    /// File scope, with nothing in it. It takes no memory.
    pub fn new(alloc: Global) -> Names
        ensures value { result ≡ nothing_in_scope }
        ensures known { (table : Table) → IsKnownScope table result }
    {
        Names {
            declared: Declarations::new(alloc),
            base: 0,
            tags: Declarations::new(alloc),
            tag_base: 0,
            structs: Seq::new(Vec::new(alloc)),
        }
    }

    /// Whether no name stands outside of the innermost scope, as in file scope (C99 6.2.1, 4). In a scope
    /// behind a name of file scope it doesn't hold.
    pub fn is_outermost(&self) -> bool
        ensures { result ≡ nat_eq self.now.base 0 }
    {
        self.base == 0
    }

    /// The innermost declaration of a name that is no tag (C99 6.2.1, 4).
    pub fn look_up(&self, name: &Name) -> Option<&Declared>
        ensures value { option_copied result ≡ latest (λ d. is_name d.name name.now) self.now.declared }
        ensures env { (table : Table) (rest : Env) →
            option_map (declared_in table) (option_copied result) ≡
            spec.look_up (env_in table rest self.now) name.now }
        ensures known { (table : Table) → IsKnownScope table self.now →
            IfSome (option_copied result) (IsKnownName table) }
    {
        latest_of(&self.declared, name)
    }

    /// The latest declaration of a name that is no tag in the innermost scope.
    pub fn look_up_here(&self, name: &Name) -> Option<&Declared>
        ensures value { option_copied result ≡
            latest (λ d. is_name d.name name.now) (drop self.now.base self.now.declared) }
        ensures env { (table : Table) (rest : Env) →
            option_map (declared_in table) (option_copied result) ≡
            spec.look_up_here (env_in table rest self.now) name.now }
        ensures known { (table : Table) → IsKnownScope table self.now →
            IfSome (option_copied result) (IsKnownName table) }
    {
        latest_behind(&self.declared, self.base, name)
    }

    /// Whether a declaration of a name in the innermost scope gives it a body or an initialiser.
    pub(crate) fn is_given_here(&self, name: &Name) -> bool
        ensures { (table : Table) (rest : Env) →
            result ≡ is_given_here (env_in table rest self.now) name.now }
    {
        let mut place = self.declared.len();
        while place > self.base {
            place -= 1;
            if gives_name(&self.declared.get(place).item, name) {
                return true;
            }
        }
        false
    }

    /// The innermost declaration of a tag.
    pub fn look_up_tag(&self, name: &Name) -> Option<&Tag>
        ensures value { option_copied result ≡ latest (λ tag. is_name tag.name name.now) self.now.tags }
        ensures env { (table : Table) (rest : Env) →
            option_map tag_in (option_copied result) ≡
            spec.look_up_tag (env_in table rest self.now) name.now }
        ensures known { (table : Table) → IsKnownScope table self.now →
            IfSome (option_copied result) (λ tag. HasStruct (length self.now.structs) tag.meaning) }
    {
        latest_of(&self.tags, name)
    }

    /// The latest declaration of a tag in the innermost scope.
    pub fn look_up_tag_here(&self, name: &Name) -> Option<&Tag>
        ensures value { option_copied result ≡
            latest (λ tag. is_name tag.name name.now) (drop self.now.tag_base self.now.tags) }
        ensures env { (table : Table) (rest : Env) →
            option_map tag_in (option_copied result) ≡
            spec.look_up_tag_here (env_in table rest self.now) name.now }
        ensures known { (table : Table) → IsKnownScope table self.now →
            IfSome (option_copied result) (λ tag. HasStruct (length self.now.structs) tag.meaning) }
    {
        latest_behind(&self.tags, self.tag_base, name)
    }

    /// The structs of the source by their numbers.
    pub fn structs(&self) -> &[Members]
        ensures { result.now ≡ self.now.structs }
    {
        self.structs.list()
    }

    /// What is known of the members of a struct.
    pub fn members(&self, s: u32) -> &Members
        requires { s < length self.now.structs }
        ensures { slice_get self.now.structs s ≡ Some result.now }
    {
        &self.structs.list()[s as usize]
    }

    /// Declares a name that is no tag in the innermost scope. Where no memory is found all is as before.
    pub fn declare(&mut self, declared: Declared) -> Result<(), NoMemory>
        ensures ok { OnOk result (self.new ≡
            record self.old { declared = self.old.declared ++ declared ∷ [] }) }
        ensures adds { OnOk result
            (Adds self.old self.new (λ table. name_added (declared_in table declared))) }
        ensures known { OnOk result ((table : Table) →
            IsKnownScope table self.old → IsKnownName table declared → IsKnownScope table self.new) }
        ensures err { OnErr result (self.new ≡ self.old) }
    {
        self.declared.push(Scoped { item: declared })?;
        Ok(())
    }

    /// Declares a tag in the innermost scope. Where no memory is found all is as before.
    pub fn put_tag(&mut self, tag: Tag) -> Result<(), NoMemory>
        ensures ok { OnOk result (self.new ≡ record self.old { tags = self.old.tags ++ tag ∷ [] }) }
        ensures adds { OnOk result (Adds self.old self.new (λ table. tag_added (tag_in tag))) }
        ensures known { OnOk result ((table : Table) → IsKnownScope table self.old →
            HasStruct (length self.old.structs) tag.meaning → IsKnownScope table self.new) }
        ensures err { OnErr result (self.new ≡ self.old) }
    {
        self.tags.push(Scoped { item: tag })?;
        Ok(())
    }

    /// The number of a new struct, of whose members nothing is known. Where no memory is found, or the
    /// numbers are used up, all is as before.
    pub fn begin_struct(&mut self) -> Result<u32, NoMemory>
        ensures number { IfOk result (λ s. s ≡ length self.old.structs) }
        ensures ok { OnOk result (self.new ≡ record self.old { structs = self.old.structs ++ NotYet ∷ [] }) }
        ensures adds { OnOk result (Adds self.old self.new (λ table. steps (Begins ∷ []))) }
        ensures known { OnOk result ((table : Table) →
            IsKnownScope table self.old → IsKnownScope table self.new) }
        ensures err { OnErr result (self.new ≡ self.old) }
    {
        let Ok(number) = u32::try_from(self.structs.len()) else {
            return Err(NoMemory);
        };
        self.structs.push(Members::NotYet)?;
        Ok(number)
    }

    /// From here on a struct has these members.
    pub fn set_members(&mut self, s: u32, members: Members)
        requires { s < length self.old.structs }
        ensures value { self.new ≡ record self.old { structs = slice_set self.old.structs s members } }
        ensures adds { Adds self.old self.new (λ table. steps (Completes s (members_in table members) ∷ [])) }
        ensures known { (table : Table) → IsKnownScope table self.old → HasKnownFields table members →
            IsKnownScope table self.new }
    {
        self.structs.set(s as usize, members);
    }

    /// Begins a scope. `leave` takes the mark back.
    pub fn enter(&mut self) -> Mark
        ensures mark { (table : Table) (rest : Env) → IsMarkOf result (env_in table rest self.old) }
        ensures value { self.new ≡
            record self.old { base = length self.old.declared; tag_base = length self.old.tags } }
        ensures enters { Enters self.old self.new }
        ensures known { (table : Table) → IsKnownScope table self.old → IsKnownScope table self.new }
    {
        let mark = Mark {
            base: self.base,
            tag_base: self.tag_base,
        };
        self.base = self.declared.len();
        self.tag_base = self.tags.len();
        mark
    }

    /// Ends the scope that was begun when the mark was given: its names and tags are gone, and those that
    /// they hid are in sight again. Structs stay, so that no number stands for two.
    pub fn leave(&mut self, mark: Mark)
        ensures value { self.new ≡ left mark self.old }
        ensures leaves { Leaves mark self.old self.new }
        ensures known { (table : Table) → IsKnownScope table self.old → IsKnownScope table self.new }
    {
        self.declared.truncate(self.base);
        self.tags.truncate(self.tag_base);
        self.base = mark.base;
        self.tag_base = mark.tag_base;
    }

    /// Ends the scope that was begun when the mark was given, as `leave` does, and hands out its names and
    /// tags. Where no memory is found the scope stays.
    pub fn leave_with(&mut self, alloc: Global, mark: Mark) -> Result<LeftScope, NoMemory>
        ensures value { OnOk result (self.new ≡ left mark self.old) }
        ensures leaves { OnOk result (Leaves mark self.old self.new) }
        ensures known { OnOk result
            ((table : Table) → IsKnownScope table self.old → IsKnownScope table self.new) }
        ensures scope { IfOk result (λ scope. scope ≡ in_innermost self.old) }
        ensures adds { IfOk result (λ scope. GivesBack self.old scope) }
        ensures known_scope { IfOk result (λ scope. (table : Table) → IsKnownScope table self.old →
            IsKnownLeft table (length self.old.structs) scope) }
        ensures err { OnErr result (self.new ≡ self.old) }
    {
        let mut declared = self.declared.room(alloc, self.base)?;
        let mut tags = self.tags.room(alloc, self.tag_base)?;
        self.declared.split_into(self.base, &mut declared);
        self.tags.split_into(self.tag_base, &mut tags);
        self.base = mark.base;
        self.tag_base = mark.tag_base;
        Ok(LeftScope { declared, tags })
    }

    /// Declares in the innermost scope what was declared in one that was left. Where no memory is
    /// found, some of it may be declared.
    pub fn declare_again(&mut self, scope: LeftScope) -> Result<(), NoMemory>
        ensures ok { OnOk result (self.new ≡ record self.old {
          declared = self.old.declared ++ scope.declared;
          tags = self.old.tags ++ scope.tags;
        }) }
        ensures adds { OnOk result (Adds self.old self.new (λ table. scope_added table scope)) }
        ensures known { OnOk result ((table : Table) → IsKnownScope table self.old →
            IsKnownLeft table (length self.old.structs) scope → IsKnownScope table self.new) }
    {
        let LeftScope { declared, tags } = scope;
        self.declared.push_all(declared)?;
        self.tags.push_all(tags)?;
        Ok(())
    }
}
