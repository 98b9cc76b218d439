//! Tags: which declaration a use of one speaks of, and whether it may stand there (C99 6.7.2.3).
ghost use Rattle.std.specs.Prelude.{◌≡◌, ◌<◌, ℕ, IfSome, if◌then◌else◌, length};
ghost use Rattle.std.specs.Option.{option_copied, option_map};
ghost use Rattle.lk_types.specs.Table.{Table};
ghost use Rattle.lk_typed.specs.Env.{Env, Name, members_of, look_up_tag, look_up_tag_here};
ghost use Rattle.lk_typed.specs.Names.{tag_in, tag_meaning_in};
ghost use Rattle.lk_typed.specs.Redeclared as spec;
ghost use Rattle.lk_typed.specs.Told as told;
ghost use Rattle.lk_typed.specs.Typings.{structs_in};
ghost use Rattle.lk_names.specs.InScope.{env_in, HasStruct, IsKnownScope};
ghost use Rattle.lk_names.specs.Uses.{rules_use, breaches_told};

use crate::names::Names;
use lk_base::{Code, Name};
use lk_typed::{Members, Tag, TagMeaning};

/// What specifiers do with a tag.
#[derive(Clone, Copy)]
pub enum TagUse {
    /// `struct tag { .. }`
    DefinesStruct,
    /// `enum tag { .. }`
    DefinesEnum,
    /// `struct tag`
    NamesStruct,
    /// `enum tag`
    NamesEnum,
    /// `struct tag;` (C99 6.7.2.3, 7)
    DeclaresStruct,
}

/// Whether a use speaks of a tag of its own scope alone.
fn speaks_of_own_scope(wanted: TagUse) -> bool
    ensures { (env : Env) (name : Name) → spec.tag_meant env (rules_use wanted) name ≡
        (if result then look_up_tag_here env name else look_up_tag env name) }
{
    match wanted {
        TagUse::DefinesStruct | TagUse::DefinesEnum | TagUse::DeclaresStruct => true,
        TagUse::NamesStruct | TagUse::NamesEnum => false,
    }
}

impl Names {
    /// Whether a struct may still be defined: its definition has neither begun nor ended.
    pub fn is_open(&self, s: u32) -> bool
        ensures { (table : Table) → result ≡ spec.is_open (members_of (structs_in table self.now.structs) s) }
    {
        match self.structs().get(s as usize) {
            Some(members) => match members {
                Members::NotYet => true,
                Members::Begun | Members::Known(_) | Members::Faulty => false,
            },
            None => true,
        }
    }

    /// The tag that a use speaks of: a definition or a lone declaration of that of its own
    /// scope, else the innermost one.
    pub fn tag_meant(&self, wanted: TagUse, name: &Name) -> Option<&Tag>
        ensures value { (table : Table) (rest : Env) →
            option_map tag_in (option_copied result) ≡
            spec.tag_meant (env_in table rest self.now) (rules_use wanted) name.now }
        ensures known { (table : Table) → IsKnownScope table self.now →
            IfSome (option_copied result) (λ tag. HasStruct (length self.now.structs) tag.meaning) }
    {
        if speaks_of_own_scope(wanted) {
            self.look_up_tag_here(name)
        } else {
            self.look_up_tag(name)
        }
    }

    /// Whether a use may stand where its tag has this meaning: a struct and an enumeration are defined once,
    /// and each is named by its own word.
    fn admits(&self, meaning: TagMeaning, wanted: TagUse) -> bool
        ensures { (table : Table) (rest : Env) →
            result ≡ spec.admits (env_in table rest self.now) (tag_meaning_in meaning) (rules_use wanted) }
    {
        match meaning {
            TagMeaning::Struct(s) => match wanted {
                TagUse::DefinesStruct => self.is_open(s),
                TagUse::NamesStruct | TagUse::DeclaresStruct => true,
                TagUse::DefinesEnum | TagUse::NamesEnum => false,
            },
            TagMeaning::Enum => match wanted {
                TagUse::NamesEnum => true,
                TagUse::DefinesStruct
                | TagUse::DefinesEnum
                | TagUse::NamesStruct
                | TagUse::DeclaresStruct => false,
            },
            TagMeaning::Faulty => true,
        }
    }

    /// Whether a use may stand where this tag is found for it.
    pub fn may_use(&self, found: Option<&Tag>, wanted: TagUse) -> bool
        ensures { (table : Table) (rest : Env) → result ≡
            spec.may_use (env_in table rest self.now)
            (option_map tag_in (option_copied found.entry)) (rules_use wanted) }
    {
        match found {
            Some(tag) => self.admits(tag.meaning, wanted),
            None => true,
        }
    }

    /// The code of a use of a tag: `Code::Redeclared` where it may not stand.
    pub fn tag_code(&self, wanted: TagUse, name: &Name) -> Option<Code>
        ensures { (table : Table) (rest : Env) → breaches_told result name.now ≡
            spec.tag_rules (env_in table rest self.now) (rules_use wanted) name.now }
    {
        if self.may_use(self.tag_meant(wanted, name), wanted) {
            None
        } else {
            Some(Code::Redeclared)
        }
    }
}

/// The struct that a tag already stands for, where it is one.
pub fn struct_meant(found: Option<&Tag>) -> Option<u32>
    ensures value { result ≡ told.struct_meant (option_map tag_in (option_copied found.entry)) }
    ensures known { (count : ℕ) → IfSome (option_copied found.entry) (λ tag. HasStruct count tag.meaning) →
        IfSome result (λ s. s < count) }
{
    match found {
        Some(tag) => match tag.meaning {
            TagMeaning::Struct(s) => Some(s),
            TagMeaning::Enum | TagMeaning::Faulty => None,
        },
        None => None,
    }
}
