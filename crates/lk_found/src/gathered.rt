//! What specifiers tell together: their storage classes, the type that they name, and
//! their codes (C99 6.7.1, 6.7.2).
ghost use Rattle.std.specs.Prelude.{◌≡◌, ◌++◌, ◌∷◌, ◌||◌, [], List, Option, None, unwrap_or, if◌then◌else◌, OnOk, IfOk, IfSome};
ghost use Rattle.std.specs.Option.{option_map};
ghost use Rattle.lk_types.specs.Table.{Table, IsKnown};
ghost use Rattle.lk_typed.specs.DeclarationRules.{specifier_rules};
ghost use Rattle.lk_typed.specs.Faults.{Breach as SpecBreach};
ghost use Rattle.lk_typed.specs.Meaning.{meaning, IsReady};
ghost use Rattle.lk_typed.specs.Told as spec;
ghost use Rattle.lk_typed.specs.Told.{SpecifierTold};
ghost use Rattle.lk_typed.specs.Ty.{Ty};
ghost use Rattle.lk_check_decl.specs.Twins.{holder_of};
ghost use Rattle.lk_found.specs.Specified.{optional_breach, coded, AreOthers, IsGathered, IsNamed, IsSpecified};

use lk_base::{Code, Name, NoMemory};
use lk_check_decl::{Holder, specifier_code};
use lk_names::type_of_words;
use lk_tree::{Storage, TypeWord};
use lk_types::TypeId;
use std::alloc::Global;

/// A code, with the name that it tells.
#[derive(Drop)]
pub struct Breach {
    /// The code.
    pub code: Code,
    /// The name, where it tells one.
    pub name: Option<Name>,
}

/// The types among specifiers that are no words.
#[derive(Clone, Copy)]
enum Others {
    Nothing,
    /// One, missing where it is faulty.
    One(Option<TypeId>),
    Several,
}

/// Specifiers so far.
#[derive(Drop)]
pub struct Gathered {
    storages: Vec<Storage>,
    words: Vec<TypeWord>,
    others: Others,
    holds_sizeof: bool,
    breaches: Vec<Breach>,
}

/// What the specifiers of a list tell.
#[derive(Drop)]
pub struct Specified {
    /// Their storage classes.
    pub storages: Vec<Storage>,
    /// The type that they name, where they name one.
    pub named: Option<TypeId>,
    /// The same, where they break no rule of specifiers.
    pub ty: Option<TypeId>,
    /// Whether a `sizeof` stands in them.
    pub holds_sizeof: bool,
    /// The codes that hold for what they stand in.
    pub breaches: Vec<Breach>,
}

impl Gathered {
    /// No specifiers.
    pub fn new(alloc: Global) -> Gathered
        ensures { (table : Table) → IsGathered table result spec.no_specifier [] }
    {
        Gathered {
            storages: Vec::new(alloc),
            words: Vec::new(alloc),
            others: Others::Nothing,
            holds_sizeof: false,
            breaches: Vec::new(alloc),
        }
    }

    /// One more storage class.
    pub fn put_storage(&mut self, word: Storage) -> Result<(), NoMemory>
        ensures { OnOk result ((table : Table) (told : SpecifierTold) (broken : List SpecBreach) →
            IsGathered table self.old told broken →
            IsGathered table self.new (record told { storages = told.storages ++ word ∷ [] }) broken) }
    {
        self.storages.push(word)?;
        Ok(())
    }

    /// One more word of a type.
    pub fn put_word(&mut self, word: TypeWord) -> Result<(), NoMemory>
        ensures { OnOk result ((table : Table) (told : SpecifierTold) (broken : List SpecBreach) →
            IsGathered table self.old told broken →
            IsGathered table self.new (record told { words = told.words ++ word ∷ [] }) broken) }
    {
        self.words.push(word)?;
        Ok(())
    }

    /// One more type that is no word, missing where it is faulty.
    pub fn put_type(&mut self, t: Option<TypeId>)
        ensures { (table : Table) (told : SpecifierTold) (broken : List SpecBreach) →
            IfSome t (IsKnown table) → IsGathered table self.old told broken →
            IsGathered table self.new
            (record told { types = told.types ++ option_map (meaning table) t ∷ [] }) broken }
    {
        self.others = with_other(self.others, t);
    }

    /// A `sizeof` stands in one more, or not.
    pub fn put_sizeof(&mut self, holds: bool)
        ensures { (table : Table) (told : SpecifierTold) (broken : List SpecBreach) →
            IsGathered table self.old told broken →
            IsGathered table self.new (record told { holds_sizeof = told.holds_sizeof || holds }) broken }
    {
        self.holds_sizeof = self.holds_sizeof || holds;
    }

    /// One more code, where there is one.
    pub fn put_breach(&mut self, breach: Option<Breach>) -> Result<(), NoMemory>
        ensures { OnOk result ((table : Table) (told : SpecifierTold) (broken : List SpecBreach) →
            IsGathered table self.old told broken →
            IsGathered table self.new told (broken ++ optional_breach breach)) }
    {
        if let Some(breach) = breach {
            self.breaches.push(breach)?;
        }
        Ok(())
    }

    /// What words and other types name together: words in a combination of 6.7.2, or one other type. The
    /// inner type is missing where that is faulty.
    fn named_type(&self) -> Option<Option<TypeId>>
        ensures { (table : Table) (told : SpecifierTold) (broken : List SpecBreach) → IsReady table →
            IsGathered table self.now told broken →
            IsNamed table result (spec.named_type told.words told.types) }
    {
        match self.others {
            Others::Nothing => match type_of_words(self.words.as_slice()) {
                Some(t) => Some(Some(t)),
                None => None,
            },
            Others::One(t) => { if self.words.is_empty() { Some(t) } else { None } }
            Others::Several => None,
        }
    }

    /// One more code that tells no name, where there is one.
    fn put_code(&mut self, code: Option<Code>) -> Result<(), NoMemory>
        ensures { OnOk result ((table : Table) (told : SpecifierTold) (broken : List SpecBreach) →
            IsGathered table self.old told broken → IsGathered table self.new told (broken ++ coded code)) }
    {
        if let Some(code) = code {
            self.breaches.push(Breach { code, name: None })?;
        }
        Ok(())
    }

    /// What they tell where they stand in this, with the code of specifiers as wholes: `Code::Mismatch`.
    pub fn specified(mut self, holder: Holder) -> Result<Specified, NoMemory>
        ensures { IfOk result (λ specified. (table : Table) (told : SpecifierTold) (broken : List SpecBreach) →
            IsReady table → IsGathered table self told broken →
            IsSpecified table (holder_of holder) specified told
            (broken ++ specifier_rules (holder_of holder) told)) }
    {
        let named = self.named_type();
        let code = specifier_code(holder, self.storages.as_slice(), named.is_some());
        let ty = type_unless(&named, code.is_some());
        let all = type_unless(&named, false);
        self.put_code(code)?;
        let Gathered {
            storages,
            holds_sizeof,
            breaches,
            ..
        } = self;
        Ok(Specified {
            storages,
            named: all,
            ty,
            holds_sizeof,
            breaches,
        })
    }
}

/// The types with one more.
fn with_other(others: Others, t: Option<TypeId>) -> Others
    ensures { (table : Table) (types : List (Option Ty)) → IfSome t (IsKnown table) →
        AreOthers table others types → AreOthers table result (types ++ option_map (meaning table) t ∷ []) }
{
    match others {
        Others::Nothing => Others::One(t),
        Others::One(_) | Others::Several => Others::Several,
    }
}

/// The type that specifiers name, where they name one that isn't faulty, unless a rule is broken.
fn type_unless(named: &Option<Option<TypeId>>, is_broken: bool) -> Option<TypeId>
    ensures { result ≡ (if is_broken then None else unwrap_or named.now None) }
{
    if is_broken {
        return None;
    }
    match named {
        Some(t) => *t,
        None => None,
    }
}
