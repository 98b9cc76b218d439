//! The state of the checker of a source.
ghost use Rattle.std.specs.Prelude.{◌≡◌, ◌<◌, ◌||◌, ℕ, List, true, false, Option, Some, None, Ok, Err, IfErr, IfOk, OnOk, MatchOption, option_map};
ghost use Rattle.std.specs.HashSet.{contains_by};
ghost use Rattle.lk_base.specs.declared.refusal.Refusal.{Refusal};
ghost use Rattle.lk_typed.specs.Env.{is_name};
ghost use Rattle.lk_typed.specs.Faults.{breach};
ghost use Rattle.lk_typed.specs.Stands.{fault_at};
ghost use Rattle.lk_names.specs.InScope.{nothing_in_scope};
ghost use Rattle.lk_rules.specs.FirstFaults.{comes_before, less_or};
ghost use Rattle.lk_rules.specs.Keeping.{keep, none_kept, watched};
ghost use Rattle.lk_found.specs.Recorded.{nothing_recorded};
ghost use Rattle.lk_found.specs.Findings.{mark_at, refusal_of};
ghost use Rattle.lk_checker.specs.States.{IsSound, Tells, fault_of, first_of, kept_in};

use indexmap::IndexSet;
use lk_base::{Code, Name, NoMemory, Refusal};
use lk_found::{At, Records};
use lk_names::Names;
use lk_types::TypeTable;
use std::alloc::Global;
use std::mem;

/// What is known of the whole source before it is checked.
#[derive(Drop)]
pub struct Outside {
    /// The names of the functions that the source defines, at any place of it.
    pub defined: IndexSet<Name>,
    /// The names that `--externs` lists.
    pub externs: IndexSet<Name>,
}

/// A code that holds at a node.
#[derive(Drop)]
struct FaultFound {
    at: At,
    code: Code,
    name: Name,
}

/// Whether a number is less than another one, or they are equal and this holds.
#[tactic(auto, unfolding(lk_rules::specs::FirstFaults::less_or))]
fn less_or(a: u32, b: u32, rest: bool) -> bool
    ensures { result ≡ less_or a b rest }
{
    a < b || a == b && rest
}

impl FaultFound {
    /// Whether a code at a node comes before it: by the place, then the code's number, then the node's.
    fn is_behind(&self, at: At, code: Code) -> bool
        ensures { (name : List ℕ) →
            result ≡ comes_before (fault_at (mark_at at) (record { code = code; name = name }))
            (fault_of self.now) }
    {
        let spot = self.at.spot;
        let by_ordinal = at.ordinal < self.at.ordinal;
        let by_code = less_or(
            u32::from(code.number()),
            u32::from(self.code.number()),
            by_ordinal,
        );
        let by_col = less_or(at.spot.col, spot.col, by_code);
        let by_line = less_or(at.spot.line, spot.line, by_col);
        less_or(at.spot.file, spot.file, by_line)
    }
}

/// This value, where there is no refusal. It is generic, so that what a checker holds is let go in one place.
fn unless_refused<T: Drop>(refusal: Option<Refusal>, value: T) -> Result<T, Refusal>
    ensures { MatchOption refusal (result ≡ Ok value) (λ refusal. result ≡ Err refusal) }
{
    match refusal {
        Some(refusal) => Err(refusal),
        None => Ok(value),
    }
}

/// A source without a fault, checked.
#[derive(Drop)]
pub struct Checked {
    /// Where memory comes from.
    pub alloc: Global,
    /// The types of the source.
    pub types: TypeTable,
    /// What is in scope at its end, with its structs.
    pub names: Names,
    /// What is known of the source before it is checked.
    pub outside: Outside,
    /// What is found at its nodes.
    pub records: Records,
}

/// The state of the checker of a source.
#[derive(Drop)]
pub struct Checker {
    /// Where memory comes from.
    pub alloc: Global,
    /// The types of the source so far.
    pub types: TypeTable,
    /// What is in scope.
    pub names: Names,
    /// What is found at the nodes of the source.
    pub records: Records,
    outside: Outside,
    least: Option<FaultFound>,
    is_broken: bool,
}

impl Checker {
    /// A checker at the beginning of a source.
    pub fn new(alloc: Global, outside: Outside) -> Result<Checker, NoMemory>
        ensures sound { IfOk result IsSound }
        ensures kept { IfOk result (λ checker. kept_in checker ≡ none_kept) }
        ensures outside { IfOk result (λ checker. checker.outside ≡ outside) }
        ensures names { IfOk result (λ checker. checker.names ≡ nothing_in_scope) }
        ensures records { IfOk result (λ checker. checker.records ≡ nothing_recorded) }
    {
        let types = TypeTable::new(alloc)?;
        types.is_table();
        Ok(Checker {
            alloc,
            types,
            names: Names::new(alloc),
            records: Records::new(alloc),
            outside,
            least: None,
            is_broken: false,
        })
    }

    /// Whether the source defines a function of this name.
    pub(crate) fn is_defined(&self, name: &Name) -> bool
        ensures { result ≡ contains_by (is_name name.now) self.now.outside.defined }
    {
        self.outside.defined.contains(name)
    }

    /// Whether `--externs` lists the name.
    pub(crate) fn is_listed(&self, name: &Name) -> bool
        ensures { result ≡ contains_by (is_name name.now) self.now.outside.externs }
    {
        self.outside.externs.contains(name)
    }

    /// Whether a code at a node comes before the least fault so far.
    fn comes_first(&self, at: At, code: Code) -> bool
        ensures { (name : List ℕ) → result ≡
            first_of self.now.least (fault_at (mark_at at) (record { code = code; name = name })) }
    {
        match &self.least {
            Some(least) => least.is_behind(at, code),
            None => true,
        }
    }

    /// Keeps a code that holds at a node, with the name that it tells.
    fn keep_code(&mut self, at: At, code: Code, name: &Name) -> Result<(), NoMemory>
        ensures { OnOk result (Tells self.old self.new at (Some (record { code = code; name = name.now }))) }
    {
        self.is_broken = true;
        if !self.comes_first(at, code) {
            return Ok(());
        }
        let name = name.copy()?;
        self.least = Some(FaultFound { at, code, name });
        Ok(())
    }

    /// Keeps a code that holds at a node, where there is one, with the name that it tells.
    pub fn keep_named(&mut self, at: At, code: Option<Code>, name: &Name) -> Result<(), NoMemory>
        ensures { OnOk result (Tells self.old self.new at
            (option_map (λ code. record { code = code; name = name.now }) code)) }
    {
        match code {
            Some(code) => self.keep_code(at, code, name),
            None => Ok(()),
        }
    }

    /// Keeps a code that holds at a node, where there is one, and tells no name.
    pub fn keep(&mut self, at: At, code: Option<Code>) -> Result<(), NoMemory>
        ensures { OnOk result (Tells self.old self.new at (option_map breach code)) }
    {
        match code {
            Some(code) => self.keep_code(at, code, &Name::empty(self.alloc)),
            None => Ok(()),
        }
    }

    /// Begins to watch for faults. It answers whether one was seen before, which `was_broken` takes back.
    pub fn watch(&mut self) -> bool
        ensures before { result ≡ self.old.is_broken }
        ensures watched { self.new ≡ record self.old { is_broken = false } }
    {
        mem::replace(&mut self.is_broken, false)
    }

    /// Whether a fault was seen since `watch`.
    pub fn was_broken(&mut self, before: bool) -> bool
        ensures seen { result ≡ self.old.is_broken }
        ensures both { self.new ≡ record self.old { is_broken = before || self.old.is_broken } }
    {
        let seen = self.is_broken;
        self.is_broken = before || seen;
        seen
    }

    /// The refusal by the least fault. It is taken out, so `checked` would find none afterwards.
    pub fn first_fault(&mut self) -> Option<Refusal>
        ensures told { result ≡ option_map refusal_of (kept_in self.old).least }
        ensures rest { self.new ≡ record self.old { least = None } }
    {
        match self.least.take() {
            Some(FaultFound { at, code, name }) => Some(Refusal {
                code,
                spot: at.spot,
                name,
            }),
            None => None,
        }
    }

    /// What was checked, whether it has a fault or not.
    fn found(self) -> Checked
        ensures types { result.types ≡ self.types }
        ensures names { result.names ≡ self.names }
        ensures outside { result.outside ≡ self.outside }
        ensures records { result.records ≡ self.records }
    {
        Checked {
            alloc: self.alloc,
            types: self.types,
            names: self.names,
            outside: self.outside,
            records: self.records,
        }
    }

    /// What was checked, where it has no fault; else the refusal by the least fault.
    pub fn checked(self) -> Result<Checked, Refusal>
        ensures ok { IfOk result (λ checked. option_map refusal_of (kept_in self).least ≡ None) }
        ensures err { IfErr result (λ refusal. option_map refusal_of (kept_in self).least ≡ Some refusal) }
        ensures types { IfOk result (λ checked. checked.types ≡ self.types) }
        ensures names { IfOk result (λ checked. checked.names ≡ self.names) }
        ensures outside { IfOk result (λ checked. checked.outside ≡ self.outside) }
        ensures records { IfOk result (λ checked. checked.records ≡ self.records) }
    {
        let mut checker = self;
        let first = checker.first_fault();
        unless_refused(first, checker.found())
    }
}
