//! What is found of parameters (C99 6.7.5.3).
ghost use Rattle.std.specs.Prelude.{◌≡◌, ◌&&◌, ◌||◌, Option, Some, None, [], false, true, if◌then◌else◌, OnOk};
ghost use Rattle.lk_typed.specs.Parts as spec;
ghost use Rattle.lk_found.specs.Parameters.{types_listed, with_last};

use lk_base::NoMemory;
use lk_names::LeftScope;
use lk_tree::Parameter;
use lk_types::{TypeId, TypeIds};
use std::alloc::Global;

/// What is found of a list of parameters.
#[derive(Drop)]
pub struct ParametersFound {
    /// Their types, missing where one of them is faulty.
    pub types: Option<TypeIds>,
    /// Whether a `sizeof` stands in one of them.
    pub holds_sizeof: bool,
    /// What they declare.
    pub scope: LeftScope,
}

/// What is found of a parameter.
#[derive(Clone, Copy)]
pub struct ParameterFound {
    /// Its type, which is adjusted, where no fault takes it away.
    pub ty: Option<TypeId>,
    /// Whether it is `void` alone.
    pub is_bare_void: bool,
    /// Whether a `sizeof` stands in it.
    pub holds_sizeof: bool,
}

/// The parameters of a list so far.
#[derive(Drop)]
pub struct Listed {
    types: Vec<TypeId>,
    /// Whether none of them is without a type.
    are_typed: bool,
    /// Whether one of them is `void` alone.
    has_void: bool,
    /// Whether a `sizeof` stands in one of them.
    pub holds_sizeof: bool,
}

impl Listed {
    /// No parameter.
    pub fn new(alloc: Global) -> Listed
        ensures types { types_listed result ≡ Some [] }
        ensures has_void { result.has_void ≡ false }
        ensures holds_sizeof { result.holds_sizeof ≡ false }
    {
        Listed {
            types: Vec::new(alloc),
            are_typed: true,
            has_void: false,
            holds_sizeof: false,
        }
    }

    /// One more parameter.
    pub fn put(&mut self, found: ParameterFound) -> Result<(), NoMemory>
        ensures types { OnOk result (types_listed self.new ≡ with_last (types_listed self.old) found.ty) }
        ensures has_void { OnOk result (self.new.has_void ≡ (self.old.has_void || found.is_bare_void)) }
        ensures holds_sizeof { OnOk result (self.new.holds_sizeof
            ≡ (self.old.holds_sizeof || found.holds_sizeof)) }
    {
        match found.ty {
            Some(t) => self.types.push(t)?,
            None => self.are_typed = false,
        }
        self.has_void = self.has_void || found.is_bare_void;
        self.holds_sizeof = self.holds_sizeof || found.holds_sizeof;
        Ok(())
    }

    /// Their types, of which there are none where a single one is `void` alone (C99 6.7.5.3, 10).
    pub fn all_types(self, alloc: Global, is_lone: bool) -> Option<TypeIds>
        ensures { result ≡ (if is_lone && self.has_void then Some [] else types_listed self) }
    {
        if is_lone && self.has_void {
            return Some(TypeIds::new(Vec::new(alloc)));
        }
        if self.are_typed {
            Some(TypeIds::new(self.types))
        } else {
            None
        }
    }
}

/// Whether a list is of one parameter and no dots.
pub fn is_lone(list: &[Parameter], dots: bool) -> bool
    ensures { result ≡ spec.is_lone list.now dots }
{
    list.len() == 1 && !dots
}
