//! The state in which the typed tree of a source is made.
ghost use Rattle.lk_typed.specs.Elements.{HasFewElements};
ghost use Rattle.lk_typed.specs.Meaning.{IsReady};
ghost use Rattle.lk_elaborator.specs.Beginning.{Begins};

use crate::entities::Entities;
use crate::locals::Locals;
use crate::source_types::SourceTypes;
use lk_checker::{Checked, Outside};
use lk_found::Records;
use lk_names::Names;
use lk_typed::{Body, StaticObject};
use std::alloc::Global;

/// The state in which the typed tree of a source without a fault is made: what the checker found,
/// and what of the tree is made.
#[derive(Drop)]
pub struct Elaborator {
    pub alloc: Global,
    /// The types of the source, to which pointers are added.
    pub types: SourceTypes,
    /// The structs, by their numbers.
    pub names: Names,
    pub outside: Outside,
    /// What was found at the nodes.
    pub records: Records,
    /// The functions and objects of static storage that are declared so far.
    pub entities: Entities,
    /// The locals so far of the body whose tree is made.
    pub locals: Locals,
    /// The objects of static storage with an initialiser.
    pub objects: Vec<StaticObject>,
    /// The bodies that are made.
    pub bodies: Vec<Body>,
}

impl Elaborator {
    /// Nothing is made yet of a source of which this was found.
    pub fn new(alloc: Global, checked: Checked) -> Elaborator
        requires ready { IsReady checked.types }
        requires few { HasFewElements checked.types }
        ensures { Begins checked result }
    {
        let Checked {
            types,
            names,
            outside,
            records,
            ..
        } = checked;
        Elaborator {
            alloc,
            types: SourceTypes::new(types),
            names,
            outside,
            records,
            entities: Entities::new(alloc),
            locals: Locals::new(alloc),
            objects: Vec::new(alloc),
            bodies: Vec::new(alloc),
        }
    }
}
