//! What the numbers of a source stand for in the program.
ghost use Rattle.std.specs.Prelude.{◌≡◌, ◌<◌, ◌^◌, [], All, IfOk, get_or, length, map, slice_get, Some};
ghost use Rattle.lk_lower_expr.specs.Naming.{AreFew};
ghost use Rattle.lk_lower_parts.specs.Givens.{HasTables, at_node, behind_source, function_by, function_here, function_in, is_defined, object_here, root_by, root_in};

use crate::counts::{FunctionNumbers, declaration_of, definition_here};
use crate::roots::row_of;
use crate::start::{first_of, source_of};
use lk_base::{NoMemory, Seq};
use lk_lower_expr::SourceNames;
use lk_typed::{Linked, Whole};
use lk_types::TypeId;
use std::alloc::Global;

/// The numbers that the program has given.
#[derive(Clone, Copy)]
pub struct Given<'a> {
    pub alloc: Global,
    pub whole: &'a Whole,
    pub functions: &'a FunctionNumbers,
    /// Of each node of each source the number of its first point.
    pub points: &'a [Seq<u32>],
    /// Of each node of each source the number of its root or slot.
    pub by_node: &'a [Seq<u32>],
    /// Of each type of each source the pointer to it.
    pub pointers: &'a [Seq<TypeId>],
}

/// Numbers, once more.
fn copied(alloc: Global, list: &[u32]) -> Result<Seq<u32>, NoMemory>
    ensures { IfOk result (λ copy. copy ≡ list.now) }
{
    Ok(Seq::new(Vec::from_slice(alloc, list)?))
}

/// The numbers of types, once more.
fn copied_types(alloc: Global, list: &[TypeId]) -> Result<Seq<TypeId>, NoMemory>
    ensures { IfOk result (λ copy. copy ≡ list.now) }
{
    Ok(Seq::new(Vec::from_slice(alloc, list)?))
}

/// What stands at a place in a list; another number past its end.
pub(crate) fn number_or(list: &[u32], place: usize, other: u32) -> u32
    ensures { result ≡ get_or list.now place other }
{
    match list.get(place) {
        Some(number) => *number,
        None => other,
    }
}

/// The number of a node; 0 past the last one.
pub(crate) fn number_at(by_node: &[u32], node: u32) -> u32
    ensures { result ≡ get_or by_node.now node 0 }
{
    number_or(by_node, node as usize, 0)
}

impl<'a> Given<'a> {
    /// The source of this place.
    pub fn linked(&self, source: usize) -> &'a Linked
        requires { source < length self.now.whole.now.sources }
        ensures { slice_get self.now.whole.now.sources source ≡ Some result.now }
    {
        source_of(self.whole, source)
    }

    /// The number of the function of the first body of a source; 0 past the last one.
    pub fn first(&self, source: usize) -> u32
        ensures { result ≡ get_or self.now.functions.now.first source 0 }
    {
        first_of(self.functions, source)
    }

    /// The root of a declared node of a source; 0 past the last one.
    fn root(&self, source: u32, ordinal: u32) -> u32
        ensures { result ≡ at_node self.now.by_node.now source ordinal }
    {
        match self.by_node.get(source as usize) {
            Some(row) => number_at(row.list(), ordinal),
            None => 0,
        }
    }

    /// The root of an entity that a source defines; 0 where it has none.
    fn root_in(&self, source: u32, e: u32) -> u32
        ensures { result ≡ root_in self.now source e }
    {
        let Some(linked) = self.whole.sources.get(source as usize) else {
            return 0;
        };
        let Some(entity) = linked.unit.entities.get(e as usize) else {
            return 0;
        };
        match declaration_of(entity) {
            Some(declaration) => self.root(source, declaration.ordinal),
            None => 0,
        }
    }

    /// The root of an entity by its definition; 0 where no source defines it.
    pub(crate) fn root_of(&self, definition: Option<(u32, u32)>) -> u32
        ensures { result ≡ root_by self.now definition }
    {
        match definition {
            Some((source, e)) => self.root_in(source, e),
            None => 0,
        }
    }

    /// The number behind those of the functions of a source; 0 past the last one.
    fn behind_source(&self, source: u32) -> u32
        ensures { result ≡ behind_source self.now source }
    {
        number_or(self.functions.first.list(), source as usize + 1, 0)
    }

    /// The function of an entity that a source defines; the number behind those of
    /// the source where it has none.
    fn function_in(&self, source: u32, e: u32) -> u32
        ensures { result ≡ function_in self.now source e }
    {
        let none = self.behind_source(source);
        match self.functions.of_entities.get(source as usize) {
            Some(row) => number_or(row.list(), e as usize, none),
            None => none,
        }
    }

    /// The function of an entity by its definition; 0 where no source defines it.
    pub(crate) fn function_of(&self, definition: Option<(u32, u32)>) -> u32
        ensures { result ≡ function_by self.now definition }
    {
        match definition {
            Some((source, e)) => self.function_in(source, e),
            None => 0,
        }
    }

    /// The roots of the entities of a source.
    fn objects(&self, linked: &Linked) -> Result<Seq<u32>, NoMemory>
        ensures { IfOk result (λ objects. objects ≡ map (object_here self.now) linked.now.entities) }
    {
        let mut objects = Vec::new(self.alloc);
        for here in linked.entities.list() {
            objects.push(self.root_of(definition_here(self.whole, *here)))?;
        }
        Ok(Seq::new(objects))
    }

    /// The functions of the entities of a source.
    fn functions(&self, linked: &Linked) -> Result<Seq<u32>, NoMemory>
        ensures { IfOk result (λ functions. functions ≡ map (function_here self.now) linked.now.entities) }
    {
        let mut functions = Vec::new(self.alloc);
        for here in linked.entities.list() {
            functions.push(self.function_of(definition_here(self.whole, *here)))?;
        }
        Ok(Seq::new(functions))
    }

    /// Whether a source of the program defines each of the entities of a source.
    fn defined(&self, linked: &Linked) -> Result<Seq<bool>, NoMemory>
        ensures { IfOk result (λ defined. defined ≡ map (is_defined self.now) linked.now.entities) }
    {
        let mut defined = Vec::new(self.alloc);
        for here in linked.entities.list() {
            defined.push(definition_here(self.whole, *here).is_some())?;
        }
        Ok(Seq::new(defined))
    }

    /// The pointers to the types of a source; none past the last one.
    fn pointers_to(&self, source: usize) -> &'a [TypeId]
        ensures { result.now ≡ get_or self.now.pointers.now source [] }
    {
        match self.pointers.get(source) {
            Some(row) => row.list(),
            None => &[],
        }
    }

    /// What the numbers of the source of this place stand for.
    pub fn names(&self, source: usize) -> Result<SourceNames, NoMemory>
        requires within { source < length self.now.whole.now.sources }
        requires small { All (λ base. base < 2 ^ 31) (get_or self.now.points.now source []) }
        ensures few { IfOk result AreFew }
        ensures tables { IfOk result (HasTables self.now source) }
    {
        let linked = self.linked(source);
        Ok(SourceNames {
            bases: copied(self.alloc, row_of(self.points, source))?,
            by_node: copied(self.alloc, row_of(self.by_node, source))?,
            types: copied_types(self.alloc, linked.types.list())?,
            pointers: copied_types(self.alloc, self.pointers_to(source))?,
            objects: self.objects(linked)?,
            functions: self.functions(linked)?,
            defined: self.defined(linked)?,
            locals: Seq::new(Vec::new(self.alloc)),
        })
    }
}
