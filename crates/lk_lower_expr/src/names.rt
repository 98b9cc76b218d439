//! What the numbers of a typed tree stand for in the program.

ghost use Rattle.std.specs.Prelude.{◌≡◌, ◌<◌, ◌^◌, false, get_or};
ghost use Rattle.lk_lower_expr.specs.Naming.{at_of, local_of, object_of, slot_of, slot_of_local, AreFew};
ghost use Rattle.lk_lower_expr.specs.Values.{slot_named};

use lk_base::{Seq, Spot};
use lk_typed::Storage;
use lk_types::TypeId;

/// A local of a body.
#[derive(Clone, Copy)]
pub struct LocalNames {
    /// The number of the node of its declared name.
    pub ordinal: u32,
    /// The place of that name.
    pub spot: Spot,
    /// The source's number of its type.
    pub ty: TypeId,
    /// Whether it is a slot.
    pub is_slot: bool,
    /// The number of its slot, or of its root.
    pub number: u32,
}

impl LocalNames {
    /// Its slot, where it is one.
    pub fn slot(self) -> Option<u32>
        ensures { result ≡ slot_of_local self }
    {
        if self.is_slot {
            Some(self.number)
        } else {
            None
        }
    }
}

/// What the numbers of a source and of one of its bodies stand for in the program.
#[derive(Drop)]
pub struct SourceNames {
    /// The point that is the first step of each node.
    pub bases: Seq<u32>,
    /// Of a node with a root or a hidden slot of its own the number of that.
    pub by_node: Seq<u32>,
    /// The program's number of each type.
    pub types: Seq<TypeId>,
    /// That of the pointer to it.
    pub pointers: Seq<TypeId>,
    /// The root of each entity that a source of the program defines.
    pub objects: Seq<u32>,
    /// The function of each entity that a source of the program defines.
    pub functions: Seq<u32>,
    /// Whether a source of the program defines each entity.
    pub defined: Seq<bool>,
    /// The locals of the body.
    pub locals: Seq<LocalNames>,
}

/// What stands for a local past the last one.
const NO_LOCAL: LocalNames = LocalNames {
    ordinal: 0,
    spot: Spot {
        file: 0,
        line: 0,
        col: 0,
    },
    ty: TypeId(0),
    is_slot: false,
    number: 0,
};

impl SourceNames {
    /// The number of a step of a node.
    pub fn at(&self, node: u32, step: u32) -> u32
        requires bases { AreFew self.now }
        requires step { step < 2 ^ 31 }
        ensures { result ≡ at_of self.now node step }
    {
        match self.bases.list().get(node as usize) {
            Some(base) => *base + step,
            None => step,
        }
    }

    /// A local of the body; past the last one no slot, and zeros.
    pub fn local(&self, local: u32) -> LocalNames
        ensures { result ≡ local_of self.now.locals local }
    {
        match self.locals.list().get(local as usize) {
            Some(names) => *names,
            None => NO_LOCAL,
        }
    }

    /// The slot that a name stands for, where it stands for one.
    pub fn slot(&self, storage: Storage) -> Option<u32>
        ensures { result ≡ slot_named (slot_of self.now.locals) storage }
    {
        match storage {
            Storage::Entity(_) => None,
            Storage::Local(local) => self.local(local).slot(),
        }
    }

    /// Whether a source of the program defines an entity of the source.
    pub fn is_defined(&self, entity: u32) -> bool
        ensures { result ≡ get_or self.now.defined entity false }
    {
        match self.defined.list().get(entity as usize) {
            Some(defined) => *defined,
            None => false,
        }
    }

    /// The root of an object; 0 past the last one.
    pub fn object_number(&self, storage: Storage) -> u32
        ensures { result ≡ object_of self.now storage }
    {
        match storage {
            Storage::Entity(entity) => self.entity_root(entity),
            Storage::Local(local) => self.local(local).number,
        }
    }

    /// The root of an entity; 0 past the last one.
    fn entity_root(&self, entity: u32) -> u32
        ensures { result ≡ get_or self.now.objects entity 0 }
    {
        match self.objects.list().get(entity as usize) {
            Some(number) => *number,
            None => 0,
        }
    }

    /// The function that an entity of the source is; 0 past the last one.
    pub fn function_number(&self, entity: u32) -> u32
        ensures { result ≡ get_or self.now.functions entity 0 }
    {
        match self.functions.list().get(entity as usize) {
            Some(number) => *number,
            None => 0,
        }
    }

    /// The root or the hidden slot of a node; 0 past the last one.
    pub fn node_number(&self, node: u32) -> u32
        ensures { result ≡ get_or self.now.by_node node 0 }
    {
        match self.by_node.list().get(node as usize) {
            Some(number) => *number,
            None => 0,
        }
    }

    /// The program's number of a type; 0 past the last one.
    pub fn type_number(&self, ty: TypeId) -> TypeId
        ensures { result ≡ get_or self.now.types ty 0 }
    {
        match self.types.list().get(ty.0 as usize) {
            Some(number) => *number,
            None => TypeId(0),
        }
    }

    /// The program's number of the pointer to a type; 0 past the last one.
    pub fn pointer_number(&self, ty: TypeId) -> TypeId
        ensures { result ≡ get_or self.now.pointers ty 0 }
    {
        match self.pointers.list().get(ty.0 as usize) {
            Some(number) => *number,
            None => TypeId(0),
        }
    }
}
