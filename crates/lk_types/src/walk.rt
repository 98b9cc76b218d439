//! The numbers of nodes in the walk of a type.
ghost use Rattle.std.specs.Prelude.{◌≡◌, ◌↔◌, IsTrue, ◌<◌, ◌≤◌, ◌+◌, length, slice_get, Some, None, IfSome, IfOk, MatchOption};
ghost use Rattle.std.specs.Option.{option_map};
ghost use Rattle.lk_types.specs.Table.{IsKnown, type_at, fields_of};
ghost use Rattle.lk_types.specs.Walks.{has_tag, branches, fields};
ghost use Rattle.lk_types.specs.Building.{IsTable};
ghost use Rattle.lk_types.specs.Nodes.{IsNode, node_of, first, step, is_void_tag, part_of_void, IsBase, IsSel, HasNoElement};
ghost use Rattle.lk_types.specs.Places.{entry_at, is_node, branch_of, step_inside, IsInPart, IsWay, IsPlaceOfField};
ghost use Rattle.lk_types.specs.declared.node.Base.TheVariants.{Start, Tag};
ghost use Rattle.lk_types.specs.declared.node.Sel.TheVariants.{Target, Element, Field};

use crate::c_type::CType;
use crate::node::{Base, NodeId, Sel};
use crate::table::TypeTable;
use crate::type_id::TypeId;
use lk_base::NoMemory;
use std::alloc::Global;

/// How a part of a type is reached.
#[derive(Clone, Copy)]
enum Way {
    /// It is the Tag of this type.
    Tag(TypeId),
    /// Its walk begins so many entries after the one that follows the type's own.
    Inside(u32),
}

impl TypeTable {
    /// Whether a pointer to the type leads to its Tag: it is `void`, or is or holds by value a struct.
    pub fn has_tag(&self, t: TypeId) -> bool
        requires { IsKnown self.now t }
        ensures { result ≡ has_tag self.now t }
    {
        matches!(self.get(t), CType::Void) || self.holds_struct(t)
    }

    /// The type of a field of a type, or nothing where it has no such field.
    fn field(&self, t: TypeId, number: u32) -> Option<TypeId>
        requires { IsKnown self.now t }
        ensures value { result ≡ slice_get (fields_of self.now (type_at self.now t)) number }
        ensures table { IsTable self.now }
        ensures known { IfSome result (IsKnown self.now) }
    {
        let place = number as usize;
        match self.get(t) {
            CType::Struct(s) => {
                let members = self.members(*s);
                if place < members.len() {
                    Some(members[place].ty)
                } else {
                    None
                }
            }
            CType::Function { result, params, .. } => {
                let params = params.list();
                if place == 0 {
                    Some(*result)
                } else if place <= params.len() {
                    Some(params[place - 1])
                } else {
                    None
                }
            }
            CType::Void
            | CType::Int(_)
            | CType::ThreadId
            | CType::Mutex
            | CType::Cond
            | CType::Pointer(_)
            | CType::Array(_, _)
            | CType::Opaque(_) => None,
        }
    }

    /// How many entries the walks of the fields before this one have together, or nothing
    /// where there is no such field.
    fn nodes_before(&self, t: TypeId, number: u32) -> Option<u32>
        requires { IsKnown self.now t }
        ensures { MatchOption result (length (fields_of self.now (type_at self.now t)) ≤ number)
            (IsPlaceOfField self.now t number) }
    {
        let mut count = 0;
        for k in 0..number {
            match self.field(t, k) {
                Some(field) => count += self.size(field).nodes,
                None => return None,
            }
        }
        match self.field(t, number) {
            Some(_) => Some(count),
            None => None,
        }
    }

    /// The number and the type of the field in whose walk the entry stands that comes so many entries after
    /// the one that follows the type's own, and the number of the entry there.
    fn field_at(&self, t: TypeId, number: u32) -> (u32, TypeId, u32)
        requires known { IsKnown self.now t }
        requires entry { is_node (entry_at self.now t (number + 1)) }
        requires fields { branches self.now (type_at self.now t)
            ≡ fields 0 (fields_of self.now (type_at self.now t)) }
        ensures { IsInPart self.now t number (Field result.0) result.1 result.2 }
    {
        let mut rest = number;
        let mut k = 0;
        while let Some(field) = self.field(t, k) {
            let nodes = self.size(field).nodes;
            if rest < nodes {
                return (k, field, rest);
            }
            rest -= nodes;
            k += 1;
        }
        (k, t, rest)
    }

    /// The step to the part in whose walk an entry stands, the part, and the number of the entry there.
    fn part_at(&self, t: TypeId, number: u32) -> (Sel, TypeId, u32)
        requires known { IsKnown self.now t }
        requires entry { is_node (entry_at self.now t (number + 1)) }
        ensures { IsInPart self.now t number result.0 result.1 result.2 }
    {
        match self.get(t) {
            CType::Pointer(part) => (Sel::Target, *part, number),
            CType::Array(part, _) => (Sel::Element, *part, number),
            CType::Void
            | CType::Int(_)
            | CType::ThreadId
            | CType::Mutex
            | CType::Cond
            | CType::Struct(_)
            | CType::Function { .. }
            | CType::Opaque(_) => {
                let (k, field, rest) = self.field_at(t, number);
                (Sel::Field(k), field, rest)
            }
        }
    }

    /// The node Start of a type.
    pub fn start_node(&self, t: TypeId) -> NodeId
        requires { IsKnown self.now t }
        ensures node { IsNode self.now result }
        ensures first { node_of self.now result ≡ first (Start t) }
    {
        NodeId {
            base: Base::Start(t),
            number: 0,
        }
    }

    /// The type of a node.
    pub fn node_type(&self, n: NodeId) -> TypeId
        requires { IsNode self.now n }
        ensures value { result ≡ (node_of self.now n).type }
        ensures known { IsKnown self.now result }
    {
        self.is_table();
        let mut t = n.base.ty();
        let mut number = n.number;
        while number > 0 {
            let (_sel, part, rest) = self.part_at(t, number - 1);
            t = part;
            number = rest;
        }
        t
    }

    /// The steps that lead to a node from where its walk begins.
    pub fn path(&self, alloc: Global, n: NodeId) -> Result<Vec<Sel>, NoMemory>
        requires { IsNode self.now n }
        ensures { IfOk result (λ path. path.items ≡ (node_of self.now n).path) }
    {
        self.is_table();
        let mut path = Vec::new(alloc);
        let mut t = n.base.ty();
        let mut number = n.number;
        while number > 0 {
            let (sel, part, rest) = self.part_at(t, number - 1);
            path.push(sel)?;
            t = part;
            number = rest;
        }
        Ok(path)
    }

    /// Whether the path of a node goes into no array, so that the node of an
    /// object is one part of it at most.
    pub fn has_no_element(&self, n: NodeId) -> bool
        requires { IsNode self.now n }
        ensures { IsTrue result ↔ HasNoElement (node_of self.now n).path }
    {
        self.is_table();
        let mut t = n.base.ty();
        let mut number = n.number;
        while number > 0 {
            let (_sel, part, rest) = self.part_at(t, number - 1);
            if matches!(self.get(t), CType::Array(_, _)) {
                return false;
            }
            t = part;
            number = rest;
        }
        true
    }

    /// How a pointer leads to what it points to.
    fn way_to_target(&self, t: TypeId) -> Option<Way>
        requires { IsKnown self.now t }
        ensures way { MatchOption result (branch_of self.now (type_at self.now t) Target ≡ None)
            (IsWay self.now t Target) }
    {
        match self.get(t) {
            CType::Pointer(target) => {
                if self.has_tag(*target) {
                    Some(Way::Tag(self.least_alike(*target)))
                } else {
                    Some(Way::Inside(0))
                }
            }
            CType::Void
            | CType::Int(_)
            | CType::ThreadId
            | CType::Mutex
            | CType::Cond
            | CType::Array(_, _)
            | CType::Struct(_)
            | CType::Function { .. }
            | CType::Opaque(_) => None,
        }
    }

    /// How an array leads to its elements.
    fn way_to_element(&self, t: TypeId) -> Option<Way>
        requires { IsKnown self.now t }
        ensures way { MatchOption result (branch_of self.now (type_at self.now t) Element ≡ None)
            (IsWay self.now t Element) }
    {
        match self.get(t) {
            CType::Array(_, _) => Some(Way::Inside(0)),
            CType::Void
            | CType::Int(_)
            | CType::ThreadId
            | CType::Mutex
            | CType::Cond
            | CType::Pointer(_)
            | CType::Struct(_)
            | CType::Function { .. }
            | CType::Opaque(_) => None,
        }
    }

    /// How a struct or a function leads to a field.
    fn way_to_field(&self, t: TypeId, number: u32) -> Option<Way>
        requires { IsKnown self.now t }
        ensures way { MatchOption result (branch_of self.now (type_at self.now t) (Field number) ≡ None)
            (IsWay self.now t (Field number)) }
    {
        self.is_table();
        match self.nodes_before(t, number) {
            Some(count) => Some(Way::Inside(count)),
            None => None,
        }
    }

    /// How a step leads from a type to one of its parts, or nothing where it has no such part.
    fn way(&self, t: TypeId, sel: Sel) -> Option<Way>
        requires { IsKnown self.now t }
        ensures way { MatchOption result (branch_of self.now (type_at self.now t) sel ≡ None)
            (IsWay self.now t sel) }
    {
        match sel {
            Sel::Target => self.way_to_target(t),
            Sel::Element => self.way_to_element(t),
            Sel::Field(number) => self.way_to_field(t, number),
            Sel::Part(_) => None,
        }
    }

    /// The Tag to which a Part leads from the Tag of `void`, or nothing where `void` has no such part.
    fn part_of_void(&self, base: Base, part: TypeId) -> Option<NodeId>
        requires base { IsBase self.now base }
        requires part { IsKnown self.now part }
        ensures exact { option_map (node_of self.now) result ≡ part_of_void self.now base part }
        ensures node { IfSome result (IsNode self.now) }
    {
        let least = self.least_alike(part);
        if self.is_void_tag(base) && self.parts().contains(&least) {
            Some(self.tag_node(least))
        } else {
            None
        }
    }

    /// Whether a walk begins at the Tag of `void`.
    fn is_void_tag(&self, base: Base) -> bool
        requires { IsBase self.now base }
        ensures { result ≡ is_void_tag self.now base }
    {
        match base {
            Base::Start(_) => false,
            Base::Tag(t) => matches!(self.get(t), CType::Void),
        }
    }

    /// The node Tag of a type that is the least of those that are equal but for the sizes of arrays.
    fn tag_node(&self, t: TypeId) -> NodeId
        requires { IsBase self.now (Tag t) }
        ensures node { IsNode self.now result }
        ensures first { node_of self.now result ≡ first (Tag t) }
    {
        NodeId {
            base: Base::Tag(t),
            number: 0,
        }
    }

    /// The node to which a step leads that is no Part.
    fn step_inside(&self, n: NodeId, sel: Sel) -> Option<NodeId>
        requires { IsNode self.now n }
        ensures exact { option_map (node_of self.now) result ≡ step_inside self.now (node_of self.now n) sel }
        ensures node { IfSome result (IsNode self.now) }
    {
        self.is_table();
        let base = n.base;
        let number = n.number;
        let t = self.node_type(n);
        match self.way(t, sel) {
            Some(way) => match way {
                Way::Tag(tag) => Some(self.tag_node(tag)),
                Way::Inside(place) => Some(NodeId {
                    base,
                    number: number + place + 1,
                }),
            },
            None => None,
        }
    }

    /// The node to which a step leads, or nothing exactly where the node has no such part.
    ///
    /// A Part leads from the Tag of `void` alone, where the list of parts has the least type that is equal to
    /// the one that is named but for the sizes of arrays.
    pub fn step_node(&self, n: NodeId, sel: Sel) -> Option<NodeId>
        requires node { IsNode self.now n }
        requires sel { IsSel self.now sel }
        ensures exact { option_map (node_of self.now) result ≡ step self.now (node_of self.now n) sel }
        ensures node { IfSome result (IsNode self.now) }
    {
        match sel {
            Sel::Part(part) => self.part_of_void(n.base, part),
            Sel::Target => self.step_inside(n, Sel::Target),
            Sel::Element => self.step_inside(n, Sel::Element),
            Sel::Field(number) => self.step_inside(n, Sel::Field(number)),
        }
    }
}
