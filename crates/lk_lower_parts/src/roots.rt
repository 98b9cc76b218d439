//! The roots and slots of a source, each at its node.
ghost use Rattle.std.specs.Prelude.{◌≡◌, ◌<◌, ◌+◌, ◌++◌, ◌∷◌, [], List, Some, IfOk, OnOk, get_or, length};
ghost use Rattle.std.specs.Option.{option_copied};
ghost use Rattle.lk_lower_expr.specs.Owned as rules;
ghost use Rattle.lk_lower_expr.specs.Programs as programs;
ghost use Rattle.lk_lower_parts.specs.Found.{all_found, as_node, as_owned};
ghost use Rattle.lk_lower_parts.specs.Gathers.{IsSourceOf};
ghost use Rattle.lk_lower_parts.specs.Tables.{HasMore};
ghost use Rattle.lk_lower_parts.specs.Wanted.{AreAmong, AreLater, AreParts, AreSlots, allocated, entity_here, form_at, function_around, function_at, function_of, heap_root, local_by, locals_of, object_of, object_root, objects_from, owned_by_statics, plain_root, root_by, roots_in, roots_in_all, roots_of, seen, slot_by, slot_of, slots_in, slots_of, slots_of_locals, text_root, type_in};
ghost use Rattle.lk_types.specs.declared.c_type.CType.{CType};

use crate::counts::{FunctionNumbers, behind, declaration_of};
use crate::names::number_at;
use crate::owned::{Finding, Owned, OwnedNode};
use crate::start::{first_of, source_of};
use crate::types::unsized_array;
use lk_base::{Name, NoMemory, Seq, Spot};
use lk_facts::{Root, RootKind};
use lk_typed::{Body, Declaration, Entity, EntityKind, Linkage, Linked, Local, Whole, WholeEntity};
use lk_types::{TypeId, TypeTable};
use std::alloc::Global;

/// A root at its node.
#[derive(Drop)]
pub struct NodeRoot {
    pub ordinal: u32,
    pub root: Root,
}

/// A slot of a body at its node, with its type.
#[derive(Clone, Copy)]
pub struct NodeSlot {
    pub ordinal: u32,
    pub ty: TypeId,
}

/// What a source has at its nodes.
#[derive(Drop)]
pub struct SourceParts {
    /// The roots, in the order of their nodes.
    pub roots: Vec<NodeRoot>,
    /// Of each body the slots, in the order of their nodes.
    pub slots: Vec<Seq<NodeSlot>>,
}

/// A source of a program.
#[derive(Drop)]
pub struct SourceAt<'a> {
    pub alloc: Global,
    pub whole: &'a Whole,
    pub linked: &'a Linked,
    /// Its place.
    pub source: u32,
    /// The number of the function of its first body.
    pub first: u32,
    /// Of each node the number of its first point.
    pub points: &'a [u32],
}

/// The row of a source; an empty one past the last.
pub(crate) fn row_of(rows: &[Seq<u32>], source: usize) -> &[u32]
    ensures { result.now ≡ get_or rows.now source [] }
{
    match rows.get(source) {
        Some(row) => row.list(),
        None => &[],
    }
}

/// The source of this place.
pub fn source_at<'a>(
    alloc: Global,
    whole: &'a Whole,
    source: u32,
    functions: &FunctionNumbers,
    points: &'a [Seq<u32>],
) -> SourceAt<'a>
    requires { source < length whole.now.sources }
    ensures { IsSourceOf whole.now functions.now points.now source result }
{
    let linked = source_of(whole, source as usize);
    let first = first_of(functions, source as usize);
    let points = row_of(points, source as usize);
    SourceAt {
        alloc,
        whole,
        linked,
        source,
        first,
        points,
    }
}

/// An object of external linkage is a global, each other one of static storage is static.
fn kind_of(linkage: Linkage) -> RootKind
    ensures { result ≡ programs.kind_of linkage }
{
    match linkage {
        Linkage::External => RootKind::Global,
        Linkage::Internal | Linkage::None => RootKind::Static,
    }
}

/// The bytes of a text, and the zero at its end.
fn closed(alloc: Global, bytes: &[u8]) -> Result<Seq<u8>, NoMemory>
    ensures { IfOk result (λ closed. closed ≡ bytes.now ++ 0 ∷ []) }
{
    let mut closed = Vec::from_slice(alloc, bytes)?;
    closed.push(0)?;
    Ok(Seq::new(closed))
}

impl<'a> SourceAt<'a> {
    /// The program's number of a type; 0 past the last one.
    fn type_here(&self, t: TypeId) -> TypeId
        ensures { result ≡ type_in (seen self.now) t }
    {
        match self.linked.types.list().get(t.0 as usize) {
            Some(here) => *here,
            None => TypeId(0),
        }
    }

    /// The function of a body.
    fn function(&self, body: u32) -> Result<u32, NoMemory>
        ensures { IfOk result (λ function. function ≡ function_at (seen self.now) body) }
    {
        behind(self.first, body)
    }

    /// The program's entity of an entity that this source defines.
    fn defined_here(&self, e: u32) -> Option<&'a WholeEntity>
        ensures { option_copied result ≡ entity_here (seen self.now) e }
    {
        let here = self.linked.entities.get(e as usize)?;
        let entity = self.whole.entities.get(*here as usize)?;
        let (source, number) = entity.defined?;
        if source == self.source && number == e {
            Some(entity)
        } else {
            None
        }
    }

    /// A root that neither a point allocates nor a text has.
    fn plain_root(
        &self,
        kind: RootKind,
        ty: TypeId,
        spot: Spot,
        name: &Name,
        function: Option<u32>,
    ) -> Result<Root, NoMemory>
        ensures { IfOk result (λ root. root ≡ plain_root (seen self.now) kind ty spot name.now function) }
    {
        Ok(Root {
            kind,
            ty,
            spot,
            name: name.copy()?,
            function,
            point: None,
            bytes: Seq::new(Vec::new(self.alloc)),
        })
    }

    /// The function in which an object of static storage stands.
    fn function_around(&self, entity: &Entity) -> Result<Option<u32>, NoMemory>
        ensures { IfOk result (λ function. function ≡ function_around (seen self.now) entity.now.body) }
    {
        match entity.body {
            Some(body) => Ok(Some(self.function(body)?)),
            None => Ok(None),
        }
    }

    /// The root of an object of static storage that this source defines.
    fn object_root(
        &self,
        entity: &Entity,
        here: &WholeEntity,
        by: &Declaration,
    ) -> Result<NodeRoot, NoMemory>
        ensures { IfOk result (λ root. root ≡ object_root (seen self.now) entity.now here.now by.now) }
    {
        let function = self.function_around(entity)?;
        Ok(NodeRoot {
            ordinal: by.ordinal,
            root: self.plain_root(
                kind_of(entity.linkage),
                here.ty,
                by.spot,
                &entity.name,
                function,
            )?,
        })
    }

    /// Adds the root of an entity, where it is an object of static storage that this source defines.
    fn push_object(
        &self,
        e: u32,
        entity: &Entity,
        roots: &mut Vec<NodeRoot>,
    ) -> Result<(), NoMemory>
        ensures { OnOk result (roots.new.items ≡ roots.old.items ++ object_of (seen self.now) e entity.now) }
    {
        let Some(here) = self.defined_here(e) else {
            return Ok(());
        };
        let Some(by) = declaration_of(entity) else {
            return Ok(());
        };
        match entity.kind {
            EntityKind::Object => {
                roots.push(self.object_root(entity, here, by)?)?;
                Ok(())
            }
            EntityKind::Function => Ok(()),
        }
    }

    /// Adds the roots of the objects of static storage that this source defines.
    fn push_objects(&self, roots: &mut Vec<NodeRoot>) -> Result<(), NoMemory>
        ensures { OnOk result (roots.new.items ≡
            roots.old.items ++ objects_from (seen self.now) 0 self.now.linked.now.unit.entities) }
    {
        let mut e = 0;
        for entity in self.linked.unit.entities.list() {
            self.push_object(e, entity, roots)?;
            e = behind(e, 1)?;
        }
        Ok(())
    }

    /// Adds the root of a function.
    fn push_function(
        &self,
        function: u32,
        body: &Body,
        roots: &mut Vec<NodeRoot>,
    ) -> Result<(), NoMemory>
        ensures { OnOk result (roots.new.items ≡
            roots.old.items ++ function_of (seen self.now) function body.now) }
    {
        let Some(here) = self.defined_here(body.entity) else {
            return Ok(());
        };
        let Some(entity) = self.linked.unit.entities.get(body.entity as usize) else {
            return Ok(());
        };
        let Some(by) = declaration_of(entity) else {
            return Ok(());
        };
        let root = self.plain_root(
            RootKind::Function,
            here.ty,
            by.spot,
            &entity.name,
            Some(function),
        )?;
        roots.push(NodeRoot {
            ordinal: by.ordinal,
            root,
        })?;
        Ok(())
    }

    /// Adds the root or the slot of a local.
    fn push_local(
        &self,
        function: u32,
        local: &Local,
        roots: &mut Vec<NodeRoot>,
        slots: &mut Vec<NodeSlot>,
    ) -> Result<(), NoMemory>
        ensures roots { OnOk result (roots.new.items ≡
            roots.old.items ++ local_by (seen self.now) local.now.is_slot function local.now) }
        ensures slots { OnOk result (slots.new.items ≡
            slots.old.items ++ slot_by (seen self.now) local.now.is_slot local.now) }
    {
        let ty = self.type_here(local.ty);
        let ordinal = local.ordinal;
        if local.is_slot {
            slots.push(NodeSlot { ordinal, ty })?;
            return Ok(());
        }
        let root = self.plain_root(RootKind::Local, ty, local.spot, &local.name, Some(function))?;
        roots.push(NodeRoot { ordinal, root })?;
        Ok(())
    }

    /// The root of a text.
    fn text_root(&self, node: OwnedNode, bytes: &[u8]) -> Result<NodeRoot, NoMemory>
        ensures { IfOk result (λ root. root ≡ text_root (seen self.now) (as_node node) bytes.now) }
    {
        Ok(NodeRoot {
            ordinal: node.ordinal,
            root: Root {
                kind: RootKind::Text,
                ty: self.type_here(node.ty),
                spot: node.spot,
                name: Name::empty(self.alloc),
                function: None,
                point: None,
                bytes: closed(self.alloc, bytes)?,
            },
        })
    }

    /// The root of an allocation.
    fn heap_root(
        &self,
        node: OwnedNode,
        ty: TypeId,
        one: bool,
        function: Option<u32>,
    ) -> Result<NodeRoot, NoMemory>
        ensures { IfOk result (λ root. root ≡ heap_root (seen self.now) (as_node node) ty one function) }
    {
        Ok(NodeRoot {
            ordinal: node.ordinal,
            root: Root {
                kind: RootKind::Heap { one },
                ty,
                spot: node.spot,
                name: Name::empty(self.alloc),
                function,
                point: Some(number_at(self.points, node.ordinal)),
                bytes: Seq::new(Vec::new(self.alloc)),
            },
        })
    }

    /// The type of the object that an allocation gives: one of the type, or an array of them without a size.
    fn allocated(&self, ty: TypeId, one: bool, types: &mut TypeTable) -> Result<TypeId, NoMemory>
        ensures allocated { IfOk result (λ here. (forms : List CType) → AreLater types.new forms →
            here ≡ allocated (seen self.now) forms one ty) }
        ensures more { OnOk result (HasMore types.old types.new) }
    {
        let here = self.type_here(ty);
        if one {
            Ok(here)
        } else {
            unsized_array(types, here)
        }
    }

    /// Adds the root or the slot that a node has of its own.
    fn push_owned(
        &self,
        owned: &Owned,
        function: Option<u32>,
        types: &mut TypeTable,
        roots: &mut Vec<NodeRoot>,
        slots: &mut Vec<NodeSlot>,
    ) -> Result<(), NoMemory>
        ensures roots { OnOk result ((forms : List CType) → AreLater types.new forms →
            roots.new.items ≡
            roots.old.items ++ root_by (seen self.now) forms function (as_owned owned.now)) }
        ensures slots { OnOk result (slots.new.items ≡
            slots.old.items ++ slot_of (seen self.now) (as_owned owned.now)) }
        ensures more { OnOk result (HasMore types.old types.new) }
    {
        match owned {
            Owned::Text(node, bytes) => roots.push(self.text_root(*node, bytes.list())?)?,
            Owned::Allocation(node, ty, one) => {
                let ty = self.allocated(*ty, *one, types)?;
                roots.push(self.heap_root(*node, ty, *one, function)?)?;
            }
            Owned::Hidden(node) => {
                let ty = self.type_here(node.ty);
                let ordinal = node.ordinal;
                slots.push(NodeSlot { ordinal, ty })?;
            }
        }
        Ok(())
    }

    /// Adds the roots and slots of nodes.
    fn push_all_owned(
        &self,
        list: Vec<Owned>,
        function: Option<u32>,
        types: &mut TypeTable,
        roots: &mut Vec<NodeRoot>,
        slots: &mut Vec<NodeSlot>,
    ) -> Result<(), NoMemory>
        ensures roots { OnOk result ((forms : List CType) → AreLater types.new forms →
            roots.new.items ≡
            roots.old.items ++ roots_of (seen self.now) forms function (all_found list.items)) }
        ensures slots { OnOk result (slots.new.items ≡
            slots.old.items ++ slots_of (seen self.now) (all_found list.items)) }
        ensures more { OnOk result (HasMore types.old types.new) }
    {
        for owned in &list {
            self.push_owned(owned, function, types, roots, slots)?;
        }
        Ok(())
    }

    /// What is read to find what nodes have of their own.
    fn finding(&self) -> Finding<'_>
        ensures { result.table.now ≡ self.now.linked.now.unit.types }
    {
        Finding {
            alloc: self.alloc,
            table: &self.linked.unit.types,
        }
    }

    /// Adds the roots of the locals of a body that aren't slots, and the slots.
    fn push_locals(
        &self,
        function: u32,
        body: &Body,
        roots: &mut Vec<NodeRoot>,
        slots: &mut Vec<NodeSlot>,
    ) -> Result<(), NoMemory>
        ensures roots { OnOk result (roots.new.items ≡
            roots.old.items ++ locals_of (seen self.now) function body.now.locals) }
        ensures slots { OnOk result (slots.new.items ≡
            slots.old.items ++ slots_of_locals (seen self.now) body.now.locals) }
    {
        for local in body.locals.list() {
            self.push_local(function, local, roots, slots)?;
        }
        Ok(())
    }

    /// Adds the roots and slots of the nodes inside a body.
    fn push_inside(
        &self,
        function: u32,
        body: &Body,
        types: &mut TypeTable,
        roots: &mut Vec<NodeRoot>,
        slots: &mut Vec<NodeSlot>,
    ) -> Result<(), NoMemory>
        ensures roots { OnOk result ((forms : List CType) → AreLater types.new forms →
            roots.new.items ≡ roots.old.items ++ roots_of (seen self.now) forms (Some function)
            (rules.owned_by (form_at (seen self.now)) body.now.block)) }
        ensures slots { OnOk result (slots.new.items ≡
            slots.old.items ++ slots_of (seen self.now)
            (rules.owned_by (form_at (seen self.now)) body.now.block)) }
        ensures more { OnOk result (HasMore types.old types.new) }
    {
        let mut owned = Vec::new(self.alloc);
        self.finding().push_statement(&body.block, &mut owned)?;
        self.push_all_owned(owned, Some(function), types, roots, slots)
    }

    /// Adds the roots of a body. Answers its slots, in the order of their nodes.
    fn push_body(
        &self,
        number: u32,
        body: &Body,
        types: &mut TypeTable,
        roots: &mut Vec<NodeRoot>,
    ) -> Result<Seq<NodeSlot>, NoMemory>
        ensures roots { OnOk result ((forms : List CType) → AreLater types.new forms →
            roots.new.items ≡ roots.old.items ++ roots_in (seen self.now) forms
            (function_at (seen self.now) number) body.now) }
        ensures slots { IfOk result (AreAmong (slots_in (seen self.now) body.now)) }
        ensures more { OnOk result (HasMore types.old types.new) }
    {
        let function = self.function(number)?;
        let mut slots = Vec::new(self.alloc);
        self.push_function(function, body, roots)?;
        self.push_locals(function, body, roots, &mut slots)?;
        self.push_inside(function, body, types, roots, &mut slots)?;
        slots.sort_by_key(|slot| slot.ordinal)?;
        Ok(Seq::new(slots))
    }

    /// What the nodes of the initialisers of objects of static storage have of their own.
    fn owned_by_statics(&self) -> Result<Vec<Owned>, NoMemory>
        ensures { IfOk result (λ owned. all_found owned.items ≡
            owned_by_statics (seen self.now) self.now.linked.now.unit.objects) }
    {
        let mut owned = Vec::new(self.alloc);
        for object in self.linked.unit.objects.list() {
            self.finding().push_static(object.parts.list(), &mut owned)?;
        }
        Ok(owned)
    }

    /// Adds the roots of the initialisers of objects of static storage. They have no slots.
    fn push_statics(&self, types: &mut TypeTable, roots: &mut Vec<NodeRoot>) -> Result<(), NoMemory>
        ensures roots { OnOk result ((forms : List CType) → AreLater types.new forms →
            roots.new.items ≡ roots.old.items ++ roots_of (seen self.now) forms None
            (owned_by_statics (seen self.now) self.now.linked.now.unit.objects)) }
        ensures more { OnOk result (HasMore types.old types.new) }
    {
        let owned = self.owned_by_statics()?;
        let mut slots = Vec::new(self.alloc);
        self.push_all_owned(owned, None, types, roots, &mut slots)
    }

    /// Adds the roots of the bodies. Answers of each body the slots.
    fn push_bodies(
        &self,
        types: &mut TypeTable,
        roots: &mut Vec<NodeRoot>,
    ) -> Result<Vec<Seq<NodeSlot>>, NoMemory>
        ensures roots { OnOk result ((forms : List CType) → AreLater types.new forms →
            roots.new.items ≡ roots.old.items ++ roots_in_all (seen self.now) forms 0
            self.now.linked.now.unit.bodies) }
        ensures slots { IfOk result (λ slots.
            AreSlots (seen self.now) self.now.linked.now.unit.bodies slots.items) }
        ensures more { OnOk result (HasMore types.old types.new) }
    {
        let mut slots = Vec::new(self.alloc);
        let mut number = 0;
        for body in self.linked.unit.bodies.list() {
            let row = self.push_body(number, body, types, roots)?;
            slots.push(row)?;
            number = behind(number, 1)?;
        }
        Ok(slots)
    }

    /// What the source has at its nodes. Array types that roots need are put to `types`.
    pub fn parts(&self, types: &mut TypeTable) -> Result<SourceParts, NoMemory>
        ensures parts { IfOk result (AreParts (seen self.now) types.new) }
        ensures more { OnOk result (HasMore types.old types.new) }
    {
        let mut roots = Vec::new(self.alloc);
        self.push_objects(&mut roots)?;
        self.push_statics(types, &mut roots)?;
        let slots = self.push_bodies(types, &mut roots)?;
        roots.sort_by_key(|one| one.ordinal)?;
        Ok(SourceParts { roots, slots })
    }
}
