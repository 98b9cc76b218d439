//! The numbers of roots and slots.
ghost use Rattle.std.specs.Prelude.{◌≡◌, ◌<◌, ◌++◌, ◌∷◌, [], IfOk, OnOk, length, map};
ghost use Rattle.lk_lower_parts.specs.Gathers.{IsBegun, argument, node_of, root_of, slot_nodes, types_of};

use crate::counts::count_of;
use crate::roots::{NodeRoot, NodeSlot, SourceParts};
use crate::types::ArgumentTypes;
use lk_base::{Name, NoMemory, Seq, Spot};
use lk_facts::{Root, RootKind};
use lk_types::TypeId;
use std::alloc::Global;

/// The roots of the program, and the numbers of what nodes have.
#[derive(Drop)]
pub struct Numbered {
    /// The roots, in the order of their numbers.
    pub roots: Vec<Root>,
    /// Of each node of each source the number of its root, or that of its slot in its
    /// function; 0 of each other node.
    pub by_node: Vec<Seq<u32>>,
    /// Of each function the types of its slots.
    pub slots: Vec<Seq<TypeId>>,
}

/// A node: the place of its source, and its number there.
#[derive(Clone, Copy)]
pub struct NodeAt {
    pub source: u32,
    pub ordinal: u32,
}

/// The roots and slots of sources while they are put together.
#[derive(Drop)]
pub struct Gathering {
    /// The roots, in the order of their numbers.
    pub roots: Vec<Root>,
    /// The nodes of those that are none of main's arguments, in the same order.
    pub nodes: Vec<NodeAt>,
    /// Of each node of each source the number of its root, or that of its slot in its
    /// function; 0 of each other node.
    pub by_node: Vec<Seq<u32>>,
    /// Of each function the types of its slots, and their nodes.
    pub slots: Vec<Seq<TypeId>>,
    pub slot_nodes: Vec<Seq<NodeAt>>,
}

/// Makes a list so long that a place is in it, with zeros at its end.
fn widen(list: &mut Vec<u32>, place: u32) -> Result<(), NoMemory>
    ensures { OnOk result (place < length list.new.items) }
{
    let len = place as usize + 1;
    if list.len() < len {
        list.resize(len, 0)?;
    }
    Ok(())
}

/// Puts a number at a place in a list.
fn put(list: &mut Vec<u32>, place: u32, number: usize) -> Result<(), NoMemory> {
    let number = count_of(number)?;
    widen(list, place)?;
    list[place as usize] = number;
    Ok(())
}

/// A root of main's arguments.
fn argument(alloc: Global, kind: RootKind, ty: TypeId, spot: Spot) -> Root
    ensures { result ≡ argument kind ty spot }
{
    Root {
        kind,
        ty,
        spot,
        name: Name::empty(alloc),
        function: None,
        point: None,
        bytes: Seq::new(Vec::new(alloc)),
    }
}

/// Puts a root of a source behind others, and its number at its node.
fn number_root(
    source: u32,
    one: NodeRoot,
    roots: &mut Vec<Root>,
    nodes: &mut Vec<NodeAt>,
    by_node: &mut Vec<u32>,
) -> Result<(), NoMemory>
    ensures roots { OnOk result (roots.new.items ≡ roots.old.items ++ root_of one ∷ []) }
    ensures nodes { OnOk result (nodes.new.items ≡ nodes.old.items ++ node_of source one ∷ []) }
{
    let NodeRoot { ordinal, root } = one;
    put(by_node, ordinal, roots.len())?;
    nodes.push(NodeAt { source, ordinal })?;
    roots.push(root)?;
    Ok(())
}

/// Puts the roots of a source behind others, and their numbers at their nodes.
fn number_roots(
    source: u32,
    list: Vec<NodeRoot>,
    roots: &mut Vec<Root>,
    nodes: &mut Vec<NodeAt>,
    by_node: &mut Vec<u32>,
) -> Result<(), NoMemory>
    ensures roots { OnOk result (roots.new.items ≡ roots.old.items ++ map root_of list.items) }
    ensures nodes { OnOk result (nodes.new.items ≡ nodes.old.items ++ map (node_of source) list.items) }
{
    for one in list {
        number_root(source, one, roots, nodes, by_node)?;
    }
    Ok(())
}

/// Puts the numbers of the slots of a body at their nodes.
fn put_slots(list: &[NodeSlot], by_node: &mut Vec<u32>) -> Result<(), NoMemory> {
    let mut number = 0;
    for slot in list {
        put(by_node, slot.ordinal, number)?;
        number = number.checked_add(1).ok_or(NoMemory)?;
    }
    Ok(())
}

/// The types of slots.
fn types_of(alloc: Global, list: &[NodeSlot]) -> Result<Seq<TypeId>, NoMemory>
    ensures { IfOk result (λ types. types ≡ types_of list.now) }
{
    let mut types = Vec::new(alloc);
    for slot in list {
        types.push(slot.ty)?;
    }
    Ok(Seq::new(types))
}

/// The nodes of slots of a source.
fn nodes_of(alloc: Global, source: u32, list: &[NodeSlot]) -> Result<Seq<NodeAt>, NoMemory>
    ensures { IfOk result (λ nodes. nodes ≡ slot_nodes source list.now) }
{
    let mut nodes = Vec::new(alloc);
    for slot in list {
        let ordinal = slot.ordinal;
        nodes.push(NodeAt { source, ordinal })?;
    }
    Ok(Seq::new(nodes))
}

/// Puts the slots of the bodies of a source behind others, and their numbers at their nodes.
fn number_slots(
    alloc: Global,
    source: u32,
    list: &[Seq<NodeSlot>],
    slots: &mut Vec<Seq<TypeId>>,
    nodes: &mut Vec<Seq<NodeAt>>,
    by_node: &mut Vec<u32>,
) -> Result<(), NoMemory>
    ensures slots { OnOk result (slots.new.items ≡ slots.old.items ++ map types_of list.now) }
    ensures nodes { OnOk result (nodes.new.items ≡ nodes.old.items ++ map (slot_nodes source) list.now) }
{
    for row in list {
        put_slots(row.list(), by_node)?;
        let types = types_of(alloc, row.list())?;
        slots.push(types)?;
        let at = nodes_of(alloc, source, row.list())?;
        nodes.push(at)?;
    }
    Ok(())
}

impl Gathering {
    /// No roots of sources: but for those of main's arguments, where it has
    /// parameters, with the place of its name.
    pub(crate) fn new(
        alloc: Global,
        arguments: Option<ArgumentTypes>,
        spot: Spot,
    ) -> Result<Gathering, NoMemory>
        ensures { IfOk result (IsBegun spot arguments) }
    {
        let mut roots = Vec::new(alloc);
        if let Some(types) = arguments {
            let argv = argument(alloc, RootKind::Argv, types.strings, spot);
            roots.push(argv)?;
            let args = argument(alloc, RootKind::Args, types.chars, spot);
            roots.push(args)?;
        }
        Ok(Gathering {
            roots,
            nodes: Vec::new(alloc),
            by_node: Vec::new(alloc),
            slots: Vec::new(alloc),
            slot_nodes: Vec::new(alloc),
        })
    }

    /// Numbers what the nodes of the next source have.
    pub(crate) fn number(
        &mut self,
        alloc: Global,
        source: u32,
        parts: SourceParts,
    ) -> Result<(), NoMemory>
        ensures roots { OnOk result (self.new.roots.items ≡
            self.old.roots.items ++ map root_of parts.roots.items) }
        ensures nodes { OnOk result (self.new.nodes.items ≡
            self.old.nodes.items ++ map (node_of source) parts.roots.items) }
        ensures slots { OnOk result (self.new.slots.items ≡
            self.old.slots.items ++ map types_of parts.slots.items) }
        ensures slot_nodes { OnOk result (self.new.slot_nodes.items ≡
            self.old.slot_nodes.items ++ map (slot_nodes source) parts.slots.items) }
    {
        let mut row = Vec::new(alloc);
        let SourceParts { roots, slots } = parts;
        number_roots(source, roots, &mut self.roots, &mut self.nodes, &mut row)?;
        number_slots(
            alloc,
            source,
            &slots,
            &mut self.slots,
            &mut self.slot_nodes,
            &mut row,
        )?;
        self.by_node.push(Seq::new(row))?;
        Ok(())
    }
}
