//! The order of the nodes that have roots and slots, by their numbers.
ghost use Rattle.std.specs.Prelude.{◌≡◌, ◌<◌, true, IfOk};
ghost use Rattle.lk_lower_parts.specs.Gathers.{AreAllInOrder, AreInOrder, HaveNumbers, HaveKnownTypes, IsNodeBefore, IsFinished, Rise};
ghost use Rattle.lk_lower_parts.specs.Givens.{at_node};

use crate::names::number_at;
use crate::numbers::{Gathering, NodeAt, Numbered};
use lk_base::{NoMemory, Seq};
use lk_facts::Root;

/// Whether a node stands before another.
fn is_before(a: NodeAt, b: NodeAt) -> bool
    ensures { result ≡ true → IsNodeBefore a b }
{
    a.source < b.source || (a.source == b.source && a.ordinal < b.ordinal)
}

/// Whether each of these nodes stands before the next.
fn rise(nodes: &[NodeAt]) -> bool
    ensures { result ≡ true → Rise nodes.now }
{
    for k in 1..nodes.len() {
        if !is_before(nodes[k - 1], nodes[k]) {
            return false;
        }
    }
    true
}

/// The number of what a node has.
fn number_of(by_node: &[Seq<u32>], node: NodeAt) -> u32
    ensures { result ≡ at_node by_node.now node.source node.ordinal }
{
    match by_node.get(node.source as usize) {
        Some(row) => number_at(row.list(), node.ordinal),
        None => 0,
    }
}

/// Whether these nodes have their numbers, from `first` on.
fn have_numbers(by_node: &[Seq<u32>], first: usize, nodes: &[NodeAt]) -> bool
    ensures { result ≡ true → HaveNumbers by_node.now first nodes.now }
{
    for k in 0..nodes.len() {
        if first.checked_add(k) != Some(number_of(by_node, nodes[k]) as usize) {
            return false;
        }
    }
    true
}

/// Whether these nodes stand in the order of their numbers, which are those from `first` on.
fn are_in_order(by_node: &[Seq<u32>], first: usize, nodes: &[NodeAt]) -> bool
    ensures { result ≡ true → AreInOrder by_node.now first nodes.now }
{
    rise(nodes) && have_numbers(by_node, first, nodes)
}

/// The same of each of these rows, where the numbers of each begin at 0.
fn are_all_in_order(by_node: &[Seq<u32>], rows: &[Seq<NodeAt>]) -> bool
    ensures { result ≡ true → AreAllInOrder by_node.now rows.now }
{
    for row in rows {
        if !are_in_order(by_node, 0, row.list()) {
            return false;
        }
    }
    true
}

/// Whether there are more types than the number of that of any root.
fn have_types(count: u32, roots: &[Root]) -> bool
    ensures { result ≡ true → HaveKnownTypes count roots.now }
{
    for root in roots {
        if root.ty.0 >= count {
            return false;
        }
    }
    true
}

impl Gathering {
    /// The roots and slots with their numbers. No node of a typed tree has two of them, and
    /// they were numbered in the order of the nodes, so each has its number; and each type of
    /// a root was put to the table.
    pub(crate) fn finished(self, arguments: usize, types: u32) -> Result<Numbered, NoMemory>
        ensures { IfOk result (IsFinished self arguments types) }
    {
        let Gathering {
            roots,
            nodes,
            by_node,
            slots,
            slot_nodes,
        } = self;
        if are_in_order(&by_node, arguments, &nodes)
            && are_all_in_order(&by_node, &slot_nodes)
            && have_types(types, &roots)
        {
            Ok(Numbered {
                roots,
                by_node,
                slots,
            })
        } else {
            Err(NoMemory)
        }
    }
}
