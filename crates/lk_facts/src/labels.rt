//! The labels of a program.
ghost use Rattle.std.specs.Prelude.{◌≡◌, ◌↔◌, IsTrue, ◌<◌, length, All, Some, IfSome};
ghost use Rattle.lk_facts.specs.Labels.{labels_of, root_of, holder_of, node_of, is_origin_at, is_lock_at, is_global_at, target_at, subject_of, name_with, AreLabelsInRange};
ghost use Rattle.lk_facts.specs.Places.{IsNumberOf};

use crate::edge::Label;
use crate::label_entry::{LabelEntry, LabelName};
use crate::root::Holder;
use crate::subject::Subject;
use indexmap::IndexSet;
use lk_base::MOST_LABELS;
use lk_types::NodeId;
use std::marker::Model;

/// The labels of a program: what its pointers may point to, level by level.
///
/// The locations are the labels from 0 on, and the lock places are the labels after them.
#[derive(Drop)]
pub struct Labels {
    names: IndexSet<LabelName>,
    entries: Vec<LabelEntry>,
    targets: Vec<Option<Label>>,
}

impl Model for Labels {
    ghost use Rattle.lk_facts.specs.Labels.{LabelTable, labels_of, AreLabelsInRange};

    ghost Value = { LabelTable };

    ghost view = { λ a. labels_of a.names.keys a.entries.items a.targets.items };

    ghost invariant = { λ a. AreLabelsInRange (labels_of a.names.keys a.entries.items a.targets.items) };
}

/// Whether each target is below the number of labels.
fn are_labels(targets: &[Option<Label>], labels: usize) -> bool
    ensures { IsTrue result ↔ All (λ target. IfSome target (λ l. l < labels)) targets.now }
{
    targets
        .iter()
        .all(|target| target.is_none_or(|l| (l.0 as usize) < labels))
}

impl Labels {
    /// Whether there is an entry for each of at most 65,536 names, and each target is one
    /// of the labels, as `new` asks.
    pub fn fits(
        names: &IndexSet<LabelName>,
        entries: &[LabelEntry],
        targets: &[Option<Label>],
    ) -> bool
        ensures { IsTrue result ↔ AreLabelsInRange (labels_of names.now.keys entries.now targets.now) }
    {
        names.len() == entries.len()
            && entries.len() <= MOST_LABELS as usize
            && are_labels(targets, entries.len())
    }

    /// The labels with these names in their order and the entry of each, and for each point the label of what
    /// its value points to. It takes no memory.
    pub fn new(
        names: IndexSet<LabelName>,
        entries: Vec<LabelEntry>,
        targets: Vec<Option<Label>>,
    ) -> Labels
        requires { AreLabelsInRange (labels_of names.keys entries.items targets.items) }
        ensures { result ≡ labels_of names.keys entries.items targets.items }
    {
        Labels {
            names,
            entries,
            targets,
        }
    }

    /// The number of labels, at most 65,536.
    pub fn count(&self) -> u32
        ensures value { result ≡ length self.now.entries }
        ensures in_range { AreLabelsInRange self.now }
    {
        self.entries.len() as u32
    }

    /// The number of the holder of a label; a root has its own number.
    pub fn root(&self, l: Label) -> u32
        requires { l < length self.now.entries }
        ensures { root_of self.now l ≡ Some result }
    {
        self.entries[l.0 as usize].root
    }

    /// What a label names.
    fn name(&self, l: Label) -> LabelName
        requires { l < length self.now.entries }
        ensures holder { holder_of self.now l ≡ Some result.holder }
        ensures node { node_of self.now l ≡ Some result.node }
    {
        self.names.as_slice()[l.0 as usize]
    }

    /// The holder of a label.
    pub fn holder(&self, l: Label) -> Holder
        requires { l < length self.now.entries }
        ensures { holder_of self.now l ≡ Some result }
    {
        self.name(l).holder
    }

    /// The node of its holder's type that a label names.
    pub fn node(&self, l: Label) -> NodeId
        requires { l < length self.now.entries }
        ensures { node_of self.now l ≡ Some result }
    {
        self.name(l).node
    }

    /// The label of a node of a holder's type, or nothing where there is no such label.
    pub fn find(&self, holder: Holder, node: NodeId) -> Option<Label>
        ensures value { IsNumberOf self.now.names (name_with holder node) result }
        ensures in_range { IfSome result (λ l. l < length self.now.entries) }
    {
        let number = self.names.get_index_of(&LabelName { holder, node })?;
        Some(Label(number as u32))
    }

    /// Whether a label names a part of a root, so that it is where pointers to that part begin.
    pub fn is_origin(&self, l: Label) -> bool
        requires { l < length self.now.entries }
        ensures { result ≡ is_origin_at self.now l }
    {
        self.entries[l.0 as usize].is_origin
    }

    /// Whether a label names a mutex.
    pub fn is_lock(&self, l: Label) -> bool
        requires { l < length self.now.entries }
        ensures { result ≡ is_lock_at self.now l }
    {
        self.entries[l.0 as usize].is_lock
    }

    /// Whether the holder of a label is a root other than a local or an allocation, or a point of a static
    /// initialiser.
    pub fn is_global(&self, l: Label) -> bool
        requires { l < length self.now.entries }
        ensures { result ≡ is_global_at self.now l }
    {
        self.entries[l.0 as usize].is_global
    }

    /// The label as what an item accesses.
    pub fn subject(&self, l: Label) -> Subject
        requires { l < length self.now.entries }
        ensures { result ≡ subject_of self.now l }
    {
        if self.is_origin(l) {
            Subject::Origin(l.0)
        } else {
            Subject::Label(l.0)
        }
    }

    /// The label of what the value of a point points to, or nothing where there is no such label.
    pub fn target(&self, p: u32) -> Option<Label>
        ensures value { result ≡ target_at self.now p }
        ensures in_range { IfSome result (λ l. l < length self.now.entries) }
    {
        self.targets.get(p as usize).copied().flatten()
    }

    /// For how many points it has a target, or that there is none.
    pub fn points(&self) -> usize
        ensures { result ≡ length self.now.targets }
    {
        self.targets.len()
    }
}
