//! The names of all labels, holder by holder.
ghost use Rattle.std.specs.Prelude.{◌≡◌, Err, IfOk, OnOk};
ghost use Rattle.lk_facts.specs.LabelRules.{AreHolders, HasMoreLabels, IsHolder, is_root};
ghost use Rattle.lk_label.specs.Gathering.{AreAllLabels, PutsLabels, PutsNames};
ghost use Rattle.lk_label.specs.declared.fault.LabelFault.TheVariants.{TooMany};

use crate::fault::LabelFault;
use crate::kinds::holder_type;
use crate::named::named_nodes;
use crate::names::Names;
use lk_base::{MOST_LABELS, NoMemory};
use lk_facts::{Holder, Points};
use lk_types::NodeId;
use std::alloc::Global;

/// Puts the names of a holder with these nodes.
pub fn put_names(holder: Holder, nodes: &[NodeId], names: &mut Names) -> Result<(), NoMemory>
    ensures { OnOk result (PutsNames holder names.old nodes.now names.new) }
{
    for node in nodes {
        names.put(holder, *node)?;
    }
    Ok(())
}

/// Whether a holder is a root.
fn is_root(holder: Holder) -> bool
    ensures { result ≡ is_root holder }
{
    match holder {
        Holder::Root(_) => true,
        Holder::Slot(_, _) | Holder::Result(_) | Holder::Point(_) => false,
    }
}

/// Puts the labels of a holder.
fn put_labels(
    alloc: Global,
    points: &Points,
    holder: Holder,
    names: &mut Names,
) -> Result<(), NoMemory>
    requires { IsHolder points.now holder }
    ensures { OnOk result (PutsLabels points.now holder names.old names.new) }
{
    match holder_type(points, holder) {
        Some(t) => {
            let nodes = named_nodes(alloc, points.types(), t, is_root(holder))?;
            put_names(holder, &nodes, names)
        }
        None => Ok(()),
    }
}

/// The names of all labels, holder by holder.
pub fn labels_by_holder(
    alloc: Global,
    points: &Points,
    holders: &[Holder],
) -> Result<Names, LabelFault>
    requires { AreHolders points.now holders.now }
    ensures ok { IfOk result (AreAllLabels points.now) }
    ensures too_many { result ≡ Err TooMany → HasMoreLabels points.now 65536 }
{
    let mut names = Names::new(alloc);
    for holder in holders {
        put_labels(alloc, points, *holder, &mut names)?;
        if names.len() > MOST_LABELS as usize {
            names.are_different();
            return Err(LabelFault::TooMany);
        }
    }
    Ok(names)
}
