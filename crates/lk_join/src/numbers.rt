//! The numbers of structs in the program.
ghost use Rattle.std.specs.Prelude.{◌<◌, All, IfOk, length};
ghost use Rattle.lk_join.specs.Classes.{AreNumbers};
ghost use Rattle.lk_join.specs.Numbering.{AreAllLabelled, AreLabelled, IsNumbered};
ghost use Rattle.lk_link.specs.Sources.{AreSources};
ghost use Rattle.lk_link.specs.Structs.{AreResolved};

use crate::labels::labels;
use crate::places::put_rows;
use crate::struct_set::StructSet;
use lk_base::{NoMemory, Seq};
use lk_link::StructOf;
use lk_typed::TypedUnit;
use std::alloc::Global;

/// Of each struct of each source its number in the program.
#[derive(Drop)]
pub struct Numbers {
    /// The numbers, by the sources and their structs.
    pub rows: Seq<Seq<usize>>,
    /// How many structs the program has.
    pub count: usize,
}

/// The structs that the labels of these places tell.
fn labelled_row(
    alloc: Global,
    structs: &StructSet,
    labels: &[usize],
    places: &[usize],
) -> Result<Seq<StructOf>, NoMemory>
    requires labels { All (λ label. label < length structs.now) labels.now }
    requires places { All (λ place. place < length labels.now) places.now }
    ensures { IfOk result (AreLabelled structs.now labels.now places.now) }
{
    let mut row = Vec::new(alloc);
    for place in places {
        let s = structs.at(labels[*place]);
        row.push(s)?;
    }
    Ok(Seq::new(row))
}

/// The same of the places of several lists.
fn labelled_rows(
    alloc: Global,
    structs: &StructSet,
    labels: &[usize],
    places: &[Seq<usize>],
) -> Result<Vec<Seq<StructOf>>, NoMemory>
    requires labels { All (λ label. label < length structs.now) labels.now }
    requires places { All (λ row. All (λ place. place < length labels.now) row) places.now }
    ensures { IfOk result (λ rows. AreAllLabelled structs.now labels.now places.now rows.items) }
{
    let mut rows = Vec::new(alloc);
    for row in places {
        let row = labelled_row(alloc, structs, labels, row.list())?;
        rows.push(row)?;
    }
    Ok(rows)
}

/// The numbers of structs, where each is one with that which its label tells.
fn numbers_of(
    alloc: Global,
    structs: &StructSet,
    labels: &[usize],
    places: &[Seq<usize>],
) -> Result<Numbers, NoMemory>
    requires labels { All (λ label. label < length structs.now) labels.now }
    requires places { All (λ row. All (λ place. place < length labels.now) row) places.now }
    ensures { IfOk result (λ numbers. IsNumbered structs.now labels.now places.now numbers.rows numbers.count) }
{
    let named = labelled_rows(alloc, structs, labels, places)?;
    let mut classes = StructSet::new(alloc);
    let rows = put_rows(alloc, named.as_slice(), &mut classes)?;
    Ok(Numbers {
        count: classes.len(),
        rows: Seq::new(rows),
    })
}

/// Of each struct of each source its number in the program: two have one number exactly where they are
/// one struct there (C99 6.2.7).
///
/// `becomes` tells of each struct of each source what it is in the program, as `resolve` gives it.
pub fn number_structs(
    alloc: Global,
    units: &[TypedUnit],
    becomes: &[Seq<StructOf>],
) -> Result<Numbers, NoMemory>
    requires sources { AreSources units.now }
    requires resolved { AreResolved units.now becomes.now }
    ensures { IfOk result (λ numbers. AreNumbers units.now numbers.rows numbers.count) }
{
    let mut structs = StructSet::new(alloc);
    let places = put_rows(alloc, becomes, &mut structs)?;
    let labels = labels(alloc, units, becomes, &structs)?;
    let numbers = numbers_of(alloc, &structs, labels.as_slice(), places.as_slice())?;
    Ok(numbers)
}
