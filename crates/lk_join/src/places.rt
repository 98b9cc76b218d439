//! The places of structs in a set, to which they are put.
ghost use Rattle.std.specs.Prelude.{IfOk};
ghost use Rattle.lk_join.specs.Places.{AreAllPutAt, ArePutAt};

use crate::struct_set::StructSet;
use lk_base::{NoMemory, Seq};
use lk_link::StructOf;
use std::alloc::Global;

/// Puts structs to a set.
fn put_row(alloc: Global, row: &[StructOf], set: &mut StructSet) -> Result<Seq<usize>, NoMemory>
    ensures { IfOk result (ArePutAt set.old set.new row.now) }
{
    let mut places = Vec::new(alloc);
    for s in row {
        let place = set.put(*s)?;
        places.push(place)?;
    }
    Ok(Seq::new(places))
}

/// Puts the structs of several lists to a set.
pub(crate) fn put_rows(
    alloc: Global,
    rows: &[Seq<StructOf>],
    set: &mut StructSet,
) -> Result<Vec<Seq<usize>>, NoMemory>
    ensures { IfOk result (λ places. AreAllPutAt set.old set.new rows.now places.items) }
{
    let mut places = Vec::new(alloc);
    for row in rows {
        let row = put_row(alloc, row.list(), set)?;
        places.push(row)?;
    }
    Ok(places)
}
