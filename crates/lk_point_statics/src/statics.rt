//! Whether what objects of static storage begin with is there.
ghost use Rattle.std.specs.Prelude.{◌↔◌, IfOk, IsTrue};
ghost use Rattle.lk_facts.specs.InRange.{IsInRange};
ghost use Rattle.lk_point_statics.specs.PointStatics.{AreStatics};
ghost use Rattle.lk_point_statics.specs.Writing.{AreStaticWrites, AreWritten, MayAllBegin};

use crate::beginnings::is_initial;
use crate::writes::{StaticWrite, are_written, static_writes};
use lk_base::NoMemory;
use lk_facts::Points;
use std::alloc::Global;

/// Whether each cell of static storage that an initialiser names is a part of its object,
/// and may begin with its value.
fn are_initials(points: &Points) -> bool
    requires { IsInRange points.now }
    ensures { IsTrue result ↔ MayAllBegin points.now }
{
    for initial in points.initials() {
        if !is_initial(points, initial) {
            return false;
        }
    }
    true
}

/// Whether each cell may begin with its value, and each pointer is among what points write.
fn are_kept(points: &Points, writes: &[StaticWrite]) -> bool
    requires range { IsInRange points.now }
    requires writes { AreStaticWrites points.now writes.now }
    ensures { IsTrue result ↔ (MayAllBegin points.now × AreWritten points.now) }
{
    are_initials(points) && are_written(points, writes)
}

/// Whether what objects of static storage begin with is there (C99 6.6, 7 to 9; 6.7.8, 4): each cell that an
/// initialiser names is a part of its object, and has a type of which its value may be; a function has the
/// type to which its pointer points; and a point of no function writes each pointer there.
///
/// `Err` comes for want of memory.
pub fn are_statics(alloc: Global, points: &Points) -> Result<bool, NoMemory>
    ensures { IfOk result (λ are. IsTrue are ↔ AreStatics points.now) }
{
    let writes = static_writes(alloc, points)?;
    Ok(are_kept(points, &writes))
}
