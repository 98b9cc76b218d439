//! The one label that a label inside a function is outside.
ghost use Rattle.std.specs.Prelude.{◌<◌, IfOk, IfSome, length};
ghost use Rattle.lk_facts.specs.Flow.{Over};
ghost use Rattle.lk_facts.specs.Origins.{flow_of};
ghost use Rattle.lk_links.specs.Only.{IsOneIfOnly};

use lk_base::NoMemory;
use lk_facts::{Facts, Way};
use lk_links::outside;
use std::alloc::Global;

/// The one label that x inside is outside, where there is just one.
pub(crate) fn up(
    alloc: Global,
    facts: &Facts<'_>,
    way: &Way,
    x: u32,
) -> Result<Option<u32>, NoMemory>
    requires { x < length facts.now.labels.entries }
    ensures value { IfOk result (IsOneIfOnly (Over (flow_of facts.now.origins) way.now x)) }
    ensures in_range { IfOk result (λ found. IfSome found (λ m. m < length facts.now.labels.entries)) }
{
    let ids = outside(alloc, facts, way, &[x])?;
    let count = ids.ids().len();
    if count != 1 {
        return Ok(None);
    }
    Ok(Some(ids.ids()[0]))
}
