//! The steps of a declared name, by their numbers.
ghost use Rattle.std.specs.Prelude.{◌≡◌, IfOk};
ghost use Rattle.lk_lower_expr.specs.Initialisers as initialisers;
ghost use Rattle.lk_lower_expr.specs.Naming.{at_of};

use lk_base::{NoMemory, Seq};
use lk_lower_expr::{Deed, LocalNames, Lowering, Step};

/// The steps of a declared name: each leads to the next, the last to `on`.
pub fn numbered(
    source: &Lowering<'_>,
    local: &LocalNames,
    deeds: Vec<Deed>,
    on: u32,
) -> Result<Vec<Step>, NoMemory>
    ensures { IfOk result (λ steps. steps.items ≡ initialisers.numbered
        (at_of source.now.names.now local.now.ordinal)
        local.now.spot 0 deeds.items on) }
{
    let mut steps = Vec::new(source.alloc);
    let mut left = deeds;
    let mut next = on;
    while let Some(deed) = left.pop() {
        let k = left.len();
        if k >= 1 << 31 {
            return Err(NoMemory);
        }
        steps.push(Step {
            does: deed.does,
            gives: deed.gives,
            next: Seq::new(vec![in source.alloc; next]?),
            spot: local.spot,
        })?;
        next = deed
            .comes
            .unwrap_or(source.names.at(local.ordinal, k as u32));
    }
    steps.reverse();
    Ok(steps)
}
