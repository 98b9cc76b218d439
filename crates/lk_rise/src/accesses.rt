//! What points access.
ghost use Rattle.std.specs.Prelude.{◌<◌, ℕ, length, IfSome};
ghost use Rattle.lk_facts.specs.Doing.{Accesses};
ghost use Rattle.lk_facts.specs.Facts.{basis_of};
ghost use Rattle.lk_links.specs.Only.{IsTheOne};

use lk_facts::{Facts, Label};

/// The label of what a point accesses, where it is live and accesses something.
pub fn accessed(facts: &Facts<'_>, point: u32) -> Option<Label>
    requires { point < length facts.now.program.points }
    ensures value { IsTheOne (λ x. (f : ℕ) × Accesses (basis_of facts.now) point f x) result }
    ensures in_range { IfSome result (λ x. x < length facts.now.labels.entries) }
{
    if !facts.points().live(point) {
        return None;
    }
    match facts.points().effect(point).accessed() {
        Some(operand) => facts.labels().target(operand),
        None => None,
    }
}
