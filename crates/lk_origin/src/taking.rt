//! Rows that take what stands in the rows of another relation.
ghost use Rattle.std.specs.Prelude.{◌≡◌, ℕ, ◌<◌, ◌↔◌, ◌⊎◌, true, length};
ghost use Rattle.lk_facts.specs.Labels.{is_global_at};
ghost use Rattle.lk_sets.specs.Closing.{Grows};
ghost use Rattle.lk_sets.specs.Rows.{has};

use lk_facts::{Label, Labels};
use lk_sets::BitRows;

/// Lets each number that stands with `a` in one relation stand with it in the other, and
/// answers whether a pair was new.
fn take_row(from: &BitRows, a: u32, into: &mut BitRows) -> bool
    requires a { a < into.old.size }
    requires size { from.now.size ≡ into.old.size }
    ensures pairs { (x y : ℕ) → (has into.new x y ≡ true)
        ↔ ((has into.old x y ≡ true) ⊎ ((x ≡ a) × (has from.now x y ≡ true))) }
    ensures grows { Grows into.old into.new result }
{
    let mut changed = false;
    for b in from.row(a) {
        changed |= into.put(a, b);
    }
    changed
}

/// Lets all pairs of one relation stand in the other, and answers whether a pair was new.
pub(crate) fn take_all(from: &BitRows, into: &mut BitRows) -> bool
    requires { from.now.size ≡ into.old.size }
    ensures pairs { (x y : ℕ) → (has into.new x y ≡ true)
        ↔ ((has into.old x y ≡ true) ⊎ (has from.now x y ≡ true)) }
    ensures grows { Grows into.old into.new result }
{
    let mut changed = false;
    for a in 0..from.size() {
        changed |= take_row(from, a, into);
    }
    changed
}

/// Lets what stands with a label in one relation stand with it in the other, where the label is global.
fn take_if_global(from: &BitRows, label: Label, labels: &Labels, into: &mut BitRows) -> bool
    requires label { label < length labels.now.entries }
    requires from { from.now.size ≡ length labels.now.entries }
    requires into { into.old.size ≡ length labels.now.entries }
    ensures pairs { (x y : ℕ) → (has into.new x y ≡ true)
        ↔ ((has into.old x y ≡ true) ⊎ ((is_global_at labels.now x ≡ true) × (x ≡ label)
        × (has from.now x y ≡ true))) }
    ensures grows { Grows into.old into.new result }
{
    if !labels.is_global(label) {
        return false;
    }
    take_row(from, label.0, into)
}

/// Lets what stands with global labels in one relation stand with them in the other, and
/// answers whether a pair was new.
pub(crate) fn take_globals(from: &BitRows, labels: &Labels, into: &mut BitRows) -> bool
    requires from { from.now.size ≡ length labels.now.entries }
    requires into { into.old.size ≡ length labels.now.entries }
    ensures pairs { (x y : ℕ) → (has into.new x y ≡ true)
        ↔ ((has into.old x y ≡ true) ⊎ ((is_global_at labels.now x ≡ true) × (has from.now x y ≡ true))) }
    ensures grows { Grows into.old into.new result }
{
    let mut changed = false;
    for number in 0..labels.count() {
        changed |= take_if_global(from, Label(number), labels, into);
    }
    changed
}
