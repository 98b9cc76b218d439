//! The order of places by the text.
ghost use Rattle.std.specs.Prelude.{◌≡◌, ◌<◌, ◌⊎◌, true, OnOk, length};
ghost use Rattle.lk_lower_expr.specs.Programs.{IsSpotBefore};
ghost use Rattle.lk_lower_parts.specs.TextOrder.{Ascend, IsBefore, IsBeforeOf};

use lk_base::{NoMemory, Spot};
use lk_facts::{Place, Root};

/// Whether a place of the text stands before another.
fn is_spot_before(a: Spot, b: Spot) -> bool
    ensures { result ≡ true → IsSpotBefore a b }
{
    a.file < b.file
        || (a.file == b.file && (a.line < b.line || (a.line == b.line && a.col < b.col)))
}

/// Whether they are one place of the text.
fn is_same_spot(a: Spot, b: Spot) -> bool
    ensures { result ≡ true → a ≡ b }
{
    a.file == b.file && a.line == b.line && a.col == b.col
}

/// Whether a place is that of a root before that of another, or of the same and before it there.
fn is_behind(a: &Place, b: &Place) -> bool
    ensures { result ≡ true → (a.now.root < b.now.root)
        ⊎ ((a.now.root ≡ b.now.root) × (a.now.node.number < b.now.node.number)) }
{
    a.root < b.root || (a.root == b.root && a.node.number < b.node.number)
}

/// Whether a place stands before another, of which these are the roots.
fn is_before_of(ra: &Root, rb: &Root, a: &Place, b: &Place) -> bool
    ensures { result ≡ true → IsBeforeOf ra.now rb.now a.now b.now }
{
    is_spot_before(ra.spot, rb.spot) || (is_same_spot(ra.spot, rb.spot) && is_behind(a, b))
}

/// Whether a place stands before another.
fn is_before(roots: &[Root], a: &Place, b: &Place) -> bool
    ensures { result ≡ true → IsBefore roots.now a.now b.now }
{
    match (roots.get(a.root as usize), roots.get(b.root as usize)) {
        (Some(ra), Some(rb)) => is_before_of(ra, rb, a, b),
        (None, _) | (Some(_), None) => false,
    }
}

/// Whether each of these places stands before the next.
fn ascend(roots: &[Root], places: &[Place]) -> bool
    ensures { result ≡ true → Ascend roots.now places.now 0 (length places.now) }
{
    for k in 1..places.len() {
        if !is_before(roots, &places[k - 1], &places[k]) {
            return false;
        }
    }
    true
}

/// That places are in their order. They were found in it.
pub(crate) fn are_in_order(roots: &[Root], places: &[Place]) -> Result<(), NoMemory>
    ensures { OnOk result (Ascend roots.now places.now 0 (length places.now)) }
{
    if ascend(roots, places) {
        Ok(())
    } else {
        Err(NoMemory)
    }
}
