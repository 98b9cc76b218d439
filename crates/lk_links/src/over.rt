//! What a label inside a function is to whoever goes into it, and what a lock set holds for a lock.
//! Labels are given by their numbers.
ghost use Rattle.std.specs.Prelude.{◌≡◌, ◌<◌, ◌++◌, ℕ, true, ◌↔◌, IsTrue, IfSome, IfOk, OnOk, All, length};
ghost use Rattle.std.specs.List.{flat_map};
ghost use Rattle.lk_facts.specs.Flow.{IsOnly, Over, IsHeldAs, RisesAs, Clash};
ghost use Rattle.lk_facts.specs.Lists.{Lists};
ghost use Rattle.lk_facts.specs.Origins.{flow_of};
ghost use Rattle.lk_links.specs.Only.{IsTheOne, IsOneIfOnly, IsSome, Crosses, OneHas, AreOver, HaveRisen, over_list};
ghost use Rattle.lk_sets.specs.Ids.{has_id};
ghost use Rattle.lk_sets.specs.Rows.{has, row_of};

use lk_base::NoMemory;
use lk_facts::{Facts, Label, Way};
use lk_sets::{BitRows, IdSet};
use std::alloc::Global;

/// Whether two labels may mean one and the same place.
pub fn clash(facts: &Facts<'_>, x: u32, y: u32) -> bool
    requires x { x < length facts.now.labels.entries }
    requires y { y < length facts.now.labels.entries }
    ensures { IsTrue result ↔ Clash (flow_of facts.now.origins) x y }
{
    let all = facts.origins().all();
    prove!(y < all.size());
    for origin in all.row(x) {
        if all.has(y, origin) {
            return true;
        }
    }
    false
}

/// Whether row a has no other number than b.
fn has_no_other(rows: &BitRows, a: u32, b: u32) -> bool
    requires a { a < rows.now.size }
    requires b { b < rows.now.size }
    ensures { IsTrue result ↔ ((c : ℕ) → has rows.now a c ≡ true → c ≡ b) }
{
    prove!(b < rows.size());
    match rows.next_in_row(a, 0) {
        Some(first) => first == b && rows.next_in_row(a, b + 1).is_none(),
        None => true,
    }
}

/// The only number of row a, where there is just one.
pub fn only_in_row(rows: &BitRows, a: u32) -> Option<u32>
    requires { a < rows.now.size }
    ensures value { IsOneIfOnly (λ b. has rows.now a b ≡ true) result }
    ensures in_range { IfSome result (λ b. b < rows.now.size) }
{
    prove!(a < rows.size());
    match rows.next_in_row(a, 0) {
        Some(first) if has_no_other(rows, a, first) => Some(first),
        _ => None,
    }
}

/// What a lock set holds for a lock: the one place that the label can mean, where there is just one, else the
/// label itself.
pub fn held_as(facts: &Facts<'_>, x: u32) -> u32
    requires { x < length facts.now.labels.entries }
    ensures value { IsOnly (IsHeldAs (flow_of facts.now.origins) x) result }
    ensures in_range { result < length facts.now.labels.entries }
{
    match only_in_row(facts.origins().all(), x) {
        Some(place) => place,
        None => x,
    }
}

/// A number of the rows of some labels.
fn first_in_rows(rows: &BitRows, labels: &[u32]) -> Option<u32>
    requires { All (λ n. n < rows.now.size) labels.now }
    ensures value { IsSome (OneHas rows.now labels.now) result }
    ensures in_range { IfSome result (λ m. m < rows.now.size) }
{
    for n in labels {
        if let Some(m) = rows.next_in_row(*n, 0) {
            return Some(m);
        }
    }
    None
}

/// Whether the rows of some labels have no other number than m.
fn have_no_other(rows: &BitRows, labels: &[u32], m: u32) -> bool
    requires labels { All (λ n. n < rows.now.size) labels.now }
    requires m { m < rows.now.size }
    ensures { IsTrue result ↔ ((o : ℕ) → OneHas rows.now labels.now o → o ≡ m) }
{
    for n in labels {
        if !has_no_other(rows, *n, m) {
            return false;
        }
    }
    true
}

/// Whether the list has no other number than m.
fn are_all(ids: &[u32], m: u32) -> bool
    ensures { IsTrue result ↔ ((o : ℕ) → has_id ids.now o ≡ true → o ≡ m) }
{
    ids.iter().all(|o| *o == m)
}

/// A label that x inside may be outside by what crosses the site.
fn first_crossing(facts: &Facts<'_>, way: &Way, x: u32) -> Option<u32>
    requires { x < length facts.now.labels.entries }
    ensures value { IsSome (Crosses (flow_of facts.now.origins) way.now x) result }
    ensures in_range { IfSome result (λ m. m < length facts.now.labels.entries) }
{
    let origins = facts.origins();
    match way {
        Way::Through(site) => origins.cross(*site, Label(x)).first().copied(),
        Way::AsValue(site) => first_in_rows(origins.all(), origins.cross(*site, Label(x))),
    }
}

/// Whether x inside can be no other label than m outside by what crosses the site.
fn is_only_crossing(facts: &Facts<'_>, way: &Way, x: u32, m: u32) -> bool
    requires x { x < length facts.now.labels.entries }
    requires m { m < length facts.now.labels.entries }
    ensures { IsTrue result ↔ ((o : ℕ) → Crosses (flow_of facts.now.origins) way.now x o → o ≡ m) }
{
    let origins = facts.origins();
    match way {
        Way::Through(site) => are_all(origins.cross(*site, Label(x)), m),
        Way::AsValue(site) => have_no_other(origins.all(), origins.cross(*site, Label(x)), m),
    }
}

/// A label that x inside may be outside.
fn first_over(facts: &Facts<'_>, way: &Way, x: u32) -> Option<u32>
    requires { x < length facts.now.labels.entries }
    ensures value { IsSome (Over (flow_of facts.now.origins) way.now x) result }
    ensures in_range { IfSome result (λ m. m < length facts.now.labels.entries) }
{
    match facts.origins().inner().next_in_row(x, 0) {
        Some(m) => Some(m),
        None => first_crossing(facts, way, x),
    }
}

/// Whether x inside can be no other label than m outside.
fn is_only_over(facts: &Facts<'_>, way: &Way, x: u32, m: u32) -> bool
    requires x { x < length facts.now.labels.entries }
    requires m { m < length facts.now.labels.entries }
    ensures { IsTrue result ↔ ((o : ℕ) → Over (flow_of facts.now.origins) way.now x o → o ≡ m) }
{
    has_no_other(facts.origins().inner(), x, m) && is_only_crossing(facts, way, x, m)
}

/// The one label that x inside is outside, where there is just one.
fn up(facts: &Facts<'_>, way: &Way, x: u32) -> Option<u32>
    requires { x < length facts.now.labels.entries }
    ensures value { IsOneIfOnly (Over (flow_of facts.now.origins) way.now x) result }
    ensures in_range { IfSome result (λ m. m < length facts.now.labels.entries) }
{
    let Some(first) = first_over(facts, way, x) else {
        return None;
    };
    if is_only_over(facts, way, x, first) {
        Some(first)
    } else {
        None
    }
}

/// What a lock set outside holds for the lock x inside, where that is one label.
pub fn rises_as(facts: &Facts<'_>, way: &Way, x: u32) -> Option<u32>
    requires { x < length facts.now.labels.entries }
    ensures value { IsTheOne (RisesAs (flow_of facts.now.origins) way.now x) result }
    ensures in_range { IfSome result (λ y. y < length facts.now.labels.entries) }
{
    match up(facts, way, x) {
        Some(m) => Some(held_as(facts, m)),
        None => None,
    }
}

/// Puts the numbers of row a behind the others.
fn push_row(rows: &BitRows, a: u32, ids: &mut Vec<u32>) -> Result<(), NoMemory>
    requires { a < rows.now.size }
    ensures { OnOk result (ids.new.items ≡ ids.old.items ++ row_of rows.now a) }
{
    for m in rows.row(a) {
        ids.push(m)?;
    }
    Ok(())
}

/// Puts the numbers of the rows of some labels behind the others.
fn push_rows(rows: &BitRows, labels: &[u32], ids: &mut Vec<u32>) -> Result<(), NoMemory>
    requires { All (λ n. n < rows.now.size) labels.now }
    ensures { OnOk result (ids.new.items ≡ ids.old.items ++ flat_map (row_of rows.now) labels.now) }
{
    for n in labels {
        push_row(rows, *n, ids)?;
    }
    Ok(())
}

/// Puts all labels that x inside may be outside behind the numbers. One that it may be in
/// several ways is put there as often.
pub fn push_over(facts: &Facts<'_>, way: &Way, x: u32, ids: &mut Vec<u32>) -> Result<(), NoMemory>
    requires { x < length facts.now.labels.entries }
    ensures { OnOk result (ids.new.items ≡ ids.old.items ++ over_list facts.now.origins way.now x) }
{
    let origins = facts.origins();
    push_row(origins.inner(), x, ids)?;
    match way {
        Way::Through(site) => ids.extend_from_slice(origins.cross(*site, Label(x)))?,
        Way::AsValue(site) => push_rows(origins.all(), origins.cross(*site, Label(x)), ids)?,
    }
    Ok(())
}

/// All labels that the labels inside may be outside.
pub fn outside(
    alloc: Global,
    facts: &Facts<'_>,
    way: &Way,
    labels: &[u32],
) -> Result<IdSet, NoMemory>
    requires { All (λ x. x < length facts.now.labels.entries) labels.now }
    ensures exact { IfOk result (Lists (AreOver (flow_of facts.now.origins) way.now labels.now)) }
    ensures in_range { IfOk result (λ ids. All (λ m. m < length facts.now.labels.entries) ids) }
{
    prove!(facts.origins().labels() == facts.labels().count());
    let mut ids = Vec::new(alloc);
    for x in labels {
        push_over(facts, way, *x, &mut ids)?;
    }
    let set = IdSet::from_list(alloc, &ids)?;
    Ok(set)
}

/// What lock sets outside hold for the locks inside.
pub fn risen(alloc: Global, facts: &Facts<'_>, way: &Way, locks: &[u32]) -> Result<IdSet, NoMemory>
    requires { All (λ x. x < length facts.now.labels.entries) locks.now }
    ensures exact { IfOk result (Lists (HaveRisen (flow_of facts.now.origins) way.now locks.now)) }
    ensures in_range { IfOk result (λ ids. All (λ y. y < length facts.now.labels.entries) ids) }
{
    prove!(facts.origins().labels() == facts.labels().count());
    let mut ids = Vec::new(alloc);
    for x in locks {
        if let Some(y) = rises_as(facts, way, *x) {
            ids.push(y)?;
        }
    }
    let set = IdSet::from_list(alloc, &ids)?;
    Ok(set)
}
