//! Which points may be performed more than once.
ghost use Rattle.std.specs.Prelude.{◌≡◌, ◌<◌, ◌↔◌, ◌⊎◌, ◌||◌, ◌+◌, ℕ, List, Some, true, All, Contains, IfOk, IfSome, OnOk, length};
ghost use Rattle.lk_facts.specs.Lists.{Lists};
ghost use Rattle.lk_facts.specs.Many.{IsSiteOf, Many};
ghost use Rattle.lk_facts.specs.Reach.{IsOnCycle};
ghost use Rattle.lk_graph.specs.Again.{AreEnterings, AreSitesBelow, GoesInto, HasSites, IsEnteredAgain, IsEnteringAt, IsReachedFrom, IsValue, IsValueAt, is_many_at};
ghost use Rattle.lk_graph.specs.Found.{Finds};
ghost use Rattle.lk_sets.specs.Adding.{Adds, IsGiven};
ghost use Rattle.lk_sets.specs.Ids.{has_id};

use crate::found::Found;
use crate::loops::cycles;
use lk_base::NoMemory;
use lk_facts::Points;
use lk_sets::IdSet;
use std::alloc::Global;

/// A live call or creation, by the function that it is a step of and the one that it goes into.
#[derive(Clone, Copy)]
pub(crate) struct Entering {
    /// The function that it is a step of.
    pub above: u32,
    /// The function that it goes into.
    pub below: u32,
}

/// The points that may be performed more than once: control may come back to the point, or its function is
/// used as a value, has two sites, or has a site that may be performed more than once.
pub fn many(alloc: Global, points: &Points) -> Result<IdSet, NoMemory>
    ensures { IfOk result (Lists (Many points.now)) }
{
    let cycles = cycles(alloc, points)?;
    let again = entered_again(alloc, points, &cycles)?;
    performed_again(alloc, points, &cycles, &again)
}

/// The points to which control may come back, and those of functions that may be entered more than once.
fn performed_again(
    alloc: Global,
    points: &Points,
    cycles: &IdSet,
    again: &Found,
) -> Result<IdSet, NoMemory>
    requires cycles { (p : ℕ) → (has_id cycles.now p ≡ true) ↔ IsOnCycle points.now p }
    requires again { (f : ℕ) → Contains again.now.list f ↔ IsEnteredAgain points.now f }
    ensures { IfOk result (Lists (Many points.now)) }
{
    let mut ids = Vec::new(alloc);
    for point in 0..points.count() {
        if is_many(points, cycles, again, point) {
            ids.push(point)?;
        }
    }
    let many = IdSet::from_list(alloc, &ids)?;
    Ok(many)
}

/// Whether control may come back to a point, or its function was found to be entered more than once.
fn is_many(points: &Points, cycles: &IdSet, again: &Found, point: u32) -> bool
    requires { point < length points.now.points }
    ensures { result ≡ is_many_at points.now cycles.now again.now.list point }
{
    cycles.has(point) || again.has(points.function(point))
}

/// The functions that may be entered more than once.
fn entered_again(alloc: Global, points: &Points, cycles: &IdSet) -> Result<Found, NoMemory>
    requires { (p : ℕ) → (has_id cycles.now p ≡ true) ↔ IsOnCycle points.now p }
    ensures { IfOk result (λ again. (f : ℕ) → Contains again.list f ↔ IsEnteredAgain points.now f) }
{
    let mut again = values(alloc, points)?;
    put_sites(alloc, points, cycles, &mut again)?;
    let enterings = enterings(alloc, points)?;
    grow(&enterings, &mut again)?;
    Ok(again)
}

/// The functions that are used as values.
fn values(alloc: Global, points: &Points) -> Result<Found, NoMemory>
    ensures size { IfOk result (λ values. values.size ≡ length points.now.functions) }
    ensures members { IfOk result (λ values. (f : ℕ) → Contains values.list f ↔ IsValue points.now f) }
{
    let mut values = Found::new(alloc, points.functions())?;
    for function in 0..points.functions() {
        put_value(points, function, &mut values)?;
    }
    Ok(values)
}

/// Puts a function behind the others, where it is used as a value.
fn put_value(points: &Points, function: u32, values: &mut Found) -> Result<(), NoMemory>
    requires function { function < length points.now.functions }
    requires size { values.old.size ≡ length points.now.functions }
    ensures { OnOk result (Finds (IsValueAt points.now function) values.old values.new) }
{
    if points.value_site(function).is_none() {
        return Ok(());
    }
    values.put(function)?;
    Ok(())
}

/// The function that a point goes into by its number, where the point is live.
fn entered(points: &Points, point: u32) -> Option<u32>
    requires { point < length points.now.points }
    ensures value { (f : ℕ) → (result ≡ Some f) ↔ IsSiteOf points.now f point }
    ensures in_range { IfSome result (λ f. f < length points.now.functions) }
{
    if !points.live(point) {
        return None;
    }
    points.effect(point).entered()
}

/// Puts the functions that have two sites, or one to which control may come back, behind the others.
fn put_sites(
    alloc: Global,
    points: &Points,
    cycles: &IdSet,
    again: &mut Found,
) -> Result<(), NoMemory>
    requires size { again.old.size ≡ length points.now.functions }
    requires cycles { (p : ℕ) → (has_id cycles.now p ≡ true) ↔ IsOnCycle points.now p }
    ensures size { OnOk result (again.new.size ≡ length points.now.functions) }
    ensures sites { OnOk result ((f : ℕ) → Contains again.new.list f
        ↔ (Contains again.old.list f ⊎ HasSites points.now (length points.now.points) f)) }
{
    let mut once = Found::new(alloc, points.functions())?;
    for point in 0..points.count() {
        put_site(points, cycles, point, &mut once, again)?;
    }
    Ok(())
}

/// Puts the function that a point goes into behind those that are entered, and behind those that are entered
/// more than once where another point goes into it too, or control may come back to this one.
fn put_site(
    points: &Points,
    cycles: &IdSet,
    point: u32,
    once: &mut Found,
    again: &mut Found,
) -> Result<(), NoMemory>
    requires point { point < length points.now.points }
    requires cycles { (p : ℕ) → (has_id cycles.now p ≡ true) ↔ IsOnCycle points.now p }
    requires once { once.old.size ≡ length points.now.functions }
    requires again { again.old.size ≡ length points.now.functions }
    ensures once { OnOk result (once.new.size ≡ length points.now.functions) }
    ensures again { OnOk result (again.new.size ≡ length points.now.functions) }
    ensures sites { OnOk result ((first : List ℕ)
        → AreSitesBelow points.now point first once.old.list again.old.list
        → AreSitesBelow points.now (point + 1) first once.new.list again.new.list) }
{
    let Some(function) = entered(points, point) else {
        return Ok(());
    };
    put_again(cycles, point, function, once, again)?;
    once.put(function)?;
    Ok(())
}

/// Whether the function that a point goes into was found to be entered, or
/// control may come back to the point.
fn comes_again(cycles: &IdSet, point: u32, function: u32, once: &Found) -> bool
    ensures { result ≡ (has_id once.now.list function || has_id cycles.now point) }
{
    once.has(function) || cycles.has(point)
}

/// Puts the function that a point goes into behind the others, where it comes again.
fn put_again(
    cycles: &IdSet,
    point: u32,
    function: u32,
    once: &Found,
    again: &mut Found,
) -> Result<(), NoMemory>
    requires { function < again.old.size }
    ensures { OnOk result (Finds (λ f. (function ≡ f)
        × ((has_id once.now.list function || has_id cycles.now point) ≡ true)) again.old again.new) }
{
    if !comes_again(cycles, point, function, once) {
        return Ok(());
    }
    again.put(function)?;
    Ok(())
}

/// The live calls and creations.
fn enterings(alloc: Global, points: &Points) -> Result<Vec<Entering>, NoMemory>
    ensures members { IfOk result (λ found. AreEnterings points.now (length points.now.points) found.items) }
    ensures in_range { IfOk result (λ found. All (λ e. e.below < length points.now.functions) found.items) }
{
    let mut found = Vec::new(alloc);
    for point in 0..points.count() {
        push_entering(points, point, &mut found)?;
    }
    Ok(found)
}

/// Puts a point behind the others, where it is a live call or creation.
fn push_entering(points: &Points, point: u32, found: &mut Vec<Entering>) -> Result<(), NoMemory>
    requires point { point < length points.now.points }
    requires in_range { All (λ e. e.below < length points.now.functions) found.old.items }
    ensures adds { OnOk result (Adds (IsEnteringAt points.now point) found.old.items found.new.items) }
    ensures in_range { OnOk result (All (λ e. e.below < length points.now.functions) found.new.items) }
{
    let Some(below) = entered(points, point) else {
        return Ok(());
    };
    let above = points.function(point);
    found.push(Entering { above, below })?;
    Ok(())
}

/// Puts the functions behind the others that are entered from those that were found, each
/// found function after the other.
fn grow(enterings: &[Entering], again: &mut Found) -> Result<(), NoMemory>
    requires { All (λ e. e.below < again.old.size) enterings.now }
    ensures { OnOk result ((f : ℕ) →
        Contains again.new.list f ↔ IsReachedFrom again.old.list enterings.now f) }
{
    for k in 0..usize::MAX {
        if k >= again.list().len() {
            return Ok(());
        }
        let function = again.list()[k];
        enter(enterings, function, again)?;
    }
    unreachable!()
}

/// Puts the functions behind the others that are entered from this one.
fn enter(enterings: &[Entering], function: u32, again: &mut Found) -> Result<(), NoMemory>
    requires { All (λ e. e.below < again.old.size) enterings.now }
    ensures { OnOk result (Finds (IsGiven (GoesInto function) enterings.now) again.old again.new) }
{
    for entering in enterings {
        enter_by(entering, function, again)?;
    }
    Ok(())
}

/// Puts the function behind the others that a call or creation goes into, where it is one of this function.
fn enter_by(entering: &Entering, function: u32, again: &mut Found) -> Result<(), NoMemory>
    requires { entering.now.below < again.old.size }
    ensures { OnOk result (Finds (GoesInto function entering.now) again.old again.new) }
{
    if entering.above != function {
        return Ok(());
    }
    again.put(entering.below)?;
    Ok(())
}
