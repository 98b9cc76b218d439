//! The points of no function that write the pointers with which cells of static storage begin (C99 6.7.8, 4).
ghost use Rattle.std.specs.Prelude.{◌≡◌, ◌↔◌, ◌<◌, ◌≤◌, ◌+◌, IfOk, IfSome, IsTrue, MatchOption, OnOk, Some, length};
ghost use Rattle.lk_facts.specs.InRange.{IsInRange};
ghost use Rattle.lk_point_statics.specs.Writing.{AreStaticWrites, AreWritesBefore, AreWritten, Begins, BeginsAt, GivesValue, IsBegun, IsStaticWrite, NoneBegins, WritesAt, needs_write as needs};
ghost use Rattle.lk_point_statics.specs.declared.writes.StaticWrite.{StaticWrite as Write};

use crate::addresses::{gives_address, gives_function};
use lk_base::NoMemory;
use lk_facts::{Action, Initial, InitialValue, Points};
use std::alloc::Global;

/// What a point of no function writes.
#[derive(Clone, Copy)]
pub(crate) struct StaticWrite {
    /// The point that gives the pointer to the cell.
    pointer: u32,
    /// The point that gives the value.
    value: u32,
}

/// What a point writes, where it is one of no function.
fn write_at(points: &Points, p: u32) -> Option<StaticWrite>
    requires { p < length points.now.points }
    ensures is { IfSome result (IsStaticWrite points.now) }
    ensures only { (write : Write) → WritesAt points.now p write → result ≡ Some write }
{
    if points.function(p) != points.functions() {
        return None;
    }
    let Action::Write { a, b, raw } = points.action(p) else {
        return None;
    };
    if *raw {
        return None;
    }
    Some(StaticWrite {
        pointer: *a,
        value: *b,
    })
}

/// Puts what a point of no function writes behind what those before it write.
fn push_write(points: &Points, p: u32, writes: &mut Vec<StaticWrite>) -> Result<(), NoMemory>
    requires p { p < length points.now.points }
    requires writes { AreWritesBefore points.now p writes.old.items }
    ensures { OnOk result (AreWritesBefore points.now (p + 1) writes.new.items) }
{
    match write_at(points, p) {
        Some(write) => {
            writes.push(write)?;
            Ok(())
        }
        None => Ok(()),
    }
}

/// What the points of no function write, in their order.
pub(crate) fn static_writes(alloc: Global, points: &Points) -> Result<Vec<StaticWrite>, NoMemory>
    ensures writes { IfOk result (λ writes. AreStaticWrites points.now writes.items) }
    ensures in_range { OnOk result (IsInRange points.now) }
{
    let mut writes = Vec::new(alloc);
    for p in 0..points.count() {
        push_write(points, p, &mut writes)?;
    }
    Ok(writes)
}

/// Whether a point gives the pointer with which a cell begins. It need not for another value.
fn gives_value(points: &Points, p: u32, value: &InitialValue) -> bool
    requires { p < length points.now.points }
    ensures { IsTrue result ↔ GivesValue points.now p value.now }
{
    match value {
        InitialValue::Number(_) | InitialValue::Null | InitialValue::Ready => true,
        InitialValue::Function(f) => gives_function(points, p, *f),
        InitialValue::Address { root, path, past } => {
            gives_address(points, p, *root, path.list(), *past)
        }
    }
}

impl StaticWrite {
    /// Whether it writes the pointer with which a cell begins.
    fn begins(self, points: &Points, initial: &Initial) -> bool
        requires { IsStaticWrite points.now self }
        ensures { IsTrue result ↔ Begins points.now initial.now self }
    {
        gives_address(
            points,
            self.pointer,
            initial.root,
            initial.path.list(),
            false,
        ) && gives_value(points, self.value, &initial.value)
    }
}

/// Whether the write at a place writes the pointer with which a cell begins.
fn begins_at(points: &Points, writes: &[StaticWrite], place: usize, initial: &Initial) -> bool
    requires writes { AreStaticWrites points.now writes.now }
    requires place { place < length writes.now }
    ensures { IsTrue result ↔ BeginsAt points.now initial.now writes.now place }
{
    let write = writes[place];
    write.begins(points, initial)
}

/// The place of a write among those from one place up to another that writes the
/// pointer with which a cell begins.
fn write_among(
    points: &Points,
    writes: &[StaticWrite],
    first: usize,
    end: usize,
    initial: &Initial,
) -> Option<usize>
    requires writes { AreStaticWrites points.now writes.now }
    requires end { end ≤ length writes.now }
    ensures within { IfSome result (λ place. place < length writes.now) }
    ensures begun { MatchOption result (NoneBegins points.now initial.now writes.now first end)
        (λ _. IsBegun points.now initial.now) }
{
    for place in first..end {
        if begins_at(points, writes, place, initial) {
            return Some(place);
        }
    }
    None
}

/// The place of a write that writes the pointer with which a cell begins: from this place on, or before it.
fn write_of(
    points: &Points,
    writes: &[StaticWrite],
    from: usize,
    initial: &Initial,
) -> Option<usize>
    requires writes { AreStaticWrites points.now writes.now }
    requires from { from ≤ length writes.now }
    ensures within { IfSome result (λ place. place < length writes.now) }
    ensures begun { MatchOption result (NoneBegins points.now initial.now writes.now 0 (length writes.now))
        (λ _. IsBegun points.now initial.now) }
{
    match write_among(points, writes, from, writes.len(), initial) {
        Some(place) => Some(place),
        None => write_among(points, writes, 0, from, initial),
    }
}

/// Whether a cell begins with a pointer that a point writes.
fn needs_write(value: &InitialValue) -> bool
    ensures { result ≡ needs value.now }
{
    match value {
        InitialValue::Number(_) | InitialValue::Null | InitialValue::Ready => false,
        InitialValue::Function(_) | InitialValue::Address { .. } => true,
    }
}

/// The place behind the write of the pointer with which a cell begins; this place where it begins with none.
#[tactic(auto, using(crate::proofs::Beginning::not_needed))]
fn after_write(
    points: &Points,
    writes: &[StaticWrite],
    from: usize,
    initial: &Initial,
) -> Option<usize>
    requires writes { AreStaticWrites points.now writes.now }
    requires from { from ≤ length writes.now }
    ensures within { IfSome result (λ place. place ≤ length writes.now) }
    ensures begun { MatchOption result (IsBegun points.now initial.now → ⊥)
        (λ _. IsBegun points.now initial.now) }
{
    if !needs_write(&initial.value) {
        return Some(from);
    }
    let place = write_of(points, writes, from, initial)?;
    Some(place + 1)
}

/// Whether each pointer with which a cell of static storage begins is among what points write. Both stand in
/// the order of the text, so that the search for one goes on behind the one before.
pub(crate) fn are_written(points: &Points, writes: &[StaticWrite]) -> bool
    requires { AreStaticWrites points.now writes.now }
    ensures { IsTrue result ↔ AreWritten points.now }
{
    let mut next = 0;
    for initial in points.initials() {
        match after_write(points, writes, next, initial) {
            Some(place) => next = place,
            None => return false,
        }
    }
    true
}
