//! The text of an order.
ghost use Rattle.std.specs.Prelude.{◌≡◌, ◌<◌, ◌++◌, All, flat_map, length, IfOk, OnOk};
ghost use Rattle.std.specs.List.{filter};
ghost use Rattle.lk_order.specs.Table.{on_cycle};
ghost use Rattle.lk_order.specs.Text.{mutex_places, places_on_cycles, by_rank, totals_line, totals_text, mutex_text, rank_text, cycle_text, places_text, order_text};
ghost use Rattle.lk_report.specs.Names.{CanBeNamed};

use crate::order::Order;
use lk_base::{Files, NoMemory};
use lk_facts::Points;
use lk_report::{place_of, text_of};
use std::alloc::Global;

/// The text of an order: where no mutex place lies on a cycle a line for each with its rank, by their ranks
/// and then in the order of the report; else a line for each place on a cycle; last a line of totals.
pub fn order_text(
    alloc: Global,
    order: &Order,
    points: &Points,
    files: &Files,
) -> Result<Vec<u8>, NoMemory>
    requires named { CanBeNamed files.now points.now }
    ensures { IfOk result (λ text. text.items ≡ order_text files.now points.now order.now) }
{
    let lines = Lines {
        order,
        points,
        files,
    };
    let mut text = Vec::new(alloc);
    lines.push_places(alloc, &mut text)?;
    lines.push_totals(alloc, &mut text)?;
    Ok(text)
}

/// What the lines of the text are made from.
#[derive(Clone, Copy)]
struct Lines<'a> {
    order: &'a Order,
    points: &'a Points,
    files: &'a Files,
}

impl Lines<'_> {
    /// The mutex places, in the order of the report.
    fn mutex_places(&self, alloc: Global) -> Result<Vec<u32>, NoMemory>
        ensures value { IfOk result (λ places. places.items ≡ mutex_places self.now.points.now) }
        ensures in_range { IfOk result (λ places.
            All (λ q. q < length self.now.points.now.places) places.items) }
    {
        let first = self.points.locations();
        let mut places = Vec::new(alloc);
        for lock in 0..self.points.locks() {
            places.push(first + lock)?;
        }
        Ok(places)
    }

    /// Those of the places that lie on cycles.
    fn those_on_cycles(&self, alloc: Global, places: &[u32]) -> Result<Vec<u32>, NoMemory>
        ensures { IfOk result (λ those. those.items ≡ filter (on_cycle self.now.order.now) places.now) }
    {
        let mut those = Vec::new(alloc);
        for q in places {
            if self.order.on_cycle(*q) {
                those.push(*q)?;
            }
        }
        Ok(those)
    }

    /// The mutex places on cycles.
    fn on_cycles(&self, alloc: Global) -> Result<Vec<u32>, NoMemory>
        ensures value { IfOk result (λ places.
            places.items ≡ places_on_cycles self.now.points.now self.now.order.now) }
        ensures in_range { IfOk result (λ places.
            All (λ q. q < length self.now.points.now.places) places.items) }
    {
        let places = self.mutex_places(alloc)?;
        self.those_on_cycles(alloc, &places)
    }

    /// The mutex places by their ranks.
    fn by_rank(&self, alloc: Global) -> Result<Vec<u32>, NoMemory>
        ensures value { IfOk result (λ places.
            places.items ≡ by_rank self.now.points.now self.now.order.now) }
        ensures in_range { IfOk result (λ places.
            All (λ q. q < length self.now.points.now.places) places.items) }
    {
        let mut places = self.mutex_places(alloc)?;
        places.sort_by(|q, r| self.order.rank_at(*q).cmp(&self.order.rank_at(*r)))?;
        Ok(places)
    }

    /// Appends the text of a mutex place, and its place in a source.
    fn push_mutex(&self, alloc: Global, out: &mut Vec<u8>, q: u32) -> Result<(), NoMemory>
        requires place { q < length self.now.points.now.places }
        requires named { CanBeNamed self.now.files.now self.now.points.now }
        ensures { OnOk result (out.new.items
            ≡ out.old.items ++ mutex_text self.now.files.now self.now.points.now q) }
    {
        let text = text_of(alloc, q, self.points, self.files)?;
        out.extend_from_slice(text.as_slice())?;
        out.push(b' ')?;
        let root = self.points.root(self.points.place(q).root);
        let spot = place_of(alloc, root.spot, self.files)?;
        out.extend_from_slice(spot.as_slice())?;
        out.push(b'\n')?;
        Ok(())
    }

    /// Appends the line of a mutex place with its rank.
    fn push_rank(&self, alloc: Global, out: &mut Vec<u8>, q: u32) -> Result<(), NoMemory>
        requires place { q < length self.now.points.now.places }
        requires named { CanBeNamed self.now.files.now self.now.points.now }
        ensures { OnOk result (out.new.items
            ≡ out.old.items ++ rank_text self.now.files.now self.now.points.now self.now.order.now q) }
    {
        let rank = self.order.rank_at(q);
        let start = format!(in alloc; "rank {rank} ")?;
        out.extend_from_slice(start.as_bytes())?;
        self.push_mutex(alloc, out, q)
    }

    /// Appends the line of a mutex place on a cycle.
    fn push_cycle(&self, alloc: Global, out: &mut Vec<u8>, q: u32) -> Result<(), NoMemory>
        requires place { q < length self.now.points.now.places }
        requires named { CanBeNamed self.now.files.now self.now.points.now }
        ensures { OnOk result (out.new.items
            ≡ out.old.items ++ cycle_text self.now.files.now self.now.points.now q) }
    {
        out.extend_from_slice(b"cycle ")?;
        self.push_mutex(alloc, out, q)
    }

    /// Appends the lines of mutex places with their ranks.
    fn push_ranks(&self, alloc: Global, out: &mut Vec<u8>, places: &[u32]) -> Result<(), NoMemory>
        requires places { All (λ q. q < length self.now.points.now.places) places.now }
        requires named { CanBeNamed self.now.files.now self.now.points.now }
        ensures { OnOk result (out.new.items ≡ out.old.items
            ++ flat_map (rank_text self.now.files.now self.now.points.now self.now.order.now) places.now) }
    {
        for q in places {
            self.push_rank(alloc, out, *q)?;
        }
        Ok(())
    }

    /// Appends the lines of mutex places on cycles.
    fn push_cycles(&self, alloc: Global, out: &mut Vec<u8>, places: &[u32]) -> Result<(), NoMemory>
        requires places { All (λ q. q < length self.now.points.now.places) places.now }
        requires named { CanBeNamed self.now.files.now self.now.points.now }
        ensures { OnOk result (out.new.items ≡ out.old.items
            ++ flat_map (cycle_text self.now.files.now self.now.points.now) places.now) }
    {
        for q in places {
            self.push_cycle(alloc, out, *q)?;
        }
        Ok(())
    }

    /// Appends the lines of places.
    fn push_places(&self, alloc: Global, out: &mut Vec<u8>) -> Result<(), NoMemory>
        requires named { CanBeNamed self.now.files.now self.now.points.now }
        ensures { OnOk result (out.new.items ≡ out.old.items
            ++ places_text self.now.files.now self.now.points.now self.now.order.now) }
    {
        if self.order.is_cyclic() {
            let places = self.on_cycles(alloc)?;
            self.push_cycles(alloc, out, places.as_slice())
        } else {
            let places = self.by_rank(alloc)?;
            self.push_ranks(alloc, out, places.as_slice())
        }
    }

    /// Appends the line of totals.
    fn push_totals(&self, alloc: Global, out: &mut Vec<u8>) -> Result<(), NoMemory>
        ensures { OnOk result (out.new.items
            ≡ out.old.items ++ totals_text self.now.points.now self.now.order.now) }
    {
        let cycles = self.on_cycles(alloc)?;
        push_totals_line(
            alloc,
            out,
            self.points.locks(),
            self.order.pairs().len(),
            cycles.len(),
        )
    }
}

/// Appends the line of totals with these numbers of mutex places, of pairs, and of places on cycles.
fn push_totals_line(
    alloc: Global,
    out: &mut Vec<u8>,
    locks: u32,
    pairs: usize,
    cycles: usize,
) -> Result<(), NoMemory>
    ensures { OnOk result (out.new.items ≡ out.old.items ++ totals_line locks pairs cycles) }
{
    let totals = format!(in alloc; "locks {locks}, pairs {pairs}, on cycles {cycles}\n")?;
    out.extend_from_slice(totals.as_bytes())?;
    Ok(())
}
