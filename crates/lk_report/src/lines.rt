//! The report.
ghost use Rattle.std.specs.Prelude.{◌≡◌, ◌<◌, ◌++◌, All, flat_map, length, IfOk, OnOk};
ghost use Rattle.lk_report.specs.Names.{CanBeNamed};
ghost use Rattle.lk_report.specs.Report.{locks_text, held_text, state_text, access_word, access_text, accesses_text, location_text, is_state, count_of, total_text, report_text, AreLockPlaces, IsAccessThere, IsVerdictThere};

use crate::names::{push_location_spot, push_spot, push_text};
use crate::order::in_order;
use lk_base::{Files, NoMemory};
use lk_facts::{Points, Racing, Verdict, VerdictState};
use std::alloc::Global;

/// What the lines of a report are made from.
#[derive(Clone, Copy)]
struct Lines<'a> {
    points: &'a Points,
    files: &'a Files,
}

impl Lines<'_> {
    /// Appends lock places, with `, ` between them.
    fn push_locks(&self, alloc: Global, out: &mut Vec<u8>, locks: &[u32]) -> Result<(), NoMemory>
        requires named { CanBeNamed self.now.files.now self.now.points.now }
        requires locks { AreLockPlaces self.now.points.now locks.now }
        ensures { OnOk result (out.new.items
            ≡ out.old.items ++ locks_text self.now.files.now self.now.points.now locks.now) }
    {
        let Some((first, others)) = locks.split_first() else {
            return Ok(());
        };
        push_text(alloc, out, self.points, self.files, *first)?;
        for lock in others {
            out.extend_from_slice(b", ")?;
            push_text(alloc, out, self.points, self.files, *lock)?;
        }
        Ok(())
    }

    /// Appends the locks that are held, or `nothing`.
    fn push_held(&self, alloc: Global, out: &mut Vec<u8>, locks: &[u32]) -> Result<(), NoMemory>
        requires named { CanBeNamed self.now.files.now self.now.points.now }
        requires locks { AreLockPlaces self.now.points.now locks.now }
        ensures { OnOk result (out.new.items
            ≡ out.old.items ++ held_text self.now.files.now self.now.points.now locks.now) }
    {
        if locks.is_empty() {
            out.extend_from_slice(b"nothing")?;
            return Ok(());
        }
        self.push_locks(alloc, out, locks)?;
        Ok(())
    }

    /// Appends what a verdict says.
    fn push_state(
        &self,
        alloc: Global,
        out: &mut Vec<u8>,
        verdict: &Verdict,
    ) -> Result<(), NoMemory>
        requires named { CanBeNamed self.now.files.now self.now.points.now }
        requires locks { AreLockPlaces self.now.points.now verdict.now.locks }
        ensures { OnOk result (out.new.items
            ≡ out.old.items ++ state_text self.now.files.now self.now.points.now verdict.now.state
            verdict.now.locks) }
    {
        match verdict.state {
            VerdictState::Unshared => out.extend_from_slice(b"unshared")?,
            VerdictState::Suspect => out.extend_from_slice(b"suspect")?,
            VerdictState::Guarded => {
                out.extend_from_slice(b"guarded by ")?;
                self.push_locks(alloc, out, verdict.locks.ids())?;
            }
        }
        Ok(())
    }

    /// What the access of a point does.
    fn access_word(&self, point: u32) -> &'static [u8]
        requires { point < length self.now.points.now.points }
        ensures { result.now ≡ access_word self.now.points.now point }
    {
        if self.points.effect(point).writes() {
            b"write"
        } else {
            b"read"
        }
    }

    /// Appends the line of a racing access.
    fn push_access(&self, alloc: Global, out: &mut Vec<u8>, racing: &Racing) -> Result<(), NoMemory>
        requires named { CanBeNamed self.now.files.now self.now.points.now }
        requires there { IsAccessThere self.now.points.now racing.now }
        ensures { OnOk result (out.new.items
            ≡ out.old.items ++ access_text self.now.files.now self.now.points.now racing.now) }
    {
        let point = racing.access;
        let function = self.points.function(point);
        out.extend_from_slice(b"  ")?;
        out.extend_from_slice(self.access_word(point))?;
        out.push(b' ')?;
        push_spot(alloc, out, self.files, self.points.spot(point))?;
        out.extend_from_slice(b" in ")?;
        out.extend_from_slice(self.points.name(function).bytes())?;
        out.extend_from_slice(b" holding ")?;
        self.push_held(alloc, out, racing.locks.ids())?;
        out.push(b'\n')?;
        Ok(())
    }

    /// Appends the lines of racing accesses.
    fn push_all(
        &self,
        alloc: Global,
        out: &mut Vec<u8>,
        accesses: &[Racing],
    ) -> Result<(), NoMemory>
        requires named { CanBeNamed self.now.files.now self.now.points.now }
        requires there { All (IsAccessThere self.now.points.now) accesses.now }
        ensures { OnOk result (out.new.items
            ≡ out.old.items ++ flat_map (access_text self.now.files.now self.now.points.now) accesses.now) }
    {
        for racing in accesses {
            self.push_access(alloc, out, racing)?;
        }
        Ok(())
    }

    /// Appends the lines of the racing accesses of a location where it is suspect,
    /// in the order of their places.
    fn push_racing(
        &self,
        alloc: Global,
        out: &mut Vec<u8>,
        verdict: &Verdict,
    ) -> Result<(), NoMemory>
        requires named { CanBeNamed self.now.files.now self.now.points.now }
        requires there { IsVerdictThere self.now.points.now verdict.now }
        ensures { OnOk result (out.new.items
            ≡ out.old.items ++ accesses_text self.now.files.now self.now.points.now verdict.now.state
            verdict.now.accesses) }
    {
        match verdict.state {
            VerdictState::Suspect => {
                let told = in_order(alloc, self.points, verdict.accesses.list())?;
                self.push_all(alloc, out, told.as_slice())
            }
            VerdictState::Guarded | VerdictState::Unshared => Ok(()),
        }
    }

    /// Appends the lines of a location.
    fn push_location(
        &self,
        alloc: Global,
        out: &mut Vec<u8>,
        verdict: &Verdict,
    ) -> Result<(), NoMemory>
        requires named { CanBeNamed self.now.files.now self.now.points.now }
        requires there { IsVerdictThere self.now.points.now verdict.now }
        ensures { OnOk result (out.new.items
            ≡ out.old.items ++ location_text self.now.files.now self.now.points.now verdict.now) }
    {
        push_text(alloc, out, self.points, self.files, verdict.location)?;
        out.push(b' ')?;
        push_location_spot(alloc, out, self.points, self.files, verdict.location)?;
        out.push(b' ')?;
        self.push_state(alloc, out, verdict)?;
        out.push(b'\n')?;
        self.push_racing(alloc, out, verdict)
    }
}

fn is_state(state: VerdictState, other: VerdictState) -> bool
    ensures { result ≡ is_state state other }
{
    state == other
}

/// How many verdicts have the state.
fn count_of(state: VerdictState, verdicts: &[Verdict]) -> usize
    ensures { result ≡ count_of state verdicts.now }
{
    verdicts.iter().filter(|v| is_state(state, v.state)).count()
}

/// Appends the line of totals.
fn push_total(alloc: Global, out: &mut Vec<u8>, verdicts: &[Verdict]) -> Result<(), NoMemory>
    ensures { OnOk result (out.new.items ≡ out.old.items ++ total_text verdicts.now) }
{
    let count = verdicts.len();
    let guarded = count_of(VerdictState::Guarded, verdicts);
    let unshared = count_of(VerdictState::Unshared, verdicts);
    let suspect = count_of(VerdictState::Suspect, verdicts);
    let total = format!(in alloc;
        "total {count}, guarded {guarded}, unshared {unshared}, suspect {suspect}\n"
    )?;
    out.extend_from_slice(total.as_bytes())?;
    Ok(())
}

/// The report of these verdicts, in their order: a line for each location, with a line for each racing access
/// where it is suspect, in the order of their places, and a line of totals.
pub fn report(
    alloc: Global,
    verdicts: &[Verdict],
    points: &Points,
    files: &Files,
) -> Result<Vec<u8>, NoMemory>
    requires named { CanBeNamed files.now points.now }
    requires there { All (IsVerdictThere points.now) verdicts.now }
    ensures { IfOk result (λ text. text.items ≡ report_text files.now points.now verdicts.now) }
{
    let lines = Lines { points, files };
    let mut text = Vec::new(alloc);
    for verdict in verdicts {
        lines.push_location(alloc, &mut text, verdict)?;
    }
    push_total(alloc, &mut text, verdicts)?;
    Ok(text)
}
