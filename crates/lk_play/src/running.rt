//! The run of a program by a schedule, told line by line.
ghost use Rattle.std.specs.Prelude.{◌≡◌, ◌<◌, ◌≤◌, ◌+◌, ◌∷◌, ◌++◌, List, All, IfOk, OnOk};
ghost use Rattle.lk_birth.specs.Births.{listed};
ghost use Rattle.lk_birth.specs.Starts.{IsSmall};
ghost use Rattle.lk_facts.specs.Lowered.{IsLowered};
ghost use Rattle.lk_play.specs.Calls.{BeginsAt, Comes, Counts, EndsSo, IsLineThere, TellsTouch};
ghost use Rattle.lk_play.specs.Played.{IsTrueRace};
ghost use Rattle.lk_play.specs.Plays.{Asks, IsPlay, IsTold, until, most_steps};
ghost use Rattle.lk_play.specs.Races.{race_lines};
ghost use Rattle.lk_play.specs.declared.schedules.Turn as scheduled;

use crate::lines::{Ending, Line};
use crate::races::raced;
use crate::schedules::Turn;
use lk_base::NoMemory;
use lk_birth::start;
use lk_cells::State;
use lk_facts::Points;
use lk_meaning::{Stepped, location, step, touch};
use lk_sets::IdSet;
use std::alloc::Global;

/// How many steps a play has at most.
const MOST_STEPS: u32 = 65536;

/// What was told of a play, and where it stands.
#[derive(Drop)]
struct Telling {
    /// The lines so far.
    lines: Vec<Line>,
    /// The locations with a race in the state that it stands at.
    raced: IdSet,
    /// How many steps were taken.
    taken: u32,
}

/// What comes of a turn.
#[derive(Drop)]
enum Coming {
    /// The play goes on in this state.
    On(State),
    /// It ends.
    Over(Ending),
}

/// What is told of the cell that a thread is about to touch, where that is one of a location.
fn access(points: &Points, state: &State, thread: u32) -> Result<Option<Line>, NoMemory>
    ensures { IfOk result (IsTold points.now state.now thread) }
{
    let Some(found) = state.threads.get(thread as usize) else {
        return Ok(None);
    };
    let Some(touched) = touch(points, state, thread)? else {
        return Ok(None);
    };
    match location(points, state, &touched.cell) {
        Some(number) => Ok(Some(Line::Access {
            thread,
            writes: touched.writes,
            location: number,
            point: found.frame.point,
        })),
        None => Ok(None),
    }
}

/// Appends a line for each location that has a race now and had none before.
fn push_races(lines: &mut Vec<Line>, before: &IdSet, now: &IdSet) -> Result<(), NoMemory>
    ensures { OnOk result (lines.new.items ≡ lines.old.items ++ race_lines before.now now.now) }
{
    let ids = now.ids();
    for location in ids {
        if !before.has(*location) {
            lines.push(Line::Race(*location))?;
        }
    }
    Ok(())
}

impl Telling {
    /// Tells of a step, and of the races in the state to which it led.
    fn tell(&mut self, access: Option<Line>, raced: IdSet) -> Result<(), NoMemory>
        requires { self.old.taken < most_steps }
        ensures lines { OnOk result (self.new.lines.items
            ≡ self.old.lines.items ++ (listed access ++ race_lines self.old.raced raced)) }
        ensures raced { OnOk result (self.new.raced ≡ raced) }
        ensures taken { OnOk result (self.new.taken ≡ self.old.taken + 1) }
    {
        if let Some(line) = access {
            self.lines.push(line)?;
        }
        push_races(&mut self.lines, &self.raced, &raced)?;
        self.raced = raced;
        self.taken += 1;
        Ok(())
    }
}

/// What comes of a step of a thread with a word.
fn take_step(
    alloc: Global,
    points: &Points,
    telling: &mut Telling,
    state: State,
    thread: u32,
    word: u64,
) -> Result<Coming, NoMemory>
    requires lowered { IsLowered points.now }
    requires small { IsSmall state }
    requires few { telling.old.taken ≤ most_steps }
    ensures comes { IfOk result (λ coming. (ahead rest : List scheduled.Turn) →
        Asks points.now state ahead thread word rest →
        Comes points.now state telling.old ahead telling.new rest coming) }
    ensures counts { IfOk result (Counts telling.old telling.new) }
    ensures few { OnOk result (telling.new.taken ≤ most_steps) }
{
    if telling.taken >= MOST_STEPS {
        return Ok(Coming::Over(Ending::Limit));
    }
    let access = access(points, &state, thread)?;
    match step(alloc, points, state, thread, word) {
        Stepped::Moved(state, _event) => {
            let raced = raced(alloc, points, &state)?;
            telling.tell(access, raced)?;
            Ok(Coming::On(state))
        }
        Stepped::Waits(_) => Ok(Coming::Over(Ending::Waits(thread))),
        Stepped::Undefined(_, why) => Ok(Coming::Over(Ending::Undefined(thread, why))),
        Stepped::Ended(_) => Ok(Coming::Over(Ending::Ended(thread))),
        Stepped::NoSuchThread(_) => Ok(Coming::Over(Ending::NoThread(thread))),
        Stepped::Full(_) => Ok(Coming::Over(Ending::Full(thread))),
        Stepped::NoMemory(_) => Err(NoMemory),
    }
}

/// Whether a thread is about to touch a cell.
fn is_touching(points: &Points, state: &State, thread: u32) -> Result<bool, NoMemory>
    ensures { IfOk result (TellsTouch points.now state.now thread) }
{
    let touched = touch(points, state, thread)?;
    match touched {
        Some(_) => Ok(true),
        None => Ok(false),
    }
}

/// What comes of steps of a thread with a word until it is about to touch a cell.
fn take_steps(
    alloc: Global,
    points: &Points,
    telling: &mut Telling,
    state: State,
    thread: u32,
    word: u64,
) -> Result<Coming, NoMemory>
    requires lowered { IsLowered points.now }
    requires small { IsSmall state }
    requires few { telling.old.taken ≤ most_steps }
    ensures comes { IfOk result (λ coming. (rest : List scheduled.Turn) →
        Comes points.now state telling.old (until thread word ∷ rest) telling.new rest coming) }
    ensures few { OnOk result (telling.new.taken ≤ most_steps) }
{
    let mut state = state;
    loop {
        if is_touching(points, &state, thread)? {
            return Ok(Coming::On(state));
        }
        match take_step(alloc, points, telling, state, thread, word)? {
            Coming::On(next) => state = next,
            Coming::Over(ending) => return Ok(Coming::Over(ending)),
        }
    }
}

/// What comes of a turn.
fn take_turn(
    alloc: Global,
    points: &Points,
    telling: &mut Telling,
    state: State,
    turn: Turn,
) -> Result<Coming, NoMemory>
    requires lowered { IsLowered points.now }
    requires small { IsSmall state }
    requires few { telling.old.taken ≤ most_steps }
    ensures comes { IfOk result (λ coming. (rest : List scheduled.Turn) →
        Comes points.now state telling.old (turn ∷ rest) telling.new rest coming) }
    ensures few { OnOk result (telling.new.taken ≤ most_steps) }
{
    if turn.until {
        let coming = take_steps(alloc, points, telling, state, turn.thread, turn.word)?;
        return Ok(coming);
    }
    let coming = take_step(alloc, points, telling, state, turn.thread, turn.word)?;
    Ok(coming)
}

/// How a play ends that stands at a state and has these turns.
fn take_turns(
    alloc: Global,
    points: &Points,
    telling: &mut Telling,
    state: State,
    turns: &[Turn],
) -> Result<Ending, NoMemory>
    requires lowered { IsLowered points.now }
    requires small { IsSmall state }
    requires few { telling.old.taken ≤ most_steps }
    ensures { IfOk result (EndsSo points.now state telling.old turns.now telling.new) }
{
    let mut state = state;
    for turn in turns {
        match take_turn(alloc, points, telling, state, *turn)? {
            Coming::On(next) => state = next,
            Coming::Over(ending) => return Ok(ending),
        }
    }
    Ok(Ending::Schedule)
}

/// What is told where a play begins: the races in the first state.
fn begin(alloc: Global, points: &Points, state: &State) -> Result<Telling, NoMemory>
    requires lowered { IsLowered points.now }
    requires small { IsSmall state.now }
    ensures { IfOk result (BeginsAt points.now state.now) }
{
    let raced = raced(alloc, points, state)?;
    let mut lines = Vec::new(alloc);
    push_races(&mut lines, &IdSet::empty(alloc), &raced)?;
    Ok(Telling {
        lines,
        raced,
        taken: 0,
    })
}

/// The lines of the play by these turns.
fn played_lines(alloc: Global, points: &Points, turns: &[Turn]) -> Result<Vec<Line>, NoMemory>
    requires { IsLowered points.now }
    ensures { IfOk result (λ lines. IsPlay points.now turns.now lines.items) }
{
    let state = start(alloc, points, &[])?;
    let mut telling = begin(alloc, points, &state)?;
    let ending = take_turns(alloc, points, &mut telling, state, turns)?;
    let Telling {
        mut lines,
        raced: _raced,
        taken: _taken,
    } = telling;
    lines.push(Line::End(ending))?;
    Ok(lines)
}

/// The lines of the play by these turns. What they name is there, and each race that they tell is one in a
/// state to which a run comes.
pub(crate) fn lines_of(
    alloc: Global,
    points: &Points,
    turns: &[Turn],
) -> Result<Vec<Line>, NoMemory>
    requires { IsLowered points.now }
    ensures play { IfOk result (λ lines. IsPlay points.now turns.now lines.items) }
    ensures there { IfOk result (λ lines. All (IsLineThere points.now) lines.items) }
    ensures true_races { IfOk result (λ lines. All (IsTrueRace points.now) lines.items) }
{
    let lines = played_lines(alloc, points, turns)?;
    Ok(lines)
}
