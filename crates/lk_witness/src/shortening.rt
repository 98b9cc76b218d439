//! Short schedules: what is left out as long as the race is still there.
ghost use Rattle.std.specs.Prelude.{IfOk};
ghost use Rattle.lk_birth.specs.Starts.{IsSmall};
ghost use Rattle.lk_witness.specs.Calls.{IsTaken};

use crate::running::{Gone, Running, Steps, begin, go};
use crate::searching::Made;
use lk_base::NoMemory;
use lk_facts::Points;
use lk_play::Turn;
use std::alloc::Global;

/// How many steps a turn has at most.
const LONGEST_TURN: u32 = 65536;

/// How many steps are taken to shorten a schedule at most.
const MOST_STEPS: u64 = 100_000;

/// How many schedules are tried at most, of each way to shorten one.
const MOST_TRIES: u32 = 256;

/// What came of a turn.
#[derive(Drop)]
pub(crate) enum Taken {
    /// The run goes on; whether a step was taken.
    On(Running, bool),
    /// There is a race at the location.
    Races,
    /// The run ends without.
    Over,
}

/// What is asked of a schedule: a race at this location.
#[derive(Clone, Copy)]
struct Asked<'a> {
    points: &'a Points,
    location: u32,
}

impl Asked<'_> {
    /// A step of a run.
    fn step(
        &self,
        alloc: Global,
        steps: &mut Steps,
        running: Running,
        turn: Turn,
    ) -> Result<Taken, NoMemory>
        requires { IsSmall running.state }
        ensures { IfOk result IsTaken }
    {
        if steps.left == 0 {
            return Ok(Taken::Over);
        }
        match go(alloc, self.points, steps, running, turn.thread, turn.word)? {
            Gone::Moved(running) => {
                if running.met(turn.thread) == Some(self.location) {
                    Ok(Taken::Races)
                } else {
                    Ok(Taken::On(running, true))
                }
            }
            Gone::Waits(_) | Gone::Ended(_) | Gone::Over => Ok(Taken::Over),
        }
    }

    /// Steps of a thread until it is about to touch a cell.
    fn steps(
        &self,
        alloc: Global,
        steps: &mut Steps,
        running: Running,
        turn: Turn,
    ) -> Result<Taken, NoMemory>
        requires { IsSmall running.state }
        ensures { IfOk result IsTaken }
    {
        let mut running = running;
        let mut has_moved = false;
        for _step in 0..LONGEST_TURN {
            if running.is_touching(turn.thread) {
                return Ok(Taken::On(running, has_moved));
            }
            match self.step(alloc, steps, running, turn)? {
                Taken::On(next, _) => running = next,
                Taken::Races => return Ok(Taken::Races),
                Taken::Over => return Ok(Taken::Over),
            }
            has_moved = true;
        }
        Ok(Taken::Over)
    }

    /// What comes of a turn.
    fn turn(
        &self,
        alloc: Global,
        steps: &mut Steps,
        running: Running,
        turn: Turn,
    ) -> Result<Taken, NoMemory>
        requires { IsSmall running.state }
        ensures { IfOk result IsTaken }
    {
        if turn.until {
            self.steps(alloc, steps, running, turn)
        } else {
            self.step(alloc, steps, running, turn)
        }
    }

    /// Those of the turns that take a step, up to the race, or none where they don't lead to one.
    fn played(
        &self,
        alloc: Global,
        steps: &mut Steps,
        turns: &[Turn],
    ) -> Result<Vec<Turn>, NoMemory> {
        let mut kept = Vec::new(alloc);
        let mut running = begin(alloc, self.points)?;
        for turn in turns {
            match self.turn(alloc, steps, running, *turn)? {
                Taken::On(next, has_moved) => {
                    running = next;
                    if has_moved {
                        kept.push(*turn)?;
                    }
                }
                Taken::Races => {
                    kept.push(*turn)?;
                    return Ok(kept);
                }
                Taken::Over => return Ok(Vec::new(alloc)),
            }
        }
        Ok(Vec::new(alloc))
    }
}

/// Appends the turns from one number on to another.
fn push_turns(out: &mut Vec<Turn>, turns: &[Turn], from: usize, to: usize) -> Result<(), NoMemory> {
    for at in from..to {
        if let Some(turn) = turns.get(at) {
            out.push(*turn)?;
        }
    }
    Ok(())
}

/// The turns without those from one number on to another.
fn without(alloc: Global, turns: &[Turn], from: usize, to: usize) -> Result<Vec<Turn>, NoMemory> {
    let mut left = Vec::new(alloc);
    push_turns(&mut left, turns, 0, from)?;
    push_turns(&mut left, turns, to, turns.len())?;
    Ok(left)
}

/// The turns without those of a thread.
fn without_thread(alloc: Global, turns: &[Turn], thread: u32) -> Result<Vec<Turn>, NoMemory> {
    let mut left = Vec::new(alloc);
    for turn in turns {
        if turn.thread != thread {
            left.push(*turn)?;
        }
    }
    Ok(left)
}

/// The turns, where those from the first number to the second change places with those behind them up to the
/// third.
fn swapped(
    alloc: Global,
    turns: &[Turn],
    first: usize,
    second: usize,
    third: usize,
) -> Result<Vec<Turn>, NoMemory> {
    let mut left = Vec::new(alloc);
    push_turns(&mut left, turns, 0, first)?;
    push_turns(&mut left, turns, second, third)?;
    push_turns(&mut left, turns, first, second)?;
    push_turns(&mut left, turns, third, turns.len())?;
    Ok(left)
}

/// The thread of the turn of this number, or none.
fn thread_at(turns: &[Turn], at: usize) -> Option<u32> {
    let turn = turns.get(at)?;
    Some(turn.thread)
}

/// The number behind the turns of one thread that begin here.
fn end_of(turns: &[Turn], from: usize) -> usize {
    let thread = thread_at(turns, from);
    for at in from..turns.len() {
        if thread_at(turns, at) != thread {
            return at;
        }
    }
    turns.len()
}

/// The number from this one on of the next turn of a thread.
fn next_of(turns: &[Turn], from: usize, thread: Option<u32>) -> Option<usize> {
    for at in from..turns.len() {
        if thread_at(turns, at) == thread {
            return Some(at);
        }
    }
    None
}

/// The number behind the turns of one thread and one step each that begin here.
fn end_of_single(turns: &[Turn], from: usize) -> usize {
    let thread = thread_at(turns, from);
    for at in from..turns.len() {
        match turns.get(at) {
            Some(turn) => {
                if turn.until || Some(turn.thread) != thread {
                    return at;
                }
            }
            None => return at,
        }
    }
    turns.len()
}

/// The turns, where those from one number on to another are one, with the word of the first.
fn together(alloc: Global, turns: &[Turn], from: usize, to: usize) -> Result<Vec<Turn>, NoMemory> {
    let mut left = Vec::new(alloc);
    push_turns(&mut left, turns, 0, from)?;
    if let Some(first) = turns.get(from) {
        left.push(Turn {
            thread: first.thread,
            word: first.word,
            until: true,
        })?;
    }
    push_turns(&mut left, turns, to, turns.len())?;
    Ok(left)
}

/// How often another thread moves than before.
fn changes(turns: &[Turn]) -> usize {
    let mut count: usize = 0;
    for at in 1..turns.len() {
        if thread_at(turns, at) != thread_at(turns, at.saturating_sub(1)) {
            count = count.saturating_add(1);
        }
    }
    count
}

/// The greatest number of a thread that moves.
fn last_thread(turns: &[Turn]) -> u32 {
    let mut last = 0;
    for turn in turns {
        if turn.thread > last {
            last = turn.thread;
        }
    }
    last
}

/// A schedule that is being shortened.
#[derive(Drop)]
struct Shortened {
    turns: Vec<Turn>,
}

impl Shortened {
    /// Takes other turns, if they lead to the race and are fewer, or change threads less often. Whether it did.
    fn try_turns(
        &mut self,
        alloc: Global,
        asked: Asked<'_>,
        steps: &mut Steps,
        turns: &[Turn],
    ) -> Result<bool, NoMemory> {
        let played = asked.played(alloc, steps, turns)?;
        if played.is_empty() {
            return Ok(false);
        }
        let old = self.turns.as_slice();
        let is_better = changes(played.as_slice()) < changes(old)
            || (changes(played.as_slice()) == changes(old) && played.len() < old.len());
        if is_better {
            self.turns = played;
        }
        Ok(is_better)
    }

    /// Leaves out the threads that the race doesn't need.
    fn leave_threads(
        &mut self,
        alloc: Global,
        asked: Asked<'_>,
        steps: &mut Steps,
    ) -> Result<(), NoMemory> {
        let last = last_thread(self.turns.as_slice());
        for thread in 1..last.min(MOST_TRIES).saturating_add(1) {
            let turns = without_thread(alloc, self.turns.as_slice(), thread)?;
            self.try_turns(alloc, asked, steps, turns.as_slice())?;
        }
        Ok(())
    }

    /// Brings the turns of one thread that begin at a number together with those that it has next, by moving the
    /// ones or the others. Whether it did.
    fn join_at(
        &mut self,
        alloc: Global,
        asked: Asked<'_>,
        steps: &mut Steps,
        first: usize,
    ) -> Result<bool, NoMemory> {
        let second = end_of(self.turns.as_slice(), first);
        let thread = thread_at(self.turns.as_slice(), first);
        let Some(third) = next_of(self.turns.as_slice(), second, thread) else {
            return Ok(false);
        };
        let later = swapped(alloc, self.turns.as_slice(), first, second, third)?;
        if self.try_turns(alloc, asked, steps, later.as_slice())? {
            return Ok(true);
        }
        let fourth = end_of(self.turns.as_slice(), third);
        let sooner = swapped(alloc, self.turns.as_slice(), second, third, fourth)?;
        self.try_turns(alloc, asked, steps, sooner.as_slice())
    }

    /// Brings turns of one thread together.
    fn join(&mut self, alloc: Global, asked: Asked<'_>, steps: &mut Steps) -> Result<(), NoMemory> {
        let mut first = 0;
        for _try in 0..MOST_TRIES {
            if first >= self.turns.len() || steps.left == 0 {
                return Ok(());
            }
            if !self.join_at(alloc, asked, steps, first)? {
                first = end_of(self.turns.as_slice(), first);
            }
        }
        Ok(())
    }

    /// Leaves out turns, so many at a time.
    fn leave_turns(
        &mut self,
        alloc: Global,
        asked: Asked<'_>,
        steps: &mut Steps,
        size: usize,
    ) -> Result<(), NoMemory> {
        let mut from: usize = 0;
        for _try in 0..MOST_TRIES {
            if from >= self.turns.len() || steps.left == 0 {
                return Ok(());
            }
            let behind = from.saturating_add(size);
            let turns = without(alloc, self.turns.as_slice(), from, behind)?;
            if !self.try_turns(alloc, asked, steps, turns.as_slice())? {
                from = behind;
            }
        }
        Ok(())
    }

    /// Makes turns of one step each that a thread has in a row one for all up to an access.
    fn gather(
        &mut self,
        alloc: Global,
        asked: Asked<'_>,
        steps: &mut Steps,
    ) -> Result<(), NoMemory> {
        let mut from: usize = 0;
        for _try in 0..MOST_TRIES {
            let to = end_of_single(self.turns.as_slice(), from);
            if from >= self.turns.len() || steps.left == 0 {
                return Ok(());
            }
            if to > from.saturating_add(1) {
                let turns = together(alloc, self.turns.as_slice(), from, to)?;
                self.try_turns(alloc, asked, steps, turns.as_slice())?;
            }
            from = from.saturating_add(1).max(to);
        }
        Ok(())
    }

    /// Shortens it in each way.
    fn shorten(
        &mut self,
        alloc: Global,
        asked: Asked<'_>,
        steps: &mut Steps,
    ) -> Result<(), NoMemory> {
        self.leave_threads(alloc, asked, steps)?;
        self.join(alloc, asked, steps)?;
        self.gather(alloc, asked, steps)?;
        for size in [64, 16, 4, 1] {
            self.leave_turns(alloc, asked, steps, size)?;
        }
        self.join(alloc, asked, steps)
    }
}

/// Puts the turns of the steps from one number on to another behind turns, one each.
fn push_steps(
    turns: &mut Vec<Turn>,
    made: &[Made],
    from: usize,
    to: usize,
) -> Result<(), NoMemory> {
    for at in from..to {
        if let Some(step) = made.get(at) {
            turns.push(Turn {
                thread: step.thread,
                word: step.word,
                until: false,
            })?;
        }
    }
    Ok(())
}

/// Puts a step behind turns: one that touches a cell is a turn of its own, others are one for all steps of the
/// thread up to the next such one, with the word that makes a choice of them.
fn put_step(turns: &mut Vec<Turn>, step: Made) -> Result<(), NoMemory> {
    let own = Turn {
        thread: step.thread,
        word: step.word,
        until: !step.touching,
    };
    if let Some(last) = turns.last() {
        if own.until && last.until && last.thread == own.thread {
            let word = if step.asks { own.word } else { last.word };
            turns.pop();
            turns.push(Turn {
                thread: own.thread,
                word,
                until: true,
            })?;
            return Ok(());
        }
    }
    turns.push(own)?;
    Ok(())
}

/// The turns of steps, one for all steps of a thread up to an access.
fn starred(alloc: Global, made: &[Made], count: usize) -> Result<Vec<Turn>, NoMemory> {
    let mut turns = Vec::new(alloc);
    for at in 0..count {
        if let Some(step) = made.get(at) {
            put_step(&mut turns, *step)?;
        }
    }
    Ok(turns)
}

/// The number of the step behind those of one thread from this one on that touch no cell.
fn end_of_steps(made: &[Made], from: usize, count: usize) -> usize {
    let thread = made.get(from).map(|step| step.thread);
    for at in from..count {
        match made.get(at) {
            Some(step) => {
                if step.touching || Some(step.thread) != thread {
                    return at;
                }
            }
            None => return at,
        }
    }
    count
}

/// The word that makes a choice of steps, or 1 where none does.
fn word_of(made: &[Made], from: usize, to: usize) -> u64 {
    let mut word = 1;
    for at in from..to {
        if let Some(step) = made.get(at) {
            if step.asks {
                word = step.word;
            }
        }
    }
    word
}

/// Puts steps of one thread behind turns that touch no cell: one turn where the thread touches one next, or they are
/// the last, and else one each.
fn put_steps(
    turns: &mut Vec<Turn>,
    made: &[Made],
    from: usize,
    to: usize,
    count: usize,
) -> Result<(), NoMemory> {
    let Some(first) = made.get(from) else {
        return Ok(());
    };
    let goes_on = match made.get(to) {
        Some(next) => next.thread == first.thread,
        None => true,
    };
    if goes_on || to >= count {
        turns.push(Turn {
            thread: first.thread,
            word: word_of(made, from, to),
            until: true,
        })?;
        return Ok(());
    }
    push_steps(turns, made, from, to)
}

/// The turns of steps, one for those of a thread that lead up to an access which it makes next.
fn grouped(alloc: Global, made: &[Made], count: usize) -> Result<Vec<Turn>, NoMemory> {
    let mut turns = Vec::new(alloc);
    let mut from: usize = 0;
    for _group in 0..count {
        let to = end_of_steps(made, from, count);
        let behind = to.max(from.saturating_add(1)).min(count);
        if from < to {
            put_steps(&mut turns, made, from, to, count)?;
        } else {
            push_steps(&mut turns, made, from, behind)?;
        }
        from = behind;
    }
    Ok(turns)
}

/// The lines of turns.
fn lines_of(alloc: Global, turns: &[Turn]) -> Result<Vec<u8>, NoMemory> {
    let mut lines = Vec::new(alloc);
    for turn in turns {
        let star = if turn.until { " *" } else { "" };
        let line = format!(in alloc; "{} {}{star}\n", turn.thread, turn.word)?;
        lines.extend_from_slice(line.as_bytes())?;
    }
    Ok(lines)
}

/// Turns that lead to the race to which these steps led; where no steps are left to play them, the steps
/// themselves.
fn turns_of(
    alloc: Global,
    asked: Asked<'_>,
    steps: &mut Steps,
    made: &[Made],
    count: usize,
) -> Result<Vec<Turn>, NoMemory> {
    let together = starred(alloc, made, count)?;
    let turns = asked.played(alloc, steps, together.as_slice())?;
    if !turns.is_empty() {
        return Ok(turns);
    }
    let apart = grouped(alloc, made, count)?;
    let turns = asked.played(alloc, steps, apart.as_slice())?;
    if !turns.is_empty() {
        return Ok(turns);
    }
    let mut each = Vec::new(alloc);
    push_steps(&mut each, made, 0, count)?;
    Ok(each)
}

/// The lines of a short schedule for the race to which the first of these steps led, so many of them. It takes
/// a part of the steps that are left, and more only to play those that led there.
pub(crate) fn schedule_of(
    alloc: Global,
    points: &Points,
    steps: &mut Steps,
    part: u64,
    made: &[Made],
    count: usize,
    location: u32,
) -> Result<Vec<u8>, NoMemory> {
    let asked = Asked { points, location };
    let turns = turns_of(alloc, asked, steps, made, count)?;
    let mut shortened = Shortened { turns };
    let own = part.min(MOST_STEPS);
    let mut few = Steps { left: own };
    shortened.shorten(alloc, asked, &mut few)?;
    steps.left = steps.left.saturating_sub(own.saturating_sub(few.left));
    lines_of(alloc, shortened.turns.as_slice())
}
