//! The search for runs that come to a race (random active testing, with priorities that change seldom).

ghost use Rattle.std.specs.Prelude.{IfOk};
ghost use Rattle.lk_birth.specs.Starts.{IsSmall};
ghost use Rattle.lk_witness.specs.Calls.{IsTurned};

use crate::choosing::{Chooser, Style};
use crate::dice::Dice;
use crate::running::{Gone, Running, Steps, begin, go};
use crate::shortening::schedule_of;
use crate::words::{Words, making};
use lk_base::NoMemory;
use lk_facts::Points;
use std::alloc::Global;

/// How many steps a run has at most.
const LONGEST_RUN: u32 = 65536;

/// How many steps the first runs have at most.
const FIRST_RUN: u32 = 2048;

/// How many runs there are for a target at most.
const MOST_RUNS: u32 = 1 << 20;

/// How often what early finds left over is shared anew.
const ROUNDS: u32 = 8;

/// How a search begins, and how long it is.
#[derive(Clone, Copy)]
pub struct Search {
    /// The seed of its free choices.
    pub seed: u64,
    /// How many steps all its runs have together at most.
    pub steps: u64,
}

/// A step of a run.
#[derive(Clone, Copy)]
pub(crate) struct Made {
    /// The thread.
    pub(crate) thread: u32,
    /// Its word.
    pub(crate) word: u64,
    /// Whether it touched a cell.
    pub(crate) touching: bool,
    /// Whether its word made a choice.
    pub(crate) asks: bool,
}

/// A race to which a run came.
#[derive(Clone, Copy)]
struct Race {
    /// Its location.
    location: u32,
    /// How many steps led to it.
    steps: usize,
}

/// What a run was.
#[derive(Drop)]
struct Course {
    /// Its steps.
    made: Vec<Made>,
    /// The races to which it came, at wanted locations.
    races: Vec<Race>,
}

/// A location for which a schedule is looked for.
#[derive(Drop)]
pub(crate) struct Wanted {
    /// Its number.
    pub(crate) location: u32,
    /// The lines of a schedule, and none so long as none was found.
    pub(crate) schedule: Vec<u8>,
}

/// What a search has at hand.
#[derive(Drop)]
struct Hunt {
    dice: Dice,
    words: Words,
    steps: Steps,
    wanted: Vec<Wanted>,
}

impl Hunt {
    /// Whether a schedule is still looked for.
    fn is_open(&self, location: u32) -> bool {
        for wanted in self.wanted.as_slice() {
            if wanted.location == location {
                return wanted.schedule.is_empty();
            }
        }
        false
    }

    /// For how many of the locations from this one on a schedule is still looked for.
    fn open_from(&self, first: usize) -> u64 {
        let mut count: u64 = 0;
        for at in first..self.wanted.len() {
            if self.wanted[at].schedule.is_empty() {
                count = count.saturating_add(1);
            }
        }
        count
    }

    /// The word of the next step of a thread.
    fn word(&mut self, points: &Points, running: &Running, thread: u32, plain: bool) -> u64 {
        if plain || !running.asks(points, thread) {
            return 1;
        }
        if running.makes(points, thread) {
            return making(&mut self.dice);
        }
        self.words.read(&mut self.dice)
    }

    /// The next step of a thread.
    fn next(&mut self, points: &Points, running: &Running, thread: u32, plain: bool) -> Made {
        Made {
            thread,
            word: self.word(points, running, thread, plain),
            touching: running.is_touching(thread),
            asks: running.asks(points, thread),
        }
    }

    /// Notes the race of a thread, if it is the first of the run at a wanted location.
    fn note(&self, course: &mut Course, running: &Running, thread: u32) -> Result<(), NoMemory> {
        let Some(location) = running.met(thread) else {
            return Ok(());
        };
        if self.is_open(location) && !has_race(course.races.as_slice(), location) {
            course.races.push(Race {
                location,
                steps: course.made.len(),
            })?;
        }
        Ok(())
    }
}

/// Whether one of the races is at the location.
fn has_race(races: &[Race], location: u32) -> bool {
    races.iter().any(|race| race.location == location)
}

/// How many steps the run of this number has at most.
fn limit_of(number: u32) -> u32 {
    let doubled = FIRST_RUN.checked_shl(number / 4).unwrap_or(LONGEST_RUN);
    if doubled == 0 || doubled > LONGEST_RUN {
        LONGEST_RUN
    } else {
        doubled
    }
}

/// What came of a turn of a run.
#[derive(Drop)]
enum Turned {
    /// The run goes on.
    On(Running),
    /// It ends.
    Over,
}

/// Takes a step of a run, or holds a thread back; plain runs have the word 1 alone.
fn turn(
    alloc: Global,
    points: &Points,
    hunt: &mut Hunt,
    chooser: &mut Chooser,
    course: &mut Course,
    running: Running,
    plain: bool,
) -> Result<Turned, NoMemory>
    requires { IsSmall running.state }
    ensures { IfOk result IsTurned }
{
    chooser.know(&mut hunt.dice, &running)?;
    let Some(thread) = chooser.pick(&mut hunt.dice) else {
        return Ok(Turned::Over);
    };
    if chooser.holds(&running, thread) {
        return Ok(Turned::On(running));
    }
    let made = hunt.next(points, &running, thread, plain);
    if hunt.steps.left == 0 {
        return Ok(Turned::Over);
    }
    match go(alloc, points, &mut hunt.steps, running, thread, made.word)? {
        Gone::Moved(running) => {
            course.made.push(made)?;
            chooser.moved(&mut hunt.dice, thread);
            hunt.note(course, &running, thread)?;
            Ok(Turned::On(running))
        }
        Gone::Waits(running) => {
            chooser.waits(thread);
            Ok(Turned::On(running))
        }
        Gone::Ended(running) => {
            chooser.ended(thread);
            Ok(Turned::On(running))
        }
        Gone::Over => Ok(Turned::Over),
    }
}

/// The run of this number that looks for a race at the target, of so many turns at most.
fn run(
    alloc: Global,
    points: &Points,
    hunt: &mut Hunt,
    target: u32,
    number: u32,
    limit: u32,
) -> Result<Course, NoMemory> {
    let mut course = Course {
        made: Vec::new(alloc),
        races: Vec::new(alloc),
    };
    let mut chooser = Chooser::new(alloc, target, Style::of_run(number));
    let plain = number % 3 == 0;
    let mut running = begin(alloc, points)?;
    for _turn in 0..limit {
        match turn(
            alloc,
            points,
            hunt,
            &mut chooser,
            &mut course,
            running,
            plain,
        )? {
            Turned::On(next) => running = next,
            Turned::Over => return Ok(course),
        }
        if has_race(course.races.as_slice(), target) {
            return Ok(course);
        }
    }
    Ok(course)
}

impl Hunt {
    /// Keeps the lines of a schedule for a location.
    fn keep(&mut self, location: u32, schedule: Vec<u8>) {
        match self
            .wanted
            .iter()
            .position(|wanted| wanted.location == location)
        {
            Some(at) => {
                if at < self.wanted.len() {
                    self.wanted[at] = Wanted { location, schedule };
                }
            }
            None => {}
        }
    }

    /// Keeps short schedules for the races of a run.
    fn settle(&mut self, alloc: Global, points: &Points, course: &Course) -> Result<(), NoMemory> {
        for race in course.races.as_slice() {
            let part = self.steps.left / self.open_from(0).saturating_add(1);
            let schedule = schedule_of(
                alloc,
                points,
                &mut self.steps,
                part,
                course.made.as_slice(),
                race.steps,
                race.location,
            )?;
            self.keep(race.location, schedule);
        }
        Ok(())
    }

    /// Looks for a race at the target, for so many steps.
    fn pursue(
        &mut self,
        alloc: Global,
        points: &Points,
        target: u32,
        part: u64,
    ) -> Result<(), NoMemory> {
        let end = self.steps.left.saturating_sub(part);
        for number in 0..MOST_RUNS {
            let left = self.steps.left.saturating_sub(end);
            if left == 0 || !self.is_open(target) {
                return Ok(());
            }
            let most = u32::try_from(left).unwrap_or(LONGEST_RUN);
            let course = run(
                alloc,
                points,
                self,
                target,
                number,
                limit_of(number).min(most),
            )?;
            self.settle(alloc, points, &course)?;
        }
        Ok(())
    }

    /// Looks for a race at each location in turn; each has an equal part of the steps that are left.
    fn go_round(&mut self, alloc: Global, points: &Points) -> Result<(), NoMemory> {
        for at in 0..self.wanted.len() {
            if self.steps.left == 0 {
                return Ok(());
            }
            let open = self.open_from(at);
            let target = match self.wanted.get(at) {
                Some(wanted) => wanted.location,
                None => 0,
            };
            let part = self.steps.left.checked_div(open).unwrap_or(0);
            self.pursue(alloc, points, target, part)?;
        }
        Ok(())
    }
}

/// The locations, without schedules.
fn all_wanted(alloc: Global, suspects: &[u32]) -> Result<Vec<Wanted>, NoMemory> {
    let mut wanted = Vec::new(alloc);
    for location in suspects {
        wanted.push(Wanted {
            location: *location,
            schedule: Vec::new(alloc),
        })?;
    }
    Ok(wanted)
}

/// The locations with the lines of a schedule for each, which are none where none was found.
pub(crate) fn schedules_of(
    alloc: Global,
    points: &Points,
    suspects: &[u32],
    search: Search,
) -> Result<Vec<Wanted>, NoMemory> {
    let mut hunt = Hunt {
        dice: Dice::of(search.seed),
        words: Words::of(alloc, points)?,
        steps: Steps { left: search.steps },
        wanted: all_wanted(alloc, suspects)?,
    };
    for _round in 0..ROUNDS {
        hunt.go_round(alloc, points)?;
    }
    Ok(hunt.wanted)
}
