//! Steps.
ghost use Rattle.std.specs.Prelude.{◌≡◌, ◌<◌, ◌+◌, ◌^◌, IfOk, length};
ghost use Rattle.lk_birth.specs.Starts.{IsSmall};
ghost use Rattle.lk_meaning.specs.Stepping as spec;
ghost use Rattle.lk_meaning.specs.Full.{is_past, objects_by, objects_made, threads_made, is_full};

use crate::applying::apply;
use crate::deciding::{Decision, decide};
use crate::touching::touch;
use lk_base::NoMemory;
use lk_birth::locals_of;
use lk_cells::{State, Thread};
use lk_change::{Change, Effect};
use lk_facts::Points;
use lk_values::{Cell, Why};
use std::alloc::Global;

/// What was done in a step.
#[derive(Drop)]
pub struct Event {
    /// The point whose action was performed.
    pub point: u32,
    /// The thread that performed it.
    pub thread: u32,
    /// The cell that it read or wrote, where it did.
    pub touched: Option<Cell>,
}

/// What came of a step. Each but `Moved` hands the old state back.
#[derive(Drop)]
pub enum Stepped {
    /// The thread performed its point, which led to this state.
    Moved(State, Event),
    /// The thread waits, for a mutex or for another thread to end.
    Waits(State),
    /// C or POSIX calls the step undefined.
    Undefined(State, Why),
    /// The thread or the process has ended.
    Ended(State),
    /// There is no thread of this number.
    NoSuchThread(State),
    /// The step would make a thread or an object of the number 4,294,967,295.
    Full(State),
    /// No memory was found.
    NoMemory(State),
}

/// What is to come of a step, before the state is changed.
#[derive(Drop)]
pub enum Next {
    /// The thread performs its point, which changes this.
    Moves(Change, Event),
    /// It waits.
    Waits,
    /// Its step is undefined.
    Undefined(Why),
    /// It or the process has ended.
    Ended,
    /// It isn't there.
    NoSuchThread,
    /// It would make a thread or an object of a number that none may have.
    Full,
}

/// How many objects an effect makes.
fn objects_by(alloc: Global, points: &Points, effect: &Effect) -> Result<usize, NoMemory>
    ensures { IfOk result (λ count. count ≡ objects_by points.now effect.now) }
{
    match effect {
        Effect::Begin(call) => {
            let locals = locals_of(alloc, points, call.function)?;
            Ok(locals.len())
        }
        Effect::Bear(_) => Ok(1),
        Effect::Nothing
        | Effect::PutSlot(_, _)
        | Effect::PutValue(_, _)
        | Effect::PutMutex(_, _)
        | Effect::PutCondition(_, _)
        | Effect::Join(_)
        | Effect::Detach(_)
        | Effect::End(_) => Ok(0),
    }
}

/// How many objects a change makes.
fn objects_made(alloc: Global, points: &Points, change: &Change) -> Result<usize, NoMemory>
    ensures { IfOk result (λ count. count ≡ objects_made points.now change.now) }
{
    match change {
        Change::Goes(going) => {
            let count = objects_by(alloc, points, &going.effect)?;
            Ok(count)
        }
        Change::Enter(call) => {
            let locals = locals_of(alloc, points, call.function)?;
            Ok(locals.len())
        }
        Change::Leave(_, _) | Change::EndThread | Change::EndProcess => Ok(0),
    }
}

/// How many threads a change makes.
fn threads_made(change: &Change) -> usize
    ensures { result ≡ threads_made change.now }
{
    match change {
        Change::Goes(going) => match going.effect {
            Effect::Begin(_) => 1,
            Effect::Nothing
            | Effect::PutSlot(_, _)
            | Effect::PutValue(_, _)
            | Effect::PutMutex(_, _)
            | Effect::PutCondition(_, _)
            | Effect::Join(_)
            | Effect::Detach(_)
            | Effect::Bear(_)
            | Effect::End(_) => 0,
        },
        Change::Enter(_) | Change::Leave(_, _) | Change::EndThread | Change::EndProcess => 0,
    }
}

/// Whether so many more than there are would need the number that none may have.
fn is_past(there: usize, more: usize) -> bool
    requires { there < 2 ^ 32 }
    ensures { result ≡ is_past there more }
{
    more > 0 && (u32::MAX as usize) - there < more
}

/// Whether a change would make a thread or an object of the number that none may have.
fn is_full(alloc: Global, points: &Points, state: &State, change: &Change) -> Result<bool, NoMemory>
    requires { IsSmall state.now }
    ensures { IfOk result (λ full. full ≡ is_full points.now state.now change.now) }
{
    let objects = objects_made(alloc, points, change)?;
    Ok(is_past(state.objects.len(), objects) || is_past(state.threads.len(), threads_made(change)))
}

/// What is to come of a step of a thread that may go on.
fn comes_of(
    alloc: Global,
    points: &Points,
    state: &State,
    t: u32,
    thread: &Thread,
    word: u64,
) -> Result<Next, NoMemory>
    requires { IsSmall state.now }
    ensures { IfOk result (λ next. next ≡ spec.next_of points.now state.now t word thread.now) }
{
    match decide(alloc, points, state, t, thread, word)? {
        Decision::Moves(change) => {
            if is_full(alloc, points, state, &change)? {
                return Ok(Next::Full);
            }
            let touched = touch(points, state, t)?.map(|touched| touched.cell);
            let event = Event {
                point: thread.frame.point,
                thread: t,
                touched,
            };
            Ok(Next::Moves(change, event))
        }
        Decision::Waits => Ok(Next::Waits),
        Decision::Undefined(why) => Ok(Next::Undefined(why)),
    }
}

/// What is to come of a step.
fn comes(alloc: Global, points: &Points, state: &State, t: u32, word: u64) -> Result<Next, NoMemory>
    requires { IsSmall state.now }
    ensures { IfOk result (λ next. next ≡ spec.next points.now state.now t word) }
{
    let Some(thread) = state.threads.get(t as usize) else {
        return Ok(Next::NoSuchThread);
    };
    if thread.ended || state.ended {
        return Ok(Next::Ended);
    }
    let next = comes_of(alloc, points, state, t, thread, word)?;
    Ok(next)
}

/// What is to come of a step, by its cause.
fn told(alloc: Global, points: &Points, state: &State, t: u32, word: u64) -> Result<Next, NoMemory>
    requires { IsSmall state.now }
    ensures { IfOk result (spec.Comes points.now state.now t word) }
{
    let next = comes(alloc, points, state, t, word)?;
    Ok(next)
}

/// Performs a change of a thread, of which the event tells.
fn perform(
    alloc: Global,
    points: &Points,
    state: State,
    t: u32,
    change: Change,
    event: Event,
) -> Stepped
    requires thread { (t < length state.threads) × (length state.threads < 2 ^ 32) }
    requires numbers { length state.objects + objects_made points.now change < 2 ^ 32 }
    ensures { spec.IsPerformed points.now state t change event result }
{
    let mut changed = state;
    match apply(alloc, points, &mut changed, t as usize, change) {
        Ok(()) => Stepped::Moved(changed, event),
        Err(NoMemory) => Stepped::NoMemory(changed),
    }
}

/// A step of a thread: it performs the action of its point, where the word makes the free choices. `Allocate`
/// gives null where the word is 0, and always for no elements, else a new object (C99 7.20.3). `Create` gives
/// 11, begins no thread and stores no id where the word is 0, else it begins one (POSIX pthread_create).
/// `Compute` of anything but `pthread_equal`, and `Scan` once it has read the zero of its text, give the word
/// converted to the type of their result (C99 6.3.1.3), or nothing where that is no integer type. No other
/// action asks the word.
///
/// See `Stepped` for what may come of a step.
#[tactic(auto, using(crate::proofs::Told::performed))]
pub fn step(alloc: Global, points: &Points, state: State, thread: u32, word: u64) -> Stepped
    requires { IsSmall state }
    ensures { spec.Tells points.now state thread word result }
{
    match told(alloc, points, &state, thread, word) {
        Ok(Next::Moves(change, event)) => perform(alloc, points, state, thread, change, event),
        Ok(Next::Waits) => Stepped::Waits(state),
        Ok(Next::Undefined(why)) => Stepped::Undefined(state, why),
        Ok(Next::Ended) => Stepped::Ended(state),
        Ok(Next::NoSuchThread) => Stepped::NoSuchThread(state),
        Ok(Next::Full) => Stepped::Full(state),
        Err(NoMemory) => Stepped::NoMemory(state),
    }
}
