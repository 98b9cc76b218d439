//! What a step changes in the state.
ghost use Rattle.std.specs.Prelude.{◌≡◌, ◌<◌, ◌+◌, ◌^◌, length, OnOk, OnErr, Some, slice_set};
ghost use Rattle.lk_birth.specs.Births as births;
ghost use Rattle.lk_meaning.specs.After as spec;
ghost use Rattle.lk_meaning.specs.Full.{objects_by, objects_made};

use crate::changing::{
    append, end_frames, end_locals, end_object, go_on, no_frame, no_object, no_thread,
    record_and_put, shorten, turn,
};
use lk_base::{NoMemory, Seq};
use lk_birth::{Made, made_for, new_thread, type_of_root};
use lk_cells::{Frame, Object, State, Thread};
use lk_change::{Birth, Call, Change, Effect, Going, Turn};
use lk_facts::Points;
use lk_values::{Cell, Condition, Mutex, Path, Value};
use std::alloc::Global;

/// What is put into a cell.
#[derive(Drop)]
pub enum Put {
    /// A value.
    Value(Value),
    /// The state of a mutex.
    Mutex(Mutex),
    /// The state of a condition variable.
    Condition(Condition),
}

/// A frame keeps what its point gives, and something is put into an object at a path. Where no memory
/// is found both are as before.
fn put_in_object(
    frame: &mut Frame,
    gives: Option<Value>,
    object: &mut Object,
    path: Path,
    item: Put,
) -> Result<(), NoMemory>
    ensures given { OnOk result (frame.new ≡ spec.recorded gives frame.old) }
    ensures put { OnOk result (object.new ≡ spec.with_put path item object.old) }
    ensures frame_kept { OnErr result (frame.new ≡ frame.old) }
    ensures object_kept { OnErr result (object.new ≡ object.old) }
{
    match item {
        Put::Value(value) => {
            record_and_put(frame, gives, &mut object.values, path, value)?;
            Ok(())
        }
        Put::Mutex(mutex) => {
            record_and_put(frame, gives, &mut object.mutexes, path, mutex)?;
            Ok(())
        }
        Put::Condition(condition) => {
            record_and_put(frame, gives, &mut object.conditions, path, condition)?;
            Ok(())
        }
    }
}

/// A thread goes on, and something is put into a cell. Where no memory is found the state is as before.
#[tactic(auto, using(lk_birth::proofs::Changed::set_changed, lk_birth::proofs::Changed::set_back, lk_birth::proofs::Changed::set_twice, lk_birth::proofs::Changed::changed_past))]
fn put_in_cell(
    alloc: Global,
    state: &mut State,
    t: usize,
    gives: Option<Value>,
    to: Turn,
    cell: Cell,
    item: Put,
) -> Result<(), NoMemory>
    requires { t < length state.old.threads }
    ensures ok { OnOk result (state.new ≡ spec.put_after state.old t gives to cell item) }
    ensures err { OnErr result (state.new ≡ state.old) }
{
    let at = cell.object as usize;
    if at >= state.objects.len() {
        go_on(alloc, &mut state.threads, t, gives, to)?;
        return Ok(());
    }
    let mut object = state.objects.replace(at, no_object(alloc));
    let mut thread = state.threads.replace(t, no_thread(alloc));
    match put_in_object(&mut thread.frame, gives, &mut object, cell.path, item) {
        Ok(()) => {
            turn(&mut thread.frame, to);
            state.objects.set(at, object);
            state.threads.set(t, thread);
            Ok(())
        }
        Err(NoMemory) => {
            state.objects.set(at, object);
            state.threads.set(t, thread);
            Err(NoMemory)
        }
    }
}

/// Puts a value into a slot, where it is there.
#[tactic(auto, using(crate::proofs::Lists::set_past))]
fn set_slot(slots: &mut Seq<Value>, slot: usize, value: Value)
    ensures { slots.new ≡ slice_set slots.old slot value }
{
    if slot < slots.len() {
        slots.set(slot, value);
    }
}

/// Puts a value into a slot of a thread's frame.
#[tactic(auto, using(lk_birth::proofs::Changed::set_changed))]
fn put_slot(alloc: Global, threads: &mut Seq<Thread>, t: usize, slot: usize, value: Value)
    requires { t < length threads.old }
    ensures { threads.new ≡ births.changed_at threads.old t (spec.with_slot slot value) }
{
    let mut thread = threads.replace(t, no_thread(alloc));
    set_slot(&mut thread.frame.slots, slot, value);
    threads.set(t, thread);
}

/// A thread is joined.
#[tactic(auto, using(lk_birth::proofs::Changed::set_changed, lk_birth::proofs::Changed::changed_past))]
fn join(alloc: Global, threads: &mut Seq<Thread>, t: usize)
    ensures { threads.new ≡ births.changed_at threads.old t spec.joined }
{
    if t < threads.len() {
        let mut thread = threads.replace(t, no_thread(alloc));
        thread.joined = true;
        threads.set(t, thread);
    }
}

/// A thread is detached.
#[tactic(auto, using(lk_birth::proofs::Changed::set_changed, lk_birth::proofs::Changed::changed_past))]
fn detach(alloc: Global, threads: &mut Seq<Thread>, t: usize)
    ensures { threads.new ≡ births.changed_at threads.old t spec.detached }
{
    if t < threads.len() {
        let mut thread = threads.replace(t, no_thread(alloc));
        thread.detached = true;
        threads.set(t, thread);
    }
}

/// A thread keeps the number of the thread that it made.
#[tactic(auto, using(lk_birth::proofs::Changed::set_changed))]
fn set_created(alloc: Global, threads: &mut Seq<Thread>, t: usize, created: u32)
    requires { t < length threads.old }
    ensures { threads.new ≡ births.changed_at threads.old t (spec.with_created created) }
{
    let mut thread = threads.replace(t, no_thread(alloc));
    thread.frame.created = Some(created);
    threads.set(t, thread);
}

/// A thread goes on, and a thread with this frame begins. Where no memory is found the threads are as before.
#[tactic(auto, using(lk_birth::proofs::Changed::take_front, crate::proofs::Lists::still_within))]
fn begin_thread(
    alloc: Global,
    threads: &mut Seq<Thread>,
    t: usize,
    gives: Option<Value>,
    to: Turn,
    frame: Frame,
) -> Result<(), NoMemory>
    requires { (t < length threads.old) × (length threads.old < 2 ^ 32) }
    ensures ok { OnOk result (threads.new
        ≡ spec.with_begun t frame (births.changed_at threads.old t (spec.moved_on gives to))) }
    ensures err { OnErr result (threads.new ≡ threads.old) }
{
    let created = threads.len();
    let begun = new_thread(alloc, frame);
    threads.push(begun)?;
    match go_on(alloc, threads, t, gives, to) {
        Ok(()) => {
            set_created(alloc, threads, t, created as u32);
            Ok(())
        }
        Err(NoMemory) => {
            shorten(alloc, threads, created);
            Err(NoMemory)
        }
    }
}

/// A thread goes on, and begins another one (POSIX pthread_create). Where no memory is
/// found the state is as before.
#[tactic(auto, using(lk_birth::proofs::Changed::take_front))]
fn begin(
    alloc: Global,
    points: &Points,
    state: &mut State,
    t: usize,
    gives: Option<Value>,
    to: Turn,
    call: Call,
) -> Result<(), NoMemory>
    requires thread { (t < length state.old.threads) × (length state.old.threads < 2 ^ 32) }
    requires numbers { length state.old.objects
        + length (births.locals_of points.now call.function) < 2 ^ 32 }
    ensures ok { OnOk result (state.new
        ≡ spec.begun t (spec.gone_to state.old t gives to) (spec.made_by points.now state.old call)) }
    ensures err { OnErr result (state.new ≡ state.old) }
{
    let first = state.objects.len();
    let made = made_for(
        alloc,
        points,
        first as u32,
        call.function,
        call.entry,
        call.args.list(),
    )?;
    append(alloc, &mut state.objects, made.objects)?;
    match begin_thread(alloc, &mut state.threads, t, gives, to, made.frame) {
        Ok(()) => Ok(()),
        Err(NoMemory) => {
            shorten(alloc, &mut state.objects, first);
            Err(NoMemory)
        }
    }
}

/// A thread goes on, and an object is allocated (C99 7.20.3). Where no memory is
/// found the state is as before.
#[tactic(auto, using(lk_birth::proofs::Changed::take_front))]
fn bear(
    alloc: Global,
    points: &Points,
    state: &mut State,
    t: usize,
    gives: Option<Value>,
    to: Turn,
    birth: Birth,
) -> Result<(), NoMemory>
    requires { t < length state.old.threads }
    ensures ok { OnOk result (state.new
        ≡ spec.with_born points.now birth (spec.gone_to state.old t gives to)) }
    ensures err { OnErr result (state.new ≡ state.old) }
{
    let count = state.objects.len();
    let ty = type_of_root(points, birth.root);
    let object = Object::new(alloc, birth.root, ty, birth.length, birth.initial);
    state.objects.push(object)?;
    match go_on(alloc, &mut state.threads, t, gives, to) {
        Ok(()) => Ok(()),
        Err(NoMemory) => {
            shorten(alloc, &mut state.objects, count);
            Err(NoMemory)
        }
    }
}

/// A thread goes on in its function. Where no memory is found the state is as before.
fn go(
    alloc: Global,
    points: &Points,
    state: &mut State,
    t: usize,
    going: Going,
) -> Result<(), NoMemory>
    requires thread { (t < length state.old.threads) × (length state.old.threads < 2 ^ 32) }
    requires numbers { length state.old.objects + objects_by points.now going.effect < 2 ^ 32 }
    ensures ok { OnOk result (state.new ≡ spec.gone_on points.now t state.old going) }
    ensures err { OnErr result (state.new ≡ state.old) }
{
    let Going {
        gives,
        turn: to,
        effect,
    } = going;
    match effect {
        Effect::Nothing => {
            go_on(alloc, &mut state.threads, t, gives, to)?;
            Ok(())
        }
        Effect::PutSlot(slot, value) => {
            go_on(alloc, &mut state.threads, t, gives, to)?;
            put_slot(alloc, &mut state.threads, t, slot as usize, value);
            Ok(())
        }
        Effect::PutValue(cell, value) => {
            put_in_cell(alloc, state, t, gives, to, cell, Put::Value(value))?;
            Ok(())
        }
        Effect::PutMutex(cell, mutex) => {
            put_in_cell(alloc, state, t, gives, to, cell, Put::Mutex(mutex))?;
            Ok(())
        }
        Effect::PutCondition(cell, condition) => {
            put_in_cell(alloc, state, t, gives, to, cell, Put::Condition(condition))?;
            Ok(())
        }
        Effect::Begin(call) => {
            begin(alloc, points, state, t, gives, to, call)?;
            Ok(())
        }
        Effect::Join(other) => {
            go_on(alloc, &mut state.threads, t, gives, to)?;
            join(alloc, &mut state.threads, other as usize);
            Ok(())
        }
        Effect::Detach(other) => {
            go_on(alloc, &mut state.threads, t, gives, to)?;
            detach(alloc, &mut state.threads, other as usize);
            Ok(())
        }
        Effect::Bear(birth) => {
            bear(alloc, points, state, t, gives, to, birth)?;
            Ok(())
        }
        Effect::End(object) => {
            go_on(alloc, &mut state.threads, t, gives, to)?;
            end_object(alloc, &mut state.objects, object as usize);
            Ok(())
        }
    }
}

/// A thread goes into a frame. Where no memory is found the threads are as before.
#[tactic(auto, using(crate::proofs::Lists::called, lk_birth::proofs::Changed::set_back))]
fn call_into(
    alloc: Global,
    threads: &mut Seq<Thread>,
    t: usize,
    frame: Frame,
) -> Result<(), NoMemory>
    requires { t < length threads.old }
    ensures ok { OnOk result (threads.new ≡ births.changed_at threads.old t (spec.calling frame)) }
    ensures err { OnErr result (threads.new ≡ threads.old) }
{
    let Thread {
        frame: caller,
        mut below,
        ended,
        joined,
        detached,
    } = threads.replace(t, no_thread(alloc));
    match below.push_or_back(caller) {
        Ok(()) => {
            let calling = Thread {
                frame,
                below,
                ended,
                joined,
                detached,
            };
            threads.set(t, calling);
            Ok(())
        }
        Err(caller) => {
            let kept = Thread {
                frame: caller,
                below,
                ended,
                joined,
                detached,
            };
            threads.set(t, kept);
            Err(NoMemory)
        }
    }
}

/// A thread enters a function (C99 6.2.4, 5; 6.5.2.2). Where no memory is found the state is as before.
#[tactic(auto, using(lk_birth::proofs::Changed::take_front))]
fn enter(
    alloc: Global,
    points: &Points,
    state: &mut State,
    t: usize,
    call: Call,
) -> Result<(), NoMemory>
    requires thread { t < length state.old.threads }
    requires numbers { length state.old.objects
        + length (births.locals_of points.now call.function) < 2 ^ 32 }
    ensures ok { OnOk result (state.new ≡ spec.entered t state.old (spec.made_by points.now state.old call)) }
    ensures err { OnErr result (state.new ≡ state.old) }
{
    let first = state.objects.len();
    let made = made_for(
        alloc,
        points,
        first as u32,
        call.function,
        call.entry,
        call.args.list(),
    )?;
    append(alloc, &mut state.objects, made.objects)?;
    match call_into(alloc, &mut state.threads, t, made.frame) {
        Ok(()) => Ok(()),
        Err(NoMemory) => {
            shorten(alloc, &mut state.objects, first);
            Err(NoMemory)
        }
    }
}

/// A frame gets the value of its call, and goes on. Where no memory is found it is as before.
fn return_to(caller: &mut Frame, value: Option<Value>, next: u32) -> Result<(), NoMemory>
    ensures ok { OnOk result (caller.new ≡ spec.returned value next caller.old) }
    ensures err { OnErr result (caller.new ≡ caller.old) }
{
    let point = caller.point;
    caller.values.put(point, value)?;
    turn(caller, Turn::To(next));
    Ok(())
}

/// A thread returns to the frame below (C99 6.2.4, 5; 6.8.6.4, 3). Where no memory is
/// found the state is as before.
#[tactic(auto, using(lk_birth::proofs::Changed::set_back))]
fn leave(
    alloc: Global,
    state: &mut State,
    t: usize,
    value: Option<Value>,
    next: u32,
) -> Result<(), NoMemory>
    requires { t < length state.old.threads }
    ensures ok { OnOk result (state.new ≡ spec.leaves t state.old value next) }
    ensures err { OnErr result (state.new ≡ state.old) }
{
    let mut thread = state.threads.replace(t, no_thread(alloc));
    let depth = thread.below.len();
    if depth == 0 {
        state.threads.set(t, thread);
        return Ok(());
    }
    let mut caller = thread.below.replace(depth - 1, no_frame(alloc));
    match return_to(&mut caller, value, next) {
        Ok(()) => {
            shorten(alloc, &mut thread.below, depth - 1);
            end_locals(alloc, &mut state.objects, thread.frame.locals.list());
            thread.frame = caller;
            state.threads.set(t, thread);
            Ok(())
        }
        Err(NoMemory) => {
            thread.below.set(depth - 1, caller);
            state.threads.set(t, thread);
            Err(NoMemory)
        }
    }
}

/// A thread ends, and with it the locals of its frames (POSIX pthread_exit).
#[tactic(auto, using(lk_birth::proofs::Changed::set_changed))]
fn end_thread(alloc: Global, state: &mut State, t: usize)
    requires { t < length state.old.threads }
    ensures { state.new ≡ spec.ends_thread t state.old }
{
    let mut thread = state.threads.replace(t, no_thread(alloc));
    end_locals(alloc, &mut state.objects, thread.frame.locals.list());
    end_frames(alloc, &mut state.objects, thread.below.list());
    thread.ended = true;
    state.threads.set(t, thread);
}

/// The process ends, and with it the locals of the frames of the thread that ends it (C99 7.20.4.3).
#[tactic(auto, using(lk_birth::proofs::Changed::set_back))]
fn end_process(alloc: Global, state: &mut State, t: usize)
    requires { t < length state.old.threads }
    ensures { state.new ≡ spec.ends_process t state.old }
{
    let thread = state.threads.replace(t, no_thread(alloc));
    end_locals(alloc, &mut state.objects, thread.frame.locals.list());
    end_frames(alloc, &mut state.objects, thread.below.list());
    state.threads.set(t, thread);
    state.ended = true;
}

/// A thread changes the state. Where no memory is found the state is as before.
pub(crate) fn apply(
    alloc: Global,
    points: &Points,
    state: &mut State,
    t: usize,
    change: Change,
) -> Result<(), NoMemory>
    requires thread { (t < length state.old.threads) × (length state.old.threads < 2 ^ 32) }
    requires numbers { length state.old.objects + objects_made points.now change < 2 ^ 32 }
    ensures ok { OnOk result (state.new ≡ spec.after_change points.now t state.old change) }
    ensures err { OnErr result (state.new ≡ state.old) }
{
    match change {
        Change::Goes(going) => {
            go(alloc, points, state, t, going)?;
            Ok(())
        }
        Change::Enter(call) => {
            enter(alloc, points, state, t, call)?;
            Ok(())
        }
        Change::Leave(value, next) => {
            leave(alloc, state, t, value, next)?;
            Ok(())
        }
        Change::EndThread => {
            end_thread(alloc, state, t);
            Ok(())
        }
        Change::EndProcess => {
            end_process(alloc, state, t);
            Ok(())
        }
    }
}
