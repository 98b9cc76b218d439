//! Parts of a state, changed where they stand.
ghost use Rattle.std.specs.Prelude.{◌≡◌, ◌<◌, ◌++◌, length, take, OnOk, OnErr};
ghost use Rattle.indexmap.specs.IndexMap.{insert_entry};
ghost use Rattle.lk_cells.specs.Cells.{after_life};
ghost use Rattle.lk_values.specs.Paths.{is_path};
ghost use Rattle.lk_birth.specs.Births as births;
ghost use Rattle.lk_meaning.specs.After as spec;

use lk_base::{NoMemory, Seq};
use lk_cells::{Frame, Initial, Local, Object, Thread};
use lk_change::Turn;
use lk_types::TypeId;
use lk_values::{Path, Table, Value, put_both};
use std::alloc::Global;
use std::mem;

/// A frame that stands for one that is taken out of its place. It takes no memory.
pub(crate) fn no_frame(alloc: Global) -> Frame {
    Frame {
        point: 0,
        slots: Seq::new(Vec::new(alloc)),
        values: Table::new(alloc),
        locals: Seq::new(Vec::new(alloc)),
        created: None,
        next_cell: None,
    }
}

/// A thread that stands for one that is taken out of its place. It takes no memory.
pub(crate) fn no_thread(alloc: Global) -> Thread {
    Thread {
        frame: no_frame(alloc),
        below: Seq::new(Vec::new(alloc)),
        ended: false,
        joined: false,
        detached: false,
    }
}

/// An object that stands for one that is taken out of its place. It takes no memory.
pub(crate) fn no_object(alloc: Global) -> Object {
    Object::new(alloc, 0, TypeId(0), 0, Initial::Zero)
}

/// Puts elements at the end. Where no memory is found the list is as before.
pub(crate) fn append<T: Drop>(
    alloc: Global,
    list: &mut Seq<T>,
    more: Seq<T>,
) -> Result<(), NoMemory>
    ensures ok { OnOk result (list.new ≡ list.old ++ more) }
    ensures err { OnErr result (list.new ≡ list.old) }
{
    let mut all = mem::replace(list, Seq::new(Vec::new(alloc))).into_vec();
    let mut tail = more.into_vec();
    let done = all.append(&mut tail);
    *list = Seq::new(all);
    done?;
    Ok(())
}

/// Keeps the first elements alone.
pub(crate) fn shorten<T: Drop>(alloc: Global, list: &mut Seq<T>, count: usize)
    ensures { list.new ≡ take count list.old }
{
    let mut all = mem::replace(list, Seq::new(Vec::new(alloc))).into_vec();
    all.truncate(count);
    *list = Seq::new(all);
}

/// A frame goes where its point sends it.
pub(crate) fn turn(frame: &mut Frame, to: Turn)
    ensures { frame.new ≡ spec.turned to frame.old }
{
    match to {
        Turn::To(point) => {
            frame.point = point;
            frame.next_cell = None;
        }
        Turn::OnAt(next) => frame.next_cell = Some(next),
    }
}

/// A frame keeps what its point gives, where it gives a value. Where no memory is found it is as before.
pub(crate) fn record(frame: &mut Frame, gives: Option<Value>) -> Result<(), NoMemory>
    ensures ok { OnOk result (frame.new ≡ spec.recorded gives frame.old) }
    ensures err { OnErr result (frame.new ≡ frame.old) }
{
    if let Some(value) = gives {
        let point = frame.point;
        frame.values.put(point, Some(value))?;
    }
    Ok(())
}

/// The same, and something is put into a table at a path. Where no memory is found both are as before.
pub(crate) fn record_and_put<V: Drop>(
    frame: &mut Frame,
    gives: Option<Value>,
    table: &mut Table<Path, V>,
    path: Path,
    item: V,
) -> Result<(), NoMemory>
    ensures given { OnOk result (frame.new ≡ spec.recorded gives frame.old) }
    ensures put { OnOk result (table.new ≡ insert_entry is_path table.old path item) }
    ensures frame_kept { OnErr result (frame.new ≡ frame.old) }
    ensures table_kept { OnErr result (table.new ≡ table.old) }
{
    match gives {
        Some(value) => {
            let entry = (frame.point, Some(value));
            put_both(&mut frame.values, entry, table, (path, item))?;
            Ok(())
        }
        None => {
            table.put(path, item)?;
            Ok(())
        }
    }
}

/// A thread's frame gives what it gives and goes where it goes. Where no memory is
/// found the threads are as before.
#[tactic(auto, using(lk_birth::proofs::Changed::set_changed, lk_birth::proofs::Changed::set_back))]
pub(crate) fn go_on(
    alloc: Global,
    threads: &mut Seq<Thread>,
    t: usize,
    gives: Option<Value>,
    to: Turn,
) -> Result<(), NoMemory>
    requires { t < length threads.old }
    ensures ok { OnOk result (threads.new ≡ births.changed_at threads.old t (spec.moved_on gives to)) }
    ensures err { OnErr result (threads.new ≡ threads.old) }
{
    let mut thread = threads.replace(t, no_thread(alloc));
    match record(&mut thread.frame, gives) {
        Ok(()) => {
            turn(&mut thread.frame, to);
            threads.set(t, thread);
            Ok(())
        }
        Err(NoMemory) => {
            threads.set(t, thread);
            Err(NoMemory)
        }
    }
}

/// The life of an object ends (C99 6.2.4, 2).
#[tactic(auto, using(lk_birth::proofs::Changed::set_changed, lk_birth::proofs::Changed::changed_past))]
pub(crate) fn end_object(alloc: Global, objects: &mut Seq<Object>, object: usize)
    ensures { objects.new ≡ births.changed_at objects.old object after_life }
{
    if object < objects.len() {
        let mut ending = objects.replace(object, no_object(alloc));
        ending.lives = false;
        objects.set(object, ending);
    }
}

/// The lives of locals end (C99 6.2.4, 5).
pub(crate) fn end_locals(alloc: Global, objects: &mut Seq<Object>, locals: &[Local])
    ensures { objects.new ≡ spec.after_lives objects.old locals.now }
{
    for local in locals {
        end_object(alloc, objects, local.object as usize);
    }
}

/// The lives of the locals of frames end.
pub(crate) fn end_frames(alloc: Global, objects: &mut Seq<Object>, frames: &[Frame])
    ensures { objects.new ≡ spec.after_frames objects.old frames.now }
{
    for frame in frames {
        end_locals(alloc, objects, frame.locals.list());
    }
}
