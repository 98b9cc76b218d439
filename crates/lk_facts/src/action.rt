//! What a control point does.
ghost use Rattle.std.specs.Prelude.{◌≡◌};
ghost use Rattle.lk_facts.specs.Effects.{effect_of};

use crate::effect::Effect;
use crate::place::Place;
use lk_arith::{Op, UnaryOp};
use lk_base::{CellStep, Seq};
use lk_types::TypeId;

/// What a control point does in one step. An operand is the number of the point whose value it is.
#[derive(Drop)]
pub enum Action {
    /// Gives a number of an integer type.
    Value {
        /// The number.
        number: i128,
        /// Its type.
        ty: TypeId,
    },
    /// Gives the null pointer of a type.
    Null {
        /// The pointer type.
        ty: TypeId,
    },
    /// Gives a pointer to a function.
    Func {
        /// The number of the function.
        function: u32,
    },
    /// Gives the id of the thread that performs it (POSIX `pthread_self`).
    SelfId,
    /// Gives a pointer to the object of a root: the frame's own for a local.
    Root(u32),
    /// Gives a pointer to the object of a text.
    Text(u32),
    /// Gives a pointer to a member (C99 6.5.2.3).
    Field {
        /// The operand that points to the struct.
        a: u32,
        /// The number of the member.
        member: u32,
    },
    /// Gives a pointer to an element (C99 6.5.2.1).
    Index {
        /// The operand that points to an array, or to an element of one.
        a: u32,
        /// The operand by which it moves on.
        b: u32,
        /// Whether `a` points to an array, of which this gives the element `b`.
        /// Else the pointer moves by `b`.
        into: bool,
    },
    /// Reads the cell that the operand points to.
    Read {
        /// The operand that points to the cell.
        a: u32,
        /// Whether the cell may be indeterminate.
        raw: bool,
    },
    /// Writes a value into the cell that the operand points to.
    Write {
        /// The operand that points to the cell.
        a: u32,
        /// The operand that is written.
        b: u32,
        /// Whether the value may be indeterminate.
        raw: bool,
    },
    /// Reads a slot of the frame.
    SlotRead(u32),
    /// Writes a slot of the frame.
    SlotWrite {
        /// The number of the slot.
        slot: u32,
        /// The operand that is written.
        a: u32,
    },
    /// Computes an operator of one operand (C99 6.5.3.3).
    Unary {
        /// The operator.
        op: UnaryOp,
        /// The operand.
        a: u32,
    },
    /// Computes an operator of two operands (C99 6.5.5 to 6.5.12).
    Binary {
        /// The operator.
        op: Op,
        /// The left operand.
        a: u32,
        /// The right operand.
        b: u32,
    },
    /// Gives what a call of a library or extern function gives that touches nothing.
    Compute {
        /// The operands.
        args: Seq<u32>,
        /// The type of the result.
        ty: TypeId,
        /// Whether it is `pthread_equal`.
        equal: bool,
    },
    /// Converts a value to a type (C99 6.3).
    Convert {
        /// The operand.
        a: u32,
        /// The type.
        ty: TypeId,
    },
    /// Goes to the first successor where the operand is neither zero nor null, else to the second.
    Branch(u32),
    /// Goes to the successor of the case whose value the operand has, else to the last one (C99 6.8.4.2).
    Switch {
        /// The operand.
        a: u32,
        /// The values of the cases, in the order of the successors.
        cases: Seq<i128>,
    },
    /// Goes on.
    Skip,
    /// Calls a function (C99 6.5.2.2).
    Call {
        /// The number of the function.
        function: u32,
        /// The operands.
        args: Seq<u32>,
    },
    /// Calls the function that the operand points to (C99 6.5.2.2).
    PointerCall {
        /// The operand that points to the function.
        a: u32,
        /// The other operands.
        args: Seq<u32>,
    },
    /// Returns from the function, with the operand's value where there is one (C99 6.8.6.4).
    Return(Option<u32>),
    /// Starts a thread at the entry of a function (POSIX `pthread_create`).
    Create {
        /// The number of the function.
        function: u32,
        /// The operand that it passes.
        a: u32,
    },
    /// Writes the id of the thread that was just started into the cell that the operand points to.
    StoreId(u32),
    /// Waits until the thread of the operand's id has ended (POSIX `pthread_join`).
    Join(u32),
    /// Lets the thread of the operand's id go (POSIX `pthread_detach`).
    Detach(u32),
    /// Ends the thread (POSIX `pthread_exit`).
    ExitThread,
    /// Ends the process (C99 7.20.4.3).
    ExitProcess,
    /// Locks the mutex that the operand points to (POSIX `pthread_mutex_lock`).
    Lock(u32),
    /// Unlocks the mutex that the operand points to (POSIX `pthread_mutex_unlock`).
    Unlock(u32),
    /// Unlocks a mutex to wait on a condition variable (POSIX `pthread_cond_wait`).
    Release {
        /// The operand that points to the condition variable.
        cond: u32,
        /// The operand that points to the mutex.
        mutex: u32,
    },
    /// Locks again the mutex that the operand points to, after such a wait.
    Retake(u32),
    /// Makes the mutex or condition variable that the operand points to ready (POSIX `pthread_mutex_init`).
    Init(u32),
    /// Makes it not ready (POSIX `pthread_mutex_destroy`).
    Destroy(u32),
    /// Wakes threads that wait on the condition variable that the operand points to
    /// (POSIX `pthread_cond_signal`).
    Signal(u32),
    /// Gives null or a pointer to a new object (C99 7.20.3).
    Allocate {
        /// The type of the object, or of its elements.
        ty: TypeId,
        /// The operand that counts the elements. There is none where the size has no count.
        count: Option<u32>,
        /// Whether its cells begin as zero: exactly for `calloc`.
        zero: bool,
        /// The number of its root.
        root: u32,
    },
    /// Ends the object that the operand points to (C99 7.20.3.2).
    Free(u32),
    /// Reads the cells of a text from that on to which the operand points, to its zero (C99 7.19.6.1).
    Scan(u32),
    /// Fills the cells of a place that an initialiser doesn't name (C99 6.7.8).
    Fill {
        /// The operand that points to the first of them.
        a: u32,
        /// The place.
        place: Place,
        /// The cells of the place that the initialiser names, each as the steps to it from its object.
        named: Seq<Seq<CellStep>>,
    },
}

impl Action {
    /// What it is to the analysis.
    pub fn effect(&self) -> Effect
        ensures { result ≡ effect_of self.now }
    {
        match self {
            Action::Value { .. }
            | Action::Null { .. }
            | Action::Func { .. }
            | Action::SelfId
            | Action::Root(_)
            | Action::Text(_)
            | Action::Field { .. }
            | Action::Index { .. }
            | Action::SlotRead(_)
            | Action::SlotWrite { .. }
            | Action::Unary { .. }
            | Action::Binary { .. }
            | Action::Compute { .. }
            | Action::Convert { .. }
            | Action::Branch(_)
            | Action::Switch { .. }
            | Action::Skip
            | Action::Return(_)
            | Action::Join(_)
            | Action::Detach(_)
            | Action::ExitThread
            | Action::ExitProcess
            | Action::Release { .. }
            | Action::Retake(_)
            | Action::Init(_)
            | Action::Destroy(_)
            | Action::Signal(_)
            | Action::Allocate { .. }
            | Action::Free(_) => Effect::Nothing,
            Action::Read { a, .. } | Action::Scan(a) => Effect::Reads(*a),
            Action::Write { a, .. } | Action::StoreId(a) | Action::Fill { a, .. } => {
                Effect::Writes(*a)
            }
            Action::Lock(a) => Effect::Takes(*a),
            Action::Unlock(a) => Effect::Frees(*a),
            Action::Call { function, .. } => Effect::Runs(*function),
            Action::PointerCall { a, .. } => Effect::RunsThrough(*a),
            Action::Create { function, .. } => Effect::Starts(*function),
        }
    }
}
