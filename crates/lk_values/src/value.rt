//! Values, and the states of mutexes and condition variables.

ghost use Rattle.std.specs.Prelude.{◌≡◌, IfOk};
ghost use Rattle.lk_values.specs.Values.{is_owned};

use crate::cell::Pointer;
use lk_base::{Kind, NoMemory};

/// A value of a scalar type (C99 6.2.5, 6.2.6; POSIX pthread_t).
#[derive(Drop)]
pub enum Value {
    /// A number of an integer kind.
    Number(Kind, i128),
    /// A pointer to a part of an object.
    Pointer(Pointer),
    /// A pointer to the function of this number.
    Function(u32),
    /// The null pointer.
    Null,
    /// The id of the thread of this number, or one that names no thread.
    Thread(Option<u32>),
    /// No value that a program may use (C99 3.17.2).
    Indeterminate,
}

impl Value {
    /// An equal value.
    pub fn copy(&self) -> Result<Value, NoMemory>
        ensures { IfOk result (λ value. value ≡ self.now) }
    {
        Ok(match self {
            Value::Number(kind, number) => Value::Number(*kind, *number),
            Value::Pointer(pointer) => Value::Pointer(pointer.copy()?),
            Value::Function(function) => Value::Function(*function),
            Value::Null => Value::Null,
            Value::Thread(thread) => Value::Thread(*thread),
            Value::Indeterminate => Value::Indeterminate,
        })
    }
}

/// The state of a mutex (POSIX pthread_mutex_init, pthread_mutex_lock).
#[derive(Clone, Copy)]
pub enum Mutex {
    /// It wasn't initialised, or was destroyed.
    NotReady,
    /// No thread owns it.
    Free,
    /// The thread of this number owns it.
    Owned(u32),
}

impl Mutex {
    /// Whether a thread owns it.
    pub fn is_owned(self) -> bool
        ensures { result ≡ is_owned self }
    {
        match self {
            Mutex::NotReady | Mutex::Free => false,
            Mutex::Owned(_) => true,
        }
    }
}

/// The state of a condition variable (POSIX pthread_cond_init).
#[derive(Clone, Copy)]
pub enum Condition {
    /// It wasn't initialised, or was destroyed.
    NotReady,
    /// It may be waited for and signalled.
    Ready,
}
