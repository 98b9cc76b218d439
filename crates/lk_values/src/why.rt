//! Why a step is undefined.
ghost use Rattle.std.specs.Prelude.{◌≡◌};
ghost use Rattle.lk_values.specs.Causes.{rank, ◌or◌, ◌when◌};

/// Why a step is undefined (C99 3.4.3). Where several causes hold, the first in this order is answered.
#[derive(Clone, Copy, PartialEq, Eq)]
pub enum Why {
    /// A signed result isn't a value of its type (C99 6.5, 5).
    Overflow,
    /// A division by zero (C99 6.5.5, 5).
    DivideByZero,
    /// The right operand of a shift isn't below the width of the left one, or that one is
    /// negative (C99 6.5.7, 3 and 4).
    Shift,
    /// An indeterminate value is used (C99 J.2).
    Indeterminate,
    /// A null pointer is followed (C99 6.5.3.2, 4).
    Null,
    /// A pointer to an object is followed after the object's life (C99 6.2.4, 2).
    Dead,
    /// A pointer is followed or moved outside its array, or two into different arrays are
    /// compared (C99 6.5.6, 8 and 9).
    Outside,
    /// A `void *` is converted to a pointer to another type than that of the part that it points to; or an
    /// operand is none that the action takes, which lowered points never have.
    WrongType,
    /// A string literal is written (C99 6.4.5, 6).
    ConstText,
    /// A thread unlocks a mutex that it doesn't own (POSIX pthread_mutex_unlock).
    NotOwner,
    /// A mutex or condition variable is used that isn't initialised (POSIX pthread_mutex_lock).
    NotReady,
    /// A mutex that is owned is initialised or destroyed, or the life of its object ends
    /// (POSIX pthread_mutex_destroy).
    OwnedLock,
    /// What is freed isn't the start of a live allocated object (C99 7.20.3.2, 2).
    BadFree,
    /// A thread is joined or detached that isn't there, was joined or was detached; or it joins
    /// itself (POSIX pthread_join).
    BadJoin,
    /// A value is used that a function didn't return (C99 6.9.1, 12).
    NoValue,
}

impl Why {
    /// Its place in the order.
    fn rank(self) -> u8
        ensures { result ≡ rank self }
    {
        match self {
            Why::Overflow => 0,
            Why::DivideByZero => 1,
            Why::Shift => 2,
            Why::Indeterminate => 3,
            Why::Null => 4,
            Why::Dead => 5,
            Why::Outside => 6,
            Why::WrongType => 7,
            Why::ConstText => 8,
            Why::NotOwner => 9,
            Why::NotReady => 10,
            Why::OwnedLock => 11,
            Why::BadFree => 12,
            Why::BadJoin => 13,
            Why::NoValue => 14,
        }
    }

    /// The cause, where the test holds.
    pub fn when(self, test: bool) -> Option<Why>
        ensures { result ≡ self when test }
    {
        if test { Some(self) } else { None }
    }
}

/// Of two causes that may hold, the one that is answered: the first in their order.
pub fn either(a: Option<Why>, b: Option<Why>) -> Option<Why>
    ensures { result ≡ a or b }
{
    match (a, b) {
        (Some(first), Some(second)) => Some(if first.rank() <= second.rank() {
            first
        } else {
            second
        }),
        (Some(only), None) | (None, Some(only)) => Some(only),
        (None, None) => None,
    }
}
