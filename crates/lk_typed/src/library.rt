//! Calls of the library: what POSIX threads and the C library offer a source.

use crate::expression::TypedExpr;
use lk_base::{Boxed, Seq};
use lk_types::TypeId;

/// A call of the library, with those of its arguments that compute something, in the order of the text.
#[cycle(typed)]
#[derive(Drop)]
pub enum LibraryCall {
    /// `pthread_create`: where the id goes, the number of the start routine among the unit's
    /// entities, and what it is given.
    Create(Boxed<TypedExpr>, u32, Boxed<TypedExpr>),
    /// `pthread_join`
    Join(Boxed<TypedExpr>),
    /// `pthread_detach`
    Detach(Boxed<TypedExpr>),
    /// `pthread_exit`
    ExitThread(Boxed<TypedExpr>),
    /// `pthread_self`
    SelfId,
    /// `pthread_equal`
    Equal(Boxed<TypedExpr>, Boxed<TypedExpr>),
    /// `pthread_mutex_init` or `pthread_cond_init`
    Init(Boxed<TypedExpr>),
    /// `pthread_mutex_destroy` or `pthread_cond_destroy`
    Destroy(Boxed<TypedExpr>),
    /// `pthread_mutex_lock`
    Lock(Boxed<TypedExpr>),
    /// `pthread_mutex_unlock`
    Unlock(Boxed<TypedExpr>),
    /// `pthread_cond_signal` or `pthread_cond_broadcast`
    Signal(Boxed<TypedExpr>),
    /// `pthread_cond_wait`: the condition variable and the mutex.
    Wait(Boxed<TypedExpr>, Boxed<TypedExpr>),
    /// `malloc` or `calloc`: the type of an element, how many there are (nothing for one object that is no
    /// array), and whether the object begins as zero.
    Allocate(TypeId, Option<Boxed<TypedExpr>>, bool),
    /// `free`
    Free(Boxed<TypedExpr>),
    /// `exit`, or `abort` without a status.
    Exit(Option<Boxed<TypedExpr>>),
    /// `puts`, `perror` or `atoi`: it reads the text that its argument points to.
    Scan(Boxed<TypedExpr>),
    /// `printf`: the format and the later arguments; those of type `char *` are read as texts too.
    Print(Boxed<TypedExpr>, Seq<TypedExpr>),
    /// `putchar`, `getchar`, `rand` or `sleep`: it touches nothing.
    Compute(Seq<TypedExpr>),
}
