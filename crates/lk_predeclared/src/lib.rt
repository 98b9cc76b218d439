//! What is declared before a source begins: the types and words of POSIX threads, `size_t`, and the functions
//! of the library (POSIX, pthread.h; C99 7.19, 7.20).
#![tactic(auto)]

mod beginning;
mod functions;
mod types;
mod words;

pub use beginning::begin;
