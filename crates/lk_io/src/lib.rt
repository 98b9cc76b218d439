//! Where `lsrace` reads and writes: shelves of files and sinks of bytes, in memory and of the system,
//! and how a whole file is read and a whole text written over any of them.
#![tactic(auto)]

mod calls;
mod fault;
mod file_shelf;
mod mem_shelf;
mod mem_sink;
mod never_fails;
mod read;
mod shelf;
mod short_name;
mod sink;
mod std_sink;
mod write;

pub use fault::{Failed, ReadFault, ShelfFault};
pub use file_shelf::FileShelf;
pub use mem_shelf::MemShelf;
pub use mem_sink::MemSink;
pub use never_fails::NeverFails;
pub use read::read_whole;
pub use shelf::Shelf;
pub use sink::Sink;
pub use std_sink::StdSink;
pub use write::write_whole;
