//! What every other crate of `lsrace` speaks of: names, places, refusals, limits, and lists
//! that contracts see as lists.
#![tactic(auto)]

mod boxed;
mod cell;
mod code;
mod fault;
mod files;
mod kind;
mod limits;
mod memory;
mod name;
mod refusal;
mod seq;
mod spot;
mod status;

pub use boxed::Boxed;
pub use cell::CellStep;
pub use code::{Code, no_two_codes_share_a_number};
pub use fault::Fault;
pub use files::Files;
pub use kind::Kind;
pub use limits::{
    LONGEST_CERTIFICATE, LONGEST_EXTERNS, LONGEST_NAME, LONGEST_SCHEDULE, LONGEST_SOURCES,
    MOST_DEPTH, MOST_FILES, MOST_LABELS, MOST_POINTS, MOST_STEPS, MOST_TYPE_NODES, MOST_TYPE_STEPS,
};
pub use memory::NoMemory;
pub use name::{Name, NameFault};
pub use refusal::Refusal;
pub use seq::Seq;
pub use spot::Spot;
pub use status::Status;
