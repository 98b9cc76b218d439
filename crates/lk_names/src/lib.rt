//! The checker of types and faults: the names, tags and structs in scope while a source is checked
//! (C99 6.2.1 to 6.2.3, 6.7.2.3), and the rules that ask of them: what may be declared again, what a tag
//! means, and which words name a type.
#![tactic(auto)]

mod declaring;
mod laws;
mod names;
mod scoped;
mod tags;
mod words;

pub use laws::{environments_stay, known_left_stays, known_stays, left_scopes_stay};
pub use names::{LeftScope, Mark, Names};
pub use tags::{TagUse, struct_meant};
pub use words::{named_type, type_of_words, typedef_of};
