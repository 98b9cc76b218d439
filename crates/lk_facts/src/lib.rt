//! What the analysis speaks of: control points, locations, locks, verdicts, and the rules for races.
#![tactic(auto)]

mod action;
mod crossing;
mod edge;
mod effect;
mod facts;
mod function;
mod held;
mod id_lists;
mod initial;
mod label_entry;
mod labels;
mod live;
mod origins;
mod place;
mod point;
mod points;
mod program;
mod root;
mod sizes;
mod source;
mod subject;
mod verdict;
mod way;

pub use action::Action;
pub use crossing::Crossing;
pub use edge::{Edge, Label, Mark, Site};
pub use effect::Effect;
pub use facts::Facts;
pub use function::Function;
pub use held::Held;
pub use initial::{Initial, InitialValue};
pub use label_entry::{LabelEntry, LabelName};
pub use labels::Labels;
pub use live::live_points;
pub use origins::Origins;
pub use place::{Place, Places};
pub use point::Point;
pub use points::Points;
pub use program::Program;
pub use root::{Holder, Root, RootKind};
pub use source::Source;
pub use subject::Subject;
pub use verdict::{Racing, Verdict, VerdictState};
pub use way::Way;
