//! The labels of a function, each found by its name in constant time (C99 6.8.1), and
//! the rules of labels and `goto`.
#![tactic(auto)]

mod body;
mod collecting;
mod labels;
mod rules;

pub use body::items_of;
pub use collecting::labels_of;
pub use labels::Labels;
pub use rules::{goto_code, label_code};
