//! The checker of types and faults, its walk over initialisers, declarations, statements, definitions and
//! the source (C99 6.7, 6.8, 6.9).
#![tactic(auto)]

mod asking;
mod at_end;
mod body;
mod cases;
mod converting;
mod declarations;
mod declared;
mod definitions;
mod designators;
mod entities;
mod externals;
mod heads;
mod initialisers;
mod keeping;
mod pending;
mod returning;
mod scopes;
mod seen;
mod source;
mod statements;
mod words;

pub use lk_checker::Checked;
pub use source::{check, check_faults};
