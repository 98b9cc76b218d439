//! Initialisers and declarations from tokens.
#![tactic(auto)]

mod declaration;
mod initialiser;
mod laws;

pub use declaration::{read_declaration, read_declarators_behind};
pub use initialiser::read_initialiser;
pub use laws::exact_declarations;
