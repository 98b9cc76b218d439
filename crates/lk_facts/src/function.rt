//! The functions of a program.

use crate::edge::Site;
use crate::root::Holder;
use lk_base::{Name, Seq};
use lk_types::TypeId;

/// A function with a body.
#[derive(Drop)]
pub struct Function {
    /// Its name.
    pub name: Name,
    /// The number of its root.
    pub root: u32,
    /// The point at which it begins.
    pub entry: u32,
    /// The point to which its returns lead. No thread ever stands there.
    pub exit: u32,
    /// What holds its parameters, in their order: a slot or a root of its own.
    pub parameters: Seq<Holder>,
    /// The types of its slots, those too that no name of the source has.
    pub slots: Seq<TypeId>,
    /// The type of its result.
    pub result: TypeId,
    /// Its own site, where it is used as a value.
    pub value_site: Option<Site>,
}
