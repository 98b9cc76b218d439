//! The parts of a program.

use crate::function::Function;
use crate::initial::Initial;
use crate::place::Places;
use crate::point::Point;
use crate::root::Root;
use lk_base::Seq;
use lk_types::TypeTable;

/// The parts of a program as control points, from which `Points` is made.
pub struct Program {
    /// Its control points.
    pub points: Seq<Point>,
    /// Its functions.
    pub functions: Seq<Function>,
    /// Its roots.
    pub roots: Seq<Root>,
    /// Its types.
    pub types: TypeTable,
    /// Its locations in their order, and after them its lock places in theirs. Their
    /// numbers are those of labels.
    pub places: Places,
    /// How many of the places are locations.
    pub locations: u32,
    /// What its objects of static storage begin with, where that is named.
    pub initials: Seq<Initial>,
    /// The number of the function `main`.
    pub main: u32,
    /// How many sites there are.
    pub sites: u32,
}

impl Drop for Program {
    fn drop(self) {
        let Program {
            points: _points,
            functions: _functions,
            roots: _roots,
            types: _types,
            places: _places,
            locations: _locations,
            initials: _initials,
            main: _main,
            sites: _sites,
        } = self;
    }
}
