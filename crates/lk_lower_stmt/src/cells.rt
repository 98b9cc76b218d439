//! The places of cells of locals.
ghost use Rattle.std.specs.Prelude.{◌≡◌, ℕ, List};
ghost use Rattle.lk_base.specs.declared.cell.CellStep.{CellStep};
ghost use Rattle.lk_facts.specs.declared.place.Place.{Place};

use lk_base::CellStep;
use lk_facts::Place;

/// What knows the places of the cells of a body's locals.
pub trait Cells {
    ghost places: { Self → ℕ → List CellStep → Place };

    /// The place of a cell of a local, by the steps to it.
    fn place(&self, local: u32, path: &[CellStep]) -> Place
        ensures { result ≡ places self.now local path.now };
}
