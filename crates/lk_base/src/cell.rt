//! Steps from an object to its parts, element by element.
ghost use Rattle.std.specs.Prelude.{◌≡◌};
ghost use Rattle.std.specs.Cmp.{partial_equiv_from_equiv};
ghost use Rattle.std.specs.Cmp.Lexicographic.{on_texts_equal};
ghost use Rattle.std.specs.Hash as fed;
ghost use Rattle.lk_base.specs.Steps.{code_of, is_step, number_of, steps_alike};

use std::hash::{Hash, Hasher};

/// A step from an object, or from a part of it, to a part of that.
#[derive(Clone, Copy)]
pub enum CellStep {
    /// To the member of this number of a struct, counted from 0.
    Field(u32),
    /// To the element of this index of an array.
    Index(u64),
}

impl CellStep {
    /// The number of the member or element to which it leads.
    pub fn number(self) -> u64
        ensures { result ≡ number_of self }
    {
        match self {
            CellStep::Field(number) => u64::from(number),
            CellStep::Index(number) => number,
        }
    }
}

impl Default for CellStep {
    ghost use Rattle.lk_base.specs.declared.cell.CellStep.TheVariants.{Field};

    ghost is_default = { λ step. step ≡ Field 0 };

    fn default() -> CellStep {
        CellStep::Field(0)
    }
}

impl PartialEq for CellStep {
    ghost eq = { is_step };

    ghost laws = { partial_equiv_from_equiv (on_texts_equal code_of) };

    fn eq(&self, other: &CellStep) -> bool {
        match (*self, *other) {
            (CellStep::Field(a), CellStep::Field(b)) => a == b,
            (CellStep::Index(a), CellStep::Index(b)) => a == b,
            (CellStep::Field(_), CellStep::Index(_)) | (CellStep::Index(_), CellStep::Field(_)) =>
                false,
        }
    }
}

impl Eq for CellStep {
    ghost laws = { on_texts_equal code_of };
}

impl Hash for CellStep {
    ghost hash_input = { λ step. fed.u64 (number_of step) };

    ghost respects_eq = { steps_alike.fed };

    fn hash<H: Hasher>(&self, state: &mut H) {
        self.number().hash(state);
    }
}
