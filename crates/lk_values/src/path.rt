//! Paths: how a part of an object is reached.
ghost use Rattle.std.specs.Prelude.{◌≡◌, ◌≤◌, ◌++◌, [], ◌∷◌, IfOk, length, take};
ghost use Rattle.std.specs.Cmp.{partial_equiv_from_equiv};
ghost use Rattle.std.specs.Cmp.Lexicographic.{lists_equiv, on_texts_equal};
ghost use Rattle.std.specs.Hash as fed;
ghost use Rattle.lk_values.specs.Hashes.{paths_alike};
ghost use Rattle.lk_values.specs.Paths.{is_path, last_index, element_path};
ghost use Rattle.lk_base.specs.Steps.{code_of, number_of};

use lk_base::{CellStep, NoMemory};
use smallvec::SmallVec;
use std::alloc::Global;
use std::hash::{Hash, Hasher};
use std::marker::Model;

/// The steps from an object to a part of it. A contract sees them as a list.
#[derive(Drop)]
pub struct Path {
    steps: SmallVec<CellStep, 4>,
}

impl Model for Path {
    ghost use Rattle.std.specs.Prelude.{List};
    ghost use Rattle.lk_base.specs.declared.cell.CellStep.{CellStep};

    ghost Value = { List CellStep };

    ghost view = { λ path. path.steps.items };
}

impl Path {
    /// The path to an object itself. It takes no memory.
    pub fn empty(alloc: Global) -> Path
        ensures { result ≡ [] }
    {
        Path {
            steps: SmallVec::new(alloc),
        }
    }

    /// The path of these steps.
    pub fn of(alloc: Global, steps: &[CellStep]) -> Result<Path, NoMemory>
        ensures { IfOk result (λ path. path ≡ steps.now) }
    {
        let steps = SmallVec::from_slice(alloc, steps)?;
        Ok(Path { steps })
    }

    /// The steps, as a slice.
    pub fn list(&self) -> &[CellStep]
        ensures { result.now ≡ self.now }
    {
        self.steps.as_slice()
    }

    /// An equal path.
    pub fn copy(&self) -> Result<Path, NoMemory>
        ensures { IfOk result (λ path. path ≡ self.now) }
    {
        Path::of(*self.steps.allocator(), self.steps.as_slice())
    }

    /// The path with one more step at its end.
    pub fn with(&self, step: CellStep) -> Result<Path, NoMemory>
        ensures { IfOk result (λ path. path ≡ self.now ++ step ∷ []) }
    {
        let mut path = self.copy()?;
        path.steps.push(step)?;
        Ok(path)
    }

    /// The path of its first steps.
    pub fn first(&self, count: usize) -> Result<Path, NoMemory>
        requires { count ≤ length self.now }
        ensures { IfOk result (λ path. path ≡ take count self.now) }
    {
        Path::of(*self.steps.allocator(), &self.steps.as_slice()[..count])
    }

    /// The path of its first steps, with another one after them.
    pub fn turned(&self, count: usize, step: CellStep) -> Result<Path, NoMemory>
        requires { count ≤ length self.now }
        ensures { IfOk result (λ path. path ≡ take count self.now ++ step ∷ []) }
    {
        let first = self.first(count)?;
        first.with(step)
    }

    /// The number of the element that it ends at, where it ends at one.
    pub fn last_index(&self) -> Option<u64>
        ensures { result ≡ last_index self.now }
    {
        match self.list().last() {
            Some(CellStep::Index(number)) => Some(*number),
            Some(CellStep::Field(_)) | None => None,
        }
    }

    /// The path to the element of this number in the array whose element it ends at;
    /// itself where it ends at none.
    pub fn element(&self, number: u64) -> Result<Path, NoMemory>
        ensures { IfOk result (λ path. path ≡ element_path self.now number) }
    {
        let steps = self.list();
        if self.last_index().is_none() {
            let path = self.copy()?;
            return Ok(path);
        }
        self.turned(steps.len() - 1, CellStep::Index(number))
    }
}

impl PartialEq for Path {
    ghost eq = { is_path };

    ghost laws = { partial_equiv_from_equiv (lists_equiv (on_texts_equal code_of)) };

    fn eq(&self, other: &Path) -> bool {
        self.steps.as_slice() == other.steps.as_slice()
    }
}

impl Eq for Path {
    ghost laws = { lists_equiv (on_texts_equal code_of) };
}

impl Hash for Path {
    ghost hash_input = { fed.slice (λ step. fed.u64 (number_of step)) };

    ghost respects_eq = { paths_alike.fed };

    fn hash<H: Hasher>(&self, state: &mut H) {
        self.steps.as_slice().hash(state);
    }
}
