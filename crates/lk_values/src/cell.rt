//! Cells, and pointers to the parts of objects.
ghost use Rattle.std.specs.Prelude.{◌≡◌, ◌≤◌, ◌^◌, ◌&&◌, nat_eq, IfOk};
ghost use Rattle.lk_values.specs.Paths.{is_path};
ghost use Rattle.lk_values.specs.Pointers.{pointer_to, pointer_past, position_of, is_same_array, into_array, into_member};

use crate::path::Path;
use lk_base::{CellStep, NoMemory};

/// A cell: an object, and the path to a scalar part of it.
#[derive(Drop)]
pub struct Cell {
    /// The object's number.
    pub object: u32,
    /// The path from the object to the part.
    pub path: Path,
}

/// A pointer to a part of an object, or one past it (C99 6.5.6, 8).
#[derive(Drop)]
pub struct Pointer {
    /// The part, which may be an object, a struct, an array or a cell.
    pub part: Cell,
    /// Whether it points one past the part. It then points past the last element of an array; every other
    /// part counts as an array of one (C99 6.5.6, 7).
    pub past: bool,
}

impl Cell {
    /// The number of its object.
    pub fn object(&self) -> u32
        ensures { result ≡ self.now.object }
    {
        self.object
    }

    /// Whether both the object and the steps are equal.
    pub fn same(&self, other: &Cell) -> bool
        ensures { result ≡ (nat_eq self.now.object other.now.object && is_path self.now.path other.now.path) }
    {
        self.object == other.object && self.path == other.path
    }

    /// An equal cell.
    pub fn copy(&self) -> Result<Cell, NoMemory>
        ensures { IfOk result (λ cell. cell ≡ self.now) }
    {
        let path = self.path.copy()?;
        Ok(Cell {
            object: self.object,
            path,
        })
    }
}

impl Pointer {
    /// The pointer to the part of an object at a path. It takes no memory.
    pub fn to(object: u32, path: Path) -> Pointer
        ensures { result ≡ pointer_to object path }
    {
        let part = Cell { object, path };
        Pointer { part, past: false }
    }

    /// The pointer one past the part of an object at a path. It takes no memory.
    pub fn past(object: u32, path: Path) -> Pointer
        ensures { result ≡ pointer_past object path }
    {
        let part = Cell { object, path };
        Pointer { part, past: true }
    }

    /// An equal pointer.
    pub fn copy(&self) -> Result<Pointer, NoMemory>
        ensures { IfOk result (λ pointer. pointer ≡ self.now) }
    {
        let part = self.part.copy()?;
        Ok(Pointer {
            part,
            past: self.past,
        })
    }

    /// At which element of its array it stands: at their number where it is one past the last (C99 6.5.6, 8).
    pub fn position(&self) -> u128
        ensures value { result ≡ position_of self.now }
        ensures small { result ≤ 2 ^ 64 }
    {
        let element = self.part.path.last_index().unwrap_or(0);
        u128::from(element) + u128::from(self.past)
    }

    /// Whether both point into one array, or one past its last element (C99 6.5.6, 9).
    pub fn is_same_array(&self, other: &Pointer) -> Result<bool, NoMemory>
        ensures { IfOk result (λ same. same ≡ is_same_array self.now other.now) }
    {
        let first = self.part.path.element(0)?;
        let other_first = other.part.path.element(0)?;
        Ok(self.part.object == other.part.object && first == other_first)
    }

    /// The pointer to the first element of the array that it points to (C99 6.3.2.1, 3).
    pub fn into_array(&self) -> Result<Pointer, NoMemory>
        ensures { IfOk result (λ pointer. pointer ≡ into_array self.now) }
    {
        let path = self.part.path.with(CellStep::Index(0))?;
        Ok(Pointer::to(self.part.object, path))
    }

    /// The pointer to a member of the struct that it points to (C99 6.5.2.3).
    pub fn into_member(&self, member: u32) -> Result<Pointer, NoMemory>
        ensures { IfOk result (λ pointer. pointer ≡ into_member self.now member) }
    {
        let path = self.part.path.with(CellStep::Field(member))?;
        Ok(Pointer::to(self.part.object, path))
    }
}
