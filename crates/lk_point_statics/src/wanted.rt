//! The pointer that a point of a static initialiser is asked to give, on the way back to its object.
ghost use Rattle.std.specs.Prelude.{◌≡◌, ◌↔◌, ◌+ℤ◌, ℤ, Bool, [], FitsSigned, IfSome, IsTrue, MatchOption, Some, false, pos};
ghost use Rattle.std.specs.Int.{w128};
ghost use Rattle.lk_base.specs.declared.cell.CellStep.TheVariants.{Field};
ghost use Rattle.lk_facts.specs.Initials.{stand};
ghost use Rattle.lk_point_statics.specs.Backwards.{index_in, moved_by, EndsIn, EndsInElement, IsFor, MovesTo, NoneMovesTo, StepsTo, StepsToElement};
ghost use Rattle.lk_point_statics.specs.Near.{IsIndex};

use lk_base::CellStep;

/// A pointer to a part of a root's object, or one past it.
#[derive(Clone, Copy)]
pub(crate) struct Wanted<'a> {
    /// The number of the root.
    root: u32,
    /// The steps to the part but for the last one.
    before: &'a [CellStep],
    /// The last step. There is none to the object itself.
    last: Option<CellStep>,
    /// Whether it points one past the part.
    past: bool,
}

/// The place from which a pointer moved by so many elements, or back by so many,
/// where there is such a number.
fn place_before(place: i128, by: i128, back: bool) -> Option<i128>
    ensures from { IfSome result (λ from. from +ℤ moved_by by back ≡ place) }
    ensures only { (from : ℤ) → FitsSigned w128 from → from +ℤ moved_by by back ≡ place → result ≡ Some from }
{
    if back {
        place.checked_add(by)
    } else {
        place.checked_sub(by)
    }
}

/// The index of the element from which a pointer to an element, or one past it, moved by so many elements, or
/// back by so many, where there is such an index.
fn index_before(index: u64, past: bool, by: i128, back: bool) -> Option<u64>
    ensures { MatchOption result
        ((place : ℤ) → IsIndex place → place +ℤ moved_by by back ≡ stand index past → ⊥)
        (λ from. pos from +ℤ moved_by by back ≡ stand index past) }
{
    let to = i128::from(index) + i128::from(past);
    let from = place_before(to, by, back)?;
    if 0 <= from && from <= i128::from(u64::MAX) {
        Some(from as u64)
    } else {
        None
    }
}

/// Whether a pointer that moved by so many elements, or back by so many, pointed past its part, which is no
/// element; nothing where it pointed neither to it nor past it.
fn past_before(past: bool, by: i128, back: bool) -> Option<bool>
    ensures { MatchOption result ((from : Bool) → stand 0 from +ℤ moved_by by back ≡ stand 0 past → ⊥)
        (λ from. stand 0 from +ℤ moved_by by back ≡ stand 0 past) }
{
    let from = place_before(i128::from(past), by, back)?;
    if from == 0 {
        Some(false)
    } else if from == 1 {
        Some(true)
    } else {
        None
    }
}

impl<'a> Wanted<'a> {
    /// The pointer to a part of a root's object, or one past it.
    pub(crate) fn of(root: u32, path: &'a [CellStep], past: bool) -> Wanted<'a>
        ensures { IsFor root path.now past result }
    {
        match path {
            [] => Wanted {
                root,
                before: path,
                last: None,
                past,
            },
            [before @ .., last] => Wanted {
                root,
                before,
                last: Some(*last),
                past,
            },
        }
    }

    /// Whether it is the pointer to the object of a root.
    pub(crate) fn is_object(&self, root: u32) -> bool
        ensures { IsTrue result ↔ IsFor root [] false self.now }
    {
        self.root == root && self.last.is_none() && !self.past
    }

    /// The pointer to the struct, where it is one to this member.
    pub(crate) fn before_member(&self, member: u32) -> Option<Wanted<'a>>
        ensures { MatchOption result (EndsIn (Field member) self.now → ⊥)
            (λ from. StepsTo (Field member) from self.now) }
    {
        let Some(CellStep::Field(k)) = self.last else {
            return None;
        };
        if k == member && !self.past {
            Some(Wanted::of(self.root, self.before, false))
        } else {
            None
        }
    }

    /// The pointer to the array, where it is one to this element.
    pub(crate) fn before_element(&self, index: i128) -> Option<Wanted<'a>>
        ensures { MatchOption result (EndsInElement index self.now → ⊥)
            (λ from. StepsToElement index from self.now) }
    {
        let k = self.index()?;
        if i128::from(k) == index && !self.past {
            Some(Wanted::of(self.root, self.before, false))
        } else {
            None
        }
    }

    /// The index of the element, where it is a pointer to one, or one past it.
    fn index(&self) -> Option<u64>
        ensures { result ≡ index_in self.now.last }
    {
        match self.last {
            Some(CellStep::Index(index)) => Some(index),
            Some(CellStep::Field(_)) | None => None,
        }
    }

    /// A pointer that becomes this one when it moves by so many elements, or back by so many, where
    /// there is one (C99 6.5.6, 8).
    pub(crate) fn before_move(&self, by: i128, back: bool) -> Option<Wanted<'a>>
        ensures { MatchOption result (NoneMovesTo (moved_by by back) self.now)
            (λ from. MovesTo (moved_by by back) from self.now) }
    {
        if let Some(index) = self.index() {
            let from = index_before(index, self.past, by, back)?;
            return Some(Wanted {
                last: Some(CellStep::Index(from)),
                past: false,
                ..*self
            });
        }
        let past = past_before(self.past, by, back)?;
        Some(Wanted { past, ..*self })
    }
}
