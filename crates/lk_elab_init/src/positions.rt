//! What address constants point to (C99 6.6, 9; 6.5.6, 7 and 8).
ghost use Rattle.std.specs.Prelude.{◌≡◌, nat_lt, IfOk};
ghost use Rattle.lk_typed.specs.Addresses as spec;
ghost use Rattle.lk_typed.specs.Addresses.{steps_to};
ghost use Rattle.lk_typed.specs.Statics.{element_reached, reached};
ghost use Rattle.lk_typed.specs.Words.{whole_of};
ghost use Rattle.lk_elab_init.specs.Reaching.{address_in, anchor_in, position_in};

use lk_base::{CellStep, NoMemory, Seq};
use std::alloc::Global;

/// What has static storage.
#[derive(Clone, Copy)]
pub enum Anchor {
    /// The object that the node with this number declares.
    Object(u32),
    /// The string literal at the node with this number.
    Text(u32),
}

/// A place in it: an element of an array, or one past the last; what is no element counts as an array of one.
#[derive(Drop)]
pub struct Position {
    pub anchor: Anchor,
    /// The steps to the array, or to what is no element.
    pub steps: Seq<CellStep>,
    pub is_element: bool,
    pub index: u64,
    /// How many elements the array has; the most that an array may have where its size isn't known.
    pub count: u64,
}

/// What an address constant points to, or where a place of static storage is.
#[derive(Drop)]
pub enum Reached {
    /// The null pointer.
    Null,
    /// The function that the node with this number declares.
    Function(u32),
    /// A place of static storage.
    Inside(Position),
}

/// The steps to a part, and whether a place is one past it (`reached`).
#[derive(Drop)]
pub struct End {
    pub steps: Seq<CellStep>,
    pub is_past: bool,
}

/// The place of what has static storage.
pub(crate) fn whole(alloc: Global, anchor: Anchor) -> Reached
    ensures { address_in result ≡ whole_of (anchor_in anchor) }
{
    Reached::Inside(Position {
        anchor,
        steps: Seq::new(Vec::new(alloc)),
        is_element: false,
        index: 0,
        count: 1,
    })
}

impl Position {
    /// Whether something is there.
    fn is_there(&self) -> bool
        ensures { result ≡ nat_lt self.now.index self.now.count }
    {
        self.index < self.count
    }

    /// The place with all its steps in front of the part that is looked for.
    fn stepped(self) -> Result<Position, NoMemory>
        ensures { IfOk result (λ place. place ≡ record self { steps = steps_to (position_in self) }) }
    {
        let mut place = self;
        if place.is_element {
            place.steps.push(CellStep::Index(place.index))?;
        }
        Ok(place)
    }

    /// The first element of the array of so many at the place.
    pub(crate) fn first_element(self, count: u64) -> Result<Position, NoMemory>
        ensures { IfOk result (λ place. position_in place ≡ spec.first_element count (position_in self)) }
    {
        let mut place = self.stepped()?;
        place.is_element = true;
        place.index = 0;
        place.count = count;
        Ok(place)
    }

    /// The member with this number of the struct at the place.
    pub(crate) fn member(self, number: u32) -> Result<Position, NoMemory>
        ensures { IfOk result (λ place. position_in place ≡ spec.member_at number (position_in self)) }
    {
        let mut place = self.stepped()?;
        place.steps.push(CellStep::Field(number))?;
        place.is_element = false;
        place.index = 0;
        place.count = 1;
        Ok(place)
    }

    /// The element with this number of the same array, or one past its last.
    pub(crate) fn moved(self, index: u64) -> Position
        ensures { position_in result ≡ record (position_in self) { index = index } }
    {
        let mut place = self;
        place.index = index;
        place
    }

    /// Where the element is, or where the one before is where it is one past the last.
    fn end_of_element(self) -> Result<End, NoMemory>
        ensures { IfOk result (λ end. element_reached self.steps self.index (nat_lt self.index self.count) ≡
            record { steps = end.steps; is_past = end.is_past }) }
    {
        let is_there = self.is_there();
        let Position { steps, index, .. } = self;
        let mut steps = steps;
        if is_there || index == 0 {
            steps.push(CellStep::Index(index))?;
            return Ok(End {
                steps,
                is_past: !is_there,
            });
        }
        steps.push(CellStep::Index(index - 1))?;
        Ok(End {
            steps,
            is_past: true,
        })
    }

    /// Where it is.
    pub fn end(self) -> Result<End, NoMemory>
        ensures { IfOk result (λ end. reached (position_in self)
            ≡ record { steps = end.steps; is_past = end.is_past }) }
    {
        if self.is_element {
            return self.end_of_element();
        }
        let is_past = !self.is_there();
        let Position { steps, .. } = self;
        Ok(End { steps, is_past })
    }
}
