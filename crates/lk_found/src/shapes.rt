//! The forms of a declarator, and the type on the left of one (C99 6.7.5).
ghost use Rattle.std.specs.Prelude.{◌≡◌, ◌&&◌, ◌||◌};

use crate::found::At;
use crate::layers::{Element, Layer};
use lk_types::TypeId;

/// A form of a declarator.
#[derive(Drop)]
pub struct LayerAt {
    /// The node of the form.
    pub at: At,
    /// What it makes.
    pub layer: Layer,
}

/// The type on the left of a form.
#[derive(Clone, Copy)]
pub struct Left {
    /// The type, where no fault takes it away.
    pub ty: Option<TypeId>,
    /// What is asked of it as the type of elements.
    pub element: Element,
    /// Whether a type that the forms before this one made is over a bound.
    pub is_large: bool,
}

/// Whether two things hold.
pub fn both(one: bool, other: bool) -> bool
    ensures { result ≡ (one && other) }
{
    one && other
}

/// Whether one of two things holds.
pub fn either(one: bool, other: bool) -> bool
    ensures { result ≡ (one || other) }
{
    one || other
}
