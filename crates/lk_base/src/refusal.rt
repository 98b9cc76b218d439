//! Why a source is refused, and where.

use crate::code::Code;
use crate::name::Name;
use crate::spot::Spot;

/// A refusal: its code, the place that it is about, and the name that it is about, which is empty
/// where the code has none.
#[derive(Debug, Drop)]
pub struct Refusal {
    pub code: Code,
    pub spot: Spot,
    pub name: Name,
}
