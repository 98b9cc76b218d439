//! What the racing items of a program rest on.
ghost use Rattle.std.specs.Prelude.{◌≡◌, ◌<◌, length};
ghost use Rattle.lk_facts.specs.Program.{writes_at};

use lk_rise::PointItems;
use lk_sets::BitRows;

/// What the racing items of a program rest on.
#[derive(Drop)]
pub(crate) struct Grounds<'a> {
    /// The items of its points, with the locks of each.
    pub items: &'a PointItems<'a>,
    /// Which points come after which.
    pub after: &'a BitRows,
    ghost after_size: { after.now.size ≡ length items.now.facts.program.points },
}

impl Grounds<'_> {
    /// Whether the access of a point writes.
    pub(crate) fn writes(&self, point: u32) -> bool
        requires { point < length self.now.items.now.facts.program.points }
        ensures { result ≡ writes_at self.now.items.now.facts.program point }
    {
        self.items.facts().points().effect(point).writes()
    }
}
