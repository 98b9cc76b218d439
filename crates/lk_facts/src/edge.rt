//! Labels, call sites, and the edges along which pointers flow.

use std::marker::Model;

/// The number of a label: what a pointer may point to, at one level of one type.
#[derive(Clone, Copy, PartialEq, Eq, Hash)]
pub struct Label(pub u32);

impl Model for Label {
    ghost use Rattle.std.specs.Prelude.{ℕ};

    ghost Value = { ℕ };

    ghost view = { λ label. label.0 };

    ghost inverse = { λ number. record { 0 = number } };
}

/// The number of a site: a live call or creation, or a function that is used as a value.
#[derive(Clone, Copy, PartialEq, Eq, Hash)]
pub struct Site(pub u32);

impl Model for Site {
    ghost use Rattle.std.specs.Prelude.{ℕ};

    ghost Value = { ℕ };

    ghost view = { λ site. site.0 };

    ghost inverse = { λ number. record { 0 = number } };
}

/// What an edge passes: a site is entered by a call or creation, and left by a return.
#[derive(Clone, Copy, PartialEq, Eq, Hash)]
pub enum Mark {
    /// Within one function.
    Plain,
    /// From a caller into what it calls.
    Enter(Site),
    /// From what was called back to its caller.
    Leave(Site),
}

/// An edge: what is at `from` may be at `to`.
#[derive(Clone, Copy, PartialEq, Eq, Hash)]
pub struct Edge {
    /// Where the edge begins.
    pub from: Label,
    /// Where the edge ends.
    pub to: Label,
    /// What the edge passes.
    pub mark: Mark,
}
