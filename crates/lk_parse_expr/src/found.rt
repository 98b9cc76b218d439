//! What a reader answers.
ghost use Rattle.std.specs.Prelude.{◌≡◌};
ghost use Rattle.lk_parse_expr.specs.Readers as reader;

/// What was read, and how many levels may still stand above it: the levels that there were, less its depth.
#[derive(Drop)]
pub struct Found<T> {
    pub tree: T,
    pub room: usize,
}

impl<A, B: Drop> Found<(A, B)> {
    /// The first part of what was read.
    pub fn first(self) -> Found<A>
        ensures { result ≡ reader.found self.tree.0 self.room }
    {
        let Found { tree, room } = self;
        let (tree, _other) = tree;
        Found { tree, room }
    }
}
