//! Where control goes on behind a statement.
ghost use Rattle.std.specs.Prelude.{◌≡◌};
ghost use Rattle.lk_lower_expr.specs.Statements as rules;

/// The points at which control goes on behind a statement, at `break`, at `continue`, and
/// at the exit of the function.
#[derive(Clone, Copy)]
pub struct Goals {
    pub next: u32,
    pub breaks: u32,
    pub continues: u32,
    pub exit: u32,
}

impl Goals {
    /// The same goals, but that behind the statement.
    pub fn to(self, next: u32) -> Goals
        ensures { result ≡ rules.to next self }
    {
        Goals { next, ..self }
    }

    /// The goals inside a `switch`: `break` goes past it (C99 6.8.6.3).
    pub fn inside_switch(self) -> Goals
        ensures { result ≡ rules.inside_switch self }
    {
        Goals {
            breaks: self.next,
            ..self
        }
    }

    /// The goals inside a loop whose next turn begins at a point (C99 6.8.6.2, 6.8.6.3).
    pub fn inside_loop(self, turn: u32) -> Goals
        ensures { result ≡ rules.inside_loop turn self }
    {
        Goals {
            next: turn,
            breaks: self.next,
            continues: turn,
            exit: self.exit,
        }
    }
}

/// A statement behind `case` or `default`.
#[derive(Clone, Copy)]
pub struct Labelled {
    /// The number of the node of the `case` or `default`.
    pub node: u32,
    /// The point at which it begins.
    pub first: u32,
}
