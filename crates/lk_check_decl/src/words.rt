//! Where a declaration stands, and what it gives.

/// What specifiers stand in.
#[derive(Clone, Copy)]
pub enum Holder {
    /// A declaration (C99 6.7).
    Declaration,
    /// The definition of a function (C99 6.9.1).
    Definition,
    /// A member, a parameter or a type name (C99 6.7.2.1, 6.7.5.3, 6.7.6).
    Type,
}

/// The scope in which a declaration stands (C99 6.2.1, 4).
#[derive(Clone, Copy)]
pub enum Scope {
    /// The file.
    File,
    /// A block of a function.
    Block,
}

/// What gives a declared name its body or value.
#[derive(Clone, Copy)]
pub enum Given {
    /// Nothing.
    Nothing,
    /// An initialiser (C99 6.7.8).
    Initialiser,
    /// The body of a function (C99 6.9.1).
    Body,
}
