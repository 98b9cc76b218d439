//! A place in a source.

/// The place of a token, a fault or an access.
///
/// Spots are compared by file number, then line, then column.
#[derive(Clone, Copy, Debug, PartialEq, Eq, PartialOrd, Ord)]
pub struct Spot {
    /// The number of the file in the command's `Files`, from 0 on.
    pub file: u32,
    /// The line, from 1 on; a line mark may set it to 0.
    pub line: u32,
    /// The column: the number of the byte in its line, from 1 on. A tab counts one.
    pub col: u32,
}
