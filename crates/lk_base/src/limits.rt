//! The limits of what `lsrace` reads. Each has a refusal or an answer of its own beyond it.

/// The most bytes that all sources of one command have together. Beyond it: `TooLong`.
pub const LONGEST_SOURCES: u64 = 1_048_576;

/// The most bytes of the file of `--externs`. Beyond it: `TooLong`.
pub const LONGEST_EXTERNS: u64 = 65_536;

/// The most bytes of a schedule file. Beyond it: `TooLong`.
pub const LONGEST_SCHEDULE: u64 = 65_536;

/// The most bytes of a certificate. Beyond it: `TooLong` of one that is read, `CertificateTooLarge` of one that is written.
pub const LONGEST_CERTIFICATE: u64 = 16_777_216;

/// The most steps of a play.
pub const MOST_STEPS: u32 = 65_536;

/// The most FILE words of a command. Beyond it: the usage line.
pub const MOST_FILES: usize = 64;

/// The most bytes of an identifier, of a line mark's file name and of a FILE word.
pub const LONGEST_NAME: usize = 255;

/// The greatest depth of the syntax tree, an external declaration having depth 1. Beyond it: `TooDeep`.
pub const MOST_DEPTH: u32 = 200;

/// The most nodes of a type. Beyond it: `LargeType`.
pub const MOST_TYPE_NODES: u32 = 65_535;

/// The most steps from the start of a type to one of its nodes. Beyond it: `LargeType`.
pub const MOST_TYPE_STEPS: u32 = 1_000;

/// The most control points of a program. Beyond it: `TooManyPoints`.
pub const MOST_POINTS: u32 = 65_536;

/// The most labels of a program. Beyond it: `TooManyLabels`.
pub const MOST_LABELS: u32 = 65_536;
