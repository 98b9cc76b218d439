//! How a command ends.
ghost use Rattle.std.specs.Prelude.{◌≡◌};
ghost use Rattle.lk_base.specs.Status.{status_number};

/// How a command ends. Its number is the exit status of the program.
#[derive(Clone, Copy, Debug, PartialEq, Eq)]
pub enum Status {
    /// The report is written, and no location is suspect.
    Clean,
    /// The report is written, and some location is suspect.
    Suspects,
    /// A source is refused, and standard error says why.
    Refused,
    /// The words are no command, and standard error says which are.
    Usage,
    /// A file can't be read, and standard error says which.
    ReadFault,
    /// What was to be written could not be written whole.
    WriteFault,
    /// No memory was found.
    NoMemory,
}

impl Status {
    /// The exit status: 0 to 6 in the order of the variants.
    pub fn number(&self) -> u8
        ensures { result ≡ status_number self.now }
    {
        match self {
            Status::Clean => 0,
            Status::Suspects => 1,
            Status::Refused => 2,
            Status::Usage => 3,
            Status::ReadFault => 4,
            Status::WriteFault => 5,
            Status::NoMemory => 6,
        }
    }
}
