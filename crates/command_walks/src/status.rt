//! How the tool ends.
ghost use Rattle.std.specs.Prelude.{◌≡◌};
ghost use Rattle.command_walks.specs.Codes.{code_of};

/// What became of the words.
#[derive(Clone, Copy, Debug, PartialEq, Eq)]
pub enum Status {
    /// All was done.
    Done,
    /// The words are in the table and every file that was needed was read, but a matrix or a limit refuses the job.
    Refused,
    /// The words aren't in the table.
    Words,
    /// A file is missing, or the store failed.
    Store,
    /// Memory was wanted.
    NoMemory,
    /// The output failed.
    Sink,
}

impl Status {
    /// The exit status of the program: 0 to 5 in the order of the variants.
    pub fn code(&self) -> u8
        ensures { result ≡ code_of self.now }
    {
        match self {
            Status::Done => 0,
            Status::Refused => 1,
            Status::Words => 2,
            Status::Store => 3,
            Status::NoMemory => 4,
            Status::Sink => 5,
        }
    }
}
