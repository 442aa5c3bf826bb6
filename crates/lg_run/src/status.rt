//! How a run ends.

ghost use Rattle.std.specs.Prelude.{◌≡◌};
ghost use Rattle.lg_run.specs.Outcome.{code_of};

/// How a run ends; its code is the program's exit status.
#[derive(Clone, Copy, Debug, PartialEq, Eq)]
pub enum Status {
    /// All was done, and its text was written.
    Done,
    /// The words are no command.
    Usage,
    /// A file is missing, too long or refused.
    Input,
    /// The circuit cannot be exported.
    NotAccepted,
    /// A file could not be read.
    ReadFault,
    /// The output could not be written.
    WriteFault,
    /// There was no memory.
    Memory,
}

impl Status {
    /// The exit status.
    pub fn code(&self) -> u8
        ensures { result ≡ code_of self.now }
    {
        match self {
            Status::Done => 0,
            Status::Usage => 2,
            Status::Input => 3,
            Status::NotAccepted => 4,
            Status::ReadFault => 5,
            Status::WriteFault => 6,
            Status::Memory => 9,
        }
    }
}
