//! The status that the program ends with.

ghost use Rattle.std.specs.Prelude.{◌≡◌};
ghost use Rattle.cli.specs.Begun.{number_of};

/// The status that the program ends with.
#[derive(Clone, Copy, Drop)]
pub enum Status {
    /// It was done, and what came of it is printed.
    Success,
    /// It was refused, a check failed, or a writer failed.
    Failure,
    /// The words are no command.
    Usage,
}

impl Status {
    /// Returns the number by which the system knows it.
    pub fn number(self) -> u8
        ensures { result ≡ number_of self }
    {
        match self {
            Status::Success => 0,
            Status::Failure => 1,
            Status::Usage => 2,
        }
    }
}
