//! How a call of `quartzc` ended.

ghost use Rattle.std.specs.Prelude.{◌≡◌};
ghost use Rattle.qz_driver.specs.Status.{code_of};

/// How a call ended.
#[derive(Clone, Copy, Debug, PartialEq, Eq)]
pub enum Status {
    /// The file was put.
    Done,
    /// A cause stands against the input; its line was written.
    Refused,
    /// The words break a rule; the usage line was written.
    Usage,
    /// A file couldn't be read.
    ReadFault,
    /// The file couldn't be put, or the line couldn't be written.
    WriteFault,
    /// Memory ran out.
    NoMemory,
}

impl Status {
    /// The exit code of the program, 0 to 5.
    pub fn code(&self) -> u8
        ensures { result ≡ code_of self.now }
    {
        match self {
            Status::Done => 0,
            Status::Refused => 1,
            Status::Usage => 2,
            Status::ReadFault => 3,
            Status::WriteFault => 4,
            Status::NoMemory => 5,
        }
    }
}
