//! The program's exit statuses.
ghost use Rattle.std.specs.Prelude.{◌≡◌};
ghost use Rattle.program_rim.specs.Statuses.{code_of};

/// How a run of the program ended.
#[derive(Clone, Copy)]
pub enum Status {
    /// Every obligation holds, and what was asked for is done.
    Yes,
    /// An obligation is broken.
    No,
    /// The words of the command line were refused.
    Usage,
    /// The input, the script, the certificate or the plan can't be read.
    Unreadable,
    /// There was no memory.
    NoMemory,
    /// A plan wasn't run, or its run wasn't told.
    RunFault,
    /// A read or a write failed.
    DeviceFailed,
}

impl Status {
    /// The number that the process ends with.
    pub fn code(self) -> u8
        ensures { result ≡ code_of self }
    {
        match self {
            Status::Yes => 0,
            Status::No => 1,
            Status::Usage => 2,
            Status::Unreadable => 3,
            Status::NoMemory => 4,
            Status::RunFault => 5,
            Status::DeviceFailed => 6,
        }
    }
}
