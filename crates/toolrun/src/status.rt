//! Exit statuses.
ghost use Rattle.std.specs.Prelude.{◌≡◌, max};
ghost use Rattle.toolrun.specs.Status.{code_of};

/// The exit status of a run. The greater code stands where two apply.
#[derive(Clone, Copy, Debug, PartialEq, Eq)]
pub enum Status {
    /// All input was taken, or nothing was rejected.
    Done,
    /// Nothing matches at some position, or some line is rejected.
    NoMatch,
    /// The grammar or the arguments are rejected.
    Refused,
    /// A unit longer than the limit.
    Overlong,
    /// A reader or a writer failed.
    Fault,
    /// An allocation failed.
    NoMemory,
}

impl Status {
    /// Returns the exit status, from 0 to 5.
    pub fn code(self) -> u8
        ensures { result ≡ code_of self }
    {
        match self {
            Status::Done => 0,
            Status::NoMatch => 1,
            Status::Refused => 2,
            Status::Overlong => 3,
            Status::Fault => 4,
            Status::NoMemory => 5,
        }
    }

    /// Returns this status, or `Fault` where that is greater.
    pub fn at_least_fault(self) -> Status
        ensures { code_of result ≡ max (code_of self) 4 }
    {
        match self {
            Status::NoMemory => Status::NoMemory,
            _ => Status::Fault,
        }
    }
}
