ghost use Rattle.std.specs.Prelude.{◌≡◌};
ghost use Rattle.dbl_lines.specs.Statuses.{code_of};

/// How a run of the program ended, which its exit status reports.
#[derive(Clone, Copy, PartialEq, Eq)]
pub enum Status {
    Done,
    InvalidArguments,
    /// The session read as many messages as its budget allows, and more may be left.
    BudgetSpent,
    /// No offset is stored; of `capture`, one is.
    StartMismatch,
    MalformedLog,
    /// The log, the workload or a record has what isn't supported.
    Unsupported,
    /// The disk of the source's log failed.
    SourceFailed,
    TopicsFailed,
    OffsetsFailed,
    /// The standard input failed.
    StdinFailed,
    /// The standard output failed.
    StdoutFailed,
    OutOfMemory,
    /// A line of the input is bad, or the input is too long.
    InvalidInput,
    /// A disk has no valid store, or isn't empty where a store is to be made.
    InvalidStore,
    /// The source's log lacks what the session requires.
    LogGone,
    /// A record has a longer value than the session's receiver accepts.
    RecordRefused,
}

impl Status {
    /// The program's exit status.
    pub fn code(self) -> u8
        ensures { result ≡ code_of self }
    {
        match self {
            Status::Done => 0,
            Status::InvalidArguments => 2,
            Status::BudgetSpent => 3,
            Status::StartMismatch => 4,
            Status::MalformedLog => 5,
            Status::Unsupported => 6,
            Status::SourceFailed => 7,
            Status::TopicsFailed => 8,
            Status::OffsetsFailed => 9,
            Status::StdinFailed => 10,
            Status::StdoutFailed => 11,
            Status::OutOfMemory => 12,
            Status::InvalidInput => 13,
            Status::InvalidStore => 14,
            Status::LogGone => 15,
            Status::RecordRefused => 17,
        }
    }
}
