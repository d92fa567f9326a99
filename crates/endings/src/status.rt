use host_core::End;

/// How the program ended, as its exit status says.
#[derive(Clone, Copy)]
pub enum Status {
    /// The command was done, or help was asked for.
    Done,

    /// Memory differs from what `verify` was given, or does not hold what is deposited.
    Differs,

    /// The command line was refused.
    BadCommandLine,

    /// A tape, octal words, the script or the record was refused.
    Refused,

    /// A file, standard input or standard output failed, no connection was made, or the line of a load
    /// or its record failed.
    DeviceFailed,

    /// The host gave up, a word was not there or did not hold, memory does not hold what a record says, or the
    /// turns were over with no end; or a console has no prompt or is not to be trusted.
    NotLoaded,

    /// The load may have started the program, or not.
    Uncertain,

    /// A growth of memory was refused.
    NoMemory,
}

impl Status {
    ghost use Rattle.std.specs.Prelude.{◌≡◌};
    ghost use Rattle.endings.specs.Status.{end_status, status_code};

    /// The status after a load that ended so.
    pub fn of_end(end: End) -> Status
        ensures { result ≡ end_status end }
    {
        match end {
            End::Loaded | End::Started => Status::Done,
            End::GaveUp | End::NoWord(_) | End::WontHold(_) => Status::NotLoaded,
            End::Uncertain | End::MaybeStarted => Status::Uncertain,
        }
    }

    /// The number that the process ends with.
    pub fn code(self) -> u8
        ensures { result ≡ status_code self }
    {
        match self {
            Status::Done => 0,
            Status::Differs => 1,
            Status::BadCommandLine => 2,
            Status::Refused => 3,
            Status::DeviceFailed => 4,
            Status::NotLoaded => 5,
            Status::Uncertain => 6,
            Status::NoMemory => 7,
        }
    }
}
