use crate::command_fault::CommandFault;
use crate::place::Place;
use crate::status::Status;
use host_devices::LineFault;
use load_record::RecordError;
use tape_blocks::Fault;
use tape_making::Refusal;

/// Why the program did not do what it was asked, in the words of its line on standard error.
#[derive(Clone, Copy)]
pub enum Failure<'a> {
    /// The file of this name, or standard input, can't be opened or read.
    CannotRead(&'a str),

    /// Standard output can't be written.
    CannotWrite,

    /// The record's file of this name can't be written.
    CannotWriteFile(&'a str),

    /// There is a file of this name already, which is as it was.
    FileIsThere(&'a str),

    /// What a save read that did not come to its end is beside the file of this name: its name has `.part` more.
    PartIsThere(&'a str),

    /// What is there under the name of what a save left, beside the file of this name, is nothing that a save of these
    /// words left.
    PartNotOfSave(&'a str),

    /// Memory does not hold what a save left beside the file of this name.
    PartStale(&'a str),

    /// Another load holds the record's file of this name.
    RecordInUse(&'a str),

    /// The console at this HOST:PORT or device can't be reached.
    CannotConnect(&'a str),

    /// The line failed so during a load, a look, a probe or a test, before a start was typed.
    LineFailed(LineFault),

    /// The line failed so once the start was typed or may have been: the program may be running.
    StartInDoubt(LineFault),

    /// The only tape is refused.
    TapeRefused(Fault),

    /// One of several tapes is refused: its number, from 1, and what is wrong with it.
    OneTapeRefused(usize, Fault),

    /// The script is refused at this line.
    ScriptRefused(u32),

    /// The octal words are refused at this line, for this reason.
    WordsRefused(Refusal),

    /// The record is none of this tape's load.
    RecordRefused(RecordError),

    /// Memory does not hold a word that the record has.
    RecordStale,

    /// The machine is larger than an LSI-11's memory.
    TooLarge,

    /// What has this name can't be what its place on the command line asks for.
    Misplaced(&'a str, Place),

    /// A word of the command line is no text, so it names nothing.
    BadWord,

    /// A growth of memory was refused.
    NoMemory,
}

impl<'a> Failure<'a> {
    ghost use Rattle.std.specs.Prelude.{◌≡◌, ◌-◌, slice_get};
    ghost use Rattle.endings.specs.Failure.{status_of, IsFailureOf, NamesTape};

    /// The failure that a command's fault is, where its tapes and its script have these names. A tape
    /// that has no name is standard input's.
    pub fn of(fault: CommandFault, tapes: &[&'a str], script: &'a str) -> Failure<'a>
        ensures { IsFailureOf fault tapes.now script.entry.now result }
    {
        match fault {
            CommandFault::Tape(number, fault) => {
                if tapes.len() > 1 {
                    Failure::OneTapeRefused(number, fault)
                } else {
                    Failure::TapeRefused(fault)
                }
            }
            CommandFault::Script(line) => Failure::ScriptRefused(line),
            CommandFault::TooLarge => Failure::TooLarge,
            CommandFault::ReadTape(number) => Failure::unread_tape(number, tapes),
            CommandFault::ReadScript => Failure::CannotRead(script),
            CommandFault::ReadKeys => Failure::CannotRead(STANDARD_INPUT),
            CommandFault::Write => Failure::CannotWrite,
            CommandFault::Memory => Failure::NoMemory,
        }
    }

    // The failure that the tape of this number, from 1, can't be read: standard input's, where no
    // tape has a name.
    fn unread_tape(number: usize, tapes: &[&'a str]) -> Failure<'a>
        ensures { NamesTape (slice_get tapes.now (number - 1)) result }
    {
        match tapes.get(number.saturating_sub(1)) {
            Some(name) => Failure::CannotRead(name),
            None => Failure::CannotRead(STANDARD_INPUT),
        }
    }

    /// The exit status that tells of this failure.
    pub(crate) fn status(&self) -> Status
        ensures { result ≡ status_of self.now }
    {
        match self {
            Failure::CannotRead(_)
            | Failure::CannotWrite
            | Failure::CannotWriteFile(_)
            | Failure::FileIsThere(_)
            | Failure::PartIsThere(_)
            | Failure::RecordInUse(_)
            | Failure::CannotConnect(_)
            | Failure::LineFailed(_)
            | Failure::StartInDoubt(_) => Status::DeviceFailed,
            Failure::TapeRefused(_)
            | Failure::OneTapeRefused(..)
            | Failure::ScriptRefused(_)
            | Failure::WordsRefused(_)
            | Failure::PartNotOfSave(_)
            | Failure::RecordRefused(_) => Status::Refused,
            Failure::PartStale(_) | Failure::RecordStale => Status::NotLoaded,
            Failure::TooLarge | Failure::BadWord | Failure::Misplaced(..) => Status::BadCommandLine,
            Failure::NoMemory => Status::NoMemory,
        }
    }
}

/// What standard input is called in place of a file's name.
pub const STANDARD_INPUT: &str = "standard input";
