use crate::machine::{Load, Look, MemoryTest, Probe, Save};
use crate::options::CheckOptions;
use odt_machine::Style;
use tape_image::Start;

/// What the words after the program's name ask for.
///
/// Tapes are named in the order in which they are joined, the first before all others; the name `-`, alone,
/// is standard input.
#[derive(Drop)]
pub enum Request<'a> {
    /// What is about tapes, and no machine.
    Tape(TapeRequest<'a>),

    /// What is done at a real machine.
    Machine(MachineRequest<'a>),
}

impl Request<'_> {
    ghost use Rattle.std.specs.Prelude.{◌≡◌};
    ghost use Rattle.request_values.specs.Request.{only_prints};

    /// Whether it does nothing but print.
    pub fn only_prints(&self) -> bool
        ensures { result ≡ only_prints self.now }
    {
        match self {
            Request::Tape(TapeRequest::Print(_)) => true,
            Request::Tape(TapeRequest::Make(_)) | Request::Machine(_) => false,
        }
    }
}

/// What is asked of tapes alone.
#[derive(Drop)]
pub enum TapeRequest<'a> {
    /// What does nothing but print.
    Print(PrintRequest<'a>),

    /// A tape is made of octal words: it writes a new file.
    Make(Make<'a>),
}

/// What is asked of tapes, and answered by what is printed.
#[derive(Drop)]
pub enum PrintRequest<'a> {
    /// Check the tape on standard input: there were no words.
    CheckInput,

    /// Check the tapes in some files.
    Check(Vec<&'a str>, CheckOptions),

    /// Show the load of tapes, as one, into a simulated console.
    Dialogue(Vec<&'a str>, Stage),

    /// Rehearse the load of tapes by a script.
    Rehearse(Rehearsal<'a>),

    /// Type standard input into a simulated console.
    Type(Console),
}

/// What is asked of a real machine.
#[derive(Drop)]
pub enum MachineRequest<'a> {
    /// Load tapes, as one.
    Load(Vec<&'a str>, Load<'a>),

    /// Look whether the machine holds what tapes, as one, say.
    Verify(Vec<&'a str>, Look<'a>),

    /// Save words of the machine as a tape, in a file which is not there yet.
    Save(Save<'a>),

    /// Find out what stands at the other end of a line, and whether it may be trusted.
    Probe(Probe<'a>),

    /// Test memory: every word that is tested is turned over and put back.
    Memory(MemoryTest<'a>),
}

/// A tape that is made of octal words.
#[derive(Clone, Copy)]
pub struct Make<'a> {
    /// The new tape's file, which is not there yet.
    pub file: &'a str,

    /// The file of the words; `-` is standard input.
    pub words: &'a str,

    /// The start address of the tape; an odd one starts nothing.
    pub start: u16,
}

/// A simulated console: how many words its machine has, and how it answers.
#[derive(Clone, Copy)]
pub struct Console {
    /// The words of the machine, 0 to 28,672.
    pub words: u16,

    /// What its answers look like.
    pub style: Style,
}

/// What a load is shown on.
#[derive(Clone, Copy)]
pub struct Stage {
    /// The simulated console.
    pub console: Console,

    /// The start in place of the tapes'.
    pub start: Start,
}

/// A rehearsal of the load of tapes, as one.
#[derive(Drop)]
pub struct Rehearsal<'a> {
    /// The first tape's file.
    pub tape: &'a str,

    /// The script's file.
    pub script: &'a str,

    /// The files of further tapes.
    pub more: Vec<&'a str>,
}
