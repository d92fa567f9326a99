/// What the place of a word on the command line asks for, where its file can't be that.
///
/// A line to the console is a serial device; a tape, a script, octal words and a record are no terminal, which would have to be
/// typed. The first four are the line of a command, whose order of words is told.
#[derive(Clone, Copy)]
pub enum Place {
    /// The line of `load`.
    LineOfLoad,

    /// The line of `verify`.
    LineOfVerify,

    /// The line of `save`.
    LineOfSave,

    /// The line of `probe`.
    LineOfProbe,

    /// The line of `memory`.
    LineOfMemory,

    /// A tape.
    Tape,

    /// A script.
    Script,

    /// Octal words.
    Words,

    /// A record.
    Record,
}
