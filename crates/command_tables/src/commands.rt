//! A command, and what help says of the program.
//!
//! Lines of help have less than 80 columns.

use crate::arguments::Argument;

/// A command, and what help says of it.
#[derive(Clone, Copy)]
pub struct KnownCommand {
    /// What is typed.
    pub word: &'static str,

    /// What the list of commands says of it.
    pub about: &'static str,

    /// Its arguments and options, as help lists them.
    pub arguments: &'static [Argument],

    /// What help says behind them.
    pub help: &'static str,
}

/// What help says of the program behind its commands.
pub const PROGRAM_HELP: &str = "\
With no command the tape on standard input is checked. A tape that is alone may
be named -, which is standard input. Several tapes are taken as one, in their
order: where two have a byte for one address the later tape's counts, and the
start is that of the last tape alone.

Exit status:
  0  done; help was asked for
  1  verify found words that differ, or memory such as do not hold
  2  the command line was refused
  3  a tape, words, a script or a record was refused
  4  a file could not be read or something not be written, the file of a new
     tape is there already, a record is another load's at the time, there was
     no connection, or the line failed
  5  a load, verify, save, probe or memory ended GaveUp, NoWord, WontHold,
     Stale, Changed, TurnsOver, NoPrompt or NotTrusted
  6  a load ended Uncertain or MaybeStarted: the program may be running
  7  no memory left
Each fault but a refused command line is one line on standard error; another
one behind it says why, where the system or the line did, and a last one where
the start is in doubt.

Example, the tape on standard input:
  ldaodt < first.lda

'ldaodt COMMAND --help' has a command's options and an example. The manual page
ldaodt(1) says it whole; docs/SCRIPTS.md describes the scripts of rehearse.";
