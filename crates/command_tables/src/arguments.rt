//! The arguments and options of the commands.
//!
//! Options have no default here: who reads one that is not given takes what is meant then.

use crate::names;
use odt_machine::{LARGEST_STYLE, LARGEST_WORDS};

/// An argument or an option.
pub struct Argument {
    /// What it is called: an argument as help shows it, an option as it is typed.
    pub name: &'static str,

    /// What is given with it, and when.
    pub form: Form,

    /// What help says of it.
    pub help: &'static str,
}

/// What is given with an argument or an option, and when it may stand there. An option's value is called by
/// the first text that its form has.
pub enum Form {
    /// An argument that has to be there.
    Required,

    /// An argument that may be there.
    Optional,

    /// An argument that may be there, and then needs that of this name.
    OptionalBeside(&'static str),

    /// An argument that may be there any number of times.
    Further,

    /// An option with a text.
    Text(&'static str),

    /// An option with a number, the least and the greatest that it may be.
    Number(&'static str, u16, u16),

    /// An option with a number that may be 0 to this one.
    Digit(&'static str, u8),

    /// The same, to one that may be larger.
    LongNumber(&'static str, u32),

    /// An option without a value.
    Flag,

    /// An option without a value, which needs that of this name.
    FlagBeside(&'static str),

    /// An option without a value, which can't stand beside that of this name.
    FlagWithout(&'static str),
}

pub(crate) const TAPE: Argument = Argument {
    name: names::TAPE,
    form: Form::Required,
    help: "The tape's file, or - for standard input",
};

pub(crate) const LINE: Argument = Argument {
    name: names::LINE,
    form: Form::Required,
    help: "Where the console is: HOST:PORT, or the path of a serial\ndevice, which has a '/'",
};

pub(crate) const MORE: Argument = Argument {
    name: names::MORE,
    form: Form::Further,
    help: "Further tapes, taken as one with the first",
};

pub(crate) const SCRIPT: Argument = Argument {
    name: names::SCRIPT,
    form: Form::Required,
    help: "The script's file",
};

pub(crate) const FILE: Argument = Argument {
    name: names::FILE,
    form: Form::Required,
    help: "The new tape's file, which is not there yet",
};

pub(crate) const OCTAL_WORDS: Argument = Argument {
    name: names::OCTAL_WORDS,
    form: Form::Optional,
    help: "The file of the octal words, or - for standard input\n[default: -]",
};

pub(crate) const BLOCKS: Argument = Argument {
    name: names::BLOCKS,
    form: Form::Flag,
    help: "List the blocks, too: where each begins in its file,\nits addresses and its bytes",
};

pub(crate) const FROM: Argument = Argument {
    name: names::FROM,
    form: Form::Required,
    help: "The first word's address: octal, even, below 160000",
};

pub(crate) const TO: Argument = Argument {
    name: names::TO,
    form: Form::Required,
    help: "The last word's address, not below the first",
};

pub(crate) const FIRST_TESTED: Argument = Argument {
    name: names::FROM,
    form: Form::OptionalBeside(names::TO),
    help: "The first word's address: octal, even, below 160000\n[default: 000000]",
};

pub(crate) const LAST_TESTED: Argument = Argument {
    name: names::TO,
    form: Form::Optional,
    help: "The last word's address, not below the first\n[default: 157776]",
};

pub(crate) const WORDS: Argument = Argument {
    name: names::WORDS,
    form: Form::Number("N", 0, LARGEST_WORDS),
    help: "Words of the machine's memory, 0 to 28672\n[default: 28672]",
};

pub(crate) const STYLE: Argument = Argument {
    name: names::STYLE,
    form: Form::Digit("N", LARGEST_STYLE),
    help: "\
How the console answers, 0 to 7 [default: 0]: 1 for a
space before a word's digits, plus 2 for two CRs before
an LF, plus 4 for an echo of illegal keys",
};

pub(crate) const RECORD: Argument = Argument {
    name: names::RECORD,
    form: Form::Text("FILE"),
    help: "\
Where the verified words are kept, for a later load
to go on from them; a file that is not there is an
empty record [default: kept in memory alone]",
};

pub(crate) const RECHECK: Argument = Argument {
    name: names::RECHECK,
    form: Form::FlagBeside(names::RECORD),
    help: "Look at every word again: of the record only a typed\nstart counts",
};

pub(crate) const FAST: Argument = Argument {
    name: names::FAST,
    form: Form::Flag,
    help: "\
Type in a small program first that takes the words as
bytes: some 8 times as quick, from 300 words on",
};

pub(crate) const CAREFUL: Argument = Argument {
    name: names::CAREFUL,
    form: Form::Flag,
    help: "Look at every word twice",
};

/// The same for a load, which says what it is good for.
pub(crate) const CAREFUL_LOAD: Argument = Argument {
    help: "Bear a changed bit now and then, too",
    ..CAREFUL
};

pub(crate) const ONCE: Argument = Argument {
    name: names::ONCE,
    form: Form::Flag,
    help: "Look at every word only once",
};

pub(crate) const START: Argument = Argument {
    name: names::START,
    form: Form::Text("AAAAAA"),
    help: "Start the program at this address in place of the\ntapes': octal, even",
};

pub(crate) const SAVED_START: Argument = Argument {
    name: names::START,
    form: Form::Text("AAAAAA"),
    help: "The tape's start address, octal; an odd one starts\nnothing [default: 000001]",
};

pub(crate) const NO_START: Argument = Argument {
    name: names::NO_START,
    form: Form::FlagWithout(names::START),
    help: "Load all words and start nothing",
};

// The seconds go as far as two bytes do.
pub(crate) const LISTEN: Argument = Argument {
    name: names::LISTEN,
    form: Form::Number("SECONDS", 1, 65_535),
    help: "\
Print what the machine says once its program was
started or may have been, until it is silent for so
long, 1 to 65535 [default: not at all]",
};

pub(crate) const ADDRESS: Argument = Argument {
    name: names::ADDRESS,
    form: Form::Text("AAAAAA"),
    help: "The word that is tried: octal, even, below 160000\n[default: 001000]",
};

// No more words than there may be.
pub(crate) const EVERY: Argument = Argument {
    name: names::EVERY,
    form: Form::Number("N", 1, LARGEST_WORDS),
    help: "\
Test one word of so many, 1 to 28672 [default: 64, and
1 where FROM and TO are given]",
};

pub(crate) const PATIENCE: Argument = Argument {
    name: names::PATIENCE,
    form: Form::Number("N", 0, 1000),
    help: "\
How many answers may not come or not fit, in each
part of the run, 0 to 1000 [default: 8]",
};

// What is read of a machine stays as it is, however often that is tried: over a bad line all of it wants many.
pub(crate) const LONG_PATIENCE: Argument = Argument {
    name: names::PATIENCE,
    form: Form::LongNumber("N", 100_000),
    help: "\
How many answers may not come or not fit, 0 to
100000 [default: 8]",
};

pub(crate) const QUIET: Argument = Argument {
    name: names::QUIET,
    form: Form::Number("MS", 1, 60_000),
    help: "\
How many milliseconds of silence mean that nothing
more is coming, 1 to 60000 [default: 2000]",
};

pub(crate) const LOG: Argument = Argument {
    name: names::LOG,
    form: Form::Flag,
    help: "Say at the very end, on standard error, when the run\nended and how: one line, for a log; none at Ctrl-C",
};
