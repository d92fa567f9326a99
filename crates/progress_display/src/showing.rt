//! The texts of the progress line.

use octal::Octal;
use std::fmt;

/// A word of memory that is tested: for a while it holds another number than it did.
#[derive(Clone, Copy)]
pub struct TestedWord {
    /// Its address.
    pub address: u16,

    /// What it held before.
    pub held: u16,
}

/// Where it is kept what was done, so that it need not be done again after a break.
#[derive(Clone, Copy, PartialEq, Eq)]
pub enum KeptIn {
    /// Nowhere.
    Nothing,

    /// In the record of a load.
    Record,

    /// In the file beside a new tape.
    Part,
}

impl KeptIn {
    /// What is to be done where memory has not kept what was done before: only the person knows whether it has.
    pub(crate) fn remedy(self) -> &'static str {
        match self {
            KeptIn::Nothing => "",
            KeptIn::Record => "; power lost? use --recheck",
            KeptIn::Part => "; power lost? remove the .part file",
        }
    }
}

/// How far it is, as it is shown: `12 of 28 words, 42%, 1 mishap, 0:31 left`, and before that the word that is
/// tested, which a narrow terminal must not cut: `testing 001000, it held 000123: `.
#[derive(Clone, Copy)]
pub struct Showing {
    /// The word that is tested, where one is.
    pub word: Option<TestedWord>,

    /// How many words are done.
    pub done: u32,

    /// How many there are.
    pub words: u32,

    /// Whether the line has to be silent first, and is listened to until it is.
    pub is_listening: bool,

    /// Whether a stub is typed in.
    pub is_stub: bool,

    /// How many mishaps there were.
    pub mishaps: u32,

    /// How many seconds it will take at the pace so far, once there is one.
    pub seconds_left: Option<u64>,
}

impl Showing {
    // The word that is tested, where one is.
    fn put_word<W: fmt::Write>(&self, f: &mut fmt::Formatter<W>) -> fmt::Result {
        let Some(word) = self.word else {
            return Ok(());
        };
        let (address, held) = (Octal(word.address), Octal(word.held));
        write!(f, "testing {address}, it held {held}: ")
    }

    // How many words are done, of how many, which part of all that is, where there are any (rounded down, so that 100
    // means all), and what is done meanwhile.
    fn put_counts<W: fmt::Write>(&self, f: &mut fmt::Formatter<W>) -> fmt::Result {
        let (done, words, doing) = (self.done, self.words, self.doing());
        match (100 * u64::from(done)).checked_div(u64::from(words)) {
            Some(percent) => write!(f, "{done} of {words} words, {percent}%{doing}"),
            None => write!(f, "{done} of {words} words{doing}"),
        }
    }

    // That a stub is typed in, or that the line is listened to until it is silent, where that is so.
    fn doing(&self) -> &'static str {
        if self.is_stub {
            ", stub"
        } else if self.is_listening {
            ", listening"
        } else {
            ""
        }
    }

    // The mishaps, where there were any.
    fn put_mishaps<W: fmt::Write>(&self, f: &mut fmt::Formatter<W>) -> fmt::Result {
        match self.mishaps {
            0 => Ok(()),
            1 => f.write_str(", 1 mishap"),
            mishaps => write!(f, ", {mishaps} mishaps"),
        }
    }

    // The time left, where it is known: minutes and seconds, and hours where there are any.
    fn put_time_left<W: fmt::Write>(&self, f: &mut fmt::Formatter<W>) -> fmt::Result {
        let Some(left) = self.seconds_left else {
            return Ok(());
        };
        let (hours, minutes, seconds) = (left / 3600, left / 60 % 60, left % 60);
        if hours == 0 {
            write!(f, ", {minutes}:{seconds:02} left")
        } else {
            write!(f, ", {hours}:{minutes:02}:{seconds:02} left")
        }
    }
}

impl fmt::Display for Showing {
    fn fmt<W: fmt::Write>(&self, f: &mut fmt::Formatter<W>) -> fmt::Result {
        self.put_word(f)?;
        self.put_counts(f)?;
        self.put_mishaps(f)?;
        self.put_time_left(f)
    }
}
