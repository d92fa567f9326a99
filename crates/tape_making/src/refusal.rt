use std::alloc::{AllocError, AllocFailed};

/// Why a line of words is refused, or the whole text.
#[derive(Clone, Copy)]
pub enum WordsWhy {
    /// Something on the line is no octal number of one to six digits, or is above 177777, or a slash
    /// stands elsewhere than behind the address.
    BadNumber,

    /// An address with no word.
    NoWords,

    /// The address is odd.
    OddAddress,

    /// The address is 160000 (octal) or above, or a word of the line would be.
    PastTop,

    /// The text has more than 4,194,304 bytes (this project's choice): at line 0.
    TooLong,
}

impl WordsWhy {
    ghost use Rattle.std.specs.Prelude.{◌≡◌, ◌≤◌, length};
    ghost use Rattle.tape_making.specs.Refusal.{why_text};

    /// Its name, as it is printed.
    pub fn name(self) -> &'static str
        ensures value { result.now ≡ why_text self }
        ensures short { length result.now ≤ 10 }
    {
        match self {
            WordsWhy::BadNumber => "BadNumber",
            WordsWhy::NoWords => "NoWords",
            WordsWhy::OddAddress => "OddAddress",
            WordsWhy::PastTop => "PastTop",
            WordsWhy::TooLong => "TooLong",
        }
    }
}

/// Which line of words is refused, and why.
#[derive(Clone, Copy)]
pub struct Refusal {
    /// The line's number, from 1; 0 is a text that is too long.
    pub line: usize,

    /// The reason.
    pub why: WordsWhy,
}

/// What is said of words that are refused, before the line's number.
pub const REFUSED_WORDS: &str = "words refused at line ";

/// Why a text was not read as words.
#[derive(Clone, Copy)]
pub enum WordsFault {
    /// It is refused.
    Refused(Refusal),

    /// A growth of memory was refused.
    Memory,
}

impl From<AllocError> for WordsFault {
    ghost use Rattle.std.specs.Prelude.{◌≡◌};
    ghost use Rattle.tape_making.specs.declared.refusal.WordsFault.TheVariants.{Memory};

    ghost from_gives = { λ _ fault. fault ≡ Memory };

    fn from(_refused: AllocError) -> WordsFault {
        WordsFault::Memory
    }
}

/// Why no row was read from a line.
#[derive(Clone, Copy)]
pub(crate) enum RowFault {
    /// It is wrong.
    Wrong(WordsWhy),

    /// A growth of memory was refused.
    Memory,
}

impl From<AllocError> for RowFault {
    ghost use Rattle.std.specs.Prelude.{◌≡◌};
    ghost use Rattle.tape_making.specs.declared.refusal.RowFault.TheVariants.{Memory};

    ghost from_gives = { λ _ fault. fault ≡ Memory };

    fn from(_refused: AllocError) -> RowFault {
        RowFault::Memory
    }
}

impl<T: Drop> From<AllocFailed<T>> for RowFault {
    ghost use Rattle.std.specs.Prelude.{◌≡◌};
    ghost use Rattle.tape_making.specs.declared.refusal.RowFault.TheVariants.{Memory};

    ghost from_gives = { λ _ fault. fault ≡ Memory };

    fn from(_refused: AllocFailed<T>) -> RowFault {
        RowFault::Memory
    }
}
