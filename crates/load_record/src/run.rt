ghost use Rattle.std.specs.Prelude.{◌≡◌, ◌+◌, IsTrue};
ghost use Rattle.load_record.specs.Lines.{goes_on, is_full, longer, run_at};

use tape_image::{BOTH_BYTES, Word};

// The most words of a run line.
const LONGEST_RUN: u8 = 16;

/// The run line that stands open at a record's end: full words at consecutive addresses.
#[derive(Clone, Copy)]
pub(crate) struct OpenRun {
    /// The address after that of its last word.
    pub(crate) next: u16,

    /// How many words it has.
    pub(crate) count: u8,
}

impl OpenRun {
    /// A run line that begins at the address, with no word yet.
    pub(crate) fn at(address: u16) -> OpenRun
        ensures { result ≡ run_at address }
    {
        OpenRun {
            next: address,
            count: 0,
        }
    }

    /// Whether the word can be added to the line: it is full, it lies at the next address, and the
    /// line has fewer than 16 words.
    pub(crate) fn goes_on(self, word: Word) -> bool
        ensures { result ≡ goes_on self word }
    {
        word.address() == self.next && self.count < LONGEST_RUN && is_full(word)
    }

    /// The line with this word added.
    pub(crate) fn with(self, word: Word) -> OpenRun
        requires { IsTrue (goes_on self word) }
        ensures { result ≡ longer self }
    {
        OpenRun {
            next: word.address() + 2,
            count: self.count + 1,
        }
    }
}

/// Whether the tape has both bytes of the word.
pub(crate) fn is_full(word: Word) -> bool
    ensures { result ≡ is_full word }
{
    word.mask() == BOTH_BYTES
}
