ghost use Rattle.std.specs.Prelude.{◌≡◌, ◌≤◌, length};
ghost use Rattle.memory_report.specs.Bus.{bus_of, is_same, same_words};
ghost use Rattle.memory_report.specs.Report.{found_of, is_good};
ghost use Rattle.memory_report.specs.Words.{all_hold, is_bad};

use crate::bank::count_bad;
use crate::bus_text::count_same;
use crate::test_end::TestEnd;
use memory_core::{Borrowed, Readings, Seen};

/// A word that was tested, or that read differently with nothing deposited.
#[derive(Clone, Copy)]
pub struct Word {
    /// Its address.
    pub address: u16,

    /// What was read of it.
    pub seen: Seen,
}

impl Word {
    /// Whether it did not hold what it was given.
    pub fn is_bad(self) -> bool
        ensures { result ≡ is_bad self }
    {
        match self.seen {
            Seen::Unsteady(_, _) => true,
            Seen::Tested(Readings { old, turned, back }) => {
                turned != u16::MAX.saturating_sub(old) || back != old
            }
        }
    }
}

/// What was found of a bus at one word that holds: whether its data lines touch, and which words its address lines do not
/// tell from it.
#[derive(Drop)]
pub struct Bus {
    /// The word at which it was tested, if it was.
    pub at: Option<u16>,

    /// Whether a number would not stand there though each of its bits can, by itself.
    pub touches: bool,

    /// How many words were looked at while that word held a mark, each one address line away.
    pub looked_at: u32,

    /// Those that read the mark.
    pub marked: Vec<u16>,

    /// Those that read what the word had held before, once that was put back.
    pub returned: Vec<u16>,
}

/// What a test of memory found.
#[derive(Drop)]
pub struct Findings {
    /// The first address that was asked for.
    pub from: u16,

    /// The last one, not below the first.
    pub to: u16,

    /// The words that count, in the order of their addresses.
    pub words: Vec<Word>,

    /// The addresses at which nothing answered: at each of them the rest of its bank was left out.
    pub gaps: Vec<u16>,

    /// What was found of the bus.
    pub bus: Bus,

    /// The word under way at the end and what it held, where it may hold another number now.
    pub borrowed: Option<Borrowed>,

    /// How it ended.
    pub end: TestEnd,
}

impl Findings {
    /// Whether each tested word holds what it was given, no data lines touch, and no two words are one.
    pub fn is_good(&self) -> bool
        ensures { result ≡ is_good (found_of self.now) }
    {
        count_bad(&self.words) == 0 && !self.bus.touches && count_same(&self.bus) == 0
    }
}
