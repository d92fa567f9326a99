//! What is heard of a line that does not fall silent.

use crate::pace::time_between;
use host_core::Heard;
use std::fmt;

// How many of the last characters are shown.
const SHOWN: usize = 24;

// What stands for a character that no terminal shows.
const UNSHOWN: u8 = b'.';

// For how long a line may be listened to before that is told, in milliseconds.
const LONG: u64 = 10_000;

/// What is heard while a line is listened to until it is silent.
#[derive(Clone, Copy)]
pub(crate) struct Overheard {
    // When the first character came, in milliseconds of the clock, and how long ago that is.
    since: Option<u64>,
    lasting: u64,

    // How many characters came, and the last of them.
    count: usize,
    last: [u8; SHOWN],
}

impl Overheard {
    /// Nothing was heard.
    pub(crate) const NOTHING: Overheard = Overheard {
        since: None,
        lasting: 0,
        count: 0,
        last: [0; SHOWN],
    };

    /// One thing more was heard, at a time in milliseconds of the clock. A silence is the end of it.
    pub(crate) fn hear(&mut self, heard: Heard, now: Option<u64>) {
        match heard {
            Heard::Got(character) => self.hear_character(character, now),
            Heard::Quiet => *self = Overheard::NOTHING,
        }
    }

    // A character more was heard.
    fn hear_character(&mut self, character: u8, now: Option<u64>) {
        self.since = self.since.or(now);
        self.lasting = time_between(self.since, now);
        self.last[self.count % SHOWN] = shown(character);
        self.count = self.count.wrapping_add(1);
    }

    /// Whether it has lasted so long that a person wants to know what it is.
    pub(crate) fn is_long(&self) -> bool {
        self.lasting >= LONG
    }
}

// The last characters, in their order.
impl fmt::Display for Overheard {
    fn fmt<W: fmt::Write>(&self, f: &mut fmt::Formatter<W>) -> fmt::Result {
        for place in self.count.saturating_sub(SHOWN)..self.count {
            f.write_char(char::from(self.last[place % SHOWN]))?;
        }
        Ok(())
    }
}

// A character as it is shown.
fn shown(character: u8) -> u8 {
    match character & 0o177 {
        seen @ b' '..=b'~' => seen,
        _ => UNSHOWN,
    }
}
