//! What a host typed into a word last, and what it read of one.

use host_core::Heard;
use host_core::console::{CARRIAGE_RETURN, SLASH};
use host_devices::Sight;
use octal::with_digit;

/// The last numbers of a dialogue with a console. Where a host has read a word that does not hold what it deposited,
/// these are that: the last CR stood behind the deposit, and nothing was typed since the `/` of the look.
#[derive(Clone, Copy)]
pub struct LastWord {
    // The number that was typed since the last `/`.
    typed: u16,

    /// The number that stood typed at the last CR.
    pub given: u16,

    /// The number that was heard since the last key.
    pub read: u16,
}

/// Nothing was typed or heard yet.
pub(crate) const NOTHING_SAID: LastWord = LastWord {
    typed: 0,
    given: 0,
    read: 0,
};

impl LastWord {
    /// The host has taken a step.
    pub(crate) fn see(&mut self, sight: Sight) {
        match (sight.key, sight.heard) {
            (Some(key), _) => self.see_key(key),
            (None, Heard::Got(character)) => self.read = followed(self.read, character),
            (None, Heard::Quiet) => {}
        }
    }

    // The host has typed a key.
    fn see_key(&mut self, key: u8) {
        self.read = 0;
        match key {
            CARRIAGE_RETURN => self.given = self.typed,
            SLASH => self.typed = 0,
            _ => self.typed = followed(self.typed, key),
        }
    }
}

// A number with a character behind it, where that is a digit.
fn followed(number: u16, character: u8) -> u16 {
    with_digit(number, character).unwrap_or(number)
}
