//! How long the looks at words take.
ghost use Rattle.std.specs.Prelude.{◌≡◌};
ghost use Rattle.machine_probe.specs.Stopwatch.{mean};

use host_core::Heard;
use host_core::console::PROMPT;
use probe_report::Pace;

// The keys of a look: the six digits of an address, `/` and CR.
const KEYS: u64 = 8;

/// What was timed so far, in microseconds. Counts and sums stay at their largest.
///
/// A look is timed from its first digit to the prompt behind its CR, and each of its keys to the first
/// character heard behind it. It counts whole or not at all: only with eight keys, each of them
/// answered, and no silence. So the quiet times, what a mishap costs, the trial and a word that is typed
/// are in no mean, nor is a look at which the clock failed.
#[derive(Clone, Copy)]
pub(crate) struct Stopwatch {
    looks: u64,

    // How long these looks took together.
    look_time: u64,

    // Their keys.
    keys: u64,

    // How long these keys waited together.
    key_time: u64,

    // The look under way, where one is timed.
    look: Option<TimedLook>,
}

impl Stopwatch {
    /// Nothing was timed.
    pub(crate) fn new() -> Stopwatch {
        Stopwatch {
            looks: 0,
            look_time: 0,
            keys: 0,
            key_time: 0,
            look: None,
        }
    }

    /// A key was sent at this time, where the clock had one. A digit begins a look where none is timed.
    pub(crate) fn with_key(self, key: u8, time: Option<u64>) -> Stopwatch {
        let look = match (self.look, time) {
            (Some(look), Some(time)) => look.with_key(time),
            (None, Some(time)) if is_digit(key) => Some(TimedLook::begun(time)),
            _ => None,
        };
        Stopwatch { look, ..self }
    }

    /// This was heard at this time, where the clock had one. A prompt ends the look that is timed, and
    /// after a silence it is timed no more.
    pub(crate) fn with_heard(self, heard: Heard, time: Option<u64>) -> Stopwatch {
        match (heard, self.look, time) {
            (Heard::Got(c), Some(look), Some(time)) => self.with_answer(
                look.answered(time),
                c,
                time,
            ),
            _ => Stopwatch { look: None, ..self },
        }
    }

    // This character was heard, and the look that is timed became this one.
    fn with_answer(self, look: Option<TimedLook>, c: u8, time: u64) -> Stopwatch {
        match look {
            Some(look) if c == PROMPT => self.with_look(look, time),
            _ => Stopwatch { look, ..self },
        }
    }

    // The look came to the prompt at this time.
    fn with_look(self, look: TimedLook, time: u64) -> Stopwatch {
        match time.checked_sub(look.begun) {
            Some(taken) if look.keys == KEYS => Stopwatch {
                looks: self.looks.saturating_add(1),
                look_time: self.look_time.saturating_add(taken),
                keys: self.keys.saturating_add(KEYS),
                key_time: self.key_time.saturating_add(look.key_time),
                look: None,
            },
            _ => Stopwatch { look: None, ..self },
        }
    }

    /// The mean times of a key and of a look, where a look was timed.
    pub(crate) fn pace(self) -> Pace
        ensures key { result.key ≡ mean self.key_time self.keys }
        ensures look { result.look ≡ mean self.look_time self.looks }
    {
        Pace {
            key: mean(self.key_time, self.keys),
            look: mean(self.look_time, self.looks),
        }
    }
}

// A look that is timed.
#[derive(Clone, Copy)]
struct TimedLook {
    begun: u64,
    keys: u64,

    // How long the keys waited that were answered.
    key_time: u64,

    // When the last key was sent, where it was not answered yet.
    waiting: Option<u64>,
}

impl TimedLook {
    // A look whose first key was sent at this time.
    fn begun(time: u64) -> TimedLook {
        TimedLook {
            begun: time,
            keys: 1,
            key_time: 0,
            waiting: Some(time),
        }
    }

    // The next key was sent; none where the one before it was not answered.
    fn with_key(self, time: u64) -> Option<TimedLook> {
        match self.waiting {
            None => Some(TimedLook {
                keys: self.keys.saturating_add(1),
                waiting: Some(time),
                ..self
            }),
            Some(_) => None,
        }
    }

    // A character was heard, the first behind a key or a further one; none where the clock went back.
    fn answered(self, time: u64) -> Option<TimedLook> {
        let Some(sent) = self.waiting else {
            return Some(self);
        };
        let waited = time.checked_sub(sent)?;
        Some(TimedLook {
            key_time: self.key_time.saturating_add(waited),
            waiting: None,
            ..self
        })
    }
}

fn is_digit(key: u8) -> bool {
    (b'0'..=b'7').contains(&key)
}

// The mean of so many times with this sum; none of no times, or where it has no room.
fn mean(sum: u64, count: u64) -> Option<u32>
    ensures { result ≡ mean sum count }
{
    u32::try_from(sum.checked_div(count)?).ok()
}
