//! What is known of how far it is.

use crate::pace::{elapsed, time_between, time_left};
use crate::showing::{Showing, TestedWord};
use host_core::Heard;
use host_devices::Sight;

// More characters than these a console answers to no key.
const MOST_ANSWERED: u32 = 32;

// How many words tell a pace, and in how many milliseconds: one mishap takes two seconds.
const TELLING: u32 = 8;

const TELLING_TIME: u64 = 10_000;

// How long a pace is measured before what was earlier is forgotten, in milliseconds.
const MEASURED: u64 = 30_000;

// How many words were done at a time.
#[derive(Clone, Copy)]
struct Mark {
    done: u32,

    // In milliseconds of the clock, where the clock had one.
    time: Option<u64>,
}

// How the words come into memory.
#[derive(Clone, Copy, PartialEq, Eq)]
enum Means {
    // A key at a time, by ODT.
    ByKeys,

    // Not now: a stub is typed in.
    StubTyped,

    // By a stub.
    ByStub,
}

/// How far it is.
#[derive(Clone, Copy)]
pub(crate) struct Headway {
    words: u32,

    /// How many were done when it began.
    pub(crate) done_at_first: u32,

    /// How many are done.
    pub(crate) done: u32,

    // The word that is tested, where one is.
    word: Option<TestedWord>,

    means: Means,

    // How many were done before the first of the words that come by these means.
    done_before: u32,

    // Whether there was a key.
    has_sent: bool,

    // How many mishaps the host has met.
    mishaps: u32,

    // How many characters were heard since the last key.
    heard: u32,

    // From where the pace is measured, and from where it is next.
    from: Mark,
    next: Mark,
}

impl Headway {
    /// It begins at a time.
    pub(crate) fn new(done: u32, words: u32, time: Option<u64>) -> Headway {
        let mark = Mark { done, time };
        Headway {
            words,
            done_at_first: done,
            done,
            word: None,
            means: Means::ByKeys,
            done_before: done,
            has_sent: false,
            mishaps: 0,
            heard: 0,
            from: mark,
            next: mark,
        }
    }

    /// A word is about to be tested.
    pub(crate) fn test(&mut self, word: TestedWord) {
        self.word = Some(word);
    }

    /// A stub is about to be typed.
    pub(crate) fn type_stub(&mut self) {
        self.go_on_by(Means::StubTyped);
    }

    // The next words come by these means, others or the same.
    fn go_on_by(&mut self, means: Means) {
        if means == self.means {
            return;
        }
        self.means = means;
        self.done_before = self.done;
    }

    /// The host has taken a step. Of the keys of a stub's exchange nothing is told. A word is tested no more
    /// once another one counts as done.
    pub(crate) fn see(&mut self, sight: Sight) {
        self.go_on_by(means_behind(self.means, sight.key));
        if sight.done != self.done {
            self.word = None;
        }
        self.done = sight.done;
        self.has_sent = self.has_sent || sight.key.is_some();
        self.mishaps = sight.spent;
        self.heard = heard_behind(self.heard, sight);
    }

    /// A time has come, in milliseconds of the clock. The pace is measured from where the first word that comes by
    /// these means was begun, and later over the last minute at most, so that a pause is forgotten.
    pub(crate) fn measure(&mut self, now: Option<u64>) {
        let mark = Mark {
            done: self.done,
            time: now,
        };
        if self.done == self.done_before {
            self.from = mark;
            self.next = mark;
        } else if time_between(self.next.time, now) >= MEASURED {
            self.from = self.next;
            self.next = mark;
        }
    }

    /// Whether the line is listened to until it is silent, where words come by keys: no key was sent yet, or
    /// more was heard since the last one than a console answers to it.
    pub(crate) fn is_listening(&self) -> bool {
        self.means == Means::ByKeys && (!self.has_sent || self.heard > MOST_ANSWERED)
    }

    /// Whether it is worth a showing behind what was known earlier: a word more or a mishap more, and all that
    /// happens while the line is listened to, up to the key that ends that, and other means.
    pub(crate) fn is_news(&self, earlier: &Headway) -> bool {
        earlier.is_listening()
            || self.is_listening()
            || self.done != earlier.done
            || self.mishaps != earlier.mishaps
            || self.means != earlier.means
    }

    /// Whether so many words were done, in so long a time, that their pace tells of the rest.
    pub(crate) fn has_pace(&self, now: Option<u64>) -> bool {
        let done = self.done.saturating_sub(self.done_before);
        done >= TELLING && time_between(self.from.time, now) >= TELLING_TIME
    }

    /// How many seconds it takes at the pace so far, once there is one.
    pub(crate) fn seconds_left(&self, now: Option<u64>) -> Option<u64> {
        let done = self.done.saturating_sub(self.from.done);
        let left = self.words.saturating_sub(self.done);
        time_left(elapsed(self.from.time, now), done, left)
    }

    /// What is shown of it at a time, in milliseconds of the clock, where the clock has one.
    pub(crate) fn showing(&self, now: Option<u64>) -> Showing {
        Showing {
            word: self.word,
            done: self.done,
            words: self.words,
            is_listening: self.is_listening(),
            is_stub: self.means == Means::StubTyped,
            mishaps: self.mishaps,
            seconds_left: self.seconds_left(now),
        }
    }
}

// How words come into memory behind a step with this key: by keys, or by the stub that was typed.
fn means_behind(means: Means, key: Option<u8>) -> Means {
    match (means, key) {
        (_, Some(_)) => Means::ByKeys,
        (Means::StubTyped, None) => Means::ByStub,
        (_, None) => means,
    }
}

// How many characters were heard since the last key; the count stays at its largest.
fn heard_behind(count: u32, sight: Sight) -> u32 {
    match (sight.key, sight.heard) {
        (Some(_), _) => 0,
        (None, Heard::Got(_)) => count.saturating_add(1),
        (None, Heard::Quiet) => count,
    }
}
