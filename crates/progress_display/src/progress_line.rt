//! One line on a terminal that says how far it is, rewritten in place.

use crate::headway::Headway;
use crate::last_word::{LastWord, NOTHING_SAID};
use crate::overheard::Overheard;
use crate::pace::is_due;
use crate::showing::{KeptIn, Showing, TestedWord};
use arrayvec::ArrayString;
use host_devices::{Onlooker, Sight};
use std::cell::Cell;
use std::fmt::Write;
use std::io::Print;
use std::time::Clock;

// What moves the cursor to the line's beginning and clears the line.
const CLEARED: &str = "\r\x1b[K";

// How many minutes are long.
const LONG: u64 = 2;

// More words than the first block of a new tape has: behind that a save goes on.
const FIRST_BLOCK: u32 = 256;

// That nothing is lost at a break, on a line of its own.
const HINT: &str = "\rafter Ctrl-C the same line goes on\x1b[K\n";

// Room for the longest line.
type LineText = ArrayString<160>;

/// Shows, while a load or a reading goes on, how many words are done of all, the mishaps, and the time
/// left at the pace so far: one line, at most ten times a second. A terminal that has fewer columns cuts
/// it, so that it never wraps. Where it takes two minutes or more, a line above it says so once, as soon as
/// the pace is known, and that a break costs nothing, where that is so; of a reading of more words than a block of a tape
/// has, that stands there from the beginning. Where the line that is listened to is not silent for ten seconds, another says
/// what comes. What can't be written is left out.
#[derive(Drop)]
pub struct ProgressLine<'a, C: Clock, E: Print> {
    clock: &'a C,
    terminal: &'a E,
    headway: Cell<Headway>,
    last_word: Cell<LastWord>,

    // When it was last shown, in milliseconds of the clock, where it was.
    shown: Cell<Option<u64>>,

    kept_in: KeptIn,

    // Whether the line above it is still to be written.
    is_forecast_due: Cell<bool>,

    // Whether it was said that a break costs nothing.
    has_hinted: Cell<bool>,

    // What is heard while the line is listened to until it is silent, and whether that was told.
    overheard: Cell<Overheard>,

    is_overheard_told: Cell<bool>,
}

impl<'a, C: Clock, E: Print> ProgressLine<'a, C, E> {
    /// A line on a terminal, which shows nothing yet. What is done is kept there.
    pub fn new(clock: &'a C, terminal: &'a E, kept_in: KeptIn) -> ProgressLine<'a, C, E> {
        ProgressLine {
            clock,
            terminal,
            headway: Cell::new(Headway::new(0, 0, None)),
            last_word: Cell::new(NOTHING_SAID),
            shown: Cell::new(None),
            kept_in,
            is_forecast_due: Cell::new(true),
            has_hinted: Cell::new(false),
            overheard: Cell::new(Overheard::NOTHING),
            is_overheard_told: Cell::new(false),
        }
    }

    /// Shows which word is tested, and what it held, however lately something was shown: whoever breaks the test
    /// off while that word holds another number needs both.
    pub fn tests(&self, word: TestedWord) {
        let mut headway = self.headway.get();
        headway.test(word);
        self.show(headway, self.now());
    }

    /// What was typed into a word last, and what was read of one.
    pub fn last_word(&self) -> LastWord {
        self.last_word.get()
    }

    /// How many words were done when it began.
    pub fn done_at_first(&self) -> u32 {
        self.headway.get().done_at_first
    }

    /// How many words are done.
    pub fn done(&self) -> u32 {
        self.headway.get().done
    }

    /// Writes a text to the terminal, where it goes on.
    pub fn say(&self, text: &str) {
        let _ = self.terminal.write_all(text.as_bytes());
    }

    // The clock's time in milliseconds, where it has one.
    fn now(&self) -> Option<u64> {
        match self.clock.monotonic() {
            Ok(time) => u64::try_from(time.as_millis()).ok(),
            Err(_) => None,
        }
    }

    // Keeps what is known, and shows it where that is due. A clock with no time makes nothing due.
    fn keep(&self, mut headway: Headway) {
        let now = self.now();
        headway.measure(now);
        if self.is_due(now) {
            self.forecast(&headway, now);
            self.show(headway, now);
        } else {
            self.headway.set(headway);
        }
    }

    // Whether a showing is due.
    fn is_due(&self, now: Option<u64>) -> bool {
        match (self.shown.get(), now) {
            (Some(shown), Some(now)) => is_due(shown, now),
            (None, Some(_)) => true,
            (_, None) => false,
        }
    }

    // Keeps what is known, and shows it.
    fn show(&self, headway: Headway, now: Option<u64>) {
        self.headway.set(headway);
        self.put(showing_line(headway.showing(now)), now);
    }

    // Says once how long it takes, as soon as the pace is known, where that is long.
    fn forecast(&self, headway: &Headway, now: Option<u64>) {
        if self.is_forecast_due.get() && headway.has_pace(now) {
            self.is_forecast_due.set(false);
            self.say_minutes(headway.seconds_left(now).unwrap_or(0) / 60);
        }
    }

    // Says that it takes so many minutes, where they are many.
    fn say_minutes(&self, minutes: u64) {
        if minutes >= LONG {
            let goes_on = self.kept_in != KeptIn::Nothing && !self.has_hinted.get();
            self.say_line(forecast_line(minutes, goes_on));
        }
    }

    // Says at the beginning that a break costs nothing, where a reading of so many words has several blocks. Of a load
    // whoever names a record knows it.
    fn hint(&self, words: u32) {
        if self.kept_in == KeptIn::Part && words > FIRST_BLOCK {
            self.has_hinted.set(true);
            self.say(HINT);
        }
    }

    // Keeps what is heard while the line is listened to, and says it once, where it does not fall silent.
    fn overhear(&self, headway: &Headway, sight: Sight) {
        let mut overheard = Overheard::NOTHING;
        if headway.is_listening() {
            overheard = self.overheard.get();
            overheard.hear(sight.heard, self.now());
        }
        self.overheard.set(overheard);
        if overheard.is_long() && !self.is_overheard_told.get() {
            self.is_overheard_told.set(true);
            if let Some(text) = overheard_text(overheard) {
                self.say(text.as_str());
            }
        }
    }

    // Puts the line.
    fn put(&self, line: Option<LineText>, now: Option<u64>) {
        self.shown.set(now);
        self.say_line(line);
    }

    // Writes a line, where it had room.
    fn say_line(&self, line: Option<LineText>) {
        if let Some(line) = line {
            self.say(line.as_str());
        }
    }
}

impl<C: Clock, E: Print> Onlooker for ProgressLine<'_, C, E> {
    fn begins(&self, done: u32, words: u32) {
        let now = self.now();
        let headway = Headway::new(done, words, now);
        if done == 0 {
            self.hint(words);
            self.show(headway, now);
        } else {
            self.headway.set(headway);
            self.put(going_on_line(done, words, self.kept_in), now);
        }
    }

    fn sees(&self, sight: Sight) {
        let mut last_word = self.last_word.get();
        last_word.see(sight);
        self.last_word.set(last_word);
        let earlier = self.headway.get();
        let mut headway = earlier;
        headway.see(sight);
        self.overhear(&headway, sight);
        if headway.is_news(&earlier) {
            self.keep(headway);
        } else {
            self.headway.set(headway);
        }
    }

    fn stub_begins(&self) {
        let now = self.now();
        let mut headway = self.headway.get();
        headway.type_stub();
        headway.measure(now);
        self.show(headway, now);
    }

    fn ends(&self) {
        self.say(CLEARED);
    }
}

// What is written to show how far it is; none where that has no room.
fn showing_line(showing: Showing) -> Option<LineText> {
    let mut line = LineText::new();
    match write!(line, "\r\x1b[?7l{showing}\x1b[K\x1b[?7h") {
        Ok(()) => Some(line),
        Err(_) => None,
    }
}

// What is written until the first key to show that it goes on behind words that were done before; none where that has no
// room.
fn going_on_line(done: u32, words: u32, kept_in: KeptIn) -> Option<LineText> {
    let mut line = LineText::new();
    let remedy = kept_in.remedy();
    match write!(
        line,
        "\r\x1b[?7lgoing on behind {done} of {words} words, listening{remedy}\x1b[K\x1b[?7h"
    ) {
        Ok(()) => Some(line),
        Err(_) => None,
    }
}

// What is written to say what was overheard; none where that has no room.
fn overheard_text(overheard: Overheard) -> Option<ArrayString<256>> {
    let mut text = ArrayString::new();
    match write!(
        text,
        "\rthe line is never silent, and says: {overheard}\n\
         a program that runs does so, and a system that echoes (stty -echo); 'ldaodt probe LINE' says more\x1b[K\n"
    ) {
        Ok(()) => Some(text),
        Err(_) => None,
    }
}

// What is written to say how many minutes it takes, and that a break costs nothing where that is so; none where that
// has no room.
fn forecast_line(minutes: u64, goes_on: bool) -> Option<LineText> {
    let mut line = LineText::new();
    let hint = if goes_on {
        "; after Ctrl-C the same line goes on"
    } else {
        ""
    };
    match write!(line, "\rsome {minutes} minutes at this pace{hint}\x1b[K\n") {
        Ok(()) => Some(line),
        Err(_) => None,
    }
}
