//! What a person sees of a load and at what pace, as stories: over a clock that stands where it is set, or has no time.

use host_core::Heard;
use host_devices::{Onlooker, Sight};
use progress_display::{KeptIn, ProgressLine, TestedWord};
use std::alloc::Global;
use std::cell::{Cell, RefCell};
use std::fmt::Display;
use std::io;
use std::io::Print;
use std::time::{Clock, Duration};

// A clock that stands where it is set, in milliseconds, or has no time.
#[derive(Drop)]
struct SetClock {
    millis: Cell<Option<u64>>,
}

impl Clock for SetClock {
    fn monotonic(&self) -> io::Result<Duration> {
        match self.millis.get() {
            Some(millis) => Ok(Duration::from_millis(millis)),
            None => Err(io::Error::from(io::ErrorKind::Other)),
        }
    }

    // Nobody needs the date, which somebody may set meanwhile.
    fn since_1970(&self) -> io::Result<Duration> {
        Err(io::Error::from(io::ErrorKind::Unsupported))
    }
}

// A terminal that keeps what was written last, and counts the writes.
#[derive(Drop)]
struct Screen {
    alloc: Global,
    text: RefCell<Vec<u8>>,
    writes: Cell<u32>,
}

impl Screen {
    // Whether this was written last.
    fn shows(&self, last: &str) -> bool {
        match self.text.try_borrow() {
            Ok(text) => text.as_slice() == last.as_bytes(),
            Err(_) => false,
        }
    }

    // Whether there were so many writes, and the last put this in the line's place, for a terminal that does not wrap it.
    fn has_shown(&self, writes: u32, text: &str) -> bool {
        match format!(in self.alloc; "\r\x1b[?7l{text}\x1b[K\x1b[?7h") {
            Ok(line) => self.writes.get() == writes && self.shows(&line),
            Err(_) => false,
        }
    }
}

impl Print for Screen {
    fn print<D: Display + Drop>(&self, _value: D) -> io::Result<()> {
        Err(io::Error::from(io::ErrorKind::Unsupported))
    }

    fn println<D: Display + Drop>(&self, _value: D) -> io::Result<()> {
        Err(io::Error::from(io::ErrorKind::Unsupported))
    }

    fn write_all(&self, bytes: &[u8]) -> io::Result<()> {
        self.writes.set(self.writes.get().saturating_add(1));
        if let Ok(mut text) = self.text.try_borrow_mut() {
            text.clear();
            text.extend_from_slice(bytes)?;
        }
        Ok(())
    }
}

// When a load begins, in milliseconds of its clock.
const BEGINNING: u64 = 7_000_000;

// What happens in a story, and what is then shown.
#[derive(Clone, Copy)]
enum Step {
    /// The clock stands so many milliseconds behind the beginning.
    At(u64),

    /// The clock has this time, or none.
    Time(Option<u64>),

    /// So many words are done of so many.
    Begins(u32, u32),

    /// A stub is typed from now on.
    StubBegins,

    /// A word is tested, which held a number: its address, and that.
    Tests(u16, u16),

    /// A character that the host answers with a key; how many words are done, and how many mishaps there were.
    Keys(u32, u32),

    /// The same in each second from one behind the beginning to another, from so many words done: so many more in each.
    KeysEachSecond(u64, u64, u32, u32),

    /// So many characters that the host answers with no key.
    Hears(u32),

    /// Silence, which it answers with no key either; how many words are done, and how many mishaps there were.
    Silence(u32, u32),

    /// How often something was shown by now, and what last.
    Shows(u32, &'static str),

    /// The line is cleared.
    Ends,
}

use Step::{
    At, Begins, Ends, Hears, Keys, KeysEachSecond, Shows, Silence, StubBegins, Tests, Time,
};

// Where it is kept what is done, the story, and what it tells.
static STORIES: [(KeptIn, &[Step], &str); 9] = [
    (
        KeptIn::Record,
        &[
            Begins(500, 2000),
            Shows(
                1,
                "going on behind 500 of 2000 words, listening; power lost? use --recheck",
            ),
            At(10),
            Keys(500, 0),
            At(99),
            Keys(501, 0),
            Shows(
                1,
                "going on behind 500 of 2000 words, listening; power lost? use --recheck",
            ),
            At(100),
            Keys(502, 0),
            Shows(2, "502 of 2000 words, 25%, 1:07 left"),
            At(199),
            Keys(503, 0),
            Shows(2, "502 of 2000 words, 25%, 1:07 left"),
            At(200),
            Keys(503, 1),
            Shows(3, "503 of 2000 words, 25%, 1 mishap, 1:34 left"),
            At(10_000),
            Keys(504, 2),
            Shows(4, "504 of 2000 words, 25%, 2 mishaps, 1:02:16 left"),
            Ends,
        ],
        "a load is shown at its pace, measured from its first key on",
    ),
    (
        KeptIn::Part,
        &[
            Time(None),
            Begins(u32::MAX, u32::MAX),
            Shows(
                1,
                "going on behind 4294967295 of 4294967295 words, listening; power lost? remove the .part file",
            ),
        ],
        "a save goes on, without a time",
    ),
    (
        KeptIn::Nothing,
        &[
            Time(Some(u64::MAX)),
            Begins(0, 0),
            Shows(1, "0 of 0 words, listening"),
        ],
        "nothing is to be done, at the end of time",
    ),
    (
        KeptIn::Record,
        &[
            Time(None),
            Begins(0, 4),
            Time(Some(50)),
            Silence(2, 0),
            Shows(2, "2 of 4 words, 50%, listening"),
            Time(None),
            Silence(3, 0),
            Shows(2, "2 of 4 words, 50%, listening"),
        ],
        "a clock that fails stops nothing, and tells no time left",
    ),
    (
        KeptIn::Record,
        &[
            Time(Some(1000)),
            Begins(0, 4),
            Time(Some(500)),
            Silence(1, 0),
            Shows(1, "0 of 4 words, 0%, listening"),
            Time(Some(4000)),
            Silence(3, 0),
            Shows(2, "3 of 4 words, 75%, listening, 0:01 left"),
        ],
        "nor does one that goes back",
    ),
    (
        KeptIn::Record,
        &[
            Begins(0, 1000),
            StubBegins,
            Shows(2, "0 of 1000 words, 0%, stub"),
            At(60_000),
            Silence(0, 0),
            Shows(3, "0 of 1000 words, 0%"),
            At(61_000),
            Silence(100, 0),
            Shows(4, "100 of 1000 words, 10%, 0:09 left"),
            StubBegins,
            Shows(5, "100 of 1000 words, 10%, stub"),
        ],
        "a stub is shown while it is typed, and then its own pace",
    ),
    (
        KeptIn::Record,
        &[
            Time(Some(0)),
            Begins(0, u32::MAX),
            Time(Some(u64::MAX)),
            Silence(1, u32::MAX),
            Shows(
                2,
                "1 of 4294967295 words, 0%, listening, 4294967295 mishaps, 5124095576030:25:51 left",
            ),
            Tests(0o157776, 0o177777),
            Shows(
                3,
                "testing 157776, it held 177777: 1 of 4294967295 words, 0%, listening, 4294967295 mishaps, 5124095576030:25:51 left",
            ),
        ],
        "the longest line has room, with more words than memory",
    ),
    (
        KeptIn::Record,
        &[
            Begins(0, 28),
            At(100),
            Keys(0, 0),
            At(200),
            Hears(32),
            Shows(2, "0 of 28 words, 0%"),
            Hears(1),
            Shows(3, "0 of 28 words, 0%, listening"),
            At(300),
            Keys(0, 0),
            At(400),
            Keys(1, 0),
            Shows(5, "1 of 28 words, 3%, 0:02 left"),
        ],
        "a console answers with 32 characters at most: what says more is listened to, and the pace is measured behind it",
    ),
    (
        KeptIn::Record,
        &[
            Begins(0, 10_000),
            Keys(0, 0),
            KeysEachSecond(1, 60, 0, 10),
            // The line at the beginning and in each second, and once above it how long it will take.
            Shows(62, "600 of 10000 words, 6%, 15:40 left"),
            KeysEachSecond(61, 80, 600, 0),
            Shows(62, "600 of 10000 words, 6%, 15:40 left"),
            KeysEachSecond(81, 81, 600, 10),
            Shows(63, "610 of 10000 words, 6%, 25:44 left"),
            KeysEachSecond(82, 111, 610, 10),
            Shows(93, "910 of 10000 words, 9%, 24:55 left"),
            KeysEachSecond(112, 140, 910, 10),
            Shows(122, "1200 of 10000 words, 12%, 14:40 left"),
        ],
        "in a pause nothing is shown, and it is forgotten within a minute",
    ),
];

// What a host sees, and answers with a key or with none.
fn sight(heard: Heard, key: Option<u8>, done: u32, spent: u32) -> Sight {
    Sight {
        heard,
        key,
        done,
        spent,
        foreign: false,
    }
}

// The terminal with the line of a load, and the clock by which that is shown.
#[derive(Clone, Copy)]
struct Stage<'a> {
    line: &'a ProgressLine<'a, SetClock, Screen>,
    clock: &'a SetClock,
    terminal: &'a Screen,
}

impl Stage<'_> {
    // The clock stands so many milliseconds behind the beginning.
    fn is_at(self, millis: u64) {
        self.clock
            .millis
            .set(Some(BEGINNING.saturating_add(millis)));
    }

    // A character is answered with a key.
    fn keys(self, done: u32, spent: u32) {
        self.line
            .sees(sight(Heard::Got(b'@'), Some(b'/'), done, spent));
    }

    // So is one in each of these seconds.
    fn keys_each_second(self, first: u64, last: u64, mut done: u32, more: u32) {
        for second in first..=last {
            done = done.saturating_add(more);
            self.is_at(second.saturating_mul(1000));
            self.keys(done, 0);
        }
    }

    // So many characters are answered with none.
    fn hears(self, count: u32) {
        for _ in 0..count {
            self.line.sees(sight(Heard::Got(b'x'), None, 0, 0));
        }
    }

    // Goes on with a story, and answers whether what is to be shown is.
    fn goes_on(self, step: Step) -> bool {
        match step {
            At(millis) => self.is_at(millis),
            Time(millis) => self.clock.millis.set(millis),
            Begins(done, words) => self.line.begins(done, words),
            StubBegins => self.line.stub_begins(),
            Tests(address, held) => self.line.tests(TestedWord { address, held }),
            Keys(done, spent) => self.keys(done, spent),
            KeysEachSecond(first, last, done, more) => {
                self.keys_each_second(first, last, done, more);
            }
            Hears(count) => self.hears(count),
            Silence(done, spent) => self.line.sees(sight(Heard::Quiet, None, done, spent)),
            Shows(writes, text) => return self.terminal.has_shown(writes, text),
            Ends => {
                self.line.ends();
                return self.terminal.shows("\r\x1b[K");
            }
        }
        true
    }
}

// The number of the step at which something else is shown than the story says.
fn misses_at(alloc: Global, kept_in: KeptIn, story: &[Step]) -> Option<usize> {
    let clock = SetClock {
        millis: Cell::new(Some(BEGINNING)),
    };
    let terminal = Screen {
        alloc,
        text: RefCell::new(Vec::new(alloc)),
        writes: Cell::new(0),
    };
    let line = ProgressLine::new(&clock, &terminal, kept_in);
    let stage = Stage {
        line: &line,
        clock: &clock,
        terminal: &terminal,
    };
    for (number, step) in story.iter().enumerate() {
        if !stage.goes_on(*step) {
            return Some(number);
        }
    }
    None
}

#[test]
fn loads_are_shown_so(rt: HostRuntime) {
    for (kept_in, story, reason) in &STORIES {
        let missed = misses_at(rt.alloc(), *kept_in, story);
        assert!(rt; missed.is_none(), "{reason}: step {missed:?}");
    }
}
