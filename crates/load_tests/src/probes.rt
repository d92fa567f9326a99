//! A probe's pace, over a clock that goes on by the same time whenever it is looked at: 25 times for a word, as often as
//! something is said.

use crate::memory_consoles::{CALLED, MemoryConsoles};
use honest_line::Loss;
use host_devices::Unwatched;
use machine_probe::{ProbeOptions, probe};
use odt_machine::{LARGEST_WORDS, Odt, PLAIN_STYLE};
use probe_report::ProbeEnd;
use std::alloc::Global;
use std::cell::Cell;
use std::io;
use std::io::ErrorKind;
use std::time::{Clock, Duration};

// A clock, the milliseconds from one look at it to the next, and its time in milliseconds.
#[derive(Drop)]
struct TickingClock {
    tick: u64,
    time: Cell<u64>,
}

impl Clock for TickingClock {
    fn monotonic(&self) -> io::Result<Duration> {
        let time = self.time.get();
        self.time.set(time.saturating_add(self.tick));
        Ok(Duration::from_millis(time))
    }

    // Nobody needs the date, which somebody may set meanwhile.
    fn since_1970(&self) -> io::Result<Duration> {
        Err(io::Error::from(ErrorKind::Unsupported))
    }
}

// The words of a machine, which of its answers' characters is lost, how many mishaps are survived, how many milliseconds a
// look at the clock takes, and the report.
type Row = (u16, Option<u64>, u32, u64, &'static str);

const ROWS: [Row; 2] = [
    (
        LARGEST_WORDS,
        None,
        8,
        1,
        "prompt yes\nstyle 0\nkeeps small letters not known\nforgets digits yes\nmemory 000000 to 157776\n\
            key 1.0 ms\na load of 28672 words takes 28 minutes at this pace\nend Probed\n",
    ),
    // A digit of the first look is lost. That look is in no mean, though the `Z` behind the silence is its eighth
    // key: three looks are timed, each of which takes 24 times 100 ms, and a load of 1,024 words 1024 * 62 / 25 times
    // as long, 101.6 minutes.
    (
        1024,
        Some(15),
        1,
        100,
        "prompt yes\nstyle 0\nkeeps small letters not known\nforgets digits yes\nmemory 000000 to 003776\n\
            key 100.0 ms\na load of 1024 words takes 102 minutes at this pace\nend Probed\n",
    ),
];

// Whether a probe reports this.
fn is_reported(alloc: Global, row: &Row) -> Option<bool> {
    let (words, lost, patience, tick, report) = *row;
    let odt = Odt::new(alloc, words, PLAIN_STYLE).ok()?;
    let mut losses = Vec::new(alloc);
    if let Some(number) = lost {
        losses.push(Loss::Up(number)).ok()?;
    }
    let mut consoles = MemoryConsoles::new(alloc, Some(odt)).losing(losses);
    let options = ProbeOptions {
        address: 0o001000,
        patience,
    };
    let clock = TickingClock {
        tick,
        time: Cell::new(0),
    };
    let mut out = Vec::new(alloc);
    let end = probe(
        alloc,
        options,
        &mut consoles,
        CALLED,
        &mut out,
        &clock,
        &Unwatched,
    );
    Some(matches!(end, Ok(ProbeEnd::Probed)) && out.as_slice() == report.as_bytes())
}

#[test]
fn a_console_is_timed(rt: HostRuntime) {
    for (number, row) in ROWS.iter().enumerate() {
        assert!(rt; is_reported(rt.alloc(), row) == Some(true), "row {number}");
    }
}
