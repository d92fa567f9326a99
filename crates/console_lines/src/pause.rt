//! The pause between two looks.
ghost use Rattle.std.specs.Prelude.{◌≡◌, ◌≤◌, ◌*◌, ◌+◌};

use std::time::{Clock, Duration, Instant};

// The shortest pause and the longest, in microseconds.
const SHORTEST: u64 = 10;

const LONGEST: u64 = 5_000;

// The most that a pause counts for, in microseconds.
const MOST_COUNTED: u64 = 10_000;

/// A time in milliseconds as one in microseconds.
pub(crate) fn in_microseconds(milliseconds: u32) -> u64
    ensures { result ≡ 1000 * milliseconds }
{
    u64::from(milliseconds) * 1000
}

/// How many looks are made at most in a quiet time, in milliseconds: one behind each pause, even where
/// each is the shortest, and one before them all.
pub(crate) fn most_looks(quiet_ms: u32) -> u64
    ensures { result ≡ 100 * quiet_ms + 1 }
{
    u64::from(quiet_ms) * 100 + 1
}

/// Pauses, and answers for how many microseconds that counts, where so many passed before it.
///
/// The pause is a thirty-second of these, so that what comes is found soon, by the measure of how long it
/// took. It counts for as long as the clock says, since a busy computer comes back late; but for 10
/// milliseconds at most, since a process that was held heard nothing meanwhile; and for no less than
/// was asked for, since a clock may stand still or fail.
pub(crate) fn pause<C: Clock>(clock: &C, passed: u64) -> u64
    ensures least { 10 ≤ result }
    ensures most { result ≤ 10000 }
{
    let asked = (passed / 32).clamp(SHORTEST, LONGEST);
    let begun = Instant::now(clock);
    clock.sleep(Duration::from_micros(asked));
    match (begun, Instant::now(clock)) {
        (Ok(begun), Ok(ended)) => microseconds(ended - begun).clamp(asked, MOST_COUNTED),
        _ => asked,
    }
}

// A time in whole microseconds, and a second or more as one second.
fn microseconds(time: Duration) -> u64 {
    if time.as_secs() > 0 {
        1_000_000
    } else {
        u64::from(time.subsec_micros())
    }
}
