//! A line over a serial device: how many looks and pauses make a silence, whatever the clock does, and what each kind of read
//! and write means.

use crate::terminals::{Bench, HOUR, PATH, Pace, Turn};
use console_lines::{DeviceLine, Devices, open_line};
use host_core::Heard;
use host_devices::{Line, LineFault};
use std::io::ErrorKind;
use std::net::Net;
use std::time::Clock;

// Nothing has come, or nothing is taken.
const NOTHING: Turn = Turn::Fails(ErrorKind::WouldBlock);

// What comes of a line on which something is to be heard, or a key is sent.
#[derive(Clone, Copy)]
enum Outcome {
    /// This character is heard.
    Heard(u8),

    /// Nothing is, for the quiet time.
    Silence,

    /// The other end has hung up.
    HungUp,

    /// The read fails.
    NotRead,

    /// The key is sent.
    Sent,

    /// It is not.
    NotSent,
}

impl Outcome {
    // Whether this comes of a line.
    fn is_of<L: Line>(self, line: &mut L) -> bool {
        match self {
            Outcome::Heard(wanted) => {
                matches!(line.hear(), Ok(Heard::Got(character)) if character == wanted)
            }
            Outcome::Silence => matches!(line.hear(), Ok(Heard::Quiet)),
            Outcome::HungUp => matches!(line.hear(), Err(LineFault::Closed)),
            Outcome::NotRead => matches!(line.hear(), Err(LineFault::Receive)),
            Outcome::Sent => line.send(b'Z').is_ok(),
            Outcome::NotSent => matches!(line.send(b'Z'), Err(LineFault::Send)),
        }
    }
}

// What comes of a line where nothing comes or is taken: its quiet time in milliseconds, what the clock does, how many pauses are
// made (there is a look more), and how many microseconds pass on the clock.
type Vain = (Outcome, u32, Pace, u32, u64);

// Reckoned by hand: a pause is a thirty-second of what was counted before it, from 10 to 5,000 microseconds, and counts for
// what passed, but not for less than was asked for nor for more than 10,000.
const IN_VAIN: [Vain; 12] = [
    // Without a delay a silence is as long as it shall be, and never shorter.
    (Outcome::Silence, 1, Pace::Late(0), 71, 1_030),
    (Outcome::Silence, 50, Pace::Late(0), 198, 50_571),
    (Outcome::Silence, 2000, Pace::Late(0), 604, 2_002_798),
    // Nor is it longer on a computer that comes back late, since what passed counts.
    (Outcome::Silence, 50, Pace::Late(1_000), 31, 51_072),
    (Outcome::Silence, 2000, Pace::Late(1_000), 365, 2_000_608),
    // A process that was held for an hour, or for a second at each pause, has heard 10 milliseconds of silence each time.
    (Outcome::Silence, 2000, Pace::Held, 460, HOUR + 1_994_209),
    (Outcome::Silence, 50, Pace::Late(999_990), 5, 5_003_084),
    // A clock that tells nothing is replaced by what was asked for.
    (Outcome::Silence, 2000, Pace::Still, 604, 0),
    (Outcome::Silence, 2000, Pace::Failing, 604, 0),
    (Outcome::Silence, 50, Pace::Backward, 198, 0),
    // An output that stays stopped ends after the quiet time, by the clock.
    (Outcome::NotSent, 50, Pace::Late(0), 198, 50_571),
    (Outcome::NotSent, 2000, Pace::Held, 460, HOUR + 1_994_209),
];

// What reads or writes of the terminal meet, what comes of that in 50 ms, by how many reads or writes, and with how many
// pauses, each of 10 microseconds.
type Met = (&'static [Turn], Outcome, usize, u32);

const MET: [Met; 9] = [
    // What has come is found at once, without its bit 7.
    (&[Turn::Passes(0xC1)], Outcome::Heard(0x41), 1, 0),
    // What comes later is found at the next look, in whatever way a terminal says that nothing has come.
    (
        &[
            Turn::Empty,
            Turn::Fails(ErrorKind::Interrupted),
            Turn::Fails(ErrorKind::TimedOut),
            NOTHING,
            Turn::Passes(0x42),
        ],
        Outcome::Heard(0x42),
        5,
        4,
    ),
    // A hang-up is the line's end, and no silence.
    (&[NOTHING, Turn::HungUp], Outcome::HungUp, 2, 1),
    // A failure is told at once, also behind a byte of zeros, which is none.
    (
        &[Turn::Passes(0), Turn::Fails(ErrorKind::Other)],
        Outcome::NotRead,
        2,
        0,
    ),
    (&[Turn::Passes(0)], Outcome::Sent, 1, 0),
    // An output that is stopped for a while is waited for.
    (&[NOTHING, NOTHING, Turn::Passes(0)], Outcome::Sent, 3, 2),
    (
        &[Turn::Fails(ErrorKind::Interrupted), Turn::Passes(0)],
        Outcome::Sent,
        2,
        1,
    ),
    // A failure and a key that is not taken are told at once.
    (&[Turn::Fails(ErrorKind::Other)], Outcome::NotSent, 1, 0),
    (&[Turn::Empty], Outcome::NotSent, 1, 0),
];

// A line to a device of a system, by its clock.
fn line_to<'a, D: Devices + Net + Clock>(
    system: &'a D,
    quiet_ms: u32,
) -> Result<DeviceLine<'a, D::Terminal, D>, LineFault> {
    let mut devices = system;
    open_line(&mut devices, system, PATH, quiet_ms)
}

// A row of either table: what is met, in which quiet time and by which clock, what comes of it, by how many reads or writes,
// with how many pauses and in how many microseconds.
#[derive(Clone, Copy)]
struct Row {
    turns: &'static [Turn],
    quiet_ms: u32,
    pace: Pace,
    outcome: Outcome,
    looks: usize,
    pauses: u32,
    passed: u64,
}

// Whether it comes to that.
fn is_so(row: &Row) -> bool {
    let bench = Bench::new(row.turns, row.pace);
    let system = &bench;
    let Ok(mut line) = line_to(&system, row.quiet_ms) else {
        return false;
    };
    row.outcome.is_of(&mut line)
        && bench.taken.get() == row.looks
        && bench.pauses.get() == row.pauses
        && bench.passed() == row.passed
}

#[test]
fn a_device_is_waited_for_in_vain(rt: HostRuntime) {
    for (number, row) in IN_VAIN.iter().enumerate() {
        let (outcome, quiet_ms, pace, pauses, passed) = *row;
        let row = Row {
            turns: &[NOTHING],
            quiet_ms,
            pace,
            outcome,
            looks: pauses as usize + 1,
            pauses,
            passed,
        };
        assert!(rt; is_so(&row), "row {number}");
    }
}

#[test]
fn what_a_device_answers_is_met_in_time(rt: HostRuntime) {
    for (number, row) in MET.iter().enumerate() {
        let (turns, outcome, looks, pauses) = *row;
        let row = Row {
            turns,
            quiet_ms: 50,
            pace: Pace::Late(0),
            outcome,
            looks,
            pauses,
            passed: u64::from(pauses) * 10,
        };
        assert!(rt; is_so(&row), "row {number}");
    }
}
