//! How fast a probe went, and how long a load would take.
ghost use Rattle.std.specs.Prelude.{◌≡◌, ◌+◌, ◌<◌, ◌≤◌, ◌^◌, ◌++◌};
ghost use Rattle.arrayvec.specs.ArrayVec.{array_vec_len};
ghost use Rattle.probe_report.specs.Pace.{duration_text, key_lines, load_lines, nearest};

use crate::report::Report;
use byte_io::{push_bytes, push_decimal};

/// How fast the looks of a probe went, where a clock had the time.
#[derive(Clone, Copy)]
pub struct Pace {
    /// The mean time from a key to the first character that answers it, in microseconds.
    pub key: Option<u32>,

    /// The mean time that a look at a word takes, in microseconds.
    pub look: Option<u32>,
}

// A second, a minute and an hour, in twenty-fifths of a microsecond.
const SECOND: u64 = 25_000_000;

const MINUTE: u64 = 60 * SECOND;

const HOUR: u64 = 60 * MINUTE;

/// Puts the line of the time that a key takes, where it is known.
pub(crate) fn push_key(text: &mut Report, pace: Pace)
    requires { array_vec_len text.old ≤ 750 }
    ensures items { text.new.items ≡ text.old.items ++ key_lines pace.key }
    ensures length { array_vec_len text.new ≤ array_vec_len text.old + 49 }
{
    let Some(key) = pace.key else {
        return;
    };
    let tenths = nearest(u64::from(key), 100);
    push_bytes(text, b"key ");
    push_decimal(text, tenths / 10);
    push_bytes(text, b".");
    push_decimal(text, tenths % 10);
    push_bytes(text, b" ms\n");
}

/// Puts the line of the time that a load of so many words takes, where it is known.
pub(crate) fn push_load(text: &mut Report, pace: Pace, words: u16)
    requires { array_vec_len text.old ≤ 800 }
    ensures items { text.new.items ≡ text.old.items ++ load_lines pace.look words }
    ensures length { array_vec_len text.new ≤ array_vec_len text.old + 85 }
{
    let Some(look) = pace.look else {
        return;
    };
    let time = u64::from(look) * 62 * u64::from(words);
    push_bytes(text, b"a load of ");
    push_decimal(text, words.into());
    push_bytes(text, b" words takes ");
    push_duration(text, time);
    push_bytes(text, b" at this pace\n");
}

// Puts a time that is given in twenty-fifths of a microsecond.
fn push_duration(text: &mut Report, time: u64)
    requires room { array_vec_len text.old ≤ 900 }
    requires time { time < 2 ^ 63 }
    ensures items { text.new.items ≡ text.old.items ++ duration_text time }
    ensures length { array_vec_len text.new ≤ array_vec_len text.old + 28 }
{
    if time < 120 * SECOND {
        push_decimal(text, nearest(time, SECOND));
        push_bytes(text, b" seconds");
    } else if time < 120 * MINUTE {
        push_decimal(text, nearest(time, MINUTE));
        push_bytes(text, b" minutes");
    } else {
        push_decimal(text, nearest(time, HOUR));
        push_bytes(text, b" hours");
    }
}

// How many units a time is, rounded to the nearest.
fn nearest(time: u64, unit: u64) -> u64
    requires time { time < 2 ^ 63 }
    requires least { 0 < unit }
    requires most { unit < 2 ^ 63 }
    ensures { result ≡ nearest time unit }
{
    (time + unit / 2) / unit
}
