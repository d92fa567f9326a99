//! A time as a text.
ghost use Rattle.std.specs.Prelude.{◌≡◌, ◌+◌, ◌<◌, ◌≤◌, ◌++◌, Some, codes};
ghost use Rattle.arrayvec.specs.ArrayVec.{array_vec_len};
ghost use Rattle.run_log.specs.TimeText.{IsTimeText, clock_text, date_text, two_digits};

use arrayvec::ArrayVec;
use byte_io::push_bytes;
use jiff_core::civil::Date;

// The seconds of a day.
const DAY: u64 = 86_400;

/// A time as a text, with room for the longest.
pub(crate) type TimeText = ArrayVec<u8, 20>;

/// The time, in UTC, of a clock that has so many seconds since 1970 began. It is `-` where the clock can't be read, or
/// is past the year 9999.
pub(crate) fn time_text(now: Option<u64>) -> TimeText
    ensures { IsTimeText now result.items }
{
    match now {
        Some(seconds) => utc_text(seconds),
        None => no_time(),
    }
}

// The same of a clock that can be read.
fn utc_text(seconds: u64) -> TimeText
    ensures { IsTimeText (Some seconds) result.items }
{
    match Date::from_unix_epoch_day((seconds / DAY) as i64) {
        Ok(date) => moment_text(date, (seconds % DAY) as u32),
        Err(_) => no_time(),
    }
}

fn no_time() -> TimeText
    ensures { result.items ≡ codes "-" }
{
    let mut text = TimeText::new();
    push_bytes(&mut text, b"-");
    text
}

// A second of a day.
fn moment_text(date: Date, second: u32) -> TimeText
    requires { second < 86_400 }
    ensures { result.items ≡ date_text date ++ (codes "T" ++ (clock_text second ++ codes "Z")) }
{
    let mut text = TimeText::new();
    let year = date.year.unsigned_abs();
    push_two(&mut text, year / 100);
    push_two(&mut text, year % 100);
    push_bytes(&mut text, b"-");
    push_two(&mut text, u16::from(date.month));
    push_bytes(&mut text, b"-");
    push_two(&mut text, u16::from(date.day));
    push_bytes(&mut text, b"T");
    push_two(&mut text, (second / 3600) as u16);
    push_bytes(&mut text, b":");
    push_two(&mut text, (second / 60 % 60) as u16);
    push_bytes(&mut text, b":");
    push_two(&mut text, (second % 60) as u16);
    push_bytes(&mut text, b"Z");
    text
}

// Puts a number in two digits.
fn push_two(text: &mut TimeText, number: u16)
    requires room { array_vec_len text.old + 2 ≤ 20 }
    requires two { number < 100 }
    ensures items { text.new.items ≡ text.old.items ++ two_digits number }
    ensures length { array_vec_len text.new ≡ array_vec_len text.old + 2 }
{
    text.push(b'0' + (number / 10) as u8);
    text.push(b'0' + (number % 10) as u8);
}
