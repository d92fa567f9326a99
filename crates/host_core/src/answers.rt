//! What a console answers to what a host types, and how far one character brings the answer. What a host makes of
//! that is its own table's.

ghost use Rattle.std.specs.Prelude.{◌≡◌, ◌<◌};
ghost use Rattle.octal.specs.Octal.{digit_of};
ghost use Rattle.host_core.specs.Answers.{digit_echo, first_digit, reading_rest, reading_start};
ghost use Rattle.host_core.specs.Answers.{refusal_reply, resynchronise_reply, return_reply};
ghost use Rattle.host_core.specs.Host.{IsPlace, value_room};

use crate::console::{CARRIAGE_RETURN, LINE_FEED, PROMPT, QUESTION_MARK, RESYNCHRONISE, SPACE};
use octal::oct6;

// How many octal digits the host types of every number.
const DIGITS: u8 = 6;

/// How far a character brings the answer to CR or to a key that is no command.
#[derive(Clone, Copy)]
pub enum Reply {
    /// The answer goes on at this place.
    On(u8),

    /// It was the prompt, the last of the answer.
    Over,

    /// The answer has no such character there.
    Wrong,
}

/// How far a character brings a number whose digits are typed.
#[derive(Clone, Copy)]
pub enum Echo {
    /// It was the digit's echo: this digit is the next.
    More(u8),

    /// It was the echo of the sixth digit.
    Whole,

    /// It was no echo of the digit.
    NoEcho,
}

/// How far a character brings the reading of a word that is opened.
#[derive(Clone, Copy)]
pub enum Reading {
    /// The number so far, and how many of its digits came, 0 to 6.
    Digits(u16, u8),

    /// All six digits of this number came, and the space behind them.
    Number(u16),

    /// No memory answers at the address.
    NoMemory,

    /// A reading has no such character there.
    NoReading,
}

/// The answer to `Z`, from place 0 to 5.
pub fn resynchronise_reply(place: u8, c: u8) -> Reply
    ensures { result ≡ resynchronise_reply place c }
{
    refusal_reply(RESYNCHRONISE, place, c)
}

/// The answer to a key that is no command, from place 0 to 5: its echo or none, `?`, one CR or two, LF, and the prompt.
pub fn refusal_reply(key: u8, place: u8, c: u8) -> Reply
    ensures { result ≡ refusal_reply key place c }
{
    match (place, c) {
        (0, _) if c == key => Reply::On(1),
        (0 | 1, QUESTION_MARK) => Reply::On(2),
        (2, CARRIAGE_RETURN) => Reply::On(3),
        (3, CARRIAGE_RETURN) => Reply::On(4),
        (3 | 4, LINE_FEED) => Reply::On(5),
        (5.., PROMPT) => Reply::Over,
        _ => Reply::Wrong,
    }
}

/// The answer to CR, from place 0 to 3: one CR or two, LF, and the prompt.
pub fn return_reply(place: u8, c: u8) -> Reply
    ensures { result ≡ return_reply place c }
{
    match (place, c) {
        (0, CARRIAGE_RETURN) => Reply::On(1),
        (1, CARRIAGE_RETURN) => Reply::On(2),
        (1 | 2, LINE_FEED) => Reply::On(3),
        (3.., PROMPT) => Reply::Over,
        _ => Reply::Wrong,
    }
}

/// The echo of the digit of `number` at a place from 1 to 6.
pub fn digit_echo(number: u16, place: u8, c: u8) -> Echo
    requires { IsPlace place }
    ensures { result ≡ digit_echo number place c }
{
    if c != digit(number, place) {
        Echo::NoEcho
    } else if place < DIGITS {
        Echo::More(digit(number, place + 1))
    } else {
        Echo::Whole
    }
}

/// The digit of `number` at a place from 1 to 6, as a character.
pub fn digit(number: u16, place: u8) -> u8
    requires { IsPlace place }
    ensures { result ≡ digit_of number place }
{
    oct6(number)[usize::from(place - 1)]
}

/// The beginning of a reading, with or without a space, or `?` where no memory answers.
pub fn reading_start(c: u8) -> Reading
    ensures { result ≡ reading_start c }
{
    match c {
        SPACE => Reading::Digits(0, 0),
        QUESTION_MARK => Reading::NoMemory,
        _ => first_digit(c),
    }
}

/// The rest of a reading, of which `count` digits came, that make `number`: six digits in all, and the space after
/// them. With five digits and a space one of six may have been lost, so that is no number.
pub fn reading_rest(number: u16, count: u8, c: u8) -> Reading
    requires { number < value_room count }
    ensures { result ≡ reading_rest number count c }
{
    match (count, c) {
        (0, _) => first_digit(c),
        (1..=5, b'0'..=b'7') => Reading::Digits(8 * number + u16::from(c - b'0'), count + 1),
        (6.., SPACE) => Reading::Number(number),
        _ => Reading::NoReading,
    }
}

// A word's first octal digit is 0 or 1.
fn first_digit(c: u8) -> Reading
    ensures { result ≡ first_digit c }
{
    match c {
        b'0' | b'1' => Reading::Digits(u16::from(c - b'0'), 1),
        _ => Reading::NoReading,
    }
}
