//! Addresses on the command line.
ghost use Rattle.std.specs.Prelude.{◌≡◌, ◌↔◌, ℕ, Some, Ok, IfOk, IsOk, codes};
ghost use Rattle.reading_core.specs.Addresses.{IsAddress};
ghost use Rattle.clap.specs.Matches.{found_of, first_value};
ghost use Rattle.command_line.specs.Addresses.{IsEvenText, IsOctalText, IsWordText};
ghost use Rattle.command_line.specs.Options.{IsProbedWord, IsRangeOf, IsSavedStart, IsStartOf, IsTestedRange};

use crate::no_request::NoRequest;
use crate::refusals::invalid_value;
use crate::values::text_of;
use clap::ArgMatches;
use command_tables::names::{ADDRESS, FROM, NO_START, START, TO};
use octal::read_oct6;
use request_values::AddressRange;
use std::alloc::Global;
use tape_image::Start;
use tape_values::TOP;

// Why a word is no start of a load.
const NO_START_ADDRESS: &str = "a start is octal, of one to six digits, and even";

// Why a word is no start of a saved tape.
const NO_SAVED_START: &str = "a start is octal, of one to six digits";

// Why a word is no address of a word of memory.
const NO_ADDRESS: &str = "an address is octal, of one to six digits, even, and below 160000";

// Why a last address is none.
const IS_BELOW: &str = "the last address is below the first";

// The start address of a tape that starts nothing.
const STARTS_NOTHING: u16 = 0o000001;

// The address of the word at which a probe is made where nothing else is said.
const PLAIN_WORD: u16 = 0o001000;

// The address of the last word that there may be.
const LAST_WORD: u16 = TOP as u16 - 2;

/// The start in place of the tapes', by two options of which one is given at most.
pub(crate) fn start_of(alloc: Global, found: &ArgMatches<'_>) -> Result<Start, NoRequest>
    ensures { IfOk result (IsStartOf (found_of found.now)) }
{
    if found.get_flag(NO_START) {
        return Ok(Start::Nowhere);
    }
    match found.get_str(START) {
        Some(text) => Ok(Start::At(given_start(alloc, text)?)),
        None => Ok(Start::OfTape),
    }
}

/// The start address of a saved tape.
pub(crate) fn saved_start_of(alloc: Global, found: &ArgMatches<'_>) -> Result<u16, NoRequest>
    ensures { (start : ℕ) → (result ≡ Ok start) ↔ IsSavedStart (first_value (found_of found.now) (codes "start")) start }
{
    match found.get_str(START) {
        Some(text) => any_start(alloc, text),
        None => Ok(STARTS_NOTHING),
    }
}

// The start address of a tape that a text is, or its refusal.
fn any_start(alloc: Global, text: &str) -> Result<u16, NoRequest>
    ensures { (start : ℕ) → (result ≡ Ok start) ↔ IsOctalText text.now start }
{
    match octal(text) {
        Some(start) => Ok(start),
        None => Err(invalid_value(alloc, text, "--start <AAAAAA>", NO_SAVED_START)),
    }
}

// The start address of a program that a text is, or its refusal.
fn given_start(alloc: Global, text: &str) -> Result<u16, NoRequest>
    ensures { (start : ℕ) → (result ≡ Ok start) ↔ IsEvenText text.now start }
{
    match even(text) {
        Some(start) => Ok(start),
        None => Err(invalid_value(alloc, text, "--start <AAAAAA>", NO_START_ADDRESS)),
    }
}

/// The range of words of which some are tested: of all, where no addresses are given.
pub(crate) fn tested_range_of(
    alloc: Global,
    found: &ArgMatches<'_>,
) -> Result<AddressRange, NoRequest>
    ensures { IfOk result (IsTestedRange (first_value (found_of found.now) (codes "FROM")) (found_of found.now)) }
{
    match found.get_str(FROM) {
        Some(_) => range_of(alloc, found),
        None => AddressRange::new(0, LAST_WORD).ok_or(NoRequest::Meaningless),
    }
}

/// The range of words between two addresses that are given.
pub(crate) fn range_of(alloc: Global, found: &ArgMatches<'_>) -> Result<AddressRange, NoRequest>
    ensures value { IfOk result (IsRangeOf (found_of found.now)) }
    ensures due { (range : AddressRange) → IsRangeOf (found_of found.now) range → IsOk result }
{
    let last = text_of(found, TO)?;
    let from = word_of(alloc, text_of(found, FROM)?, "<FROM>")?;
    let to = word_of(alloc, last, "<TO>")?;
    match AddressRange::new(from, to) {
        Some(range) => Ok(range),
        None => Err(invalid_value(alloc, last, "<TO>", IS_BELOW)),
    }
}

/// The address of the word at which a probe is made.
pub(crate) fn probed_of(alloc: Global, found: &ArgMatches<'_>) -> Result<u16, NoRequest>
    ensures value { (address : ℕ) → (result ≡ Ok address) ↔ IsProbedWord (first_value (found_of found.now) (codes "address")) address }
    ensures in_memory { IfOk result IsAddress }
{
    match found.get_str(ADDRESS) {
        Some(text) => word_of(alloc, text, "--address <AAAAAA>"),
        None => Ok(PLAIN_WORD),
    }
}

// The address of a word of memory that an argument's text is, or its refusal.
fn word_of(alloc: Global, text: &str, argument: &str) -> Result<u16, NoRequest>
    ensures { (address : ℕ) → (result ≡ Ok address) ↔ IsWordText text.now address }
{
    match even(text) {
        Some(address) if address < TOP as u16 => Ok(address),
        _ => Err(invalid_value(alloc, text, argument, NO_ADDRESS)),
    }
}

// The even number that a text of one to six octal digits is.
fn even(text: &str) -> Option<u16>
    ensures { (number : ℕ) → (result ≡ Some number) ↔ IsEvenText text.now number }
{
    match octal(text) {
        Some(number) if number % 2 == 0 => Some(number),
        _ => None,
    }
}

// The number that a text of one to six octal digits is.
fn octal(text: &str) -> Option<u16>
    ensures { (number : ℕ) → (result ≡ Some number) ↔ IsOctalText text.now number }
{
    let digits = text.as_bytes();
    let missing = 6usize.checked_sub(digits.len())?;
    if missing == 6 {
        return None;
    }
    let mut filled = *b"000000";
    filled[missing..].copy_from_slice(digits);
    read_oct6(&filled)
}
