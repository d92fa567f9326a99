//! What the words of a command's arguments and options come to.
ghost use Rattle.std.specs.Prelude.{◌≡◌, ◌↔◌, ◌++◌, Some, IfOk, IsOk, IsSome, IsSomeAnd, IsTrue, codes, map};
ghost use Rattle.odt_machine.specs.Style.{style_number};
ghost use Rattle.clap.specs.Matches.{first_value, found_of};
ghost use Rattle.command_line.specs.Options.{NamesTapes, IsConsoleOf, IsNumberGiven, IsNumberOf, has_colon, is_line, more_in};

use crate::no_request::NoRequest;
use crate::refusals::invalid_value;
use clap::ArgMatches;
use command_tables::names::{LINE, MORE, STYLE, TAPE, WORDS};
use console_lines::is_path;
use odt_machine::{LARGEST_WORDS, PLAIN_STYLE, Style};
use request_values::Console;
use std::alloc::{AllocError, Global};

// Why a word is no line.
const NO_LINE: &str = "a line is HOST:PORT, or the path of a serial device, which has a '/'";

/// The text of a required argument.
pub(crate) fn text_of<'a>(found: &ArgMatches<'a>, name: &str) -> Result<&'a str, NoRequest>
    ensures value { IfOk result (λ text. first_value (found_of found.now) name.now ≡ Some text.now) }
    ensures due { IsOk result ↔ IsSome (first_value (found_of found.now) name.now) }
{
    found.get_str(name).ok_or(NoRequest::Meaningless)
}

/// The line to the console: HOST:PORT, or the path of a device.
pub(crate) fn line_of<'a>(alloc: Global, found: &ArgMatches<'a>) -> Result<&'a str, NoRequest>
    ensures value { IfOk result (λ line. first_value (found_of found.now) (codes "LINE") ≡ Some line.now) }
    ensures due { IsOk result ↔ IsSomeAnd (first_value (found_of found.now) (codes "LINE")) (λ line. IsTrue (is_line line)) }
{
    let line = text_of(found, LINE)?;
    if is_line(line) {
        Ok(line)
    } else {
        Err(invalid_value(alloc, line, "<LINE>", NO_LINE))
    }
}

// Whether a text can be a line.
fn is_line(text: &str) -> bool
    ensures { result ≡ is_line text.now }
{
    has_colon(text) || is_path(text)
}

fn has_colon(text: &str) -> bool
    ensures { result ≡ has_colon text.now }
{
    text.as_bytes().contains(&b':')
}

/// The names of the tapes, in order.
pub(crate) fn tapes_of<'a>(alloc: Global, found: &ArgMatches<'a>) -> Result<Vec<&'a str>, NoRequest>
    ensures { IfOk result (λ names. NamesTapes (found_of found.now) names.items) }
{
    let first = text_of(found, TAPE)?;
    Ok(joined(alloc, &[first], found)?)
}

/// The names of further tapes, in order.
pub(crate) fn further_tapes_of<'a>(
    alloc: Global,
    found: &ArgMatches<'a>,
) -> Result<Vec<&'a str>, NoRequest>
    ensures { IfOk result (λ names. map (λ name. name.now) names.items ≡ more_in (found_of found.now)) }
{
    Ok(joined(alloc, &[], found)?)
}

// These names, and behind them those of further tapes. Without any of those there is no entry.
fn joined<'a>(
    alloc: Global,
    first: &[&'a str],
    found: &ArgMatches<'a>,
) -> Result<Vec<&'a str>, AllocError>
    ensures { IfOk result (λ names. map (λ name. name.now) names.items ≡ map (λ name. name.now) first.now ++ more_in (found_of found.now)) }
{
    let mut names = Vec::new(alloc);
    names.extend_from_slice(first)?;
    names.extend_from_slice(found.get_strs(MORE).unwrap_or(&[]))?;
    Ok(names)
}

/// The console of two options.
pub(crate) fn console_of(found: &ArgMatches<'_>) -> Result<Console, NoRequest>
    ensures { IfOk result (IsConsoleOf (found_of found.now)) }
{
    Ok(Console {
        words: number_of(found, WORDS, LARGEST_WORDS)?,
        style: style_of(found)?,
    })
}

// The style whose number is given, or the plain one.
fn style_of(found: &ArgMatches<'_>) -> Result<Style, NoRequest>
    ensures { IfOk result (λ style. IsNumberOf (found_of found.now) (codes "style") 0 (style_number style)) }
{
    match found.try_get_one::<u8>(STYLE) {
        Ok(Some(number)) => Style::from_number(number).ok_or(NoRequest::Meaningless),
        Ok(None) => Ok(PLAIN_STYLE),
        Err(_) => Err(NoRequest::Meaningless),
    }
}

/// The number that an option gives, or the one that is meant without it.
pub(crate) fn number_of(
    found: &ArgMatches<'_>,
    name: &str,
    otherwise: u16,
) -> Result<u16, NoRequest>
    ensures { IfOk result (IsNumberOf (found_of found.now) name.now otherwise) }
{
    Ok(number_given(found, name)?.unwrap_or(otherwise))
}

/// The number that an option gives which may be larger, or the one that is meant without it.
pub(crate) fn long_number_of(
    found: &ArgMatches<'_>,
    name: &str,
    otherwise: u32,
) -> Result<u32, NoRequest>
    ensures { IfOk result (IsNumberOf (found_of found.now) name.now otherwise) }
{
    match found.try_get_one::<u32>(name) {
        Ok(number) => Ok(number.unwrap_or(otherwise)),
        Err(_) => Err(NoRequest::Meaningless),
    }
}

/// The number that an option gives, where it is given.
pub(crate) fn number_given(found: &ArgMatches<'_>, name: &str) -> Result<Option<u16>, NoRequest>
    ensures { IfOk result (IsNumberGiven (found_of found.now) name.now) }
{
    match found.try_get_one::<u16>(name) {
        Ok(number) => Ok(number),
        Err(_) => Err(NoRequest::Meaningless),
    }
}
