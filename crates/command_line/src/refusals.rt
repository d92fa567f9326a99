//! What is said of words that are refused.
ghost use Rattle.command_line.specs.Refusal.{IsRefusal};

use crate::no_request::NoRequest;
use clap::Error;
use clap::error::ErrorKind;
use std::alloc::{AllocError, Global};

// How the parser's tip begins that is wrong here for every option: behind `--` there are tapes alone.
const WRONG_TIP: &str = "\n  tip: to pass '";

/// The text of a refusal by the parser, where this is the first of the words.
pub(crate) fn text_of(alloc: Global, first: &str, error: &Error) -> Result<String, AllocError> {
    match error.kind() {
        ErrorKind::InvalidSubcommand if is_like_a_file(first) => no_command(alloc, first),
        _ => without_wrong_tip(alloc, format!(in alloc; "{error}")?.as_str()),
    }
}

/// The refusal of a value of an argument, in the parser's form.
pub(crate) fn invalid_value(alloc: Global, value: &str, argument: &str, why: &str) -> NoRequest
    ensures { IsRefusal result }
{
    NoRequest::refusing(format!(in alloc;
        "error: invalid value '{value}' for '{argument}': {why}\n\nFor more information, try '--help'.\n"
    ))
}

// Whether a word looks like a file's name, and so like a tape.
fn is_like_a_file(word: &str) -> bool {
    word.as_bytes().contains(&b'.') || word.as_bytes().contains(&b'/')
}

// What is said of a tape where a command has to stand.
fn no_command(alloc: Global, tape: &str) -> Result<String, AllocError> {
    format!(in alloc;
        "error: unrecognized subcommand '{tape}'\n
  tip: to check a tape, use 'ldaodt check {tape}'
  tip: to load a tape, use 'ldaodt load {tape} LINE'

Usage: ldaodt [COMMAND]

For more information, try '--help'.
"
    )
}

// A text of the parser without its wrong tip. No word of the command line has a line's end in it here.
fn without_wrong_tip(alloc: Global, text: &str) -> Result<String, AllocError> {
    let Some((before, behind)) = text.split_once(WRONG_TIP) else {
        return String::from_str(alloc, text);
    };
    let before = before.strip_suffix('\n').unwrap_or(before);
    match behind.split_once('\n') {
        Some((_, after)) => format!(in alloc; "{before}\n{after}"),
        None => String::from_str(alloc, before),
    }
}
