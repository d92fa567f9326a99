//! What each command about no machine asks for.
ghost use Rattle.std.specs.Prelude.{IfOk, codes};
ghost use Rattle.clap.specs.Matches.{found_of};
ghost use Rattle.command_line.specs.Commands.{IsMakeOf, IsPrintRequestOf, IsTapeRequestOf};

use crate::addresses::{saved_start_of, start_of};
use crate::no_request::NoRequest;
use crate::values::{console_of, further_tapes_of, tapes_of, text_of};
use clap::ArgMatches;
use command_tables::names;
use request_values::{CheckOptions, Make, PrintRequest, Rehearsal, Stage, TapeRequest};
use std::alloc::Global;

// What words of octal are read of where no file is named: standard input.
const INPUT: &str = "-";

/// What a command that is about no machine asks for.
pub(crate) fn tape_request_of<'a>(
    alloc: Global,
    command: &str,
    found: &ArgMatches<'a>,
) -> Result<TapeRequest<'a>, NoRequest>
    ensures { IfOk result (IsTapeRequestOf command.now (found_of found.now)) }
{
    match command {
        "make" => Ok(TapeRequest::Make(making_of(alloc, found)?)),
        "check" => Ok(TapeRequest::Print(checking_of(alloc, found)?)),
        "dialogue" => Ok(TapeRequest::Print(dialogue_of(alloc, found)?)),
        "rehearse" => Ok(TapeRequest::Print(rehearsal_of(alloc, found)?)),
        "type" => Ok(TapeRequest::Print(PrintRequest::Type(console_of(found)?))),
        _ => Err(NoRequest::Meaningless),
    }
}

// The tape that is made of octal words.
fn making_of<'a>(alloc: Global, found: &ArgMatches<'a>) -> Result<Make<'a>, NoRequest>
    ensures { IfOk result (IsMakeOf (found_of found.now)) }
{
    Ok(Make {
        file: text_of(found, names::FILE)?,
        words: found.get_str(names::OCTAL_WORDS).unwrap_or(INPUT),
        start: saved_start_of(alloc, found)?,
    })
}

// The check of tapes.
fn checking_of<'a>(alloc: Global, found: &ArgMatches<'a>) -> Result<PrintRequest<'a>, NoRequest>
    ensures { IfOk result (IsPrintRequestOf (codes "check") (found_of found.now)) }
{
    let blocks = found.get_flag(names::BLOCKS);
    Ok(PrintRequest::Check(tapes_of(alloc, found)?, CheckOptions { blocks }))
}

// The dialogue of tapes with a console.
fn dialogue_of<'a>(alloc: Global, found: &ArgMatches<'a>) -> Result<PrintRequest<'a>, NoRequest>
    ensures { IfOk result (IsPrintRequestOf (codes "dialogue") (found_of found.now)) }
{
    let console = console_of(found)?;
    let start = start_of(alloc, found)?;
    let stage = Stage { console, start };
    Ok(PrintRequest::Dialogue(tapes_of(alloc, found)?, stage))
}

// The rehearsal of a tape, its script and further tapes.
fn rehearsal_of<'a>(alloc: Global, found: &ArgMatches<'a>) -> Result<PrintRequest<'a>, NoRequest>
    ensures { IfOk result (IsPrintRequestOf (codes "rehearse") (found_of found.now)) }
{
    let tape = text_of(found, names::TAPE)?;
    let script = text_of(found, names::SCRIPT)?;
    let more = further_tapes_of(alloc, found)?;
    Ok(PrintRequest::Rehearse(Rehearsal { tape, script, more }))
}
