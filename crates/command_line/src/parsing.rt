//! Words become a request, as the plain values say where one is not given.
ghost use Rattle.std.specs.Prelude.{◌≡◌, ℕ, List, [], IfErr, IfOk, map};
ghost use Rattle.std.specs.String.{string_bytes};
ghost use Rattle.clap.specs.Matches.{found_of};
ghost use Rattle.clap.specs.Simple.{subcommand_of, subcommand_rows_of};
ghost use Rattle.command_line.specs.Commands.{known_words, IsMachineRequestOf};
ghost use Rattle.command_line.specs.Help.{IsAnswerTo};
ghost use Rattle.command_line.specs.Wanted.{IsAskedBy, IsWantedBy, IsWantedOf, unlogged};

use crate::commands::known_words;
use crate::help::ask_for_help;
use crate::machine_words::{loading_of, probing_of, saving_of, testing_of, verifying_of};
use crate::no_request::NoRequest;
use crate::shown_words::{have_control, shown_words};
use crate::tape_words::tape_request_of;
use crate::wanted::{Wanted, unlogged};
use clap::ArgMatches;
use command_tables::names::LOG;
use request_values::{MachineRequest, PrintRequest, Request, TapeRequest};
use std::alloc::Global;

/// Reads the words after the program's name. Without any the tape on standard input is to be checked.
pub fn parse<'a>(alloc: Global, words: &'a [String]) -> Result<Wanted<'a>, NoRequest>
    ensures none { words.now ≡ [] → result ≡ Ok (unlogged (Request.Tape (TapeRequest.Print PrintRequest.CheckInput))) }
    ensures some { IfOk result (IsAskedBy (map string_bytes words.now)) }
    // Help is for words that ask for it.
    ensures answer { IfErr result (IsAnswerTo (map string_bytes words.now)) }
{
    let Some(first) = words.first() else {
        let request = TapeRequest::Print(PrintRequest::CheckInput);
        return Ok(unlogged(Request::Tape(request)));
    };
    match read(alloc, first, words) {
        Ok(wanted) => Ok(wanted),
        Err(NoRequest::Refused(text)) => Err(asked(words, shown_refusal(alloc, words, text))),
        Err(answer) => Err(asked(words, answer)),
    }
}

// The answer to words. Help is one where a word asks for it; without such a word the parser gives none.
fn asked(words: &[String], answer: NoRequest) -> NoRequest
    ensures { IsAnswerTo (map string_bytes words.now) result }
{
    match answer {
        NoRequest::Help(text) => {
            if ask_for_help(words) {
                NoRequest::Help(text)
            } else {
                NoRequest::Meaningless
            }
        }
        answer => answer,
    }
}

// The refusal of words that are refused by this text, with their control characters shown: words as they
// are shown are refused as they are.
fn shown_refusal(alloc: Global, words: &[String], text: String) -> NoRequest {
    if !have_control(words) {
        return NoRequest::Refused(text);
    }
    match shown_words(alloc, words) {
        Ok(shown) => refusal_of(alloc, &shown).unwrap_or(NoRequest::Refused(text)),
        Err(_) => NoRequest::NoMemory,
    }
}

// Why words ask for nothing that could be done, where they do.
fn refusal_of(alloc: Global, words: &[String]) -> Option<NoRequest> {
    read(alloc, words.first()?, words).err()
}

// What words ask for, of which this is the first.
fn read<'a>(alloc: Global, first: &str, words: &'a [String]) -> Result<Wanted<'a>, NoRequest>
    ensures { IfOk result (IsWantedBy (subcommand_of known_words (map string_bytes words.now))) }
{
    match known_words(alloc)?.try_get_matches_from(words) {
        Ok(matches) => request_of(alloc, &matches),
        Err(error) => Err(NoRequest::of(alloc, first, &error)),
    }
}

// What the parsed words ask for, where there were any.
fn request_of<'a>(alloc: Global, matches: &ArgMatches<'a>) -> Result<Wanted<'a>, NoRequest>
    ensures { IfOk result (IsWantedBy (subcommand_rows_of matches.now)) }
{
    match matches.subcommand() {
        Some((command, found)) => wanted_of(alloc, command, found),
        None => Err(NoRequest::Meaningless),
    }
}

// What a command asks for, with what was found for its arguments and options.
fn wanted_of<'a>(
    alloc: Global,
    command: &str,
    found: &ArgMatches<'a>,
) -> Result<Wanted<'a>, NoRequest>
    ensures { IfOk result (IsWantedOf command.now (found_of found.now)) }
{
    match command {
        "load" => Ok(at_machine(found, loading_of(alloc, found)?)),
        "verify" => Ok(at_machine(found, verifying_of(alloc, found)?)),
        "save" => Ok(at_machine(found, saving_of(alloc, found)?)),
        "probe" => Ok(at_machine(found, probing_of(alloc, found)?)),
        "memory" => Ok(at_machine(found, testing_of(alloc, found)?)),
        _ => Ok(unlogged(Request::Tape(tape_request_of(alloc, command, found)?))),
    }
}

// What is wanted of a machine.
fn at_machine<'a>(found: &ArgMatches<'a>, request: MachineRequest<'a>) -> Wanted<'a>
    ensures { (command : List ℕ) → IsMachineRequestOf command (found_of found.now) request.entry → IsWantedOf command (found_of found.now) result }
{
    Wanted {
        request: Request::Machine(request),
        log: found.get_flag(LOG),
    }
}
