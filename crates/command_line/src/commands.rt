//! How the parser is told of the program and of its commands.
ghost use Rattle.std.specs.Prelude.{◌≡◌, IfOk};
ghost use Rattle.clap.specs.Words.{app_of};
ghost use Rattle.command_line.specs.Commands.{IsToldAll, command_told, known_words, program_told};

use crate::arguments::argument_told;
use clap::Command;
use command_tables::{KnownCommand, PROGRAM_HELP, machine_commands, tape_commands};
use std::alloc::{AllocError, Global};

/// All words that the program knows, for the parser. An error comes where memory is wanting.
pub fn known_words<'a>(alloc: Global) -> Result<Command<'a>, AllocError>
    ensures { IfOk result (λ known. app_of known ≡ known_words) }
{
    let bare = program(alloc)?;
    let at_machines = with_commands(alloc, bare, &machine_commands())?;
    with_commands(alloc, at_machines, &tape_commands())
}

// What is known, and these commands behind it.
fn with_commands<'a>(
    alloc: Global,
    known: Command<'a>,
    commands: &[KnownCommand],
) -> Result<Command<'a>, AllocError>
    ensures { IfOk result (λ all. IsToldAll (app_of known.entry) (app_of all) commands.now) }
{
    let mut all = known;
    for command in commands {
        all = all.subcommand(command_told(alloc, *command)?)?;
    }
    Ok(all)
}

// The program, but for its commands.
fn program<'a>(alloc: Global) -> Result<Command<'a>, AllocError>
    ensures { IfOk result (λ program. app_of program ≡ program_told) }
{
    Command::new(alloc, "ldaodt")
        .about("Loads a PDP-11 absolute loader tape through the console ODT of an LSI-11")
        .after_help(PROGRAM_HELP)
        .no_binary_name(true)
        .version("0.1.0")
        .override_usage("ldaodt [COMMAND]")
        .subcommand_required(true)
        .bin_name("ldaodt")
}

// A command, as the parser is told.
fn command_told<'a>(alloc: Global, known: KnownCommand) -> Result<Command<'a>, AllocError>
    ensures { IfOk result (λ command. (app_of command).top ≡ command_told known) }
{
    let word: &'a str = known.word;
    let mut command = Command::new(alloc, word)
        .about(known.about)
        .after_help(known.help);
    for argument in known.arguments {
        command = command.arg(argument_told(alloc, argument)?)?;
    }
    Ok(command)
}
