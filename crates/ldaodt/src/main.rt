//! The program `ldaodt`: the words of its command line become a request, and how the request ended
//! becomes the exit status. What words ask for stands in `command_line`, all that is done in `requests` and below.
#![tactic(auto)]

mod followed;
mod misplaced;
mod names;
mod program;

use command_line::words_of;
use endings::{PipedOutput, Streams, print_failure};
use requests::WatchedSystem;
use run_log::NotedOutput;
use std::fs;
use std::fs::File;
use std::io::{Eprint, IsTerminal};
use std::marker::Brand;
use std::os::fd::{AsRawFd, IntoRawFd, RawFd};
use std::process::ExitCode;
use witness::{WatchedFile, Witness};

fn main(rt: HostRuntime) -> ExitCode {
    fill_standard_descriptors(&rt);
    let alloc = rt.alloc();
    let witness = Witness::new();
    let input = rt.stdin();
    let is_shown = rt.stdout().is_terminal();
    let is_typed = input.is_terminal();
    let mut streams = Streams {
        input: WatchedFile::new(input, &witness),
        out: NotedOutput::<_, Brand>::new(PipedOutput::new(rt.stdout())),
        err: rt.stderr(),
    };
    let words = match words_of(&rt) {
        Ok(words) => words,
        Err(failure) => return ExitCode::from(print_failure(
            alloc,
            failure,
            &mut streams.err,
        ).code()),
    };
    if words.is_empty() && is_typed {
        say_what_is_read(&rt);
    }
    let screen = rt.stderr();
    let terminal = screen.is_terminal().then_some(&screen);
    let system = WatchedSystem::watching(&rt, &witness);
    let (_, code) = program::program(&rt, system, alloc, &words, &mut streams, terminal, &witness);
    if is_shown && terminal.is_some() && streams.out.is_mid_line() {
        end_line(&rt);
    }
    ExitCode::from(code)
}

// Says to whoever typed the program's name alone what it waits for. What can't be said is not told.
fn say_what_is_read<R: Eprint>(rt: &R) {
    let _ = rt.eprint(&"ldaodt: reading a tape from standard input ('ldaodt --help' says more)\n");
}

// Ends the line in which a machine fell silent, so that a shell's prompt does not stand in it.
fn end_line<R: Eprint>(rt: &R) {
    let _ = rt.eprint(&"\n");
}

// Fills the descriptors 0 to 2 where the program was started without them, so that no file that it
// opens becomes its input or an output. Each is opened against its use: what is read or written
// there fails, as it should.
fn fill_standard_descriptors(rt: &HostRuntime) {
    if let Ok(file) = File::options().write(true).open(rt, "/dev/null") {
        keep_up_to(file, 0);
    }
    for _ in 0..2 {
        if let Ok(file) = fs::open(rt, "/dev/null") {
            keep_up_to(file, 2);
        }
    }
}

// Leaves a file open for as long as the program runs where its descriptor is at most this number.
fn keep_up_to(file: File, most: RawFd) {
    if file.as_raw_fd() <= most {
        let _ = file.into_raw_fd();
    }
}
