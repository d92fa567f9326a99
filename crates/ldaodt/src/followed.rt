//! Tapes that a file has more behind, which nobody is told of else.

use crate::names::Names;
use advice::say_what_follows;
use byte_io::read_up_to;
use input_files::is_input;
use request_values::{MachineRequest, PrintRequest, Request, TapeRequest};
use std::alloc::Global;
use std::fs;
use std::io::Print;
use tape_commands::{InputNames, names_of};

// How many of a file's bytes are looked at: a tape has no more.
const LOOKED_AT: usize = 1_048_576;

/// Tells whoever waits at a terminal what stands behind the tapes of a request, each in its file. Only plain files are
/// read for that; what can't be is left to whoever takes the tapes.
pub(crate) fn say_followed<N: Names, T: Print>(
    rt: &N,
    alloc: Global,
    terminal: &T,
    request: &Request<'_>,
) {
    let Some(tapes) = tapes_of(request) else {
        return;
    };
    if is_input(tapes) {
        return;
    }
    for name in tapes {
        say_followed_in(rt, alloc, terminal, name);
    }
}

// The names of a request's tapes, where it takes tapes alone.
fn tapes_of<'a, 'b>(request: &'b Request<'a>) -> Option<&'b [&'a str]> {
    match request {
        Request::Machine(MachineRequest::Load(tapes, _)) => Some(tapes),
        Request::Machine(MachineRequest::Verify(tapes, _)) => Some(tapes),
        Request::Tape(TapeRequest::Print(request)) => printed_tapes(request),
        _ => None,
    }
}

// The same of one that only prints.
fn printed_tapes<'a, 'b>(request: &'b PrintRequest<'a>) -> Option<&'b [&'a str]> {
    match names_of(request) {
        InputNames::Tapes(tapes) => Some(tapes),
        InputNames::Nothing | InputNames::Scripted(_) => None,
    }
}

// The same of one file.
fn say_followed_in<N: Names, T: Print>(rt: &N, alloc: Global, terminal: &T, name: &str) {
    let Ok(metadata) = fs::metadata(rt, name) else {
        return;
    };
    if !metadata.is_file() {
        return;
    }
    let Ok(mut file) = fs::open(rt, name) else {
        return;
    };
    if let Ok(text) = read_up_to(alloc, &mut file, LOOKED_AT) {
        say_what_follows(alloc, terminal, name, &text, metadata.len());
    }
}
