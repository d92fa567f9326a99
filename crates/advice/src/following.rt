//! What follows the tape in a file, as a person at the terminal is told.

use crate::instead::{BLOCK, RUBOUT};
use endings::write_name;
use std::alloc::Global;
use std::io;
use std::io::{Print, Write};
use tape_blocks::read_with_layout;

// Where nothing is punched; a leader is of that or of rubouts.
const BLANK: u8 = 0o000;

// What the bytes behind a tape look like.
#[derive(Clone, Copy)]
enum Content {
    // A block of another tape.
    Tape,

    // More of an object module, whose first blocks look like a tape.
    Module,

    // Anything else.
    Unknown,
}

/// Tells whoever waits at a terminal what follows the tape in a file of so many bytes, where anything does but a
/// leader. Of the file's front, `text`, that is looked for; what is no tape is left to whoever refuses it.
pub fn say_what_follows<T: Print>(
    alloc: Global,
    terminal: &T,
    name: &str,
    text: &[u8],
    length: u64,
) {
    let mut behind = text;
    if read_with_layout(alloc, &mut behind).is_err() {
        return;
    }
    let Some(content) = content_of(text, behind) else {
        return;
    };
    let taken = text.len() as u64 - (behind.len() as u64).min(text.len() as u64);
    let bytes = length.saturating_sub(taken);
    let mut line = Vec::new(alloc);
    if write_name(&mut line, name).is_ok() && write_followed(&mut line, bytes, content).is_ok() {
        let _ = terminal.write_all(&line);
    }
}

// Writes behind a file's name that so many bytes follow its tape.
fn write_followed(line: &mut Vec<u8>, bytes: u64, content: Content) -> io::Result<()> {
    write!(line, ": {bytes} bytes follow the tape: ")?;
    match content {
        Content::Tape => writeln!(
            line,
            "another tape, which 'tail -c {bytes} FILE > TAPE' makes"
        ),
        Content::Module => line.write_all(b"this is an object module, and no tape: link it\n"),
        Content::Unknown => line.write_all(b"they belong to no tape\n"),
    }
}

// What stands behind a tape in a text; none where it is a leader alone.
fn content_of(text: &[u8], behind: &[u8]) -> Option<Content> {
    let first = behind
        .iter()
        .position(|byte| *byte != BLANK && *byte != RUBOUT)?;
    if !behind[first..].starts_with(&BLOCK) {
        return Some(Content::Unknown);
    }
    if is_module(text) {
        return Some(Content::Module);
    }
    Some(Content::Tape)
}

// Whether the first block of a text is that of an object module: its kind, which is 1, stands where a tape has an address.
fn is_module(text: &[u8]) -> bool {
    match text.iter().position(|byte| *byte != BLANK) {
        Some(first) => matches!(&text[first..], [_, _, _, _, 1, 0, ..]),
        None => false,
    }
}
