//! What a probe prints of what it heard, where no answer fitted.
ghost use Rattle.std.specs.Prelude.{◌≡◌, ◌+◌, ◌*◌, ◌≤◌, ◌++◌, length};
ghost use Rattle.std.specs.List.{flat_map};
ghost use Rattle.arrayvec.specs.ArrayVec.{array_vec_len};
ghost use Rattle.byte_io.specs.Text.{line};
ghost use Rattle.probe_report.specs.HeardText.{heard_heading, heard_lines, heard_text, help_text, lines_with, octal_escape, quoted, readable};

use crate::notes::Notes;
use crate::probe_end::ProbeEnd;
use crate::report::Report;
use byte_io::push_bytes;
use engine::Cut;

/// Puts what was heard last and which heading helps, where a probe ended without an answer that fits.
pub(crate) fn push_heard(text: &mut Report, end: ProbeEnd, notes: &Notes)
    requires { array_vec_len text.old ≤ 100 }
    ensures items { text.new.items ≡ text.old.items ++ heard_lines end notes.now }
    ensures length { array_vec_len text.new ≤ array_vec_len text.old + 249 }
{
    match end {
        ProbeEnd::NoPrompt | ProbeEnd::GaveUp => push_lines(text, heading(notes), notes),
        ProbeEnd::CutOff(Cut::TurnsOver) => push_lines(text, b"It never falls silent", notes),
        ProbeEnd::Probed
        | ProbeEnd::NotTrusted
        | ProbeEnd::NoWord(_)
        | ProbeEnd::CutOff(Cut::LineFailed(_)) => {}
    }
}

fn push_lines(text: &mut Report, heading: &[u8], notes: &Notes)
    requires room { array_vec_len text.old ≤ 100 }
    requires heading { length heading.now ≤ 30 }
    ensures items { text.new.items ≡ text.old.items ++ lines_with heading.now notes.now }
    ensures length { array_vec_len text.new ≤ array_vec_len text.old + 249 }
{
    push_heard_text(text, notes);
    push_bytes(text, b"\n");
    push_help(text, heading);
}

fn push_help(text: &mut Report, heading: &[u8])
    requires room { array_vec_len text.old ≤ 300 }
    requires heading { length heading.now ≤ 30 }
    ensures items { text.new.items ≡ text.old.items ++ line (help_text heading.now) }
    ensures length { array_vec_len text.new ≤ array_vec_len text.old + 61 }
{
    push_bytes(text, b"help: docs/REAL-MACHINE.md, ");
    push_quoted(text, heading);
    push_bytes(text, b"\n");
}

fn push_quoted(text: &mut Report, heading: &[u8])
    requires room { array_vec_len text.old ≤ 400 }
    requires heading { length heading.now ≤ 30 }
    ensures items { text.new.items ≡ text.old.items ++ quoted heading.now }
    ensures length { array_vec_len text.new ≤ array_vec_len text.old + 32 }
{
    push_bytes(text, b"\"");
    push_bytes(text, heading);
    push_bytes(text, b"\"");
}

// The heading that helps, where the line fell silent.
fn heading(notes: &Notes) -> &'static [u8]
    ensures is { result.now ≡ heard_heading notes.now }
    ensures length { length result.now ≤ 30 }
{
    if notes.tail().is_empty() {
        b"Nothing answers"
    } else if notes.only_echoes() {
        b"Only what was typed comes back"
    } else if notes.prompt() {
        b"The answers are others"
    } else {
        b"Something else answers"
    }
}

fn push_heard_text(text: &mut Report, notes: &Notes)
    requires { array_vec_len text.old ≤ 100 }
    ensures items { text.new.items ≡ text.old.items ++ heard_text notes.now }
    ensures length { array_vec_len text.new ≤ array_vec_len text.old + 187 }
{
    if notes.tail().is_empty() {
        push_bytes(text, b"heard nothing");
        return;
    }
    if notes.only_echoes() {
        push_bytes(text, b"heard only what was typed: ");
    } else {
        push_bytes(text, b"heard ");
    }
    push_readable(text, notes.tail());
}

fn push_readable(text: &mut Report, characters: &[u8])
    requires room { array_vec_len text.old ≤ 200 }
    requires few { length characters.now ≤ 40 }
    ensures items { text.new.items ≡ text.old.items ++ flat_map readable characters.now }
    ensures length { array_vec_len text.new ≤ array_vec_len text.old + 160 }
{
    for character in characters {
        push_character(text, *character);
    }
}

// Puts a character as it is shown.
fn push_character(text: &mut Report, c: u8)
    requires { array_vec_len text.old ≤ 400 }
    ensures items { text.new.items ≡ text.old.items ++ readable c }
    ensures length { array_vec_len text.new ≤ array_vec_len text.old + 4 }
{
    if c == b'\r' {
        push_bytes(text, b"\\r");
    } else if c == b'\n' {
        push_bytes(text, b"\\n");
    } else if c == b'\\' {
        push_bytes(text, b"\\\\");
    } else if c < 32 || c >= 127 {
        push_bytes(text, &octal_escape(c));
    } else {
        push_bytes(text, &[c]);
    }
}

fn octal_escape(c: u8) -> [u8; 4]
    ensures { result ≡ octal_escape c }
{
    [b'\\', b'0' + c / 64, b'0' + c / 8 % 8, b'0' + c % 8]
}
