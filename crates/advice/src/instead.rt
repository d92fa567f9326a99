//! What an input that is refused as a tape is instead, as a person at the terminal is told.
ghost use Rattle.std.specs.Prelude.{◌≡◌};
ghost use Rattle.advice.specs.Instead.{instead_of, is_head_of_gzip, is_head_of_records, is_readable, is_text};

use endings::Failure;
use load_record::RecordError;
use std::alloc::Global;
use std::io::Print;
use tape_blocks::{Fault, Why};
use witness::{End, Front, Witness};

/// What an input is that is no tape.
#[derive(Clone, Copy)]
pub enum Instead {
    /// Intel HEX.
    IntelHex,

    /// S-records.
    SRecords,

    /// Something that gzip has compressed.
    Gzip,

    /// A text that can be read.
    Text,
}

impl Instead {
    // What to do then.
    fn advice(self) -> &'static str {
        match self {
            Instead::IntelHex => {
                "this is Intel HEX, of which srec_cat makes a tape:\n\
                 srec_cat FILE -intel -o TAPE -dec_binary -execution-start-address N\n"
            }
            Instead::SRecords => {
                "these are S-records, of which srec_cat makes a tape:\n\
                 srec_cat FILE -o TAPE -dec_binary -execution-start-address N\n"
            }
            Instead::Gzip => "this is compressed: gunzip < FILE > TAPE\n",
            Instead::Text => {
                "this is text: of octal words 'ldaodt make' makes a tape; of a tape behind a text\n\
                 'tail -c +N FILE > TAPE' makes one, where its first 001 is byte N, from 1\n"
            }
        }
    }
}

/// Tells whoever waits at a terminal what a file is instead that was refused, by its first bytes and its last, or what
/// makes it what was asked for.
pub fn say_instead<T: Print>(
    alloc: Global,
    terminal: Option<&T>,
    failure: Failure<'_>,
    witness: &Witness,
) {
    let Some(terminal) = terminal else {
        return;
    };
    if let Some(checksum) = missing_checksum(failure, witness.end()) {
        say_checksum(alloc, terminal, checksum);
    }
    if let Some(advice) = advice(failure, witness) {
        let _ = terminal.write_all(advice.as_bytes());
    }
}

// Tells which one byte makes a tape of a file that lacks it, in octal digits.
fn say_checksum<T: Print>(alloc: Global, terminal: &T, checksum: u8) {
    if let Ok(text) = format!(in alloc;
        "its last block lacks its checksum: printf '\\{checksum:03o}' >> TAPE\n"
    ) {
        let _ = terminal.write_all(text.as_bytes());
    }
}

// What is told of the file that was begun last and refused so.
fn advice(failure: Failure<'_>, witness: &Witness) -> Option<&'static str> {
    match failure {
        Failure::TapeRefused(fault) | Failure::OneTapeRefused(_, fault) => {
            advice_of_tape(fault, witness.front())
        }
        Failure::WordsRefused(_) => advice_of_words(witness.front()?),
        Failure::RecordRefused(RecordError::Foreign(_)) => Some(advice_of_record(witness.end())),
        _ => None,
    }
}

// The same of a record, by its last bytes: one that has the mark is of a program that may be running.
fn advice_of_record(end: Option<End>) -> &'static str {
    match end {
        Some(end) if end.ends_with(&MARK) => STARTED_RECORD,
        _ => ANOTHER_RECORD,
    }
}

// The same of a tape.
fn advice_of_tape(fault: Fault, front: Option<Front>) -> Option<&'static str> {
    match fault.why {
        Why::NoTransfer if fault.at == 0 => Some(EMPTY),
        Why::NoTransfer => Some(NO_TRANSFER),
        Why::Stray => advice_of(front?),
        _ => None,
    }
}

// The same of octal words: where they seem to be what a console printed.
fn advice_of_words(front: Front) -> Option<&'static str> {
    if front.contains(&b'@') {
        Some(OF_CONSOLE)
    } else {
        None
    }
}

/// Every hole punched: what a leader of rubouts is made of.
pub(crate) const RUBOUT: u8 = 0o377;

/// What each block of a tape begins with.
pub(crate) const BLOCK: [u8; 2] = [1, 0];

// The front of the block that ends a tape, without the start and the checksum.
const LAST_BLOCK: [u8; 4] = [1, 0, 6, 0];

// The checksum that a tape lacks which was refused so, and of which these bytes are the last.
fn missing_checksum(failure: Failure<'_>, end: Option<End>) -> Option<u8> {
    let (Failure::TapeRefused(fault) | Failure::OneTapeRefused(_, fault)) = failure else {
        return None;
    };
    let end = end?;
    if !matches!(fault.why, Why::Cut) || !end.starts_with(&LAST_BLOCK) {
        return None;
    }
    let sum = end.iter().fold(0u8, |sum, byte| sum.wrapping_add(*byte));
    Some(sum.wrapping_neg())
}

// What is told of an empty tape.
const EMPTY: &str = "the file is empty\n";

// The line that a record ends with once its program was about to be started, behind the line before it.
const MARK: [u8; 3] = *b"\nG\n";

// What is told of a record that has it, and does not suit.
const STARTED_RECORD: &str =
    "it says that a program was about to be started: look at the machine first, it may run\n";

// What is told of a record that is none of the tape's.
const ANOTHER_RECORD: &str =
    "it is of another tape, or was edited: with another --record FILE the load begins anew\n";

// What is told of what a console printed, where octal words should stand.
const OF_CONSOLE: &str = "of what a console printed: tr @/ '  ' < FILE > WORDS\n";

// What is told of a tape with a leader of rubouts.
const OF_RUBOUTS: &str = "its leader is rubouts: LC_ALL=C sed '1s/^\\o377*//' FILE > TAPE\n";

// What is told of a tape before which something else stands.
const OF_LABEL: &str =
    "it is no tape, or a label stands before it: 'tail -c +N FILE > TAPE' makes one,\n\
     where its first 001 is byte N, from 1\n";

// What is told of a tape without a transfer block.
const NO_TRANSFER: &str = "it lacks a block with a start; this one starts nothing:\n\
     printf '\\1\\0\\6\\0\\1\\0\\370' >> TAPE\n";

// What is told of an input with these first bytes.
fn advice_of(front: Front) -> Option<&'static str> {
    let [first, second, third, fourth] = front;
    match instead_of(first, second, third, fourth) {
        Some(instead) => Some(instead.advice()),
        None if first == RUBOUT => Some(OF_RUBOUTS),
        None if front.starts_with(&BLOCK) => None,
        None => Some(OF_LABEL),
    }
}

// What an input with these first bytes is, where that is known.
fn instead_of(first: u8, second: u8, third: u8, fourth: u8) -> Option<Instead>
    ensures { result ≡ instead_of first second third fourth }
{
    if first == b':' {
        return Some(Instead::IntelHex);
    }
    if is_head_of_records(first, second) {
        return Some(Instead::SRecords);
    }
    if is_head_of_gzip(first, second) {
        return Some(Instead::Gzip);
    }
    if is_text(first, second, third, fourth) {
        return Some(Instead::Text);
    }
    None
}

// Whether two bytes begin S-records: S and a digit from 0 to 3.
fn is_head_of_records(first: u8, second: u8) -> bool
    ensures { result ≡ is_head_of_records first second }
{
    first == b'S' && second >= b'0' && second <= b'3'
}

// Whether two bytes begin what gzip has compressed.
fn is_head_of_gzip(first: u8, second: u8) -> bool
    ensures { result ≡ is_head_of_gzip first second }
{
    first == 0x1F && second == 0x8B
}

// Whether four bytes begin a text.
fn is_text(first: u8, second: u8, third: u8, fourth: u8) -> bool
    ensures { result ≡ is_text first second third fourth }
{
    is_readable(first) && is_readable(second) && is_readable(third) && is_readable(fourth)
}

// Whether a byte stands in a text that can be read: a tab, an end of a line, or a printing character of ASCII.
fn is_readable(byte: u8) -> bool
    ensures { result ≡ is_readable byte }
{
    byte == 9 || byte == 10 || byte == 13 || (byte >= 32 && byte <= 126)
}
