//! The words of a failure's line. They are put together in room that is there, since formatting may fail.
ghost use Rattle.std.specs.Prelude.{◌≡◌, ◌≤◌, ◌++◌, ◌+◌, codes, length};
ghost use Rattle.arrayvec.specs.ArrayVec.{array_vec_len};
ghost use Rattle.endings.specs.Failure.{failure_words, one_tape_text, refused_line_text};
ghost use Rattle.endings.specs.LineReason.{line_failed};
ghost use Rattle.tape_blocks.specs.Fault.{fault_text};
ghost use Rattle.tape_making.specs.Refusal.{refusal_text};

use crate::failure::Failure;
use arrayvec::ArrayVec;
use byte_io::{push_bytes, push_decimal};
use host_devices::LineFault;
use load_record::RecordError;
use tape_blocks::{Fault, OUT_OF_MEMORY, REFUSED_AT, TAPE};
use tape_making::{REFUSED_WORDS, Refusal};

/// The words of a line, with room for the longest and for its end.
pub(crate) type LineWords = ArrayVec<u8, 128>;

/// The program's name and the words of a failure's line, up to the name in it where it has one.
pub(crate) fn line_words(failure: Failure<'_>) -> LineWords
    ensures words { result.items ≡ codes "ldaodt: " ++ failure_words failure.entry }
    ensures short { array_vec_len result ≤ 127 }
{
    let mut words = LineWords::new();
    push_bytes(&mut words, b"ldaodt: ");
    push_words(&mut words, failure);
    words
}

// Puts a failure's words behind the program's name.
fn push_words(words: &mut LineWords, failure: Failure<'_>)
    requires { array_vec_len words.old ≤ 8 }
    ensures words { words.new.items ≡ words.old.items ++ failure_words failure.entry }
    ensures short { array_vec_len words.new ≤ 127 }
{
    match failure {
        Failure::CannotRead(_) => push_bytes(words, b"cannot read "),
        Failure::CannotWrite => push_bytes(words, b"cannot write output"),
        Failure::CannotWriteFile(_) => push_bytes(words, b"cannot write "),
        Failure::FileIsThere(_)
        | Failure::PartIsThere(_)
        | Failure::PartNotOfSave(_)
        | Failure::Misplaced(..) => {}
        Failure::PartStale(_) => push_bytes(words, b"memory does not hold what "),
        Failure::CannotConnect(_) => push_bytes(words, b"cannot connect to "),
        Failure::RecordInUse(_) => push_bytes(words, b"record in use: "),
        Failure::LineFailed(fault) | Failure::StartInDoubt(fault) => push_bytes(
            words,
            line_failed(fault),
        ),
        Failure::TapeRefused(fault) => {
            push_bytes(words, TAPE.as_bytes());
            push_fault(words, fault);
        }
        Failure::OneTapeRefused(number, fault) => push_tape(words, number, fault),
        Failure::ScriptRefused(line) => push_place(words, b"script ", line),
        Failure::WordsRefused(refusal) => push_refusal(words, refusal),
        Failure::RecordRefused(RecordError::NotARecord) => {
            push_bytes(words, b"record refused: NotARecord");
        }
        Failure::RecordRefused(RecordError::Foreign(line)) => {
            push_place(words, b"record ", line);
        }
        Failure::RecordStale => {
            push_bytes(
                words,
                b"memory does not hold what the record says: load with --recheck",
            );
        }
        Failure::TooLarge => push_bytes(words, b"machine too large"),
        Failure::BadWord => push_bytes(words, b"a word of the command line is not UTF-8"),
        Failure::NoMemory => push_bytes(words, OUT_OF_MEMORY.as_bytes()),
    }
}

// That the line failed, and on a line of its own how, and what to look at.
fn line_failed(fault: LineFault) -> &'static [u8]
    ensures text { result.now ≡ line_failed fault }
    ensures short { length result.now ≤ 100 }
{
    match fault {
        LineFault::Connect => b"line failed\nldaodt: there was no connection",
        LineFault::Send => {
            b"line failed\nldaodt: a key could not be sent: is its output stopped, or the other end gone?"
        }
        LineFault::Closed => {
            b"line failed\nldaodt: the other end closed it, or the adapter was pulled"
        }
        LineFault::Receive => {
            b"line failed\nldaodt: nothing more could be read: was the adapter pulled?"
        }
        LineFault::Full => b"line failed\nldaodt: it has no room for more",
        LineFault::Noise => {
            b"line failed\nldaodt: nothing but zeroes came: are speed and parity the console's?"
        }
    }
}

// Puts the words of one of several tapes behind others.
fn push_tape(words: &mut LineWords, number: usize, fault: Fault)
    requires { array_vec_len words.old ≤ 8 }
    ensures words { words.new.items ≡ words.old.items ++ (codes "tape " ++ one_tape_text number fault) }
    ensures short { array_vec_len words.new ≤ 127 }
{
    push_bytes(words, TAPE.as_bytes());
    push_decimal(words, number as u64);
    push_bytes(words, b" ");
    push_fault(words, fault);
}

// Puts a tape's fault behind other words, as it is shown.
fn push_fault(words: &mut LineWords, fault: Fault)
    requires { array_vec_len words.old ≤ 64 }
    ensures words { words.new.items ≡ words.old.items ++ fault_text fault }
    ensures short { array_vec_len words.new ≤ array_vec_len words.old + 33 }
{
    push_bytes(words, fault.text().as_str().as_bytes());
}

// Puts what is said of refused words behind the program's name.
fn push_refusal(words: &mut LineWords, refusal: Refusal)
    requires { array_vec_len words.old ≤ 8 }
    ensures words { words.new.items ≡ words.old.items ++ refusal_text refusal }
    ensures short { array_vec_len words.new ≤ 127 }
{
    push_bytes(words, REFUSED_WORDS.as_bytes());
    push_decimal(words, refusal.line as u64);
    push_bytes(words, b": ");
    push_bytes(words, refusal.why.name().as_bytes());
}

// Puts what is refused, and the number of its line, behind other words.
fn push_place(words: &mut LineWords, refused: &[u8], line: u32)
    requires before { array_vec_len words.old ≤ 8 }
    requires short_word { length refused.now ≤ 30 }
    ensures words { words.new.items ≡ words.old.items ++ (refused.now ++ refused_line_text line) }
    ensures short { array_vec_len words.new ≤ 127 }
{
    push_bytes(words, refused);
    push_bytes(words, REFUSED_AT.as_bytes());
    push_bytes(words, b"line ");
    push_decimal(words, u64::from(line));
}
