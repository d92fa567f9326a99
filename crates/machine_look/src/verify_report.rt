//! The report of `verify`.
ghost use Rattle.std.specs.Prelude.{◌≡◌, ◌+◌, ◌≤◌, ◌++◌, [], length, codes};
ghost use Rattle.arrayvec.specs.ArrayVec.{array_vec_len};
ghost use Rattle.octal.specs.Octal.{octal_text};
ghost use Rattle.byte_io.specs.Text.{line};
ghost use Rattle.machine_look.specs.VerifyReport.{verify_counts_text, difference_text, verify_end_name, life_text, last_lines, verify_end};

use crate::difference::Difference;
use crate::verify_end::VerifyEnd;
use arrayvec::ArrayVec;
use byte_io::{push_bytes, push_decimal, push_octal};
use engine::Cut;
use reading_core::{End, ReadingCore};

// Room for the line of a difference: four words of six digits, what stands between them, and its end.
const LINE_ROOM: usize = 36;

// Room for the last two lines of a report: their words, five numbers of 20 digits and the longest name of an end.
const LAST_ROOM: usize = 151;

/// The last two lines of a report, in room of their own.
pub(crate) type LastLines = ArrayVec<u8, LAST_ROOM>;

/// How a reading ends that may be believed or not, and with which so many words differ.
pub(crate) fn verify_end(trusted: bool, differ: usize, stop: Result<End, Cut>) -> VerifyEnd
    ensures { result ≡ verify_end trusted differ stop }
{
    match stop {
        Ok(End::Complete) if differ > 0 => VerifyEnd::Differs,
        Ok(End::Complete) if trusted => VerifyEnd::Same,
        Ok(End::Complete) => VerifyEnd::Changed,
        Ok(End::GaveUp) => VerifyEnd::GaveUp,
        Ok(End::NoWord(address)) => VerifyEnd::NoWord(address),
        Err(cut) => VerifyEnd::CutOff(cut),
    }
}

/// The line of a difference: the word's address, mask and value, and what memory holds there.
pub(crate) fn difference_line(difference: Difference) -> ArrayVec<u8, LINE_ROOM>
    ensures items { result.items ≡ line (difference_text difference) }
    ensures length { array_vec_len result ≡ 36 }
{
    let Difference { word, now } = difference;
    let mut text = ArrayVec::new();
    push_octal(&mut text, word.address());
    push_bytes(&mut text, b" ");
    push_octal(&mut text, word.mask());
    push_bytes(&mut text, b" ");
    push_octal(&mut text, word.value());
    push_bytes(&mut text, b" differs ");
    push_octal(&mut text, now);
    push_bytes(&mut text, b"\n");
    text
}

/// The last lines of a report: the counts of the host's life, with so many words that differ, and how it ended.
pub(crate) fn last_lines(
    core: &ReadingCore,
    trusted: bool,
    differ: usize,
    stop: Result<End, Cut>,
) -> LastLines
    ensures { result.items ≡ last_lines trusted (length core.now.addresses) core.now differ stop }
{
    let mut text = LastLines::new();
    push_counts(&mut text, core, differ);
    push_end(&mut text, verify_end(trusted, differ, stop));
    text
}

fn push_counts(text: &mut LastLines, core: &ReadingCore, differ: usize)
    requires { text.old.items ≡ [] }
    ensures items { text.new.items ≡ line (verify_counts_text (length core.now.addresses) core.now differ) }
    ensures length { array_vec_len text.new ≤ 133 }
{
    push_life(text, core);
    push_bytes(text, b" looked ");
    push_decimal(text, core.values().len() as u64);
    push_bytes(text, b" of ");
    push_decimal(text, core.addresses().len() as u64);
    push_bytes(text, b" differ ");
    push_decimal(text, differ as u64);
    push_bytes(text, b"\n");
}

/// Puts the counts of the host's life.
pub(crate) fn push_life(text: &mut LastLines, core: &ReadingCore)
    requires { text.old.items ≡ [] }
    ensures items { text.new.items ≡ life_text core.now }
    ensures length { array_vec_len text.new ≤ 52 }
{
    push_bytes(text, b"sent ");
    push_decimal(text, core.sent_count());
    push_bytes(text, b" spent ");
    push_decimal(text, core.spent().into());
}

fn push_end(text: &mut LastLines, end: VerifyEnd)
    requires { array_vec_len text.old ≤ 133 }
    ensures items { text.new.items ≡ text.old.items ++ line (codes "end " ++ verify_end_name end) }
    ensures length { array_vec_len text.new ≤ 151 }
{
    push_bytes(text, b"end ");
    push_end_name(text, end);
    push_bytes(text, b"\n");
}

fn push_end_name(text: &mut LastLines, end: VerifyEnd)
    requires { array_vec_len text.old ≤ 137 }
    ensures items { text.new.items ≡ text.old.items ++ verify_end_name end }
    ensures length { array_vec_len text.new ≤ array_vec_len text.old + 13 }
{
    match end {
        VerifyEnd::Same => push_bytes(text, b"Same"),
        VerifyEnd::Changed => push_bytes(text, b"Changed"),
        VerifyEnd::Differs => push_bytes(text, b"Differs"),
        VerifyEnd::NoWord(address) => push_no_word(text, address),
        VerifyEnd::GaveUp => push_bytes(text, b"GaveUp"),
        VerifyEnd::CutOff(cut) => push_bytes(text, cut.name()),
    }
}

/// Puts that memory has no word at an address.
pub(crate) fn push_no_word(text: &mut LastLines, address: u16)
    requires { array_vec_len text.old ≤ 137 }
    ensures items { text.new.items ≡ text.old.items ++ (codes "NoWord " ++ octal_text address) }
    ensures length { array_vec_len text.new ≡ array_vec_len text.old + 13 }
{
    push_bytes(text, b"NoWord ");
    push_octal(text, address);
}
