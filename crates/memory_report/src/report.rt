//! The report of a memory test.
ghost use Rattle.std.specs.Prelude.{◌≡◌, ◌<◌, ◌≤◌, [], length};
ghost use Rattle.memory_report.specs.Report.{found_of, memory_text};

use crate::bad_words::push_words;
use crate::bank::bank_of;
use crate::bus_text::push_bus;
use crate::end_text::{push_borrowed, push_end};
use crate::findings::Findings;
use crate::picture::push_rows;
use arrayvec::ArrayVec;
use byte_io::push_bytes;

// More bytes than a report has.
const REPORT_ROOM: usize = 4000;

/// A report, in room of its own: a test that is over needs no memory to say what it found.
pub type Report = ArrayVec<u8, REPORT_ROOM>;

/// Puts the report of a test into an empty text.
pub fn push_report(text: &mut Report, findings: &Findings)
    requires empty { text.old.items ≡ [] }
    requires order { findings.now.from ≤ findings.now.to }
    requires top { findings.now.to < 0o160000 }
    ensures text { text.new.items ≡ memory_text (found_of findings.now) }
{
    push_bytes(
        text,
        b"                15 14 13 12 11 10  9  8  7  6  5  4  3  2  1  0\n",
    );
    push_rows(
        text,
        &findings.words,
        &findings.gaps,
        bank_of(findings.from),
        bank_of(findings.to),
    );
    push_words(text, &findings.words);
    push_bus(text, &findings.bus);
    push_borrowed(text, findings.borrowed);
    push_end(text, findings.end);
}
