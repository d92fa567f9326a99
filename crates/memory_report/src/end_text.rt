//! How a test ended, and the word under way.
ghost use Rattle.std.specs.Prelude.{◌≡◌, ◌+◌, ◌≤◌, ◌++◌, codes};
ghost use Rattle.octal.specs.Octal.{octal_text};
ghost use Rattle.arrayvec.specs.ArrayVec.{array_vec_len};
ghost use Rattle.memory_report.specs.Report.{borrowed_text, end_name, end_text};

use crate::report::Report;
use crate::test_end::TestEnd;
use byte_io::{push_bytes, push_octal};
use memory_core::Borrowed;

/// Puts the word that may hold another number now, if there is one.
pub(crate) fn push_borrowed(text: &mut Report, borrowed: Option<Borrowed>)
    requires room { array_vec_len text.old ≤ 2100 }
    ensures items { text.new.items ≡ text.old.items ++ borrowed_text borrowed }
    ensures length { array_vec_len text.new ≤ array_vec_len text.old + 47 }
{
    if let Some(word) = borrowed {
        push_bytes(text, b"the word at ");
        push_octal(text, word.address);
        push_bytes(text, b" held ");
        push_octal(text, word.old);
        push_bytes(text, b", now look at it\n");
    }
}

/// Puts how the test ended.
pub(crate) fn push_end(text: &mut Report, end: TestEnd)
    requires room { array_vec_len text.old ≤ 2200 }
    ensures items { text.new.items ≡ text.old.items ++ end_text end }
{
    push_bytes(text, b"end ");
    push_name(text, end);
    push_bytes(text, b"\n");
}

fn push_name(text: &mut Report, end: TestEnd)
    requires room { array_vec_len text.old ≤ 2250 }
    ensures items { text.new.items ≡ text.old.items ++ end_name end }
    ensures length { array_vec_len text.new ≤ array_vec_len text.old + 13 }
{
    match end {
        TestEnd::Tested => push_bytes(text, b"Tested"),
        TestEnd::NotTrusted => push_bytes(text, b"NotTrusted"),
        TestEnd::NoWord(address) => push_no_word(text, address),
        TestEnd::GaveUp => push_bytes(text, b"GaveUp"),
        TestEnd::CutOff(cut) => push_bytes(text, cut.name()),
    }
}

fn push_no_word(text: &mut Report, address: u16)
    requires room { array_vec_len text.old ≤ 2250 }
    ensures items { text.new.items ≡ text.old.items ++ (codes "NoWord " ++ octal_text address) }
    ensures length { array_vec_len text.new ≤ array_vec_len text.old + 13 }
{
    push_bytes(text, b"NoWord ");
    push_octal(text, address);
}
