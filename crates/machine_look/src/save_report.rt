//! The report of `save`.
ghost use Rattle.std.specs.Prelude.{◌≡◌, ◌+◌, ◌≤◌, ◌++◌, [], codes};
ghost use Rattle.arrayvec.specs.ArrayVec.{array_vec_len};
ghost use Rattle.octal.specs.Octal.{octal_text};
ghost use Rattle.byte_io.specs.Text.{line};
ghost use Rattle.machine_look.specs.SaveReport.{held_end, save_counts_text, save_end_name, save_end, save_report};

use crate::save_end::SaveEnd;
use crate::verify_report::{LastLines, push_no_word};
use byte_io::{push_bytes, push_decimal, push_octal};
use engine::Cut;
use reading_core::End;
use sample_looks::Finding;

/// What a save counts.
#[derive(Clone, Copy)]
pub struct SaveCounts {
    /// The characters that were sent.
    pub sent: u64,

    /// The mishaps.
    pub spent: u32,

    /// How many words the tape has.
    pub read: usize,

    /// How many words were to be saved.
    pub words: usize,
}

/// The report of a save: its counts, and how it ended.
pub(crate) fn save_report(counts: SaveCounts, end: SaveEnd) -> LastLines
    ensures { result.items ≡ save_report counts end }
{
    let mut text = LastLines::new();
    push_counts(&mut text, counts);
    push_end(&mut text, end);
    text
}

/// How a reading ends whose words are saved, and may be believed or not.
pub(crate) fn save_end(stop: Result<End, Cut>, trusted: bool) -> SaveEnd
    ensures { result ≡ save_end stop trusted }
{
    match stop {
        Ok(End::Complete) if trusted => SaveEnd::Saved,
        Ok(End::NoWord(address)) if trusted => SaveEnd::NoWord(address),
        Ok(End::Complete | End::NoWord(_)) => SaveEnd::Changed,
        Ok(End::GaveUp) => SaveEnd::GaveUp,
        Err(cut) => SaveEnd::CutOff(cut),
    }
}

/// How a save ends that its looks held up.
pub(crate) fn held_end(finding: Finding, stop: Result<End, Cut>) -> SaveEnd
    ensures { result ≡ held_end finding stop }
{
    match finding {
        Finding::Stale(address) => SaveEnd::Stale(address),
        _ => save_end(stop, true),
    }
}

fn push_counts(text: &mut LastLines, counts: SaveCounts)
    requires { text.old.items ≡ [] }
    ensures items { text.new.items ≡ line (save_counts_text counts) }
    ensures length { array_vec_len text.new ≤ 103 }
{
    push_bytes(text, b"sent ");
    push_decimal(text, counts.sent);
    push_bytes(text, b" spent ");
    push_decimal(text, counts.spent.into());
    push_bytes(text, b" read ");
    push_decimal(text, counts.read as u64);
    push_bytes(text, b" of ");
    push_decimal(text, counts.words as u64);
    push_bytes(text, b"\n");
}

fn push_end(text: &mut LastLines, end: SaveEnd)
    requires { array_vec_len text.old ≤ 103 }
    ensures { text.new.items ≡ text.old.items ++ line (codes "end " ++ save_end_name end) }
{
    push_bytes(text, b"end ");
    push_end_name(text, end);
    push_bytes(text, b"\n");
}

fn push_end_name(text: &mut LastLines, end: SaveEnd)
    requires { array_vec_len text.old ≤ 107 }
    ensures items { text.new.items ≡ text.old.items ++ save_end_name end }
    ensures length { array_vec_len text.new ≤ array_vec_len text.old + 13 }
{
    match end {
        SaveEnd::Saved => push_bytes(text, b"Saved"),
        SaveEnd::Changed => push_bytes(text, b"Changed"),
        SaveEnd::NoWord(address) => push_no_word(text, address),
        SaveEnd::GaveUp => push_bytes(text, b"GaveUp"),
        SaveEnd::CutOff(cut) => push_bytes(text, cut.name()),
        SaveEnd::Stale(address) => push_stale(text, address),
    }
}

fn push_stale(text: &mut LastLines, address: u16)
    requires { array_vec_len text.old ≤ 107 }
    ensures items { text.new.items ≡ text.old.items ++ (codes "Stale " ++ octal_text address) }
    ensures length { array_vec_len text.new ≡ array_vec_len text.old + 12 }
{
    push_bytes(text, b"Stale ");
    push_octal(text, address);
}
