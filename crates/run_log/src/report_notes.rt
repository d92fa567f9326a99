//! What is noted of a report.
ghost use Rattle.std.specs.Prelude.{◌≡◌, ◌≤◌, ◌+◌, ℕ, List, [], ◌∷◌, ◌++◌, Some, codes};
ghost use Rattle.std.specs.Option.{option_or};
ghost use Rattle.arrayvec.specs.ArrayVec.{array_vec_len};
ghost use Rattle.run_log.specs.Report.{IsNoted, begins, is_count, report_text};

use arrayvec::ArrayVec;
use byte_io::push_bytes;
use std::marker::Model;

// More bytes than the longest of the lines that are noted has: words, five numbers of 20 digits.
const LINE_ROOM: usize = 160;

/// Room for what is told of a report: two lines, each behind a space.
pub(crate) const REPORT_ROOM: usize = 2 * (LINE_ROOM + 1);

// A line, or the front of one.
type Line = ArrayVec<u8, LINE_ROOM>;

/// What is told of a report.
pub(crate) type ReportText = ArrayVec<u8, REPORT_ROOM>;

/// What is noted of a text that grows: the first of its lines that says how a report ended, and the first that says what
/// it counted. What the started program prints stands behind both.
#[derive(Drop)]
pub struct ReportNotes {
    end: Option<Line>,
    counts: Option<Line>,

    // The front of the line that has not ended yet.
    front: Line,
}

impl Model for ReportNotes {
    ghost use Rattle.std.specs.Prelude.{option_map};
    ghost use Rattle.run_log.specs.Report.{Noted};

    ghost Value = { Noted };

    ghost view = { λ notes. record {
      ending = option_map (λ l. l.items) notes.end;
      counts = option_map (λ l. l.items) notes.counts;
      front = notes.front.items;
    } };
}

impl ReportNotes {
    /// Those of an empty text.
    pub fn new() -> ReportNotes
        ensures { IsNoted [] result }
    {
        ReportNotes {
            end: None,
            counts: None,
            front: Line::new(),
        }
    }

    /// Goes on with these bytes behind the text.
    pub fn see(&mut self, bytes: &[u8])
        ensures { (text : List ℕ) → IsNoted text self.old → IsNoted (text ++ bytes.now) self.new }
    {
        for byte in bytes {
            self.see_byte(*byte);
        }
    }

    // Goes on with this byte.
    fn see_byte(&mut self, byte: u8)
        ensures { (text : List ℕ) → IsNoted text self.old → IsNoted (text ++ byte ∷ []) self.new }
    {
        if byte == b'\n' {
            self.see_end_of_line();
        } else {
            let _ = self.front.try_push(byte);
        }
    }

    // Goes on with the end of a line, which is then noted where it is the first of its kind.
    fn see_end_of_line(&mut self)
        ensures { (text : List ℕ) → IsNoted text self.old → IsNoted (text ++ 10 ∷ []) self.new }
    {
        let line = self.front.take();
        if begins(&line, b"end ") {
            keep_first(&mut self.end, line);
        } else if is_count(&line) {
            keep_first(&mut self.counts, line);
        }
    }

    /// What is told of a report: nothing of one that has no end.
    pub(crate) fn told(&self) -> ReportText
        ensures { result.items ≡ report_text self.now }
    {
        let mut text = ReportText::new();
        if let Some(end) = &self.end {
            push_behind(&mut text, end);
            if let Some(counts) = &self.counts {
                push_behind(&mut text, counts);
            }
        }
        text
    }
}

// Puts a line behind other words.
fn push_behind(text: &mut ReportText, line: &Line)
    requires { array_vec_len text.old ≤ 161 }
    ensures items { text.new.items ≡ text.old.items ++ (codes " " ++ line.now.items) }
    ensures length { array_vec_len text.new ≤ array_vec_len text.old + 161 }
{
    push_bytes(text, b" ");
    push_bytes(text, line.as_slice());
}

// Whether a line begins with these words. One that fills its room may have more, and is none of a report.
fn begins(line: &Line, words: &[u8]) -> bool
    ensures { result ≡ begins words.now line.now.items }
{
    line.len() < LINE_ROOM && line.starts_with(words)
}

// Whether a line says what a report counted.
fn is_count(line: &Line) -> bool
    ensures { result ≡ is_count line.now.items }
{
    begins(line, b"sent ") || begins(line, b"tested ")
}

// Keeps a line where none is kept.
fn keep_first(kept: &mut Option<Line>, line: Line)
    ensures { kept.new ≡ option_or kept.old (Some line) }
{
    if kept.is_none() {
        *kept = Some(line);
    }
}
