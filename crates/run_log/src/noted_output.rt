ghost use Rattle.std.specs.Prelude.{◌≡◌};
ghost use Rattle.run_log.specs.Report.{AreNotesSince};

use crate::report_notes::ReportNotes;
use endings::Output;
use std::io;
use std::io::Write;
use std::marker::{Brand, Model, PhantomData};

/// A name for what an output held at first, which only proofs read.
pub trait FirstHeld {
    ghost use Rattle.std.specs.Prelude.{ℕ, List, Option};

    /// What the output held at first.
    ghost held: { Option (List ℕ) };
}

impl FirstHeld for Brand {
    ghost use Rattle.std.specs.Prelude.{None};

    ghost held = { None };
}

/// An output of which is noted how a report ended that was written there, and is otherwise the output in it.
///
/// What a borrower promises of every output says nothing of the notes of this one. This type's own calls keep them true
/// of all that was written, so that they may be read whoever wrote it.
#[derive(Drop)]
pub struct NotedOutput<W: Write, E: FirstHeld> {
    output: W,
    notes: ReportNotes,

    // Whether the last line that was written has no end yet.
    is_mid_line: bool,
    of: PhantomData<E>,
}

impl<W: Write, E: FirstHeld> Model for NotedOutput<W, E> {
    ghost use Rattle.run_log.specs.Report.{AreNotesSince};

    ghost Value = { W };

    ghost view = { λ n. n.output };

    ghost invariant = { λ n. AreNotesSince E.held (W.contents n.output) n.notes };
}

impl<W: Write, E: FirstHeld> NotedOutput<W, E> {
    /// Notes what is written to an output from now on.
    pub fn new(output: W) -> NotedOutput<W, E>
        requires { W.contents output ≡ E.held }
        ensures { result ≡ output }
    {
        NotedOutput {
            output,
            notes: ReportNotes::new(),
            is_mid_line: false,
            of: PhantomData,
        }
    }

    /// Whether the last line that was written has no end yet.
    pub fn is_mid_line(&self) -> bool {
        self.is_mid_line
    }

    /// What was noted of all that was written.
    pub fn notes(&self) -> &ReportNotes
        ensures { AreNotesSince E.held (W.contents self.now) result.now }
    {
        &self.notes
    }
}

impl<W: Write, E: FirstHeld> Write for NotedOutput<W, E> {
    ghost contents = { λ noted. W.contents noted };

    /// Only what the output takes is noted.
    fn write(&mut self, buf: &[u8]) -> io::Result<usize> {
        let answer = self.output.write(buf);
        if let Ok(count) = answer {
            self.notes.see(&buf[..count]);
            if let Some(byte) = buf[..count].last() {
                self.is_mid_line = *byte != b'\n';
            }
        }
        answer
    }

    fn flush(&mut self) -> io::Result<()> {
        self.output.flush()
    }
}

impl<W: Output, E: FirstHeld> Output for NotedOutput<W, E> {
    ghost unread = { λ noted. W.unread noted };

    fn is_unread(&self) -> bool {
        self.output.is_unread()
    }
}
