//! Writing a record to a writer, piece by piece.
ghost use Rattle.std.specs.Prelude.{◌≡◌, ℕ, ◌≤◌, List, ◌++◌, ◌∷◌, drop, OnErr, OnOk, IfOk, None};
ghost use Rattle.std.specs.Io.KnownBytes.{Appends};
ghost use Rattle.load_record.specs.declared.version.Version.TheVariants.{Second};
ghost use Rattle.byte_io.specs.Output.{WritesProperPrefix};
ghost use Rattle.byte_io.specs.Text.{line_end};
ghost use Rattle.load_record.specs.RecordText.{ending, joins, mark_text, open_run, pieces, run_over, second_piece, second_run, words_text};

use crate::line::{ended_half_line, ended_run_text, value_text};
use crate::run::{OpenRun, is_full};
use byte_io::{WriteFault, write_whole};
use std::io::Write;
use tape_image::{Plan, Word};

/// Writes the header and the first `verified` words of a plan, or all where it has fewer, behind the
/// end of the run line that stands open. Answers the run line that stands open then.
pub(crate) fn write_begin<W: Write>(
    out: &mut W,
    run: Option<OpenRun>,
    plan: &Plan,
    verified: u32,
) -> Result<Option<OpenRun>, WriteFault>
    ensures ok { IfOk result (λ now_open. (now_open ≡ open_run Second plan.now verified)
        × Appends (W.contents out.old) (W.contents out.new) (ending run ++ words_text Second plan.now verified)) }
    ensures err { OnErr result (WritesProperPrefix (W.contents out.old) (W.contents out.new) (ending run ++ words_text Second plan.now verified)) }
{
    write_whole(out, &b"\nLDAODT 2\n"[front_of_line(run)..])?;
    let words = plan.words();
    let count = (verified as usize).min(words.len());
    write_words(out, &words[..count])
}

// Writes the words one after another, where no run line stands open. Answers the run line that
// stands open then.
fn write_words<W: Write>(out: &mut W, words: &[Word]) -> Result<Option<OpenRun>, WriteFault>
    ensures ok { IfOk result (λ now_open. (now_open ≡ run_over Second None words.now)
        × Appends (W.contents out.old) (W.contents out.new) (pieces Second None words.now)) }
    ensures err { OnErr result (WritesProperPrefix (W.contents out.old) (W.contents out.new) (pieces Second None words.now)) }
{
    let mut run = None;
    for word in words {
        run = write_word(out, run, *word)?;
    }
    Ok(run)
}

/// Writes one more word. Answers the run line that stands open then.
pub(crate) fn write_word<W: Write>(
    out: &mut W,
    run: Option<OpenRun>,
    word: Word,
) -> Result<Option<OpenRun>, WriteFault>
    ensures ok { IfOk result (λ now_open. (now_open ≡ second_run run word) × Appends (W.contents out.old) (W.contents out.new) (second_piece run word)) }
    ensures err { OnErr result (WritesProperPrefix (W.contents out.old) (W.contents out.new) (second_piece run word)) }
{
    write_piece(out, run, word)?;
    Ok(run_after(run, word))
}

// The run line that stands open after a word: a full word is in one, another has a line of its own.
fn run_after(run: Option<OpenRun>, word: Word) -> Option<OpenRun>
    ensures { result ≡ second_run run word }
{
    if let Some(run) = run
        && run.goes_on(word)
    {
        return Some(run.with(word));
    }
    is_full(word).then(|| OpenRun::at(word.address()).with(word))
}

// Whether the word goes on the run line that stands open.
fn joins(run: Option<OpenRun>, word: Word) -> bool
    ensures { result ≡ joins run word }
{
    match run {
        Some(run) => run.goes_on(word),
        None => false,
    }
}

// Writes what a word adds: its value on the run line that stands open where it goes on, else, behind
// the end of that, the beginning of a run line, or a whole line.
fn write_piece<W: Write>(out: &mut W, run: Option<OpenRun>, word: Word) -> Result<(), WriteFault>
    ensures ok { OnOk result (Appends (W.contents out.old) (W.contents out.new) (second_piece run word)) }
    ensures err { OnErr result (WritesProperPrefix (W.contents out.old) (W.contents out.new) (second_piece run word)) }
{
    if joins(run, word) {
        return write_whole(out, &value_text(word));
    }
    let from = front_of_line(run);
    if is_full(word) {
        write_whole(out, &ended_run_text(word)[from..])
    } else {
        write_whole(out, &ended_half_line(word)[from..])
    }
}

/// Writes the mark, behind the end of the run line that stands open. No run line stands open then.
pub(crate) fn write_mark<W: Write>(
    out: &mut W,
    run: Option<OpenRun>,
) -> Result<Option<OpenRun>, WriteFault>
    ensures ok { IfOk result (λ now_open. (now_open ≡ None) × Appends (W.contents out.old) (W.contents out.new) (mark_text run)) }
    ensures err { OnErr result (WritesProperPrefix (W.contents out.old) (W.contents out.new) (mark_text run)) }
{
    write_whole(out, &b"\nG\n"[front_of_line(run)..])?;
    Ok(None)
}

// Where to begin in a text whose first byte, an LF, ends the run line that stands open: behind it
// where none does.
fn front_of_line(run: Option<OpenRun>) -> usize
    ensures front { (text : List ℕ) → drop result (line_end ∷ text) ≡ ending run ++ text }
    ensures first { result ≤ 1 }
{
    match run {
        Some(_) => 0,
        None => 1,
    }
}
