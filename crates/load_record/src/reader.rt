//! Reading a record against the plan that it was written for.
ghost use Rattle.std.specs.Prelude.{◌≡◌, ◌↔◌, ◌<◌, ◌≤◌, [], ◌∷◌, length, drop, position, IfOk, IfSome, IsTrue, MatchOption, Result, Some, None};
ghost use Rattle.std.specs.List.{slice_split};
ghost use Rattle.tape_image.specs.Plan.{IsPlan};
ghost use Rattle.host_core.specs.declared.progress.Progress.{Progress};
ghost use Rattle.host_core.specs.Opening.{refusal_of};
ghost use Rattle.load_record.specs.declared.version.Version.TheVariants.{Second};
ghost use Rattle.load_record.specs.Lines.{IsRunLine};
ghost use Rattle.load_record.specs.Reading.{Adds, against, HoldsCount, HoldsTorn, IsMarkDue, Says, is_line_end};
ghost use Rattle.load_record.specs.Reading.{BeginsWithValues, IsHeldFront, IsLongestHeldFront};

use crate::line::{half_line, value_text, word_fields};
use crate::run::{OpenRun, is_full};
use crate::version::Version;
use host_core::Progress;
use octal::oct6;
use tape_image::{Plan, Word};
use thiserror::Error;

/// The most bytes that a record may have.
pub const RECORD_LIMIT: usize = 1_048_576;

// How many bytes a run line has before the first value.
const RUN_HEAD: usize = 6;

// How many bytes a run line has for each value.
const RUN_VALUE: usize = 7;

/// Why a text is not read as a record of a load.
#[derive(Clone, Copy, Debug, Error)]
pub enum RecordError {
    /// The first line is no header, or the text has more than 1,048,576 bytes.
    #[error("not a record")]
    NotARecord,

    /// The line of this number, counted from 1, does not hold what the plan has next.
    #[error("line {0} does not say what the tape has next")]
    Foreign(u32),
}

/// What a record says of the load of a plan: how many words are verified, and whether the start was
/// marked. Both versions are read.
///
/// What stands behind the last LF was torn off while it was written. In version 1 nothing of it
/// counts; in version 2 it may be the beginning of a run line, of which each whole value counts. A
/// text without LF is the empty record. `NotARecord` comes where the text has more than 1,048,576
/// bytes, before all else, or its first line is no header. `Foreign` is the first line that is
/// neither the plan's next words nor the mark where that is due.
pub fn read_record(input: &[u8], plan: &Plan) -> Result<Progress, RecordError>
    ensures answered { Says plan.now input.now result }
    ensures complete { (other : Result Progress RecordError) → Says plan.now input.now other → other ≡ result }
    ensures accepted { IfOk result (λ progress. refusal_of plan.now progress.verified progress.going ≡ None) }
{
    if input.len() > RECORD_LIMIT {
        return Err(RecordError::NotARecord);
    }
    let mut progress = Progress {
        verified: 0,
        going: false,
    };
    let Some((first, body)) = first_line(input) else {
        return Ok(progress);
    };
    let Some(version) = Version::of_header(first) else {
        return Err(RecordError::NotARecord);
    };
    let mut number = 1;
    let mut rest = body;
    while let Some((line, after)) = first_line(rest) {
        number += 1;
        let Some(next) = read_line(version, plan, progress, line) else {
            return Err(RecordError::Foreign(number));
        };
        progress = next;
        rest = after;
    }
    progress.verified += torn_words(version, words_after(plan, progress), rest) as u32;
    Ok(progress)
}

// Where the first LF stands.
fn line_end(text: &[u8]) -> Option<usize>
    ensures { result ≡ position is_line_end text.now }
{
    text.iter().position(|c| *c == b'\n')
}

// The first line without its LF, and what follows that. None where there is no LF.
fn first_line(text: &[u8]) -> Option<(&[u8], &[u8])>
    ensures cut { MatchOption result (slice_split is_line_end text.now ≡ text.now ∷ [])
        (λ parts. slice_split is_line_end text.now ≡ parts.0.now ∷ slice_split is_line_end parts.1.now) }
    ensures shorter { IfSome result (λ parts. length parts.1.now < length text.now) }
{
    let end = line_end(text)?;
    Some((&text[..end], &text[end + 1..]))
}

// The words of the plan that a progress has not reached.
fn words_after(plan: &Plan, progress: Progress) -> &[Word]
    requires { progress.verified ≤ length plan.now.words }
    ensures words { result.now ≡ drop progress.verified plan.now.words }
    ensures plan { IsPlan plan.now }
{
    &plan.words()[progress.verified as usize..]
}

// The progress after one more line. None where the line is neither the next words nor a due mark.
fn read_line(version: Version, plan: &Plan, before: Progress, line: &[u8]) -> Option<Progress>
    requires { before.verified ≤ length plan.now.words }
    ensures exact { (after : Progress) → (result ≡ Some after) ↔ Adds (against version plan.now) line.now before after }
{
    let count = words_held(version, words_after(plan, before), line);
    if count > 0 {
        return Some(Progress {
            verified: before.verified + count as u32,
            going: before.going,
        });
    }
    if line == b"G".as_slice() && is_mark_due(plan, before) {
        return Some(Progress {
            verified: before.verified,
            going: true,
        });
    }
    None
}

// Whether the mark may come now: it has not come, all words have, and the plan has a start.
fn is_mark_due(plan: &Plan, progress: Progress) -> bool
    ensures { IsTrue result ↔ IsMarkDue plan.now progress }
{
    !progress.going && progress.verified as usize == plan.words().len() && plan.start().is_some()
}

// How many of the next words a whole line holds: 0 where it is none of their lines.
fn words_held(version: Version, next: &[Word], line: &[u8]) -> usize
    ensures { HoldsCount version line.now next.now result }
{
    let Some(word) = next.first() else {
        return 0;
    };
    match version {
        Version::First => usize::from(line == word_fields(*word).as_slice()),
        Version::Second if is_full(*word) => run_words(next, line),
        Version::Second => usize::from(line == half_line(*word).as_slice()),
    }
}

// How many of the next words a whole run line holds: 0 where it is none.
fn run_words(next: &[Word], line: &[u8]) -> usize
    ensures { IsHeldFront (IsRunLine line.now) next.now result }
{
    let count = words_begun(next, line);
    if line.len() == RUN_HEAD + RUN_VALUE * count {
        count
    } else {
        0
    }
}

// How many of the next words a torn piece holds: in version 2 it may be the beginning of a run line.
fn torn_words(version: Version, next: &[Word], torn: &[u8]) -> usize
    ensures { HoldsTorn version torn.now next.now result }
{
    match version {
        Version::First => 0,
        Version::Second => words_begun(next, torn),
    }
}

// How many of the next words stand whole in the beginning of a run line.
fn words_begun(next: &[Word], begun: &[u8]) -> usize
    ensures { HoldsTorn Second begun.now next.now result }
{
    let Some(word) = next.first() else {
        return 0;
    };
    if !begun.starts_with(&oct6(word.address())) {
        return 0;
    }
    usize::from(values_held(word.address(), next, &begun[RUN_HEAD..]))
}

// How many of the next words a run line from this address has, if their values are what the text
// begins with.
fn values_held(address: u16, next: &[Word], text: &[u8]) -> u8
    ensures { IsLongestHeldFront (BeginsWithValues address text.now) next.now result }
{
    let mut run = OpenRun::at(address);
    let mut left = text;
    for word in next {
        if !run.goes_on(*word) || !left.starts_with(&value_text(*word)) {
            return run.count;
        }
        run = run.with(*word);
        left = &left[RUN_VALUE..];
    }
    run.count
}
