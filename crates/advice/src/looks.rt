//! What is told at a terminal of looks, a save and a test of memory.

use crate::loads::ASK_PROBE;
use machine_look::{LookFault, SaveEnd, VerifyEnd};
use machine_memory::{MemoryEnd, ProbeFault, TestEnd};
use progress_display::ProgressLine;
use std::io::Print;
use std::time::Clock;
use tape_shelf::BLOCK_WORDS;

// What helps where what was read of a machine is kept.
const PART_GOES_ON: &str =
    "the same line goes on where it was; power lost? remove the .part file\n";

// What helps where words were looked at once, over a line that changes characters.
const LOOK_TWICE: &str = "the same line with --careful decides\n";

// The same of a save, of which nothing is left, or a part that may be wrong.
const SAVE_AGAIN: &str = "again without --once\n";

const REMOVE_PART: &str = "remove the .part file, and again without --once\n";

/// Tells behind the report of a look that came to this what helps where the line changed characters, or no word was done.
pub fn advise_verify<C: Clock, T: Print>(
    progress: Option<&ProgressLine<'_, C, T>>,
    verified: Result<VerifyEnd, LookFault>,
) {
    let Some(progress) = progress else {
        return;
    };
    match verified {
        Ok(VerifyEnd::Changed) => progress.say(LOOK_TWICE),
        Ok(VerifyEnd::GaveUp) if progress.done() == 0 => progress.say(ASK_PROBE),
        _ => {}
    }
}

/// Tells behind the report of a save that came to this what helps where it can be gone on with, or has to be done anew,
/// and whether a block was read, which then is kept.
pub fn advise_save<C: Clock, T: Print>(
    progress: Option<&ProgressLine<'_, C, T>>,
    saved: Result<SaveEnd, LookFault>,
) {
    let Some(progress) = progress else {
        return;
    };
    let has_part = progress.done() as usize >= BLOCK_WORDS;
    match saved {
        Ok(SaveEnd::GaveUp | SaveEnd::CutOff(_)) if has_part => progress.say(PART_GOES_ON),
        Ok(SaveEnd::GaveUp) if progress.done() == 0 => progress.say(ASK_PROBE),
        Ok(SaveEnd::Changed) if has_part => progress.say(REMOVE_PART),
        Ok(SaveEnd::Changed) => progress.say(SAVE_AGAIN),
        _ => {}
    }
}

/// Tells behind the report of a test of memory that came to this what helps where no word was done.
pub fn advise_test<C: Clock, T: Print>(
    progress: Option<&ProgressLine<'_, C, T>>,
    tested: Result<MemoryEnd, ProbeFault>,
) {
    if let (Some(progress), Ok(tested)) = (progress, tested)
        && tested.end == TestEnd::GaveUp
        && progress.done() == 0
    {
        progress.say(ASK_PROBE);
    }
}
