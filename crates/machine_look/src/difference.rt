//! Where memory differs from a plan.
ghost use Rattle.std.specs.Prelude.{◌≡◌, ◌≤◌, length, OnErr, OnOk};
ghost use Rattle.std.specs.Io.KnownBytes.{Appends};
ghost use Rattle.byte_io.specs.Output.{WritesPrefix};
ghost use Rattle.machine_look.specs.Differences.{difference, differences};
ghost use Rattle.machine_look.specs.VerifyReport.{lines_of};

use crate::verify_report::difference_line;
use byte_io::{WriteFault, write_and_flush};
use host_devices::Onlooker;
use std::io::Write;
use tape_image::{Word, stands};

/// A word that memory does not have.
#[derive(Clone, Copy)]
pub(crate) struct Difference {
    /// The word of the plan.
    pub(crate) word: Word,

    /// The whole word that memory holds at its address.
    pub(crate) now: u16,
}

/// How many words of a plan differ from the numbers that were read at the first of their addresses. A
/// number that has the word's bits under its mask is no difference.
pub(crate) fn count_differences(words: &[Word], numbers: &[u16]) -> usize
    requires { length numbers.now ≤ length words.now }
    ensures { result ≡ length (differences words.now numbers.now) }
{
    let mut count = 0;
    for (place, number) in numbers.iter().enumerate() {
        count += count_difference(words[place], *number);
    }
    count
}

// Whether a word differs from the number that was read at its address, as a number: 0 or 1.
fn count_difference(word: Word, now: u16) -> usize
    ensures { result ≡ length (difference word now) }
{
    usize::from(!stands(word, now))
}

/// Writes the line of the difference between a word and the number that was read at its address, if there is one.
/// What an onlooker shows makes room for it.
pub(crate) fn show_difference<W: Write, O: Onlooker>(
    word: Word,
    now: u16,
    out: &mut W,
    onlooker: &O,
) -> Result<(), WriteFault>
    ensures shown { OnOk result (Appends (W.contents out.old) (W.contents out.new) (lines_of (difference word now))) }
    ensures cut_short { OnErr result (WritesPrefix (W.contents out.old) (W.contents out.new) (lines_of (difference word now))) }
{
    if stands(word, now) {
        return Ok(());
    }
    onlooker.ends();
    write_and_flush(out, &difference_line(Difference { word, now }))
}
