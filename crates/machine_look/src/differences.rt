ghost use Rattle.std.specs.Prelude.{◌≡◌, OnErr, OnOk};
ghost use Rattle.machine_look.specs.Shown.{ShowsNext, ShowsPartOfNext};

use crate::difference::show_difference;
use crate::failures::Failures;
use engine::Keep;
use host_devices::{KeepFault, Onlooker};
use std::io::Write;
use tape_image::Word;

/// Shows each difference between the words of a plan and the numbers that are read at their addresses, as soon as
/// a number was read.
#[derive(Drop)]
pub(crate) struct Differences<'a, W, O> {
    // Those whose numbers were not read yet.
    pub(crate) words: &'a [Word],
    pub(crate) out: &'a mut W,
    onlooker: &'a O,
    failures: Failures,
}

impl<'a, W: Write, O: Onlooker> Differences<'a, W, O> {
    /// Before a number was read. What the onlooker shows makes room for each difference.
    pub(crate) fn new(words: &'a [Word], out: &'a mut W, onlooker: &'a O) -> Differences<'a, W, O>
        ensures words { result.words.now ≡ words.now }
        ensures out { result.out.now ≡ out.old }
        ensures same_reference { result.out.ghost_name ≡ out.entry.ghost_name }
    {
        Differences {
            words,
            out,
            onlooker,
            failures: Failures::NONE,
        }
    }

    // Writes the line of the next word's difference, if there is one.
    fn show(&mut self, number: u16) -> Result<(), KeepFault>
        ensures shown { OnOk result (ShowsNext self.old.words.now number self.new.words.now
            (W.contents self.old.out.now) (W.contents self.new.out.now) self.old.out.ghost_name self.new.out.ghost_name) }
        ensures cut_short { OnErr result (ShowsPartOfNext self.old.words.now number
            (W.contents self.old.out.now) (W.contents self.new.out.now) self.old.out.ghost_name self.new.out.ghost_name) }
        ensures same_failures { self.new.failures ≡ self.old.failures }
    {
        let Some((word, rest)) = self.words.split_first() else {
            return Ok(());
        };
        self.words = rest;
        match show_difference(*word, number, self.out, self.onlooker) {
            Ok(()) => Ok(()),
            Err(_) => Err(KeepFault::Write),
        }
    }
}

impl<W: Write, O: Onlooker> Keep<u16> for Differences<'_, W, O> {
    ghost use Rattle.machine_look.specs.Shown.{ShowsNext, ShowsPartOfNext};

    ghost keeps = { λ old number new. ShowsNext old.words.now number new.words.now
        (W.contents old.out.now) (W.contents new.out.now) old.out.ghost_name new.out.ghost_name };

    ghost fails = { λ old number new. ShowsPartOfNext old.words.now number
        (W.contents old.out.now) (W.contents new.out.now) old.out.ghost_name new.out.ghost_name };

    ghost fault_count = { λ differences. differences.failures.count };

    ghost last_fault = { λ differences. differences.failures.last };

    fn keep(&mut self, number: u16) -> Result<(), KeepFault> {
        let shown = self.show(number);
        self.failures = self.failures.behind(shown);
        shown
    }
}
