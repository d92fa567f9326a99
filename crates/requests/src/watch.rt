//! Who looks on at a load, a look or a test.

use host_devices::{Onlooker, Sight};
use progress_display::{KeptIn, ProgressLine};
use std::io::Print;
use std::time::Clock;
use witness::Witness;

/// The line on the terminal, where there is one, and the witness, which counts changed characters also without it.
#[derive(Drop)]
pub(crate) struct Watch<'o, C: Clock, T: Print> {
    progress: Option<ProgressLine<'o, C, T>>,
    witness: &'o Witness,
}

impl<'o, C: Clock, T: Print> Watch<'o, C, T> {
    /// Over a request of which what is done is kept there.
    pub(crate) fn new(
        clock: &'o C,
        terminal: Option<&'o T>,
        kept_in: KeptIn,
        witness: &'o Witness,
    ) -> Watch<'o, C, T> {
        let progress = match terminal {
            Some(terminal) => Some(ProgressLine::new(clock, terminal, kept_in)),
            None => None,
        };
        Watch { progress, witness }
    }

    /// The line on the terminal, where there is one.
    pub(crate) fn progress(&self) -> Option<&ProgressLine<'o, C, T>> {
        self.progress.as_ref()
    }
}

impl<C: Clock, T: Print> Onlooker for Watch<'_, C, T> {
    fn begins(&self, done: u32, words: u32) {
        self.progress.begins(done, words);
    }

    fn sees(&self, sight: Sight) {
        self.witness.sees(sight);
        self.progress.sees(sight);
    }

    fn stub_begins(&self) {
        self.progress.stub_begins();
    }

    fn ends(&self) {
        self.progress.ends();
    }
}
