//! Who looks on at a test of memory.

use crate::watch::Watch;
use advice::advise_test;
use host_devices::{Onlooker, Sight};
use machine_memory::{Borrowed, MemoryEnd, ProbeFault, WordWatch};
use progress_display::TestedWord;
use std::io::Print;
use std::time::Clock;

/// As of any command, but that the line on the terminal names the word that is tested, too.
#[derive(Drop)]
pub(crate) struct TestLine<'o, C: Clock, T: Print> {
    watch: Watch<'o, C, T>,
}

impl<'o, C: Clock, T: Print> TestLine<'o, C, T> {
    /// Over that of any command.
    pub(crate) fn new(watch: Watch<'o, C, T>) -> TestLine<'o, C, T> {
        TestLine { watch }
    }

    /// Tells what helps where a test came to this.
    pub(crate) fn advise(&self, tested: Result<MemoryEnd, ProbeFault>) {
        advise_test(self.watch.progress(), tested);
    }
}

impl<C: Clock, T: Print> Onlooker for TestLine<'_, C, T> {
    fn begins(&self, done: u32, words: u32) {
        self.watch.begins(done, words);
    }

    fn sees(&self, sight: Sight) {
        self.watch.sees(sight);
    }

    fn stub_begins(&self) {
        self.watch.stub_begins();
    }

    fn ends(&self) {
        self.watch.ends();
    }
}

impl<C: Clock, T: Print> WordWatch for TestLine<'_, C, T> {
    fn borrows(&self, word: Borrowed) {
        if let Some(progress) = self.watch.progress() {
            progress.tests(TestedWord {
                address: word.address,
                held: word.old,
            });
        }
    }
}
