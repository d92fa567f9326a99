use host_devices::{Onlooker, Sight};

/// Who looks on at a test behind words that were tested before: these are counted, too.
#[derive(Drop)]
pub(crate) struct Behind<'a, O> {
    pub(crate) onlooker: &'a O,
    pub(crate) tested: u32,
}

impl<O: Onlooker> Onlooker for Behind<'_, O> {
    fn begins(&self, done: u32, words: u32) {
        self.onlooker.begins(done, words);
    }

    fn sees(&self, sight: Sight) {
        self.onlooker.sees(Sight {
            done: self.tested.saturating_add(sight.done),
            ..sight
        });
    }

    fn stub_begins(&self) {
        self.onlooker.stub_begins();
    }

    fn ends(&self) {
        self.onlooker.ends();
    }
}
