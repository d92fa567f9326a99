use host_devices::{Onlooker, Sight};

/// Who looks on at a reading behind what was found: these words and mishaps are counted, too.
#[derive(Drop)]
pub(crate) struct Behind<'a, O> {
    onlooker: &'a O,
    found: u32,
    spent: u32,
}

impl<'a, O> Behind<'a, O> {
    /// Behind so many words that were found, and so many mishaps of the looks.
    pub(crate) fn new(onlooker: &'a O, found: u32, spent: u32) -> Behind<'a, O> {
        Behind {
            onlooker,
            found,
            spent,
        }
    }
}

impl<O: Onlooker> Onlooker for Behind<'_, O> {
    fn begins(&self, done: u32, words: u32) {
        self.onlooker.begins(done, words);
    }

    fn sees(&self, sight: Sight) {
        self.onlooker.sees(Sight {
            done: self.found.saturating_add(sight.done),
            spent: self.spent.saturating_add(sight.spent),
            ..sight
        });
    }

    fn stub_begins(&self) {
        self.onlooker.stub_begins();
    }

    fn ends(&self) {
        self.onlooker.ends();
    }
}
