//! The one place where changed characters are counted.
ghost use Rattle.std.specs.Prelude.{◌≡◌};
ghost use Rattle.witness.specs.Changed.{changed_behind};

use crate::seen::Witness;
use host_devices::{Onlooker, Sight};

// It counts what a host heard where no loss explains that.
impl Onlooker for Witness {
    fn begins(&self, _done: u32, _words: u32) {}

    fn sees(&self, sight: Sight) {
        self.changed.set(changed_behind(self.changed.get(), sight));
    }

    fn stub_begins(&self) {}

    fn ends(&self) {}
}

impl Witness {
    /// How many characters no loss explains: the line changed them, or made them up. At its largest, the count stays.
    pub fn changed(&self) -> u32 {
        self.changed.get()
    }
}

// How many there are behind a step, where so many were before.
fn changed_behind(count: u32, sight: Sight) -> u32
    ensures { result ≡ changed_behind count sight }
{
    if sight.foreign {
        count.saturating_add(1)
    } else {
        count
    }
}
