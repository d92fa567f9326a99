ghost use Rattle.std.specs.Prelude.{◌≡◌};
ghost use Rattle.memory_engine.specs.Leading.{newly_borrowed};

use engine::{Host, Keys};
use host_core::Heard;
use host_devices::Sight;
use memory_core::{Borrowed, End, MemoryCore};

/// A core that tests memory, as the engine leads it. What it gives to be kept is each word that may hold another number from
/// now on, with the number that it held.
#[derive(Drop)]
pub struct Testing {
    /// The core.
    pub core: MemoryCore,
}

/// What a step of it answers.
#[derive(Drop)]
pub struct Asked {
    /// The character to send, if any.
    key: Option<u8>,

    /// The word that may hold another number from now on, if it is one more.
    word: Option<Borrowed>,
}

impl Host for Testing {
    ghost use Rattle.std.specs.Prelude.{option_to_list};
    ghost use Rattle.memory_core.specs.Invariant.{IsTester};
    ghost use Rattle.memory_engine.specs.Leading.{tests};

    type End = End;

    type News = Borrowed;

    type Step = Asked;

    ghost ways = { tests };

    ghost is_host = { λ t. IsTester t.core };

    ghost keys_in = { λ asked. option_to_list asked.key };

    ghost news_in = { λ t asked. option_to_list asked.word };

    fn step(&mut self, heard: Heard) -> Asked {
        let before = self.core.borrowed();
        let key = self.core.step(heard);
        Asked {
            key,
            word: newly_borrowed(before, self.core.borrowed()),
        }
    }

    fn keys(&self, step: &Asked) -> Keys {
        let mut keys = Keys::new();
        if let Some(key) = step.key {
            keys.push(key);
        }
        keys
    }

    fn count(&self, step: &Asked) -> u32 {
        match step.word {
            Some(_) => 1,
            None => 0,
        }
    }

    fn news(&self, step: &Asked, _number: u32) -> Borrowed {
        match step.word {
            Some(word) => word,
            None => Borrowed { address: 0, old: 0 },
        }
    }

    fn end(&self) -> Option<End> {
        self.core.end()
    }

    // Nothing says yet which characters a test can't await, so none is foreign.
    fn sight(&self, heard: Heard, step: &Asked) -> Sight {
        Sight {
            heard,
            key: step.key,
            done: self.core.seen().len() as u32,
            spent: self.core.spent(),
            foreign: false,
        }
    }
}

// The word that is borrowed now and was not before.
fn newly_borrowed(before: Option<Borrowed>, now: Option<Borrowed>) -> Option<Borrowed>
    ensures { result ≡ newly_borrowed before now }
{
    match before {
        None => now,
        Some(_) => None,
    }
}
