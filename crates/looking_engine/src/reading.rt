use engine::{Host, Keys};
use host_core::Heard;
use host_devices::Sight;
use reading_core::{End, ReadingCore};

/// A core that reads, as the engine leads it. What it gives to be kept are the numbers that it reads.
#[derive(Drop)]
pub struct Reading {
    /// The core.
    pub core: ReadingCore,
}

/// What a step of it answers.
#[derive(Drop)]
pub struct Asked {
    /// The character to send, if any.
    key: Option<u8>,

    /// The number that was read, if one was.
    number: Option<u16>,

    /// No loss explains what was heard.
    foreign: bool,
}

impl Host for Reading {
    ghost use Rattle.std.specs.Prelude.{option_to_list};
    ghost use Rattle.reading_core.specs.Invariant.{IsReader};
    ghost use Rattle.looking_engine.specs.Leading.{reads};

    type End = End;

    type News = u16;

    type Step = Asked;

    ghost ways = { reads };

    ghost is_host = { λ r. IsReader r.core };

    ghost keys_in = { λ asked. option_to_list asked.key };

    ghost news_in = { λ r asked. option_to_list asked.number };

    fn step(&mut self, heard: Heard) -> Asked {
        let foreign = self.core.is_foreign(heard);
        let before = self.core.values().len();
        let key = self.core.step(heard);
        let number = match self.core.values().get(before) {
            Some(number) => Some(*number),
            None => None,
        };
        Asked {
            key,
            number,
            foreign,
        }
    }

    fn keys(&self, step: &Asked) -> Keys {
        let mut keys = Keys::new();
        if let Some(key) = step.key {
            keys.push(key);
        }
        keys
    }

    fn count(&self, step: &Asked) -> u32 {
        match step.number {
            Some(_) => 1,
            None => 0,
        }
    }

    fn news(&self, step: &Asked, _number: u32) -> u16 {
        match step.number {
            Some(number) => number,
            None => 0,
        }
    }

    fn end(&self) -> Option<End> {
        self.core.end()
    }

    fn sight(&self, heard: Heard, step: &Asked) -> Sight {
        Sight {
            heard,
            key: step.key,
            done: self.core.values().len() as u32,
            spent: self.core.spent(),
            foreign: step.foreign,
        }
    }
}
