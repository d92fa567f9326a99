use engine::{Host, Keys};
use host_core::Heard;
use host_devices::Sight;
use trial_core::{End, Trial};

/// A trial, as the engine leads it. Nothing is to be kept of it.
#[derive(Drop)]
pub(crate) struct Trying {
    pub(crate) trial: Trial,
}

/// What a step of it answers.
#[derive(Drop)]
pub(crate) struct Tried {
    /// The character to send, if any.
    key: Option<u8>,

    /// What is to be kept: no step of a trial gives anything.
    news: Option<()>,
}

impl Host for Trying {
    ghost use Rattle.std.specs.Prelude.{option_to_list};
    ghost use Rattle.trial_core.specs.Trial.{IsTrial};
    ghost use Rattle.looking_engine.specs.Leading.{tries};

    type End = End;

    type News = ();

    type Step = Tried;

    ghost ways = { tries };

    ghost is_host = { λ t. IsTrial t.trial };

    ghost keys_in = { λ tried. option_to_list tried.key };

    ghost news_in = { λ t tried. option_to_list tried.news };

    fn step(&mut self, heard: Heard) -> Tried {
        let asked = self.trial.step(heard);
        self.trial = asked.next;
        Tried {
            key: asked.key,
            news: None,
        }
    }

    fn keys(&self, step: &Tried) -> Keys {
        let mut keys = Keys::new();
        if let Some(key) = step.key {
            keys.push(key);
        }
        keys
    }

    fn count(&self, step: &Tried) -> u32 {
        match step.news {
            Some(()) => 1,
            None => 0,
        }
    }

    fn news(&self, _step: &Tried, _number: u32) {}

    fn end(&self) -> Option<End> {
        self.trial.end()
    }

    // Nothing says yet which characters a trial can't await, so none is foreign.
    fn sight(&self, heard: Heard, step: &Tried) -> Sight {
        Sight {
            heard,
            key: step.key,
            done: 0,
            spent: self.trial.spent,
            foreign: false,
        }
    }
}
