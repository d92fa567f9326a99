use engine::{Host, Keys};
use exchange_core::{Chunk, End, Exchange};
use host_core::Heard;
use host_devices::{Kept, Sight};
use tape_image::Plan;

/// An exchange with its plan and its chunks, as the engine leads it.
#[derive(Drop)]
pub(crate) struct ExchangeHost<'a> {
    pub(crate) plan: &'a Plan,
    pub(crate) chunks: &'a [Chunk],
    pub(crate) state: Exchange,
}

/// What a step of it answers.
#[derive(Drop)]
pub(crate) struct Asked {
    /// How many words were verified before it.
    before: u32,

    /// How many are behind it: those between are to be kept.
    after: u32,

    /// The characters to send.
    keys: Keys,
}

impl<'a> Host for ExchangeHost<'a> {
    ghost use Rattle.std.specs.Prelude.{ℕ, ◌≤◌, length};
    ghost use Rattle.exchange_core.specs.Chunk.{AreChunks};
    ghost use Rattle.exchange_core.specs.Exchange.{IsExchange};
    ghost use Rattle.stub_engine.specs.Exchanging.{exchange_host};
    ghost use Rattle.stub_engine.specs.Keeping.{words_kept};

    type End = End;

    type News = Kept;

    type Step = Asked;

    ghost ways = { exchange_host };

    ghost is_host = { λ h. AreChunks h.plan.now h.state.from h.chunks.now × IsExchange h.chunks.now h.state };

    ghost keys_in = { λ asked. asked.keys.items };

    ghost news_in = { λ h asked. words_kept h.plan.now.words asked.before asked.after };

    fn step(&mut self, heard: Heard) -> Asked {
        let before = self.state.verified;
        let asked = self.state.step(self.plan, self.chunks, heard);
        self.state = asked.next;
        Asked {
            before,
            after: asked.next.verified,
            keys: asked.keys,
        }
    }

    fn keys(&self, step: &Asked) -> Keys {
        let mut keys = Keys::new();
        for key in step.keys.as_slice() {
            keys.push(*key);
        }
        keys
    }

    fn count(&self, step: &Asked) -> u32 {
        let words = self.plan.words().len() as u32;
        step.after.min(words).saturating_sub(step.before)
    }

    fn news(&self, step: &Asked, number: u32) -> Kept {
        Kept::Word(self.plan.words()[(step.before + number) as usize])
    }

    fn end(&self) -> Option<End> {
        self.state.end()
    }

    // A step has many keys, so it shows none. A stub's answers may be any characters: none of them is foreign.
    fn sight(&self, heard: Heard, step: &Asked) -> Sight {
        Sight {
            heard,
            key: None,
            done: step.after,
            spent: 0,
            foreign: false,
        }
    }
}
