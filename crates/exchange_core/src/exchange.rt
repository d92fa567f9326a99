ghost use Rattle.std.specs.Prelude.{◌≡◌, ℕ, ◌+◌, ◌<◌, ◌≤◌, ◌*◌, ◌^◌, length, []};
ghost use Rattle.host_core.specs.declared.heard.Heard.TheVariants.{Got};
ghost use Rattle.exchange_core.specs.Chunk.{AreChunks, IsChunk, chunk_nr};
ghost use Rattle.exchange_core.specs.declared.turn.Turn.TheVariants.{More, Verified};
ghost use Rattle.exchange_core.specs.Exchange.{EndsAnswer, IsExchange, exchange_bound};
ghost use Rattle.exchange_core.specs.Exchange.{advance, answer_hears, begun, ended, listens, next_chunk, sends_on, taken, turn_of, waits};

use crate::chunk::{Chunk, Keys, awaited, keys_of, sent_at};
use crate::duplex::Duplex;
use crate::phase::{End, Phase};
use crate::turn::Turn;
use host_core::Heard;
use host_core::console::RESYNCHRONISE;
use tape_image::Plan;

/// A host that exchanges chunks with a stub: how far it is. The plan and the chunks are not part of it.
#[derive(Clone, Copy)]
pub struct Exchange {
    /// How many of the plan's words were verified when it began.
    pub from: u32,

    /// Whether it sends while answers come.
    pub duplex: Duplex,

    /// How many of the chunks are verified.
    pub done: u32,

    /// How many of the plan's words are.
    pub verified: u32,

    /// The characters sent so far: never more than the exchange bound, 128 for each chunk and 1.
    pub sent: u32,

    /// What the host waits for.
    pub phase: Phase,
}

/// An exchange after a step, and the characters that the step sends.
#[derive(Drop)]
pub struct ExchangeStep {
    /// The exchange.
    pub next: Exchange,

    /// The characters, in their order.
    pub keys: Keys,
}

impl Exchange {
    /// An exchange at its beginning, where so many of the plan's words are verified already.
    pub fn new(verified: u32, duplex: Duplex) -> Exchange
        ensures { result ≡ begun verified duplex }
    {
        Exchange {
            from: verified,
            duplex,
            done: 0,
            verified,
            sent: 0,
            phase: Phase::Settle,
        }
    }

    /// How it ended, if it did.
    pub fn end(self) -> Option<End>
        ensures { result ≡ ended self.phase }
    {
        match self.phase {
            Phase::Ended(end) => Some(end),
            _ => None,
        }
    }

    /// Hears one thing and answers the exchange behind it, with the characters to send now: a step of
    /// the table. It never refuses. The plan and the chunks have to be the same at each step.
    pub fn step(self, plan: &Plan, chunks: &[Chunk], heard: Heard) -> ExchangeStep
        requires chunks { AreChunks plan.now self.from chunks.now }
        requires kept { IsExchange chunks.now self }
        ensures next { result.next ≡ (advance plan.now.image chunks.now self heard).next }
        ensures keys { result.keys.items ≡ (advance plan.now.image chunks.now self heard).keys }
        ensures rises { self.verified < result.next.verified → EndsAnswer plan.now.image (chunk_nr chunks.now self.done) self.phase heard }
        ensures bound { result.next.sent ≤ exchange_bound (length chunks.now) }
        ensures from { result.next.from ≡ self.from }
        ensures kept { IsExchange chunks.now result.next }
    {
        let turn = self.turn(plan, chunks, heard);
        self.taken(plan, chunks, turn)
    }

    // The answer of the table.
    fn turn(self, plan: &Plan, chunks: &[Chunk], heard: Heard) -> Turn
        requires chunks { AreChunks plan.now self.from chunks.now }
        requires kept { IsExchange chunks.now self }
        ensures { result ≡ turn_of plan.now.image chunks.now self heard }
    {
        match heard {
            Heard::Got(c) => self.hears(plan, chunks, c),
            Heard::Quiet => quiet(self.phase),
        }
    }

    // The row of the table for a character.
    fn hears(self, plan: &Plan, chunks: &[Chunk], c: u8) -> Turn
        requires chunks { AreChunks plan.now self.from chunks.now }
        requires kept { IsExchange chunks.now self }
        ensures { result ≡ turn_of plan.now.image chunks.now self (Got c) }
    {
        match self.phase {
            Phase::Settle | Phase::Leave => Turn::Listen(Phase::Leave),
            Phase::Answer(place) => answer(plan, chunks[self.done as usize], place, c),
            Phase::Ended(end) => Turn::Listen(Phase::Ended(end)),
        }
    }

    // What the turn does to the exchange, and the characters that it sends.
    #[tactic(auto, using(crate::proofs::Steps::counts_fit))]
    fn taken(self, plan: &Plan, chunks: &[Chunk], turn: Turn) -> ExchangeStep
        requires chunks { AreChunks plan.now self.from chunks.now }
        requires kept { IsExchange chunks.now self }
        requires verified { turn ≡ Verified → self.done < length chunks.now }
        requires more { (place : ℕ) → turn ≡ More place → (self.done < length chunks.now) × (place + 1 < 2 * (chunk_nr chunks.now self.done).size) }
        ensures next { result.next ≡ (taken plan.now.image chunks.now self turn).next }
        ensures keys { result.keys.items ≡ (taken plan.now.image chunks.now self turn).keys }
    {
        match turn {
            Turn::Listen(phase) => self.listens(phase),
            Turn::More(place) => self.sends_on(plan, chunks[self.done as usize], place),
            Turn::Next => self.next_chunk(plan, chunks),
            Turn::Verified => {
                let until = chunks[self.done as usize].until;
                Exchange {
                    done: self.done + 1,
                    verified: until,
                    ..self
                }
                .next_chunk(plan, chunks)
            }
            Turn::Stop => {
                let mut keys = Keys::new();
                keys.push(RESYNCHRONISE);
                ExchangeStep {
                    next: Exchange {
                        sent: self.sent + 1,
                        phase: Phase::Ended(End::Broken),
                        ..self
                    },
                    keys,
                }
            }
        }
    }

    // Sends more of the chunk's characters, where there are any, once the character at a place of the
    // answer came.
    #[tactic(auto, using(crate::proofs::Keys::sent_rises, crate::proofs::Keys::sent_next, crate::proofs::Keys::sent_within))]
    fn sends_on(self, plan: &Plan, chunk: Chunk, place: u8) -> ExchangeStep
        requires is_chunk { IsChunk plan.now.image chunk }
        requires within { place + 1 < 2 * chunk.size }
        requires few { self.sent < 2 ^ 31 }
        ensures next { result.next ≡ (sends_on plan.now.image chunk self place).next }
        ensures keys { result.keys.items ≡ (sends_on plan.now.image chunk self place).keys }
    {
        let from = sent_at(self.duplex, chunk, place);
        let to = sent_at(self.duplex, chunk, place + 1);
        ExchangeStep {
            next: Exchange {
                sent: self.sent + u32::from(to - from),
                phase: Phase::Answer(place + 1),
                ..self
            },
            keys: keys_of(plan, chunk, from, to),
        }
    }

    // Sends the first characters of the next chunk, or ends where there is none.
    #[tactic(auto, using(crate::proofs::Keys::sent_first, crate::proofs::Keys::sent_within))]
    fn next_chunk(self, plan: &Plan, chunks: &[Chunk]) -> ExchangeStep
        requires chunks { AreChunks plan.now self.from chunks.now }
        requires few { self.sent < 2 ^ 31 }
        ensures next { result.next ≡ (next_chunk plan.now.image chunks.now self).next }
        ensures keys { result.keys.items ≡ (next_chunk plan.now.image chunks.now self).keys }
    {
        if self.done as usize >= chunks.len() {
            return self.listens(Phase::Ended(End::Complete));
        }
        let chunk = chunks[self.done as usize];
        let to = sent_at(self.duplex, chunk, 0);
        ExchangeStep {
            next: Exchange {
                sent: self.sent + u32::from(to),
                phase: Phase::Answer(0),
                ..self
            },
            keys: keys_of(plan, chunk, 0, to),
        }
    }

    // Goes on in this phase, nothing is sent.
    fn listens(self, phase: Phase) -> ExchangeStep
        ensures next { result.next ≡ (listens self phase).next }
        ensures keys { result.keys.items ≡ [] }
    {
        ExchangeStep {
            next: Exchange { phase, ..self },
            keys: Keys::new(),
        }
    }
}

// A character where an answer is awaited.
fn answer(plan: &Plan, chunk: Chunk, place: u8, c: u8) -> Turn
    requires is_chunk { IsChunk plan.now.image chunk }
    requires within { place < 2 * chunk.size }
    ensures { result ≡ answer_hears plan.now.image chunk place c }
{
    if c != awaited(plan, chunk, place) {
        Turn::Listen(Phase::Leave)
    } else if place + 1 < 2 * chunk.size {
        Turn::More(place)
    } else {
        Turn::Verified
    }
}

// Nothing came for the quiet time.
fn quiet(phase: Phase) -> Turn
    ensures { result ≡ waits phase }
{
    match phase {
        Phase::Settle => Turn::Next,
        Phase::Answer(_) | Phase::Leave => Turn::Stop,
        Phase::Ended(_) => Turn::Listen(phase),
    }
}
