//! Exchanges by the engine over the station in memory: whole ones, and one of which each way loses a character.
ghost use Rattle.exchange_core.specs.Chunk.{AreChunks};

use crate::station::{StationLine, Upset};
use exchange_core::{Chunk, Duplex, End, Exchange, chunks_of};
use host_core::Heard;
use host_devices::{Item, Kept, MemoryKeep, Unwatched};
use std::alloc::Global;
use stub_engine::{ExchangeStop, exchange};
use tape_image::Plan;
use tape_values::{Block, Tape};

// Two words at 001076 and 001100, so that a multiple of 64 lies between, and so two chunks.
const ADDRESS: u16 = 0o001076;

const BYTES: [u8; 4] = [0x12, 0x34, 0x56, 0x78];

// An exchange, what goes wrong, how many words are verified all the same, and what is said: `<` stands before what is
// heard, `~` for silence. The nibbles 0 to 15 are a grave accent and `a` to `o`, their complements `o` down to `a` and
// the accent.
type Row = (Duplex, Upset, u32, &'static str);

const ROWS: [Row; 4] = [
    (
        Duplex::Full,
        Upset::Nothing,
        2,
        "<~abcd<n<m<l<kefgh<j<i<h<g",
    ),
    // One way at a time both answers come before the next byte.
    (
        Duplex::Half,
        Upset::Nothing,
        2,
        "<~ab<n<mcd<l<kef<j<igh<h<g",
    ),
    (
        Duplex::Full,
        Upset::LosesKey(5),
        1,
        "<~abcd<n<m<l<kefgh<i<h<~Z",
    ),
    (Duplex::Full, Upset::LosesAnswer(2), 0, "<~abcd<n<l<k<~Z"),
];

// The plan of the two words.
fn plan_of_two_words(alloc: Global) -> Option<Plan> {
    let mut blocks = Vec::new(alloc);
    let block = Block {
        address: ADDRESS,
        bytes: Vec::from_slice(alloc, &BYTES).ok()?,
    };
    blocks.push(block).ok()?;
    let tape = Tape::new(blocks, 1).ok()?;
    Plan::of(alloc, &tape).ok()
}

// The engine's answer. What its contract promises of it, no test needs.
fn exchange_on(
    plan: &Plan,
    chunks: &[Chunk],
    duplex: Duplex,
    line: &mut StationLine,
    keep: &mut MemoryKeep,
) -> (Exchange, ExchangeStop)
    requires { AreChunks plan.now 0 chunks.now }
{
    exchange(plan, chunks, 0, duplex, line, keep, 100, &Unwatched)
}

// What was said, as a row has it.
fn said(alloc: Global, items: &[Item]) -> Option<Vec<u8>> {
    let mut said = Vec::new(alloc);
    for item in items {
        let (is_heard, character) = match item {
            Item::Sent(key) => (false, *key),
            Item::Heard(Heard::Got(character)) => (true, *character),
            Item::Heard(Heard::Quiet) => (true, b'~'),
        };
        if is_heard {
            said.push(b'<').ok()?;
        }
        said.push(character).ok()?;
    }
    Some(said)
}

// Whether an exchange stops behind so many words, complete or broken.
fn is_stopped(stop: ExchangeStop, verified: u32) -> bool {
    match stop {
        ExchangeStop::Ended(End::Complete) => verified == 2,
        ExchangeStop::Ended(End::Broken) => verified < 2,
        _ => false,
    }
}

// Whether just the words are kept, so many from the first on.
fn are_kept(kept: &[Kept], count: u32) -> bool {
    let mut address = ADDRESS;
    for item in kept {
        match item {
            Kept::Word(word) if word.address() == address => {}
            _ => return false,
        }
        address = address.saturating_add(2);
    }
    kept.len() == count as usize
}

// Whether an exchange comes to this.
fn is_so(alloc: Global, row: &Row) -> Option<bool> {
    let (duplex, upset, verified, text) = *row;
    let plan = plan_of_two_words(alloc)?;
    if plan.words().len() != 2 {
        return None;
    }
    let Ok(chunks) = chunks_of(alloc, &plan, 0, 2) else {
        return None;
    };
    let mut line = StationLine::new(alloc, upset, BYTES.len())?;
    let mut keep = MemoryKeep::new(alloc, 2, None).ok()?;
    let (state, stop) = exchange_on(&plan, &chunks, duplex, &mut line, &mut keep);
    let said = said(alloc, line.items())?;
    let is_stored = verified < 2 || line.memory() == BYTES.as_slice();
    let is_led = is_stopped(stop, verified) && state.verified == verified && line.is_halted();
    Some(
        is_led
            && is_stored
            && said.as_slice() == text.as_bytes()
            && are_kept(keep.kept(), verified),
    )
}

#[test]
fn words_are_exchanged_with_a_station(rt: HostRuntime) {
    for (number, row) in ROWS.iter().enumerate() {
        assert!(rt; is_so(rt.alloc(), row) == Some(true), "row {number}");
    }
}
