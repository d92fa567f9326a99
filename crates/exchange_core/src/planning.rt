//! The plan by which a stub is brought in.
ghost use Rattle.std.specs.Prelude.{◌≡◌, ◌↔◌, ◌+◌, ◌*◌, ◌<◌, ◌≤◌, length, IfOk, IsTrue};
ghost use Rattle.exchange_core.specs.StubPlan.{AreSoundings, IsSounding, IsStubPlan, IsStubTape, LiesBehind, block_of};
ghost use Rattle.exchange_core.specs.Window.{IsWindow};

use crate::word_bytes::bytes_of;
use std::alloc::{AllocError, Global};
use tape_image::{HIGH_BYTE, LOW_BYTE, Plan, Word};
use tape_values::{Block, Memory, Tape, low_bytes_first};

// One word in so many is sounded.
const SOUNDING_WORDS: u32 = 4096;

/// The plan that a host types to bring in a stub of these words at a window behind the first `from`
/// words of a tape's plan. It has the stub's words at the window, whose address is its start, and
/// soundings of the words between: of each 4,096 one, and the last, with the tape's own content. The
/// one error is want of memory.
pub fn stub_plan(
    alloc: Global,
    plan: &Plan,
    from: u32,
    window: u32,
    words: &[u16],
) -> Result<Plan, Memory>
    requires some { 0 < length words.now }
    requires window { IsWindow plan.now.words from (length words.now) window }
    ensures stub { IfOk result (IsStubPlan plan.now from window words.now) }
    ensures behind { IfOk result (LiesBehind plan.now from) }
{
    let tape = stub_tape(alloc, plan, from, window, words)?;
    Plan::of(alloc, &tape)
}

// The tape of which the plan is made.
fn stub_tape(
    alloc: Global,
    plan: &Plan,
    from: u32,
    window: u32,
    words: &[u16],
) -> Result<Tape, AllocError>
    requires some { 0 < length words.now }
    requires window { IsWindow plan.now.words from (length words.now) window }
    ensures { IfOk result (IsStubTape plan.now from window words.now) }
{
    let place = plan.words()[window as usize].address();
    let mut blocks = soundings(alloc, plan, from, window)?;
    blocks.push(Block {
        address: place,
        bytes: low_bytes_first(alloc, words)?,
    })?;
    Ok(Tape::of_sound(blocks, place))
}

// A block for each sounding of the words from one number up to another.
fn soundings(alloc: Global, plan: &Plan, from: u32, to: u32) -> Result<Vec<Block>, AllocError>
    requires order { from ≤ to }
    requires within { to ≤ length plan.now.words }
    ensures { IfOk result (λ blocks. AreSoundings plan.now from to blocks.items) }
{
    let words = plan.words();
    let mut blocks = Vec::new(alloc);
    for number in from..to {
        if is_sounding(from, to, number) {
            blocks.push(block_of(alloc, words[number as usize])?)?;
        }
    }
    Ok(blocks)
}

// Whether the word of this number is sounded.
fn is_sounding(from: u32, to: u32, number: u32) -> bool
    requires begins { from ≤ number }
    requires ends { number < to }
    ensures { IsTrue result ↔ IsSounding from to number }
{
    (number - from) % SOUNDING_WORDS == SOUNDING_WORDS - 1 || number + 1 == to
}

// The block of a word's bytes.
fn block_of(alloc: Global, word: Word) -> Result<Block, AllocError>
    ensures { IfOk result (λ block. block ≡ block_of word) }
{
    let [low, high] = word.value().to_le_bytes();
    let bytes = match word.mask() {
        LOW_BYTE => vec![in alloc; low]?,
        HIGH_BYTE => vec![in alloc; high]?,
        _ => vec![in alloc; low, high]?,
    };
    Ok(Block {
        address: bytes_of(word).from,
        bytes,
    })
}
