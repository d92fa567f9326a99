//! The chunks of words of a plan.
ghost use Rattle.std.specs.Prelude.{◌≡◌, ◌≢◌, ◌↔◌, ◌+◌, ◌-◌, ◌%◌, ◌<◌, ◌≤◌, length, IfOk, IsTrue};
ghost use Rattle.exchange_core.specs.Chunking.{AreChunksUpTo, IsNextChunk};

use crate::chunk::Chunk;
use crate::stretch::Stretch;
use crate::word_bytes::bytes_of;
use std::alloc::{AllocError, Global};
use tape_image::Plan;

// A chunk ends at each multiple of this.
const LARGEST_CHUNK: u16 = 64;

/// The chunks of the plan's words from one number up to another, which is excluded: their bytes in their
/// order, cut where one doesn't follow the other and at each multiple of 64. The one error is want of
/// memory.
pub fn chunks_of(alloc: Global, plan: &Plan, from: u32, to: u32) -> Result<Vec<Chunk>, AllocError>
    requires some { from < to }
    requires within { to ≤ length plan.now.words }
    ensures chunks { IfOk result (λ chunks. AreChunksUpTo plan.now from to chunks.items) }
{
    let mut chunks = Vec::new(alloc);
    let mut number = from;
    while number < to {
        let chunk = next_chunk(plan, number, to);
        number = chunk.until;
        chunks.push(chunk)?;
    }
    Ok(chunks)
}

// The chunk that begins with the word of this number.
fn next_chunk(plan: &Plan, number: u32, to: u32) -> Chunk
    requires some { number < to }
    requires within { to ≤ length plan.now.words }
    ensures { IsNextChunk plan.now number to result }
{
    let words = plan.words();
    let mut chunk = chunk_of(bytes_of(words[number as usize]), number + 1);
    for more in number + 1..to {
        let bytes = bytes_of(words[more as usize]);
        if !goes_on(chunk, bytes) {
            return chunk;
        }
        chunk = Chunk {
            size: chunk.size + (bytes.to - bytes.from) as u8,
            until: more + 1,
            ..chunk
        };
    }
    chunk
}

// A chunk of these bytes.
fn chunk_of(bytes: Stretch, until: u32) -> Chunk
    requires order { bytes.from ≤ bytes.to }
    requires few { bytes.to ≤ bytes.from + 2 }
    ensures { result ≡ record { address = bytes.from; size = bytes.to - bytes.from; until = until } }
{
    Chunk {
        address: bytes.from,
        size: (bytes.to - bytes.from) as u8,
        until,
    }
}

// Whether a chunk goes on with these bytes: they follow it, and no multiple of 64 lies between.
fn goes_on(chunk: Chunk, bytes: Stretch) -> bool
    requires { chunk.address + chunk.size < 65536 }
    ensures { IsTrue result ↔ ((bytes.from ≡ chunk.address + chunk.size) × ((chunk.address + chunk.size) % 64 ≢ 0)) }
{
    let end = chunk.address + u16::from(chunk.size);
    bytes.from == end && end % LARGEST_CHUNK != 0
}
