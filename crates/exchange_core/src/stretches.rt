//! The stretches of a stub's table.
ghost use Rattle.std.specs.Prelude.{◌≡◌, ℕ, ◌+◌, ◌<◌, ◌≤◌, length, IfOk};
ghost use Rattle.tape_values.specs.Block.{top};
ghost use Rattle.exchange_core.specs.Chunk.{chunk_nr};
ghost use Rattle.exchange_core.specs.Chunking.{AreCut, AreStretches, IsTakenUp, end_of};

use crate::chunk::Chunk;
use crate::stretch::Stretch;
use std::alloc::{AllocError, Global};

/// The stretches that have the bytes of these chunks: chunks that follow one another directly are one.
/// The one error is want of memory.
pub fn stretches_of(alloc: Global, chunks: &[Chunk]) -> Result<Vec<Stretch>, AllocError>
    requires cut { AreCut chunks.now }
    requires below { (k : ℕ) → k < length chunks.now → end_of (chunk_nr chunks.now k) ≤ top }
    ensures stretches { IfOk result (λ stretches. AreStretches chunks.now stretches.items) }
{
    let mut stretches = Vec::new(alloc);
    for chunk in chunks {
        let from = taken_up(&mut stretches, chunk.address);
        stretches.push(Stretch {
            from,
            to: chunk.address + u16::from(chunk.size),
        })?;
    }
    Ok(stretches)
}

// Where a stretch begins that goes on at an address: with the last one, which is taken out, where that
// ends there, and else here.
fn taken_up(stretches: &mut Vec<Stretch>, address: u16) -> u16
    ensures { IsTakenUp stretches.old.items address result stretches.new.items }
{
    match stretches.last() {
        Some(last) if last.to == address => {
            let from = last.from;
            stretches.pop();
            from
        }
        _ => address,
    }
}
