//! The tape of a sheet, and of a text of words.
ghost use Rattle.std.specs.Prelude.{◌≡◌, ◌<◌, ◌≤◌, ℕ, length, None, slice_index_or, IfOk, IfErr, IfSome, IfNone};
ghost use Rattle.tape_values.specs.Block.{top};
ghost use Rattle.tape_making.specs.Reading.{IsWordsFault};
ghost use Rattle.tape_making.specs.MadeTape.{IsNextByte, IsRun, IsTapeOf, IsTapeSaid, byte_on};

use crate::refusal::WordsFault;
use crate::text::read_words;
use std::alloc::{AllocError, Global};
use tape_values::{Block, Tape};

// The most bytes of a block.
const BLOCK_BYTES: usize = 512;

/// The tape of the words that a text says, with this start address.
///
/// The fault is that of the text, or want of memory.
pub(crate) fn tape_from(alloc: Global, text: &[u8], start: u16) -> Result<Tape, WordsFault>
    ensures made { IfOk result (IsTapeSaid text.now start) }
    ensures refused { IfErr result (IsWordsFault text.now) }
{
    let sheet = read_words(alloc, text)?;
    let tape = tape_of(alloc, sheet.bytes(), start)?;
    Ok(tape)
}

// The tape of a byte for each address from 0 on, where there is one. The error is want of memory.
fn tape_of(alloc: Global, bytes: &[Option<u8>], start: u16) -> Result<Tape, AllocError>
    requires { length bytes.now ≤ top }
    ensures { IfOk result (IsTapeOf (byte_on bytes.now) start) }
{
    let mut blocks = Vec::new(alloc);
    let mut at = 0;
    while let Some(first) = next_byte(bytes, at) {
        let run = run_at(alloc, bytes, first)?;
        at = first + run.len();
        blocks.push(Block {
            address: first as u16,
            bytes: run,
        })?;
    }
    Ok(Tape::new(blocks, start).unwrap())
}

// The first address from `at` on that has a byte.
fn next_byte(bytes: &[Option<u8>], at: usize) -> Option<usize>
    ensures found { IfSome result (IsNextByte bytes.now at) }
    ensures none { IfNone result ((a : ℕ) → at ≤ a → byte_on bytes.now a ≡ None) }
{
    for address in at..bytes.len() {
        if bytes[address].is_some() {
            return Some(address);
        }
    }
    None
}

// The bytes from an address on, up to one that has none, and no more than a block has.
fn run_at(alloc: Global, bytes: &[Option<u8>], first: usize) -> Result<Vec<u8>, AllocError>
    requires { first < length bytes.now }
    ensures { IfOk result (λ run. IsRun bytes.now first run.items) }
{
    let mut run = Vec::new(alloc);
    for address in first..bytes.len() {
        if run.len() == BLOCK_BYTES {
            return Ok(run);
        }
        let Some(byte) = bytes[address] else {
            return Ok(run);
        };
        run.push(byte)?;
    }
    Ok(run)
}
