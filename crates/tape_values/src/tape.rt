ghost use Rattle.std.specs.Prelude.{◌≡◌, ◌<◌, ◌^◌, ◌↔◌, ℕ, List, length, All, IsTrue, IfOk, IfErr, IfNone, MatchOption};
ghost use Rattle.tape_values.specs.Block.{BlockValue, IsBlock, HoldsBytes, block_at};
ghost use Rattle.tape_values.specs.Tape.{IsSound, IsTape, plain_text, tape_limit, written_length};
ghost use Rattle.tape_values.specs.BadTape.{IsBadTape, IsFirstAt};

use crate::block::{Block, FRAME, TOP};
use std::marker::Model;

/// The most bytes that a tape may have, up to the end of its transfer block (this project's choice).
pub const TAPE_LIMIT: usize = 1_048_576;

/// Why a list of blocks makes no tape. Blocks are numbered from 0.
#[derive(Clone, Copy)]
pub enum BadTape {
    /// This block has no bytes, and the blocks before it are good.
    EmptyBlock(usize),

    /// This block ends above 160000 (octal), and the blocks before it are good.
    BlockPastTop(usize),

    /// Each block is good, but the tape cannot be written in 1,048,576 bytes.
    TooMuch,
}

/// The blocks of a tape in their order, and its start address.
///
/// Each block is not empty and ends at or below 160000 (octal), and the tape can be written in at
/// most 1,048,576 bytes.
#[derive(Drop)]
pub struct Tape {
    blocks: Vec<Block>,
    start: u16,
}

impl Model for Tape {
    ghost use Rattle.tape_values.specs.Tape.{TapeValue, IsSound, tape_code};

    ghost Value = { TapeValue };

    ghost coded = { tape_code };

    ghost view = { λ t. record { blocks = t.blocks.items; start = t.start } };

    ghost invariant = { λ t. IsSound (record { blocks = t.blocks.items; start = t.start }) };
}

impl Tape {
    /// The tape of these blocks and this start address.
    ///
    /// Blocks are judged in order, each for being empty and then for its end; only good blocks can be
    /// too much. A refusal hands the blocks back. Takes no memory.
    pub fn new(blocks: Vec<Block>, start: u16) -> Result<Tape, (Vec<Block>, BadTape)>
        ensures made { IfOk result (λ tape. tape ≡ record { blocks = blocks.items; start = start }) }
        ensures sound { IfOk result (λ tape. IsSound tape) }
        ensures handed_back { IfErr result (λ e. e.0.items ≡ blocks.items) }
        ensures refused { IfErr result (λ e. IsBadTape blocks.items e.1) }
    {
        if let Some(bad) = bad_block(&blocks) {
            return Err((blocks, bad));
        }
        if is_too_much(&blocks) {
            return Err((blocks, BadTape::TooMuch));
        }
        Ok(Tape { blocks, start })
    }

    /// The tape of blocks and a start address that are known to be one's.
    pub fn of_sound(blocks: Vec<Block>, start: u16) -> Tape
        requires { IsSound (record { blocks = blocks.items; start = start }) }
        ensures { result ≡ record { blocks = blocks.items; start = start } }
    {
        Tape { blocks, start }
    }

    /// The blocks in tape order. A byte of a later block replaces an earlier one at its address.
    pub fn blocks(&self) -> &[Block]
        ensures value { result.now ≡ self.now.blocks }
        ensures sound { IsSound self.now }
    {
        &self.blocks
    }

    /// Where the program begins, if even; an odd address asks for no start.
    pub fn start(&self) -> u16
        ensures value { result ≡ self.now.start }
        ensures sound { IsSound self.now }
    {
        self.start
    }

    /// The bytes that the tape has where nothing stands between its blocks, as `write_tape` writes it.
    /// So a text of this tape is the plain one exactly where it has this length.
    pub fn written_length(&self) -> usize
        ensures value { result ≡ written_length self.now.blocks }
        ensures plain { (text : List ℕ) → IsTape text self.now.blocks self.now.start
            → (text ≡ plain_text self.now) ↔ (length text ≡ result) }
    {
        let mut length = FRAME;
        for block in &self.blocks {
            length += FRAME + block.bytes.len();
        }
        length
    }
}

// The first bad block, if any.
fn bad_block(blocks: &[Block]) -> Option<BadTape>
    ensures judged { MatchOption result (All IsBlock blocks.now) (IsBadTape blocks.now) }
    ensures of_bytes { IfNone result (All HoldsBytes blocks.now) }
{
    for (number, block) in blocks.iter().enumerate() {
        if let Some(bad) = bad_bytes(number, block.address, &block.bytes) {
            return Some(bad);
        }
    }
    None
}

// What is wrong with the bytes at an address, as block of this number, if anything is.
fn bad_bytes(number: usize, address: u16, bytes: &[u8]) -> Option<BadTape>
    ensures judged { let b = block_at address bytes.now in
        MatchOption result (IsBlock b) (λ bad. (blocks : List BlockValue) → IsFirstAt blocks number (λ x. x ≡ b) → IsBadTape blocks bad) }
    ensures of_bytes { All (λ byte. byte < 2 ^ 8) bytes.now }
{
    if bytes.is_empty() {
        return Some(BadTape::EmptyBlock(number));
    }
    if bytes.len() > TOP || usize::from(address) > TOP - bytes.len() {
        return Some(BadTape::BlockPastTop(number));
    }
    None
}

// Whether the blocks and the transfer block fill more bytes than a tape may have.
fn is_too_much(blocks: &[Block]) -> bool
    requires { All IsBlock blocks.now }
    ensures { IsTrue result ↔ (tape_limit < written_length blocks.now) }
{
    let mut length = FRAME;
    for block in blocks {
        length += FRAME + block.bytes.len();
        if length > TAPE_LIMIT {
            return true;
        }
    }
    false
}
