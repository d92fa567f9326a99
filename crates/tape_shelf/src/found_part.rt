//! What is found in the file that an earlier save of the same words left.
ghost use Rattle.std.specs.Prelude.{◌≡◌, ◌+◌, ◌*◌, ◌<◌, ◌≤◌, ◌↔◌, ◌++◌, All, List, ℕ, [], false, true, length, IfOk, IfSome, IsTrue, MatchOption, OnOk};
ghost use Rattle.std.specs.List.{flat_map};
ghost use Rattle.tape_values.specs.Block.{low_first, top};
ghost use Rattle.tape_shelf.specs.FoundPart.{AreFoundIn, AreFoundInPart, BeginsAt, IsBlank, IsCompleteBlock, IsPartOf, MakeBlock};
ghost use Rattle.tape_shelf.specs.SavedTape.{room_for};

use crate::saved_tape::{BLOCK_WORDS, block_text, tape_room, words_of};
use request_values::AddressRange;
use std::alloc::{AllocError, Global};

// How many bytes a block of 512 bytes has.
const BLOCK: usize = 519;

// Where the bytes of its words begin, behind 1, 0, its length and its address.
const HEAD: usize = 6;

/// What was found in a part.
#[derive(Drop)]
pub(crate) struct Found {
    /// The numbers of its complete blocks.
    pub(crate) numbers: Vec<u16>,

    /// Whether there is anything in it.
    pub(crate) kept: bool,
}

/// What is found in a text that a save of this range left: the numbers of the blocks of 512 bytes that are
/// complete. What stands behind them was not brought to its end, and counts as not read. None where no such save
/// left it.
///
/// The one error is want of memory.
pub(crate) fn found_in(
    alloc: Global,
    range: AddressRange,
    text: &[u8],
) -> Result<Option<Found>, AllocError>
    ensures found { IfOk result (λ found. MatchOption found (IsPartOf range text.now → ⊥) (λ found. AreFoundInPart range text.now found.numbers.items)) }
    ensures kept { IfOk result (λ found. IfSome found (λ found. found.kept ≡ false → found.numbers.items ≡ [])) }
{
    if text.len() != tape_room(range) {
        return Ok(None);
    }
    if is_blank(text) {
        return Ok(Some(Found {
            numbers: Vec::new(alloc),
            kept: false,
        }));
    }
    if !begins_at(range.from(), text) {
        return Ok(None);
    }
    let numbers = blocks_in(alloc, range, text)?;
    Ok(Some(Found {
        numbers,
        kept: true,
    }))
}

// Whether a text has only bytes 00.
fn is_blank(text: &[u8]) -> bool
    ensures { IsTrue result ↔ IsBlank text.now }
{
    for byte in text {
        if *byte != 0 {
            return false;
        }
    }
    true
}

// Whether a text begins as a block does whose first byte is for this address.
fn begins_at(from: u16, text: &[u8]) -> bool
    requires { 6 ≤ length text.now }
    ensures { IsTrue result ↔ BeginsAt from text.now }
{
    let address = u16::from(text[4]) + 256 * u16::from(text[5]);
    text[0] == 1 && text[1] == 0 && address == from
}

// The numbers of the complete blocks at the front of a text of this length.
fn blocks_in(alloc: Global, range: AddressRange, text: &[u8]) -> Result<Vec<u16>, AllocError>
    requires { length text.now ≡ room_for range }
    ensures { IfOk result (λ numbers. AreFoundIn range text.now numbers.items) }
{
    let from = range.from();
    let words = words_of(range);
    let mut numbers = Vec::with_capacity(alloc, words)?;
    for number in 0..words / BLOCK_WORDS {
        let block = &text[BLOCK * number..BLOCK * number + BLOCK];
        if !put_block(&mut numbers, from, number, block)? {
            break;
        }
    }
    Ok(numbers)
}

// Puts the numbers of a block behind those of the blocks before it. False where it is not complete: then the
// numbers are as they were.
fn put_block(
    numbers: &mut Vec<u16>,
    from: u16,
    number: usize,
    block: &[u8],
) -> Result<bool, AllocError>
    requires length { length block.now ≡ 519 }
    requires below { from + 2 * (256 * number + 256) ≤ top }
    requires whole { length numbers.old.items ≡ 256 * number }
    requires small { All (λ n. n < 65536) numbers.old.items }
    ensures small { OnOk result (All (λ n. n < 65536) numbers.new.items) }
    ensures kept { IfOk result (λ complete. complete ≡ false → numbers.new.items ≡ numbers.old.items) }
    ensures more { IfOk result (λ complete. complete ≡ true → (these : List ℕ)
        × MakeBlock (from + 512 * number) these block.now × (numbers.new.items ≡ numbers.old.items ++ these)) }
    ensures none { IfOk result (λ complete. complete ≡ false → IsCompleteBlock (from + 512 * number) block.now → ⊥) }
{
    let before = numbers.len();
    put_words(numbers, &block[HEAD..HEAD + 2 * BLOCK_WORDS])?;
    let text = block_text(from, numbers, number);
    if &text[..] == block {
        return Ok(true);
    }
    numbers.truncate(before);
    Ok(false)
}

// Puts the words of bytes behind other words, of each the low byte first.
fn put_words(words: &mut Vec<u16>, bytes: &[u8]) -> Result<(), AllocError>
    requires length { length bytes.now ≡ 512 }
    requires small { All (λ n. n < 65536) words.old.items }
    ensures small { OnOk result (All (λ n. n < 65536) words.new.items) }
    ensures more { OnOk result ((these : List ℕ) × (flat_map low_first these ≡ bytes.now) × (words.new.items ≡ words.old.items ++ these)) }
{
    for word in 0..BLOCK_WORDS {
        let (low, high) = (bytes[2 * word], bytes[2 * word + 1]);
        words.push(u16::from(low) + 256 * u16::from(high))?;
    }
    Ok(())
}
