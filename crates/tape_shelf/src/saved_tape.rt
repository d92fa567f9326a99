//! The texts of the tape of what was read.
ghost use Rattle.std.specs.Prelude.{◌≡◌, [], ◌++◌, ◌+◌, ◌*◌, ◌<◌, ◌≤◌, length};
ghost use Rattle.std.specs.List.{flat_map};
ghost use Rattle.arrayvec.specs.ArrayVec.{array_vec_len};
ghost use Rattle.tape_values.specs.Block.{data_block, low_first, top};
ghost use Rattle.host_core.specs.Memory.{most_words};
ghost use Rattle.reading_core.specs.Addresses.{IsRange};
ghost use Rattle.tape_shelf.specs.SavedTape.{last_text, room_for, saved_block, words_in};

use arrayvec::ArrayVec;
use byte_io::push_bytes;
use request_values::AddressRange;
use tape_blocks::push_block;

/// How many words a block has, but for the last: 512 bytes.
pub const BLOCK_WORDS: usize = 256;

// How many bytes a block has beside its data, and the transfer block without any.
const FRAME: usize = 7;

// Room for a block, and for the transfer block behind it.
const TEXT_ROOM: usize = 526;

/// A text that is added to a tape.
pub type TapeText = ArrayVec<u8, TEXT_ROOM>;

/// How many words a range has, both ends included.
pub fn words_of(range: AddressRange) -> usize
    ensures words { result ≡ words_in range }
    ensures few { result ≤ most_words }
    ensures below { range.from + 2 * result ≤ top }
    ensures in_order { IsRange range.from range.to }
{
    usize::from((range.to() - range.from()) / 2 + 1)
}

/// The room that the tape of the words of a range needs, in bytes.
pub fn tape_room(range: AddressRange) -> usize
    ensures { result ≡ room_for range }
{
    let words = words_of(range);
    let frames = 1 + words.div_ceil(BLOCK_WORDS);
    FRAME * frames + 2 * words
}

/// The text of the block of this number of the tape of the numbers that stand in memory from an address on.
pub fn block_text(from: u16, numbers: &[u16], number: usize) -> TapeText
    requires below { from + 2 * length numbers.now ≤ top }
    requires within { 256 * number < length numbers.now }
    ensures { result.items ≡ data_block (saved_block from numbers.now number) }
{
    let mut text = TapeText::new();
    push_saved_block(&mut text, from, numbers, number);
    text
}

/// The last text of that tape, with this start address: the numbers that fill no block, where there are some,
/// as a block that is shorter, and the transfer block.
pub fn last_text(from: u16, numbers: &[u16], start: u16) -> TapeText
    requires below { from + 2 * length numbers.now ≤ top }
    ensures { result.items ≡ last_text from numbers.now start }
{
    let mut text = TapeText::new();
    let full = numbers.len() / BLOCK_WORDS;
    if BLOCK_WORDS * full < numbers.len() {
        push_saved_block(&mut text, from, numbers, full);
    }
    push_block(&mut text, start, &[]);
    text
}

// Puts the block of this number into a text that is empty.
fn push_saved_block(text: &mut TapeText, from: u16, numbers: &[u16], number: usize)
    requires empty { text.old.items ≡ [] }
    requires below { from + 2 * length numbers.now ≤ top }
    requires within { 256 * number < length numbers.now }
    ensures items { text.new.items ≡ data_block (saved_block from numbers.now number) }
    ensures length { array_vec_len text.new ≤ 519 }
{
    let first = BLOCK_WORDS * number;
    let behind = (first + BLOCK_WORDS).min(numbers.len());
    let bytes = low_bytes_first(&numbers[first..behind]);
    push_block(text, from + 2 * first as u16, &bytes);
}

// The bytes of numbers, of each the low one first.
fn low_bytes_first(numbers: &[u16]) -> ArrayVec<u8, 512>
    requires { length numbers.now ≤ 256 }
    ensures bytes { result.items ≡ flat_map low_first numbers.now }
    ensures length { array_vec_len result ≡ 2 * length numbers.now }
{
    let mut bytes = ArrayVec::new();
    for number in numbers {
        push_bytes(&mut bytes, &number.to_le_bytes());
    }
    bytes
}
