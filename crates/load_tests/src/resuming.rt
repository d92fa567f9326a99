//! What a save goes on with over a disk that tells what an earlier one left.
ghost use Rattle.std.specs.Prelude.{IfOk};
ghost use Rattle.tape_shelf.specs.FoundPart.{AreFoundInPart};

use request_values::AddressRange;
use std::alloc::Global;
use tape_shelf::{NewFile, Shelf, ShelfFault};
use told_calls::MemoryDisk;

// The file of a save, and the one beside it.
const SAVED: &str = "d.lda";

const BESIDE: &str = "d.lda.part";

// Goes on with a text that stands in the file beside. What `resume` promises of what was left is so of this disk, which
// tells.
fn resumed(alloc: Global, text: &[u8], range: AddressRange) -> Result<Vec<u16>, ShelfFault>
    ensures { IfOk result (λ found. AreFoundInPart range text.now found.items) }
{
    let mut shelf = NewFile::new(MemoryDisk::new(BESIDE, text), SAVED);
    let found = shelf.resume(alloc, range);
    let _disk = shelf.close();
    found
}

// A complete block of 512 bytes for the first word of the range: 1, 0, its length, its address, each number twice, and
// the checksum.
const HEAD: [u8; 6] = [0x01, 0x00, 0x06, 0x02, 0x00, 0x02];

const CHECKSUM: u8 = 0xF5;

// What a save of two blocks left that was broken off once the first was there, and how long that is.
const ROOM: usize = 1045;

fn text_of_one_block(alloc: Global) -> Option<Vec<u8>> {
    let mut text = Vec::from_slice(alloc, &HEAD).ok()?;
    for byte in 0..=255u8 {
        text.push(byte).ok()?;
        text.push(byte).ok()?;
    }
    text.push(CHECKSUM).ok()?;
    text.resize(ROOM, 0).ok()?;
    Some(text)
}

// Whether these are the numbers of that block.
fn are_of_one_block(numbers: &[u16]) -> bool {
    numbers.len() == 256 && numbers[1] == 257 && numbers[255] == 65535
}

// Whether the numbers of the one complete block are found, none where a byte of it is another one, and whether a text
// that is one byte too short is refused.
fn is_block_found(alloc: Global) -> Option<bool> {
    let range = AddressRange::new(0o001000, 0o002776)?;
    let mut text = text_of_one_block(alloc)?;
    let whole = resumed(alloc, &text, range).ok()?;
    let short = resumed(alloc, &text[1..], range).err();
    text[100] = 0;
    let torn = resumed(alloc, &text, range).ok()?;
    Some(
        are_of_one_block(&whole) && torn.is_empty() && matches!(short, Some(ShelfFault::NotOfSave)),
    )
}

#[test]
fn a_complete_block_is_found_and_no_other(rt: HostRuntime) {
    assert!(rt; is_block_found(rt.alloc()) == Some(true));
}
