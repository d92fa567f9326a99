ghost use Rattle.std.specs.Prelude.{◌≡◌, ◌+◌, ◌≤◌, ℕ, ◌++◌, List, length, vec_len, IfOk, OnOk, Ok};
ghost use Rattle.arrayvec.specs.ArrayVec.{array_vec_len};
ghost use Rattle.tape_values.specs.Block.{framed, top};
ghost use Rattle.tape_values.specs.Tape.{plain_text, written_length};
ghost use Rattle.tape_blocks.specs.Reading.{IsReading};

use crate::checksum::byte_sum;
use crate::head::{BLANK, HEADER, MARK};
use arrayvec::ArrayVec;
use byteorder::{ByteOrder, LittleEndian};
use std::alloc::{AllocError, Global};
use tape_values::{Memory, Tape};

/// Writes the blocks of a tape in order and then its transfer block, with no byte 00 between.
///
/// `Memory` comes only where a growth was refused.
pub fn write_tape(alloc: Global, tape: &Tape) -> Result<Vec<u8>, Memory>
    ensures plain { IfOk result (λ text. text.items ≡ plain_text tape.now) }
    ensures fits { IfOk result (λ text. vec_len text ≡ written_length tape.now.blocks) }

    // Whatever follows the text, it is read as this tape.
    ensures read_again { IfOk result (λ text. (more : List ℕ) → IsReading (text.items ++ more) (Ok (tape.now, vec_len text))) }
{
    let mut text = Vec::new(alloc);
    for block in tape.blocks() {
        write_block(&mut text, block.address, &block.bytes)?;
    }
    write_block(&mut text, tape.start(), &[])?;
    Ok(text)
}

// Appends the block of this address and these bytes, its checksum included.
fn write_block(text: &mut Vec<u8>, address: u16, bytes: &[u8]) -> Result<(), AllocError>
    requires { length bytes.now ≤ top }
    ensures { OnOk result (text.new.items ≡ text.old.items ++ framed address bytes.now) }
{
    let mut header = [MARK, BLANK, 0, 0, 0, 0];
    LittleEndian::write_u16(&mut header[2..], (HEADER + bytes.len()) as u16);
    LittleEndian::write_u16(&mut header[4..], address);
    let sum = (byte_sum(&header) + byte_sum(bytes)) % 256;
    text.extend_from_slice(&header)?;
    text.extend_from_slice(bytes)?;
    text.push(((256 - sum) % 256) as u8)?;
    Ok(())
}

/// Puts the block of this address and these bytes, its checksum included, at the end of a short text that
/// has room for it. A block without bytes is the transfer block.
pub fn push_block<const ROOM: usize>(text: &mut ArrayVec<u8, ROOM>, address: u16, bytes: &[u8])
    requires few { length bytes.now ≤ top }
    requires room { array_vec_len text.old + length bytes.now + 7 ≤ ROOM }
    ensures items { text.new.items ≡ text.old.items ++ framed address bytes.now }
    ensures length { array_vec_len text.new ≡ array_vec_len text.old + length bytes.now + 7 }
{
    let mut header = [MARK, BLANK, 0, 0, 0, 0];
    LittleEndian::write_u16(&mut header[2..], (HEADER + bytes.len()) as u16);
    LittleEndian::write_u16(&mut header[4..], address);
    let sum = (byte_sum(&header) + byte_sum(bytes)) % 256;
    text.try_extend_from_slice(&header).unwrap();
    text.try_extend_from_slice(bytes).unwrap();
    text.push(((256 - sum) % 256) as u8);
}
