ghost use Rattle.std.specs.Prelude.{◌≡◌, ◌≤◌, length, IfOk};
ghost use Rattle.std.specs.List.{flat_map};
ghost use Rattle.tape_values.specs.Block.{low_first};

use std::alloc::{AllocError, Global};
use std::marker::Model;

/// The bytes of a block besides its data: the header and the checksum.
pub const FRAME: usize = 7;

/// 160000 octal, the end of memory and the beginning of the I/O page: no block ends above it.
pub const TOP: usize = 0o160000;

/// Bytes to be stored in the machine's memory, and the address of the first of them.
///
/// Contracts see the record of the address and the list of the bytes. Nothing is promised of a lone
/// block: a `Tape` holds only blocks that are not empty and end at or below 160000 (octal).
#[derive(Drop)]
pub struct Block {
    /// The address of the first byte.
    pub address: u16,

    /// The bytes, for rising addresses.
    pub bytes: Vec<u8>,
}

impl Model for Block {
    ghost use Rattle.tape_values.specs.Block.{BlockValue, block_code};

    ghost Value = { BlockValue };

    ghost coded = { block_code };

    ghost view = { λ b. record { address = b.address; bytes = b.bytes.items } };
}

/// The bytes of words, of each the low one first. The one error is a growth that was refused.
pub fn low_bytes_first(alloc: Global, words: &[u16]) -> Result<Vec<u8>, AllocError>
    requires { length words.now ≤ 28672 }
    ensures { IfOk result (λ bytes. bytes.items ≡ flat_map low_first words.now) }
{
    let mut bytes = Vec::with_capacity(alloc, 2 * words.len())?;
    for word in words {
        bytes.extend_from_slice(&word.to_le_bytes())?;
    }
    Ok(bytes)
}
