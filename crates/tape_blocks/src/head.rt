ghost use Rattle.std.specs.Prelude.{◌≡◌, ℕ, ◌+◌, ◌<◌, ◌≤◌, List, ◌∷◌, ◌++◌, length, MatchResult};
ghost use Rattle.tape_values.specs.Tape.{tape_limit};
ghost use Rattle.tape_blocks.specs.Head.{IsHead, IsFaultyBlock, IsSplit, SaysCount, FailsHeader};

use crate::checksum::byte_sum;
use crate::fault::{Fault, Why};
use byteorder::{ByteOrder, LittleEndian};
use tape_values::TOP;

/// What begins a block.
pub(crate) const MARK: u8 = 1;

/// The second byte of a block's mark, and what may stand before and between blocks.
pub(crate) const BLANK: u8 = 0;

/// The bytes before the data: mark, count and address. A block's count has them in, so this is the
/// count of the transfer block, and the least one that there is.
pub(crate) const HEADER: usize = 6;

/// What stands first in a text that begins with no byte 00.
pub(crate) enum Head<'a> {
    /// The beginning of a block, or nothing: the text ends before the block does.
    Part,

    /// A data block: its address and its data.
    Data(u16, &'a [u8]),

    /// The transfer block: its start address.
    Transfer(u16),
}

/// What stands first in the text that is these two joined, of which the first is the block's header
/// as far as it is there. The text stands at this place of the input.
pub(crate) fn head_of<'a>(header: &[u8], body: &'a [u8], at: usize) -> Result<Head<'a>, Fault>
    requires split { IsSplit header.now body.now }
    requires within { at + length (header.now ++ body.now) ≤ tape_limit }
    requires no_blank { (rest : List ℕ) → header.now ++ body.now ≡ 0 ∷ rest → ⊥ }
    ensures { let text = header.now ++ body.now in
        MatchResult result (λ h. IsHead at text h) (λ fault. IsFaultyBlock at text fault) }
{
    let Some(count) = count_of(header, at)? else {
        return Ok(Head::Part);
    };
    let length = count - HEADER;
    if body.len() <= length {
        return Ok(Head::Part);
    }
    if (byte_sum(header) + byte_sum(&body[..length + 1])) % 256 != 0 {
        return Err(Fault::new(at, Why::BadSum));
    }
    let address = LittleEndian::read_u16(&header[4..]);
    if length == 0 {
        return Ok(Head::Transfer(address));
    }
    if usize::from(address) + length > TOP {
        return Err(Fault::new(at + 4, Why::PastTop));
    }
    Ok(Head::Data(address, &body[..length]))
}

// The count in a block's header, where it is there.
fn count_of(header: &[u8], at: usize) -> Result<Option<usize>, Fault>
    requires { at + length header.now ≤ tape_limit }
    ensures { MatchResult result (SaysCount at header.now) (FailsHeader at header.now) }
{
    if header.is_empty() {
        return Ok(None);
    }
    if header[0] != MARK {
        return Err(Fault::new(at, Why::Stray));
    }
    if header.len() < 2 {
        return Ok(None);
    }
    if header[1] != BLANK {
        return Err(Fault::new(at + 1, Why::BadMark));
    }
    if header.len() < 4 {
        return Ok(None);
    }
    let count = usize::from(LittleEndian::read_u16(&header[2..]));
    if count < HEADER {
        return Err(Fault::new(at + 2, Why::BadCount));
    }
    Ok(Some(count))
}
