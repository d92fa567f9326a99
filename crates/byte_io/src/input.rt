//! Taking the first bytes of an input.
ghost use Rattle.std.specs.Prelude.{IfOk, OnErr};
ghost use Rattle.byte_io.specs.Input.{IsTaken, TakesAtMost};

use std::alloc::{AllocError, Global};
use std::io;
use std::io::Read;

/// Why an input was not taken.
#[derive(Clone, Copy)]
pub enum InputFault {
    /// A read failed. It is not tried again, whatever its error says.
    Read,

    /// A growth was refused.
    Memory,
}

impl From<io::Error> for InputFault {
    ghost use Rattle.std.specs.Prelude.{◌≡◌};
    ghost use Rattle.byte_io.specs.declared.input.InputFault.TheVariants.{Read as ReadFailed};

    ghost from_gives = { λ _ fault. fault ≡ ReadFailed };

    fn from(_error: io::Error) -> InputFault {
        InputFault::Read
    }
}

impl From<AllocError> for InputFault {
    ghost use Rattle.std.specs.Prelude.{◌≡◌};
    ghost use Rattle.byte_io.specs.declared.input.InputFault.TheVariants.{Memory};

    ghost from_gives = { λ _ fault. fault ≡ Memory };

    fn from(_refused: AllocError) -> InputFault {
        InputFault::Memory
    }
}

// How many bytes are asked for in one read.
const PIECE: usize = 8192;

/// The first `limit` bytes of an input, or all where it has fewer. A read of no bytes is the end.
pub fn read_up_to<R: Read>(
    alloc: Global,
    input: &mut R,
    limit: usize,
) -> Result<Vec<u8>, InputFault>
    ensures ok { IfOk result (λ bytes. IsTaken (R.remaining input.old) (R.remaining input.new) limit bytes.items) }
    ensures err { OnErr result (TakesAtMost (R.remaining input.old) (R.remaining input.new) limit) }
{
    let mut bytes = Vec::new(alloc);
    let mut piece = [0u8; PIECE];
    while bytes.len() < limit {
        let room = (limit - bytes.len()).min(PIECE);
        let count = input.read(&mut piece[..room])?;
        if count == 0 {
            break;
        }
        bytes.extend_from_slice(&piece[..count])?;
    }
    Ok(bytes)
}
