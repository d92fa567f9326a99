//! A tape from the front of an input.
ghost use Rattle.std.specs.Prelude.{◌≡◌};
ghost use Rattle.tape_blocks.specs.Input.{IsReadFrom, IsReadWithLayout};

use crate::fault::{Fault, ReadError};
use crate::layout::Layout;
use crate::reader::{Fed, TapeReader};
use std::alloc::{AllocError, Global};
use std::io;
use std::io::Read;
use tape_values::{TAPE_LIMIT, Tape};

// The most bytes that are taken: one more than a tape may have, so that a longer one is seen.
const INPUT_LIMIT: usize = TAPE_LIMIT + 1;

/// Why an input gave no tape.
#[derive(Clone, Copy)]
pub enum FromError {
    /// The input is no tape.
    Tape(Fault),

    /// A growth of memory was refused.
    Memory,

    /// A read failed.
    Io,
}

impl From<ReadError> for FromError {
    ghost use Rattle.std.specs.Prelude.{◌≡◌};
    ghost use Rattle.tape_blocks.specs.Input.{from_read_error};

    ghost from_gives = { λ error e. e ≡ from_read_error error };

    fn from(error: ReadError) -> FromError {
        match error {
            ReadError::Tape(fault) => FromError::Tape(fault),
            ReadError::Memory => FromError::Memory,
        }
    }
}

impl From<io::Error> for FromError {
    ghost use Rattle.std.specs.Prelude.{◌≡◌};
    ghost use Rattle.tape_blocks.specs.declared.input.FromError.TheVariants.{Io};

    ghost from_gives = { λ _ e. e ≡ Io };

    fn from(_error: io::Error) -> FromError {
        FromError::Io
    }
}

impl From<AllocError> for FromError {
    ghost use Rattle.std.specs.Prelude.{◌≡◌};
    ghost use Rattle.tape_blocks.specs.declared.input.FromError.TheVariants.{Memory};

    ghost from_gives = { λ _ e. e ≡ Memory };

    fn from(_refused: AllocError) -> FromError {
        FromError::Memory
    }
}

/// Reads the tape that begins an input, and tells how many bytes it has. These bytes alone are taken.
///
/// The input is asked for no more bytes than the tape is known to need: for a block's rest and the
/// next seven in one read. A read of no bytes is the input's end. At most 1,048,577 bytes are taken
/// on any outcome, and no byte that follows a tape.
///
/// `FromError::Tape` is the fault of the input. `FromError::Io` is a read that failed, whatever its
/// error says; the input is not asked again. `FromError::Memory` comes only where a growth was
/// refused.
pub fn read_from<R: Read>(alloc: Global, input: &mut R) -> Result<(Tape, u32), FromError>
    ensures { IsReadFrom (R.remaining input.old) (R.remaining input.new) result }
{
    match read_with_layout(alloc, input) {
        Ok((tape, layout)) => Ok((tape, layout.size)),
        Err(error) => Err(error),
    }
}

/// The same, and how the tape lies in the bytes that were taken: where each of its blocks begins.
pub fn read_with_layout<R: Read>(alloc: Global, input: &mut R) -> Result<(Tape, Layout), FromError>
    ensures { IsReadWithLayout (R.remaining input.old) (R.remaining input.new) result }
{
    let mut reader = TapeReader::new(alloc);
    // As long as a block may be, so not on the stack: where memory is short, a growth can be refused.
    let mut piece = Vec::new(alloc);
    let mut taken = 0;
    loop {
        let room = reader.needs().min(INPUT_LIMIT - taken);
        piece.resize(room, 0u8)?;
        let bytes = piece.as_mut_slice();
        let count = input.read(bytes)?;
        taken += count;
        match reader.feed(&bytes[..count])? {
            Fed::More if count > 0 => {}
            _ => {
                let (tape, places) = reader.finish_with_places()?;
                let size = taken as u32;
                return Ok((tape, Layout { places, size }));
            }
        }
    }
}
