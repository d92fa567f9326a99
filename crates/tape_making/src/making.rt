//! From an input of words to the bytes of a tape.
ghost use Rattle.std.specs.Prelude.{◌≡◌, IfOk, IfErr};
ghost use Rattle.tape_making.specs.Making.{IsMade, IsNotMade};

use crate::refusal::{Refusal, WordsFault};
use crate::tape::tape_from;
use crate::text::WORDS_LIMIT;
use byte_io::{InputFault, read_up_to};
use std::alloc::{AllocError, Global};
use std::io::Read;
use tape_blocks::write_tape;

// The most bytes that are taken: one more than words may have, so that a longer text is seen.
const INPUT_LIMIT: usize = WORDS_LIMIT + 1;

/// Why no tape was made.
#[derive(Clone, Copy)]
pub enum MakeFault {
    /// The words are refused.
    Words(Refusal),

    /// A read failed.
    Read,

    /// A growth of memory was refused.
    Memory,
}

impl From<InputFault> for MakeFault {
    ghost use Rattle.std.specs.Prelude.{◌≡◌};
    ghost use Rattle.tape_making.specs.Making.{from_input};

    ghost from_gives = { λ fault made. made ≡ from_input fault };

    fn from(fault: InputFault) -> MakeFault {
        match fault {
            InputFault::Read => MakeFault::Read,
            InputFault::Memory => MakeFault::Memory,
        }
    }
}

impl From<WordsFault> for MakeFault {
    ghost use Rattle.std.specs.Prelude.{◌≡◌};
    ghost use Rattle.tape_making.specs.Making.{from_words};

    ghost from_gives = { λ fault made. made ≡ from_words fault };

    fn from(fault: WordsFault) -> MakeFault {
        match fault {
            WordsFault::Refused(refusal) => MakeFault::Words(refusal),
            WordsFault::Memory => MakeFault::Memory,
        }
    }
}

impl From<AllocError> for MakeFault {
    ghost use Rattle.std.specs.Prelude.{◌≡◌};
    ghost use Rattle.tape_making.specs.declared.making.MakeFault.TheVariants.{Memory as no_memory};

    ghost from_gives = { λ _ made. made ≡ no_memory };

    fn from(_refused: AllocError) -> MakeFault {
        MakeFault::Memory
    }
}

/// The bytes of the tape that the words of an input make, with this start address; an odd one starts
/// nothing. The input is read to its end, and at most 4,194,305 bytes are taken on any outcome.
///
/// `Words` is the first line that is wrong, and why; `Read` a read that failed, whatever its error says:
/// the input is not asked again; `Memory` comes only where a growth was refused.
pub fn make_tape<R: Read>(alloc: Global, words: &mut R, start: u16) -> Result<Vec<u8>, MakeFault>
    ensures made { IfOk result (λ made. IsMade (R.remaining words.old) (R.remaining words.new) start made.items) }
    ensures not_made { IfErr result (IsNotMade (R.remaining words.old) (R.remaining words.new)) }
{
    let text = read_up_to(alloc, words, INPUT_LIMIT)?;
    let tape = tape_from(alloc, &text, start)?;
    let made = write_tape(alloc, &tape)?;
    Ok(made)
}
