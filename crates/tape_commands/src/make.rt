//! The command `make`, up to the file that it writes: the bytes of a tape of octal words.
ghost use Rattle.std.specs.Prelude.{◌≡◌, IfOk, IfErr};
ghost use Rattle.input_files.specs.Intake.{intake};
ghost use Rattle.tape_making.specs.Making.{IsMade};
ghost use Rattle.tape_commands.specs.TapeOfWords.{IsTapeMade, IsTapeUnmade, IsUnmade};

use endings::{Failure, FaultOutput, Output, STANDARD_INPUT, Streams};
use input_files::{InputFiles, is_input, open};
use request_values::Make;
use std::alloc::Global;
use std::io::Read;
use tape_making::{MakeFault, make_tape};

/// The bytes of the tape that octal words make: those of standard input where their name is `-`, else those in the
/// file. Nothing is written.
///
/// `CannotRead` names what can't be opened or read, `WordsRefused` has the first line that is wrong. `NoMemory` comes
/// only where a growth was refused.
pub fn tape_of_words<'a, F: InputFiles, R: Read, W: Output, E: FaultOutput>(
    inputs: &mut F,
    alloc: Global,
    make: Make<'a>,
    streams: &mut Streams<R, W, E>,
) -> Result<Vec<u8>, Failure<'a>>
    ensures ok { IfOk result (λ made.
        IsTapeMade make.entry (intake (F.opened inputs.old) streams.old) (intake (F.opened inputs.new) streams.new) made.items) }
    ensures err { IfErr result (IsTapeUnmade make.entry (intake (F.opened inputs.old) streams.old) (intake (F.opened inputs.new) streams.new)) }
    ensures same_out { streams.new.out ≡ streams.old.out }
    ensures quiet { streams.new.err ≡ streams.old.err }
{
    if is_input(&[make.words]) {
        made_of(alloc, &mut streams.input, STANDARD_INPUT, make.start)
    } else {
        let mut file = open(inputs, alloc, make.words)?;
        made_of(alloc, &mut file, make.words, make.start)
    }
}

// The same of an input that faults call by this name.
fn made_of<'a, R: Read>(
    alloc: Global,
    words: &mut R,
    name: &'a str,
    start: u16,
) -> Result<Vec<u8>, Failure<'a>>
    ensures ok { IfOk result (λ made. IsMade (R.remaining words.old) (R.remaining words.new) start made.items) }
    ensures err { IfErr result (IsUnmade name.entry.now (R.remaining words.old) (R.remaining words.new)) }
{
    match make_tape(alloc, words, start) {
        Ok(made) => Ok(made),
        Err(MakeFault::Words(refusal)) => Err(Failure::WordsRefused(refusal)),
        Err(MakeFault::Read) => Err(Failure::CannotRead(name)),
        Err(MakeFault::Memory) => Err(Failure::NoMemory),
    }
}
