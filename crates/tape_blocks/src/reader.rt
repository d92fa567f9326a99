ghost use Rattle.std.specs.Prelude.{◌≡◌, ◌⊎◌, ◌↔◌, ◌+◌, ◌<◌, ◌≤◌, ℕ, List, [], ◌++◌, length, All, Result, IfOk, OnOk};
ghost use Rattle.tape_blocks.specs.Layout.{ArePlaced};
ghost use Rattle.tape_values.specs.Block.{BlockValue};
ghost use Rattle.tape_values.specs.Tape.{IsTape, TapeValue};
ghost use Rattle.tape_blocks.specs.Reading.{IsReading, IsReadingUnlessMemory};
ghost use Rattle.tape_blocks.specs.TapeReader.{used_of};
ghost use Rattle.tape_blocks.specs.declared.fault.ReadError.{ReadError as Error};

use crate::fault::ReadError;
use crate::partial_tape::{PartialTape, Step};
use crate::reader_state::ReaderState;
use std::alloc::Global;
use std::marker::Model;
use tape_values::Tape;

/// Reads the tape that begins the input, and tells how many bytes it has, up to the end of its
/// transfer block. What follows them is neither read nor judged.
///
/// `ReadError::Tape` is the first fault in reading order, where no tape begins the input.
/// `ReadError::Memory` comes only where a growth was refused.
pub fn read_tape(alloc: Global, bytes: &[u8]) -> Result<(Tape, u32), ReadError>
    // What is answered is so: so many first bytes are the text of the tape, or the input is refused.
    ensures answered { IsReadingUnlessMemory bytes.now result }

    // What is so is answered.
    ensures complete { (answer : Result (TapeValue × ℕ) Error) → IsReading bytes.now answer
        → (result ≡ answer) ⊎ (result ≡ Err ReadError.Memory) }
{
    let mut reader = TapeReader::new(alloc);
    let fed = reader.feed(bytes)?;
    let tape = reader.finish()?;
    Ok((tape, fed.used() as u32))
}

/// What a piece of a tape came to.
#[derive(Clone, Copy)]
pub enum Fed {
    /// The tape goes on behind the piece.
    More,

    /// So many bytes of the piece belong to the tape, which ends there.
    Done(usize),
}

impl Fed {
    // How many bytes of the piece belong to the tape, where that ends in it; else 0.
    fn used(self) -> usize
        ensures { result ≡ used_of self }
    {
        match self {
            Fed::More => 0,
            Fed::Done(used) => used,
        }
    }
}

/// Reads a tape piece by piece, however it is cut.
///
/// Contracts see where the reader stands: what it has read of the list of all bytes that it was fed.
/// After an error it answers the same error again.
#[derive(Drop)]
pub struct TapeReader {
    partial: PartialTape,
    state: ReaderState,
}

impl Model for TapeReader {
    ghost use Rattle.tape_blocks.specs.TapeReader.{ReaderValue};

    ghost Value = { ReaderValue };

    ghost use Rattle.tape_blocks.specs.TapeReader.{IsTapeReader, value_of};

    ghost view = { λ r. value_of r.partial r.state };

    ghost invariant = { λ r. IsTapeReader (value_of r.partial r.state) r.partial.header.items r.partial.body.items };
}

impl TapeReader {
    ghost use Rattle.tape_blocks.specs.TapeReader.{StandsAt, IsFed, IsFinished, IsFinishedWith, IsOpen, IsOutOfMemory};

    /// A reader that was fed nothing. Takes no memory.
    pub fn new(alloc: Global) -> TapeReader
        ensures stands { StandsAt result [] }
        ensures goes_on { IsOpen result }
        ensures places { ArePlaced [] result.blocks result.places }
    {
        TapeReader {
            partial: PartialTape::new(alloc),
            state: ReaderState::Open,
        }
    }

    /// Reads the next piece.
    ///
    /// `ReadError::Tape` is the fault of all that was fed, as soon as no byte that follows can mend it.
    /// `ReadError::Memory` comes only where a growth was refused.
    pub fn feed(&mut self, piece: &[u8]) -> Result<Fed, ReadError>
        // Wherever the reader stood, it now stands behind the piece.
        ensures stands { (fed : List ℕ) → StandsAt self.old fed → StandsAt self.new (fed ++ piece.now) }

        // What is answered is what all that was fed says.
        ensures answered { (fed : List ℕ) → StandsAt self.old fed → IsFed fed piece.now result }
        ensures goes_on { IsOpen self.new ↔ (result ≡ Ok Fed.More) }

        // Each block has its place.
        ensures places { OnOk result ((fed : List ℕ) → StandsAt self.old fed → ArePlaced fed self.old.blocks self.old.places
            → ArePlaced (fed ++ piece.now) self.new.blocks self.new.places) }

        // A refused growth is the last word.
        ensures memory { IsOutOfMemory self.new ↔ (result ≡ Err ReadError.Memory) }
        ensures memory_stays { IsOutOfMemory self.old → IsOutOfMemory self.new }
        ensures memory_is_new { (IsOpen self.old → ⊥) → result ≡ Err ReadError.Memory → IsOutOfMemory self.old }

        // Bytes 00 between blocks take no memory.
        ensures blank { IsOpen self.old → self.old.part ≡ [] → All (λ byte. byte ≡ 0) piece.now → result ≡ Err ReadError.Memory → ⊥ }
    {
        match self.state {
            ReaderState::Open => {}
            ReaderState::Done(_) => return Ok(Fed::Done(0)),
            ReaderState::Failed(error) => return Err(error),
        }
        match self.partial.read_on(piece) {
            Ok(Step::Took(_)) => Ok(Fed::More),
            Ok(Step::Ended(used, start)) => {
                self.state = ReaderState::Done(start);
                Ok(Fed::Done(used))
            }
            Err(error) => {
                self.state = ReaderState::Failed(error);
                Err(error)
            }
        }
    }

    /// The tape of all that was fed, where nothing follows it. Takes no memory.
    ///
    /// `ReadError::Tape` is the fault of what was fed, and `ReadError::Memory` comes only where a
    /// growth was refused before.
    pub fn finish(self) -> Result<Tape, ReadError>
        ensures answered { (fed : List ℕ) → StandsAt self fed → IsFinished fed result }
        ensures memory { IsOutOfMemory self ↔ (result ≡ Err ReadError.Memory) }
    {
        match self.finish_with_places() {
            Ok((tape, _places)) => Ok(tape),
            Err(error) => Err(error),
        }
    }

    /// The same, with the place of each of the tape's blocks.
    pub(crate) fn finish_with_places(self) -> Result<(Tape, Vec<u32>), ReadError>
        ensures answered { (fed : List ℕ) → StandsAt self fed → IsFinishedWith fed result }
        ensures memory { IsOutOfMemory self ↔ (result ≡ Err ReadError.Memory) }
        ensures blocks { IfOk result (λ read. read.0.blocks ≡ self.blocks) }
        ensures places { IfOk result (λ read. read.1.items ≡ self.places) }
    {
        let TapeReader { partial, state } = self;
        match state {
            ReaderState::Open => Err(partial.missing().into()),
            ReaderState::Done(start) => Ok((Tape::of_sound(partial.blocks, start), partial.places)),
            ReaderState::Failed(error) => Err(error),
        }
    }

    /// How many bytes more the tape has, as far as that is known: no tape that begins with what was
    /// fed has fewer. 0 where no piece is wanted any more.
    pub(crate) fn needs(&self) -> usize
        ensures goes_on { IsOpen self.now → 0 < result }
        ensures known { (fed more : List ℕ) (blocks : List BlockValue) (start : ℕ) → IsOpen self.now → StandsAt self.now fed
            → IsTape (fed ++ more) blocks start → result ≤ length more }
        ensures over { (IsOpen self.now → ⊥) → result ≡ 0 }
    {
        match self.state {
            ReaderState::Open => self.partial.needs(),
            _ => 0,
        }
    }
}
