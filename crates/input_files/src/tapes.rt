//! Tapes taken of inputs, one of each.
ghost use Rattle.std.specs.Prelude.{◌≡◌, ◌++◌, ◌∷◌, [], map, OnOk, IfOk, IfErr};
ghost use Rattle.input_files.specs.Tapes.{AreTapes, AreTapesFault, TakeAtMost};

use endings::CommandFault;
use std::alloc::{AllocError, Global};
use std::io::Read;
use tape_blocks::{FromError, Layout, Tape, read_with_layout};

/// Tapes, and how each lies in the bytes that it was read from.
#[derive(Drop)]
pub struct Tapes {
    /// The tapes, in order.
    pub tapes: Vec<Tape>,

    /// The layout of each.
    pub layouts: Vec<Layout>,
}

impl Tapes {
    // Puts a tape behind the others.
    fn add(&mut self, tape: Tape, layout: Layout) -> Result<(), AllocError>
        ensures tapes { OnOk result (self.new.tapes.items ≡ self.old.tapes.items ++ tape ∷ []) }
        ensures layouts { OnOk result (self.new.layouts.items ≡ self.old.layouts.items ++ layout ∷ []) }
    {
        self.tapes.push(tape)?;
        self.layouts.push(layout)?;
        Ok(())
    }
}

/// Takes a tape of each input, in order: its own bytes, and none that follow them. The first input that
/// is no tape or can't be read decides, and those behind it are not read.
///
/// `Tape` is the refusal of an input, by its number from 1, and `ReadTape` a failed read, which is not
/// tried again. Of each input at most 1,048,577 bytes are taken. `Memory` comes only where a growth was
/// refused.
pub fn take_tapes<R: Read>(alloc: Global, inputs: &mut [R]) -> Result<Tapes, CommandFault>
    ensures ok { IfOk result (λ taken. AreTapes (map R.remaining inputs.old) (map R.remaining inputs.new) taken.tapes.items taken.layouts.items) }
    ensures err { IfErr result (AreTapesFault (map R.remaining inputs.old) (map R.remaining inputs.new)) }
    ensures at_most { TakeAtMost (map R.remaining inputs.old) (map R.remaining inputs.new) }
{
    let mut taken = Tapes {
        tapes: Vec::new(alloc),
        layouts: Vec::new(alloc),
    };
    for place in 0..inputs.len() {
        match read_with_layout(alloc, &mut inputs[place]) {
            Ok((tape, layout)) => taken.add(tape, layout)?,
            Err(FromError::Tape(fault)) => return Err(CommandFault::Tape(place + 1, fault)),
            Err(FromError::Io) => return Err(CommandFault::ReadTape(place + 1)),
            Err(FromError::Memory) => return Err(CommandFault::Memory),
        }
    }
    Ok(taken)
}
