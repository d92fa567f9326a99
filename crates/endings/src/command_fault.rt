use byte_io::WriteFault;
use std::alloc::AllocError;
use tape_blocks::Fault;

/// Why a command did not do what it was asked.
#[derive(Clone, Copy)]
pub enum CommandFault {
    /// An input for a tape is no tape: its number, from 1, what is wrong with it, and at which byte.
    Tape(usize, Fault),

    /// The script is refused at this line, counted from 1; 0 is a script that is too long.
    Script(u32),

    /// A machine of more than 28,672 words was asked for.
    TooLarge,

    /// A read of a tape failed: its number, from 1.
    ReadTape(usize),

    /// A read of the script failed.
    ReadScript,

    /// A read of the keys failed.
    ReadKeys,

    /// A write failed.
    Write,

    /// A growth of memory was refused.
    Memory,
}

impl From<AllocError> for CommandFault {
    ghost use Rattle.std.specs.Prelude.{◌≡◌};
    ghost use Rattle.endings.specs.declared.command_fault.CommandFault.TheVariants.{Memory};

    ghost from_gives = { λ _ fault. fault ≡ Memory };

    fn from(_refused: AllocError) -> CommandFault {
        CommandFault::Memory
    }
}

impl From<WriteFault> for CommandFault {
    ghost use Rattle.std.specs.Prelude.{◌≡◌};
    ghost use Rattle.endings.specs.declared.command_fault.CommandFault.TheVariants.{Write};

    ghost from_gives = { λ _ fault. fault ≡ Write };

    fn from(_failed: WriteFault) -> CommandFault {
        CommandFault::Write
    }
}
