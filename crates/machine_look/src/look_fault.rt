use byte_io::WriteFault;
use host_devices::LineFault;
use std::alloc::AllocError;
use tape_shelf::ShelfFault;

/// Why a look came to nothing.
#[derive(Clone, Copy)]
pub enum LookFault {
    /// There is a file of that name already. It is as it was.
    IsThere,

    /// What a save read that did not come to its end is beside it. Both are as they were.
    PartIsThere,

    /// What is beside it is nothing that a save of these words left. Both are as they were.
    NotOfSave,

    /// The tape can't be written. There is no file of that name; the blocks that were read before stay beside it.
    WriteTape,

    /// The console can't be reached. Nothing was sent.
    Connect,

    /// The report can't be written whole. What was saved is saved.
    WriteOutput,

    /// A growth of memory was refused. Nothing was saved and nothing reported.
    Memory,
}

impl From<ShelfFault> for LookFault {
    ghost use Rattle.std.specs.Prelude.{◌≡◌};
    ghost use Rattle.machine_look.specs.LookFault.{fault_of_shelf};

    ghost from_gives = { λ why fault. fault ≡ fault_of_shelf why };

    fn from(why: ShelfFault) -> LookFault {
        match why {
            ShelfFault::IsThere => LookFault::IsThere,
            ShelfFault::PartIsThere => LookFault::PartIsThere,
            ShelfFault::NotOfSave => LookFault::NotOfSave,
            ShelfFault::Write => LookFault::WriteTape,
            ShelfFault::Memory => LookFault::Memory,
        }
    }
}

impl From<LineFault> for LookFault {
    ghost use Rattle.std.specs.Prelude.{◌≡◌};
    ghost use Rattle.machine_look.specs.declared.look_fault.LookFault.TheVariants.{Connect};

    ghost from_gives = { λ _ fault. fault ≡ Connect };

    fn from(_line: LineFault) -> LookFault {
        LookFault::Connect
    }
}

impl From<WriteFault> for LookFault {
    ghost use Rattle.std.specs.Prelude.{◌≡◌};
    ghost use Rattle.machine_look.specs.declared.look_fault.LookFault.TheVariants.{WriteOutput};

    ghost from_gives = { λ _ fault. fault ≡ WriteOutput };

    fn from(_failed: WriteFault) -> LookFault {
        LookFault::WriteOutput
    }
}

impl From<AllocError> for LookFault {
    ghost use Rattle.std.specs.Prelude.{◌≡◌};
    ghost use Rattle.machine_look.specs.declared.look_fault.LookFault.TheVariants.{Memory as OutOfMemory};

    ghost from_gives = { λ _ fault. fault ≡ OutOfMemory };

    fn from(_refused: AllocError) -> LookFault {
        LookFault::Memory
    }
}
