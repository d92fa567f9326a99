use byte_io::InputFault;
use host_devices::KeepFault;
use std::alloc::AllocError;

/// Why a record can't be read, or not be begun anew.
#[derive(Clone, Copy)]
pub enum RecordFault {
    /// Its file can't be opened or read, or is no file that could hold a record.
    Read,

    /// Another load holds its file.
    InUse,

    /// It can't be written.
    Write,

    /// A growth of memory was refused.
    Memory,
}

impl From<InputFault> for RecordFault {
    ghost use Rattle.std.specs.Prelude.{◌≡◌};
    ghost use Rattle.record_file.specs.RecordFault.{fault_of_input};

    ghost from_gives = { λ input fault. fault ≡ fault_of_input input };

    fn from(input: InputFault) -> RecordFault {
        match input {
            InputFault::Read => RecordFault::Read,
            InputFault::Memory => RecordFault::Memory,
        }
    }
}

impl From<KeepFault> for RecordFault {
    ghost use Rattle.std.specs.Prelude.{◌≡◌};
    ghost use Rattle.record_file.specs.declared.record_fault.RecordFault.TheVariants.{Write};

    ghost from_gives = { λ _ fault. fault ≡ Write };

    fn from(_keep: KeepFault) -> RecordFault {
        RecordFault::Write
    }
}

impl From<AllocError> for RecordFault {
    ghost use Rattle.std.specs.Prelude.{◌≡◌};
    ghost use Rattle.record_file.specs.declared.record_fault.RecordFault.TheVariants.{Memory};

    ghost from_gives = { λ _ fault. fault ≡ Memory };

    fn from(_refused: AllocError) -> RecordFault {
        RecordFault::Memory
    }
}
