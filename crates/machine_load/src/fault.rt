use host_devices::LineFault;
use load_record::RecordError;
use record_file::RecordFault;
use std::alloc::AllocError;

/// Why a load came to nothing.
#[derive(Clone, Copy)]
pub enum LoadFault {
    /// The record can't be opened or read.
    ReadRecord,

    /// Another load holds the record. Nothing was done.
    RecordInUse,

    /// The record is none of this plan's load: why.
    Record(RecordError),

    /// No connection could be made.
    Connect,

    /// The record may not be written, or can't be written anew. Nothing was sent but looks.
    WriteRecord,

    /// The report can't be written. What was sent was sent, and what was kept is kept; whether the host had come to the
    /// start, as an `Outcome` has it.
    WriteOutput { marked: bool },

    /// A growth of memory was refused.
    Memory,
}

impl From<RecordFault> for LoadFault {
    ghost use Rattle.std.specs.Prelude.{◌≡◌};
    ghost use Rattle.machine_load.specs.LoadFault.{fault_of_record};

    ghost from_gives = { λ why fault. fault ≡ fault_of_record why };

    fn from(why: RecordFault) -> LoadFault {
        match why {
            RecordFault::Read => LoadFault::ReadRecord,
            RecordFault::InUse => LoadFault::RecordInUse,
            RecordFault::Write => LoadFault::WriteRecord,
            RecordFault::Memory => LoadFault::Memory,
        }
    }
}

impl From<RecordError> for LoadFault {
    ghost use Rattle.std.specs.Prelude.{◌≡◌};
    ghost use Rattle.machine_load.specs.declared.fault.LoadFault.TheVariants.{Record};

    ghost from_gives = { λ why fault. fault ≡ Record why };

    fn from(why: RecordError) -> LoadFault {
        LoadFault::Record(why)
    }
}

impl From<LineFault> for LoadFault {
    ghost use Rattle.std.specs.Prelude.{◌≡◌};
    ghost use Rattle.machine_load.specs.declared.fault.LoadFault.TheVariants.{Connect};

    ghost from_gives = { λ _ fault. fault ≡ Connect };

    fn from(_line: LineFault) -> LoadFault {
        LoadFault::Connect
    }
}

impl From<AllocError> for LoadFault {
    ghost use Rattle.std.specs.Prelude.{◌≡◌};
    ghost use Rattle.machine_load.specs.declared.fault.LoadFault.TheVariants.{Memory};

    ghost from_gives = { λ _ fault. fault ≡ Memory };

    fn from(_refused: AllocError) -> LoadFault {
        LoadFault::Memory
    }
}
