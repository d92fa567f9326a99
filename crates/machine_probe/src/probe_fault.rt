use byte_io::WriteFault;
use host_devices::LineFault;
use std::alloc::AllocError;

/// Why a probe, or a test of memory, came to nothing.
#[derive(Clone, Copy)]
pub enum ProbeFault {
    /// The console can't be reached. Nothing was sent.
    Connect,

    /// The report can't be written whole. The probe or the test was made.
    WriteOutput,

    /// A growth of memory was refused, and nothing was reported. Of a probe no digit was typed into a word, or the word holds
    /// the number that it held.
    Memory,
}

impl From<LineFault> for ProbeFault {
    ghost use Rattle.std.specs.Prelude.{◌≡◌};
    ghost use Rattle.machine_probe.specs.declared.probe_fault.ProbeFault.TheVariants.{Connect};

    ghost from_gives = { λ _ fault. fault ≡ Connect };

    fn from(_line: LineFault) -> ProbeFault {
        ProbeFault::Connect
    }
}

impl From<WriteFault> for ProbeFault {
    ghost use Rattle.std.specs.Prelude.{◌≡◌};
    ghost use Rattle.machine_probe.specs.declared.probe_fault.ProbeFault.TheVariants.{WriteOutput};

    ghost from_gives = { λ _ fault. fault ≡ WriteOutput };

    fn from(_failed: WriteFault) -> ProbeFault {
        ProbeFault::WriteOutput
    }
}

impl From<AllocError> for ProbeFault {
    ghost use Rattle.std.specs.Prelude.{◌≡◌};
    ghost use Rattle.machine_probe.specs.declared.probe_fault.ProbeFault.TheVariants.{Memory as OutOfMemory};

    ghost from_gives = { λ _ fault. fault ≡ OutOfMemory };

    fn from(_refused: AllocError) -> ProbeFault {
        ProbeFault::Memory
    }
}
