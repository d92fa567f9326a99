ghost use Rattle.std.specs.Prelude.{◌≡◌, ◌<◌, ◌^◌};

use arrayvec::ArrayString;
use itoa::Buffer;
use std::alloc::{AllocError, AllocFailed};

/// Why an input is no tape. `s` is the place of the block's 01, and places count from 0.
#[derive(Clone, Copy)]
pub enum Why {
    /// A byte that is not 00 and begins no block: at that byte.
    Stray,

    /// The byte behind the 01 is not 00: at `s + 1`.
    BadMark,

    /// The count is below 6: at `s + 2`.
    BadCount,

    /// The input ends inside a block: at `s`.
    Cut,

    /// The sum of the whole block is not 0 modulo 256: at `s`.
    BadSum,

    /// A data block with a good sum ends above 160000 (octal): at `s + 4`.
    PastTop,

    /// The input is over between blocks, and no transfer block came: at its length.
    NoTransfer,

    /// The tape goes on behind its last possible byte (the limit is this project's choice): at
    /// 1,048,576.
    TooLong,
}

impl Why {
    ghost use Rattle.std.specs.Prelude.{◌≡◌, ◌≤◌, length};
    ghost use Rattle.tape_blocks.specs.Fault.{why_text};

    // The reason's name, as it is printed: 10 characters at most.
    fn name(self) -> &'static str
        ensures name { result.now ≡ why_text self }
        ensures short { length result.now ≤ 10 }
    {
        match self {
            Why::Stray => "Stray",
            Why::BadMark => "BadMark",
            Why::BadCount => "BadCount",
            Why::Cut => "Cut",
            Why::BadSum => "BadSum",
            Why::PastTop => "PastTop",
            Why::NoTransfer => "NoTransfer",
            Why::TooLong => "TooLong",
        }
    }
}

/// What stands before a tape's fault where it is printed as that of a tape.
pub const TAPE: &str = "tape ";

/// What stands before the place of a fault where it is printed.
pub const REFUSED_AT: &str = "refused at ";

/// A fault as it is shown, with room for the longest.
pub type FaultText = ArrayString<33>;

/// What is wrong with an input, and at which of its bytes, counted from 0.
#[derive(Clone, Copy)]
pub struct Fault {
    /// The place of the fault in the input.
    pub at: u32,

    /// The reason.
    pub why: Why,
}

impl Fault {
    ghost use Rattle.arrayvec.specs.ArrayString.{array_string_len};
    ghost use Rattle.std.specs.Prelude.{◌≡◌, ◌<◌, ◌≤◌, ◌^◌};
    ghost use Rattle.tape_blocks.specs.Fault.{fault_text};

    pub(crate) fn new(at: usize, why: Why) -> Fault
        requires { at < 2 ^ 32 }
        ensures { result ≡ record { at = at; why = why } }
    {
        Fault { at: at as u32, why }
    }

    /// The fault as it is shown: its place in decimal, and its reason. It takes no memory, and can't fail.
    pub fn text(self) -> FaultText
        ensures text { result.bytes ≡ fault_text self }
        ensures short { array_string_len result ≤ 33 }
    {
        let mut text = FaultText::new();
        text.push_str(REFUSED_AT);
        text.push_str(Buffer::new().format(self.at));
        text.push_str(": ");
        text.push_str(self.why.name());
        text
    }
}

/// Why an input was not read.
#[derive(Clone, Copy)]
pub enum ReadError {
    /// The input is no tape.
    Tape(Fault),

    /// A growth of memory was refused.
    Memory,
}

impl From<Fault> for ReadError {
    ghost use Rattle.std.specs.Prelude.{◌≡◌};
    ghost use Rattle.tape_blocks.specs.declared.fault.ReadError.TheVariants.{Tape as refused};

    ghost from_gives = { λ fault e. e ≡ refused fault };

    fn from(fault: Fault) -> ReadError {
        ReadError::Tape(fault)
    }
}

impl From<AllocError> for ReadError {
    ghost use Rattle.std.specs.Prelude.{◌≡◌};
    ghost use Rattle.tape_blocks.specs.declared.fault.ReadError.TheVariants.{Memory as out_of_memory};

    ghost from_gives = { λ _ e. e ≡ out_of_memory };

    fn from(_e: AllocError) -> ReadError {
        ReadError::Memory
    }
}

impl<T: Drop> From<AllocFailed<T>> for ReadError {
    ghost use Rattle.std.specs.Prelude.{◌≡◌};
    ghost use Rattle.tape_blocks.specs.declared.fault.ReadError.TheVariants.{Memory as out_of_memory};

    ghost from_gives = { λ _ e. e ≡ out_of_memory };

    fn from(_e: AllocFailed<T>) -> ReadError {
        ReadError::Memory
    }
}
