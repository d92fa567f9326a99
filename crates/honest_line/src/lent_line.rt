ghost use Rattle.std.specs.Prelude.{◌≡◌};
ghost use Rattle.honest_line.specs.Lent.{HasMovedOn};

use crate::memory_line::MemoryLine;
use host_core::Heard;
use host_devices::{Line, LineFault};
use std::marker::{Brand, Model, PhantomData};

/// A name for a line in memory as it was lent, which only proofs read.
pub trait Opening {
    ghost use Rattle.honest_line.specs.LineTable.{LineValue};

    /// The line as it was lent.
    ghost line: { LineValue };
}

impl Opening for Brand {
    ghost use Rattle.honest_line.specs.Lent.{no_line};

    ghost line = { no_line };
}

/// A line in memory that is lent: all that was said on it since passed over it, whoever said it.
///
/// What a borrower promises of every line says nothing of the console at the end of this one. This
/// type's own calls keep that much true, so that it holds again when the line comes back.
#[derive(Drop)]
pub struct LentLine<E: Opening> {
    line: MemoryLine,
    of: PhantomData<E>,
}

impl<E: Opening> Model for LentLine<E> {
    ghost use Rattle.honest_line.specs.LineTable.{LineValue};
    ghost use Rattle.honest_line.specs.Lent.{HasMovedOn};

    ghost Value = { LineValue };

    ghost view = { λ l. l.line };

    ghost invariant = { λ l. HasMovedOn E.line l.line };
}

impl<E: Opening> LentLine<E> {
    /// The line, to be lent.
    pub fn lend(line: MemoryLine) -> LentLine<E>
        requires { line ≡ E.line }
        ensures { result ≡ line }
    {
        LentLine {
            line,
            of: PhantomData,
        }
    }

    /// The line that comes back.
    pub fn take_back(self) -> MemoryLine
        ensures same { result ≡ self }
        ensures moved { HasMovedOn E.line result }
    {
        self.line
    }
}

impl<E: Opening> Line for LentLine<E> {
    ghost use Rattle.std.specs.Prelude.{Some};

    ghost told = { λ lent. Some lent.items };

    ghost fault_count = { λ lent. lent.failures };

    ghost last_fault = { λ lent. lent.fault };

    fn send(&mut self, key: u8) -> Result<(), LineFault> {
        self.line.send(key)
    }

    fn hear(&mut self) -> Result<Heard, LineFault> {
        self.line.hear()
    }

    fn failures(&self) -> u64 {
        self.line.failures()
    }

    fn failed(&self) -> bool {
        self.line.failed()
    }
}
