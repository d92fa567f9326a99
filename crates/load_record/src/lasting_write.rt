ghost use Rattle.std.specs.Prelude.{ℕ, List, Option, None, OnOk};
ghost use Rattle.std.specs.Io.KnownBytes.{Keeps};
ghost use Rattle.load_record.specs.Keeper.{Lasts};

use std::io;
use std::io::Write;

/// A writer whose bytes can be made to outlive its program.
pub trait LastingWrite: Write {
    /// What a loss of power leaves; None where the type doesn't tell.
    ghost lasting: { Self → Option (List ℕ) } = { λ _. None };

    /// Makes last all that was written so far.
    fn make_last(&mut self) -> io::Result<()>
        ensures lasts { OnOk result (Lasts (lasting self.new) (Self.contents self.new)) }
        ensures same { Keeps (Self.contents self.old) (Self.contents self.new) };
}

// A text in memory lasts as long as its program does.
impl LastingWrite for Vec<u8> {
    fn make_last(&mut self) -> io::Result<()> {
        Ok(())
    }
}
