//! Passing on what was written.
ghost use Rattle.std.specs.Prelude.{◌≡◌, IfOk, IfErr};
ghost use Rattle.std.specs.Io.KnownBytes.{Keeps};

use byte_io::write_and_flush;
use endings::{Failure, Status};
use std::io::Write;

/// Passes on what an output has taken, and answers the status; `CannotWrite` where that fails.
pub(crate) fn flushed<W: Write>(out: &mut W, status: Status) -> Result<Status, Failure<'static>>
    ensures ok { IfOk result (λ given. given ≡ status) }
    ensures err { IfErr result (λ failure. failure ≡ Failure.CannotWrite) }
    ensures bytes { Keeps (W.contents out.old) (W.contents out.new) }
{
    match write_and_flush(out, &[]) {
        Ok(()) => Ok(status),
        Err(_) => Err(Failure::CannotWrite),
    }
}
