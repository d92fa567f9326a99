ghost use Rattle.std.specs.Prelude.{◌≡◌, ℕ, List, [], Option, None, Bool, true, false, IfOk, IfErr, Ok, Err};
ghost use Rattle.std.specs.Io.{ReadsAtMost};
ghost use Rattle.std.specs.Io.KnownBytes.{ReadConsumes};
ghost use Rattle.std.specs.IoError.{error_kind};
ghost use Rattle.console_lines.specs.Hearing.{GoesUpBy, IsReceipt, IsReceiptFault, ends_waiting, limits_met, limits_of};

use host_devices::LineFault;
use std::io;
use std::io::{ErrorKind, Read, Write};
use std::net::OpenStream;

// How often a read that the system interrupts is begun again.
const MOST_INTERRUPTIONS: u32 = 4096;

/// A stream that is read within a time limit.
///
/// Every stream of std with such a limit is one. Those tell neither their end nor how often the limit
/// was met; a stream that tells shows what is made of both.
pub trait TimedStream: Write + OpenStream {
    /// The bytes that are still to come; None where the type doesn't tell.
    ghost to_come: { Self → Option (List ℕ) } = { λ _. None };

    /// What of it was read and is not given yet.
    ghost ahead: { Self → List ℕ } = { λ _. [] };

    /// How often the time limit was met; None where the type doesn't tell.
    ghost silences: { Self → Option ℕ } = { λ _. None };

    /// Whether the stream is at its end, where the type tells.
    ghost is_over: { Self → Bool } = { λ _. false };

    /// One read: as many bytes as come at once, and none at the stream's end.
    ///
    /// WouldBlock or TimedOut where the time limit was met; every other error is that of a read that
    /// failed.
    fn read_in_time(&mut self, buf: &mut [u8]) -> io::Result<usize>
        ensures bound { ReadsAtMost result buf.new }
        ensures bytes { ReadConsumes (to_come self.old) (to_come self.new) result buf.new }
        ensures limit { GoesUpBy (silences self.old) (silences self.new) (limits_of result) }
        ensures none_ahead { IfErr result (λ error. ends_waiting (error_kind error) ≡ true → ahead self.new ≡ []) }
        ensures over { is_over self.old ≡ true → result ≡ Ok 0 };
}

impl<S: Read + Write + OpenStream> TimedStream for S {
    ghost to_come = { λ stream. S.remaining stream };

    fn read_in_time(&mut self, buf: &mut [u8]) -> io::Result<usize> {
        self.read(buf)
    }
}

/// The next byte of a stream, or none where the time limit was met.
///
/// A read that the system interrupts, as it does where a person stops the process and continues it, is
/// begun again. `Closed` is the stream's end and `Receive` a read that failed; nothing is then taken.
pub(crate) fn receive<S: TimedStream>(stream: &mut S) -> Result<Option<u8>, LineFault>
    ensures received { IfOk result (IsReceipt (S.to_come stream.old) (S.to_come stream.new)) }
    ensures fault { IfErr result (IsReceiptFault (S.to_come stream.old) (S.to_come stream.new)) }
    ensures silence { GoesUpBy (S.silences stream.old) (S.silences stream.new) (limits_met result) }
    ensures none_ahead { result ≡ Ok None → S.ahead stream.new ≡ [] }
    ensures over { S.is_over stream.old ≡ true → result ≡ Err LineFault.Closed }
{
    let mut byte = [0u8; 1];
    for _ in 0..MOST_INTERRUPTIONS {
        match stream.read_in_time(&mut byte) {
            Ok(0) => return Err(LineFault::Closed),
            Ok(_) => return Ok(Some(byte[0])),
            Err(error) => match error.kind() {
                ErrorKind::WouldBlock | ErrorKind::TimedOut => return Ok(None),
                ErrorKind::Interrupted => {}
                _ => return Err(LineFault::Receive),
            },
        }
    }
    Err(LineFault::Receive)
}
