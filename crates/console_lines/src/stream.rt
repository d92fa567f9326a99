//! What is made of the bytes of a stream.
ghost use Rattle.std.specs.Prelude.{◌≡◌, [], true, IfOk, IfErr, Ok, Err};
ghost use Rattle.host_core.specs.declared.heard.Heard.TheVariants.{Quiet};
ghost use Rattle.console_lines.specs.Hearing.{GoesUpBy, IsHearing, IsHearingFault, silences_of};

use crate::receive::{TimedStream, receive};
use host_core::Heard;
use host_devices::LineFault;

// How many characters one hearing drops. A console pads with a few of them; a line that sends
// nothing else is no console's.
const MOST_DROPPED: u32 = 4096;

/// Hears the next character of a stream, or that none comes within its time limit.
///
/// Bit 7 is cleared and the character 000 dropped; the 4,096th that is dropped is `Noise`. `Closed`
/// is the stream's end, and `Receive` a read that failed.
pub(crate) fn hear_from<S: TimedStream>(stream: &mut S) -> Result<Heard, LineFault>
    ensures heard { IfOk result (IsHearing (S.to_come stream.old) (S.to_come stream.new)) }
    ensures fault { IfErr result (IsHearingFault (S.to_come stream.old) (S.to_come stream.new)) }
    ensures silence { GoesUpBy (S.silences stream.old) (S.silences stream.new) (silences_of result) }
    ensures none_ahead { result ≡ Ok Quiet → S.ahead stream.new ≡ [] }
    ensures over { S.is_over stream.old ≡ true → result ≡ Err LineFault.Closed }
{
    for _ in 0..MOST_DROPPED {
        let Some(byte) = receive(stream)? else {
            return Ok(Heard::Quiet);
        };
        let character = byte % 128;
        if character != 0 {
            return Ok(Heard::Got(character));
        }
    }
    Err(LineFault::Noise)
}
