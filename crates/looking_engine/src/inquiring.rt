ghost use Rattle.std.specs.Prelude.{Some};
ghost use Rattle.host_devices.specs.Devices.{line_told};
ghost use Rattle.looking_engine.specs.Inquired.{IsInquired, inquiry};

use crate::nothing::Nothing;
use crate::reading::Reading;
use crate::stop::stop_from;
use engine::{Cut, lead};
use host_devices::{Line, Onlooker};
use reading_core::{End, ReadingCore};

/// Lends the core to the line for at most so many turns, and keeps nothing of what it reads.
///
/// Before each turn, and after the last, an end of the core stops the engine. In a turn one thing is
/// heard, the core takes its step, and the character that the step answered is sent. The first
/// failure stops the engine. The core that comes back has taken the step. The onlooker is told of each
/// step, before anything comes of it.
pub fn inquire<L: Line, O: Onlooker>(
    core: ReadingCore,
    line: &mut L,
    turns: u64,
    onlooker: &O,
) -> (ReadingCore, Result<End, Cut>)
    ensures inquired { IsInquired turns (inquiry core result.0 (Some result.1)) (line_told L.Line line.old) (line_told L.Line line.new) }
{
    // Whoever asks a core for its end learns that it is one.
    let _ = core.end();
    let mut host = Reading { core };
    let stop = stop_from(lead(&mut host, line, &mut Nothing, turns, onlooker));
    (host.core, stop.unwrap_or(Err(Cut::TurnsOver)))
}
