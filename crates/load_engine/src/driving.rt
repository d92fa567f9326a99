ghost use Rattle.std.specs.Prelude.{Some};
ghost use Rattle.host_devices.specs.Devices.{devices_of};
ghost use Rattle.engine.specs.Keeping.{IsKeptBy, progress_calls};
ghost use Rattle.load_engine.specs.Driven.{IsDriven, turns_give};
ghost use Rattle.load_engine.specs.Driving.{driving};

use crate::hosting::Loading;
use engine::lead;
use host_core::{End, HostCore};
use host_devices::{Keep, Line, Onlooker};

/// Why the engine stopped.
pub type Stop = engine::Stop<End>;

/// Lends the core to the line and the keeper for at most so many turns.
///
/// Before each turn, and after the last, an end of the core stops the engine. In a turn one thing is
/// heard, the core takes its step, what became verified and then the start mark are kept, and last
/// the character that the step answered is sent. The first failure stops the engine, and nothing
/// after it in that turn is done. The core that comes back has taken the step. The onlooker is told of
/// each step, before anything comes of it.
pub fn drive<L: Line, K: Keep, O: Onlooker>(
    core: HostCore,
    line: &mut L,
    keep: &mut K,
    turns: u64,
    onlooker: &O,
) -> (HostCore, Stop)
    ensures driven { IsDriven turns (driving core result.0 (Some result.1))
        (devices_of L.Line K.Keep line.old keep.old) (devices_of L.Line K.Keep line.new keep.new) }
    ensures kept { IsKeptBy (progress_calls K.Keep) (turns_give (driving core result.0 (Some result.1))) keep.old keep.new }
{
    // Whoever asks a core for its end learns that it is one.
    let _ = core.end();
    let mut host = Loading { core };
    let stop = lead(&mut host, line, keep, turns, onlooker);
    (host.core, stop)
}
