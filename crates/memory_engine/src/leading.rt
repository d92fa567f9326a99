ghost use Rattle.std.specs.Prelude.{Some};
ghost use Rattle.host_devices.specs.Devices.{line_told};
ghost use Rattle.memory_core.specs.Invariant.{IsTester};
ghost use Rattle.memory_engine.specs.Tested.{IsTestMade, NoKeepFault, testing};

use crate::testing::Testing;
use crate::word_watch::{Telling, WordWatch};
use engine::{Stop, lead};
use host_devices::{Line, Onlooker};
use memory_core::{End, MemoryCore};

/// Lends the core to the line for at most so many turns.
///
/// Before each turn, and after the last, an end of the core stops the engine. In a turn one thing is heard, the core takes
/// its step, a word that may hold another number from now on is told, and the character that the step answered is sent. The
/// first failure stops the engine. The core that comes back has taken the step. The onlooker is told of each step, before
/// anything comes of it.
pub fn put_to_test<L: Line, O: Onlooker, W: WordWatch>(
    core: MemoryCore,
    line: &mut L,
    turns: u64,
    onlooker: &O,
    watch: &W,
) -> (MemoryCore, Stop<End>)
    ensures tested { IsTestMade turns (testing core result.0 (Some result.1)) (line_told L.Line line.old) (line_told L.Line line.new) }
    ensures told { NoKeepFault result.1 }
{
    // Whoever asks a core for its end learns that it is one.
    let _ = core.end();
    let mut host = Testing { core };
    let stop = lead(&mut host, line, &mut Telling { watch }, turns, onlooker);
    (host.core, stop)
}
