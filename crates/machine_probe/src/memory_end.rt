ghost use Rattle.std.specs.Prelude.{◌≡◌, IfOk, OnErr};
ghost use Rattle.host_devices.specs.Devices.{line_told};
ghost use Rattle.host_devices.specs.Told.{SaysNothing};
ghost use Rattle.machine_probe.specs.MemoryEnd.{FindsEnd};
ghost use Rattle.machine_probe.specs.Passes.{ArePieces, IsRoom, limits, pass_over, passed};
ghost use Rattle.machine_probe.specs.Steps.{Stepped};

use crate::pieces::{LARGE, Pieces, SMALL, WORDS};
use crate::room::Room;
use crate::search::{Search, Searched};
use engine::Cut;
use host_devices::{Line, Onlooker};
use looking_engine::inquire;
use reading_core::End;
use std::alloc::{AllocError, Global};

// How many mishaps the host survives in a pass, and the most turns of it.
#[derive(Clone, Copy)]
struct Limits {
    patience: u32,
    turns: u64,
}

// What a pass comes to.
enum PassEnd {
    // The piece that begins here is the first that lacks its last word.
    Lacking(u16),

    // No pass follows.
    Over(Search),
}

/// Looks for the end of memory, with at most so many turns in each of the three passes.
///
/// A pass reads the last word of each of its pieces and ends at the first that is not there; the next
/// pass goes over this piece. Where the first pass reads all of its words, memory ends at 160000 (octal).
/// The host survives `patience` mishaps in each pass. The one error is want of memory, and comes before
/// anything was said on the line. The onlooker is told of each step.
pub fn find_end<L: Line, O: Onlooker>(
    alloc: Global,
    line: &mut L,
    patience: u32,
    turns: u64,
    onlooker: &O,
) -> Result<Searched, AllocError>
    ensures found { IfOk result (λ s. FindsEnd (limits patience turns) s.search s.changed (line_told L.Line line.old) (line_told L.Line line.new)) }
    ensures unsaid { OnErr result (SaysNothing (L.told line.old) (L.told line.new)) }
    ensures uncounted { OnErr result (L.fault_count line.new ≡ L.fault_count line.old) }
{
    let limits = Limits { patience, turns };
    let large = Room::new(alloc, LARGE)?;
    let small = Room::new(alloc, SMALL)?;
    let words = Room::new(alloc, WORDS)?;
    let (end, first) = pass(large, 0, LARGE, limits, line, onlooker);
    let from = match end {
        PassEnd::Lacking(from) => from,
        PassEnd::Over(search) => {
            let changed = u64::from(first);
            return Ok(Searched { search, changed });
        }
    };
    let (end, second) = pass(small, from, SMALL, limits, line, onlooker);
    let from = match end {
        PassEnd::Lacking(from) => from,
        PassEnd::Over(search) => {
            let changed = u64::from(first) + u64::from(second);
            return Ok(Searched { search, changed });
        }
    };
    let (end, third) = pass(words, from, WORDS, limits, line, onlooker);
    let search = match end {
        PassEnd::Lacking(top) => Search::Ends(top),
        PassEnd::Over(search) => search,
    };
    let changed = u64::from(first) + (u64::from(second) + u64::from(third));
    Ok(Searched { search, changed })
}

// A pass over the pieces that stand from an address on, and how many characters came in it that no loss explains.
fn pass<L: Line, O: Onlooker>(
    room: Room,
    from: u16,
    pieces: Pieces,
    limits: Limits,
    line: &mut L,
    onlooker: &O,
) -> (PassEnd, u32)
    requires room { IsRoom pieces room }
    requires pieces { ArePieces from pieces }
    ensures pass { Stepped (pass_over limits from pieces) result.0 result.1 (line_told L.Line line.old) (line_told L.Line line.new) }
{
    let core = room.core(from, pieces, limits.patience);
    let (core, stop) = inquire(core, line, limits.turns, onlooker);
    let found = from + pieces.bytes * core.values().len() as u16;
    (passed(stop, found), core.foreign_count())
}

// What a pass comes to that stopped so and found memory up to an address.
fn passed(stop: Result<End, Cut>, found: u16) -> PassEnd
    ensures { result ≡ passed stop found }
{
    match stop {
        Ok(End::NoWord(_)) => PassEnd::Lacking(found),
        Ok(End::Complete) => PassEnd::Over(Search::Ends(found)),
        _ => PassEnd::Over(Search::Stopped(stop)),
    }
}
