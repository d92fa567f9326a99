//! Reading, with each block on the shelf as soon as its last word was read.
ghost use Rattle.std.specs.Prelude.{◌≡◌, ◌+◌, ◌*◌, ◌<◌, ◌≤◌, ◌↔◌, ◌++◌, [], length, IfErr, IfOk, IsTrue};
ghost use Rattle.tape_values.specs.Block.{top};
ghost use Rattle.console_lines.specs.Path.{call_of};
ghost use Rattle.host_devices.specs.Devices.{line_told};
ghost use Rattle.host_devices.specs.Turns.{most_turns};
ghost use Rattle.reading_core.specs.Invariant.{IsReader};
ghost use Rattle.looking_engine.specs.Inquired.{IsInquired, inquiry};
ghost use Rattle.machine_look.specs.Adding.{AddsAll};
ghost use Rattle.machine_look.specs.Course.{IsCourse};
ghost use Rattle.tape_shelf.specs.FoundPart.{FillBlocks};
ghost use Rattle.machine_look.specs.Hosts.{AreHosts};
ghost use Rattle.machine_look.specs.LookFault.{IsReadFault};
ghost use Rattle.machine_look.specs.Save.{save_at};
ghost use Rattle.tape_shelf.specs.ShelfAt.{shelf_at};

use crate::behind::Behind;
use crate::blocks::Blocks;
use crate::hosts::Hosts;
use crate::look_fault::LookFault;
use crate::saving::SaveOptions;
use console_lines::{Consoles, Dial};
use engine::{Cut, lead};
use host_devices::{Line, MOST_TURNS, Onlooker, Unwatched};
use looking_engine::{Reading, stop_from};
use reading_core::{End, ReadingCore};
use sample_looks::{Finding, Looked, look_at_samples};
use tape_shelf::{Shelf, words_of};

/// What came of looks and reading.
#[derive(Drop)]
pub(crate) enum Course {
    /// The looks held it up.
    HeldUp(Looked),

    /// What was found stands, as far as this host looked, and this one read behind it, and stopped so.
    Read(ReadingCore, ReadingCore, Result<End, Cut>),
}

/// Reaches the console and looks at samples of what was found; where they stand, puts its blocks on the shelf,
/// and reads the words behind it, and puts each block of what is read there, too, once its last word was read.
/// An onlooker is told of no look.
///
/// `Connect` comes where the console can't be reached, and nothing was sent; `WriteTape` where a block can't be
/// added, and then nothing more is read.
pub(crate) fn read_over<S: Shelf, C: Consoles, O: Onlooker>(
    options: SaveOptions,
    hosts: Hosts,
    found: &[u16],
    shelf: &mut S,
    consoles: &mut C,
    dial: Dial<'_>,
    onlooker: &O,
) -> Result<Course, LookFault>
    requires fill { FillBlocks options.range found.now }
    requires hosts { AreHosts options found.now hosts }
    requires begins { options.start < 65536 }
    ensures course { IfOk result (IsCourse (record { options = options; found = found.now })
        (save_at S.Shelf C.Consoles (call_of dial.entry) shelf.old consoles.old) (save_at S.Shelf C.Consoles (call_of dial.entry) shelf.new consoles.new)) }
    ensures fault { IfErr result (IsReadFault (record { options = options; found = found.now })
        (save_at S.Shelf C.Consoles (call_of dial.entry) shelf.old consoles.old) (save_at S.Shelf C.Consoles (call_of dial.entry) shelf.new consoles.new)) }
{
    let Hosts {
        samples,
        looker,
        addresses,
        room,
    } = hosts;
    let mut line = consoles.reach(dial)?;
    onlooker.begins(found.len() as u32, words_of(options.range) as u32);
    let looked = look_at_samples(looker, &samples, &mut line, &Unwatched);
    if !all_stand(looked.finding) {
        onlooker.ends();
        consoles.let_go(line);
        return Ok(Course::HeldUp(looked));
    }
    let looks = looked.reader;
    let core = ReadingCore::in_room(addresses, room, options.patience - looks.spent());
    let core = core.with_care(options.care);
    let behind = Behind::new(onlooker, found.len() as u32, looks.spent());
    let (core, stop) = read_behind(core, options.range.from(), found, shelf, &mut line, &behind);
    onlooker.ends();
    consoles.let_go(line);
    match stop {
        Some(stop) => Ok(Course::Read(looks, core, stop)),
        None => Err(LookFault::WriteTape),
    }
}

// Whether each sample stands.
fn all_stand(finding: Finding) -> bool
    ensures { IsTrue result ↔ (finding ≡ Finding.AllStand) }
{
    match finding {
        Finding::AllStand => true,
        Finding::Stale(_) | Finding::Unfinished => false,
    }
}

// Adds the blocks of what was found, once more, and then lends the core to the line for at most 10,000,000 turns, and
// puts each block on the shelf as soon as its last word was read; no stop is answered where one can't be added. An
// onlooker is told of each step.
fn read_behind<S: Shelf, L: Line, O: Onlooker>(
    core: ReadingCore,
    from: u16,
    found: &[u16],
    shelf: &mut S,
    line: &mut L,
    onlooker: &O,
) -> (ReadingCore, Option<Result<End, Cut>>)
    requires below { from + 2 * (length found.now + length core.addresses) ≤ top }
    requires fresh { core.values ≡ [] }
    requires kept { IsReader core }
    ensures inquired { IsInquired most_turns (inquiry core result.0 result.1) (line_told L.Line line.old) (line_told L.Line line.new) }
    ensures added { AddsAll result.1 from (found.now ++ result.0.values) (shelf_at S.Shelf shelf.old) (shelf_at S.Shelf shelf.new) }
{
    let mut blocks = Blocks::new(from, shelf);
    read_into(core, found, &mut blocks, line, onlooker)
}

// The same, where this keeper has the blocks.
fn read_into<S: Shelf, L: Line, O: Onlooker>(
    core: ReadingCore,
    found: &[u16],
    blocks: &mut Blocks<'_, S>,
    line: &mut L,
    onlooker: &O,
) -> (ReadingCore, Option<Result<End, Cut>>)
    requires below { blocks.old.from + 2 * (length found.now + length core.addresses) ≤ top }
    requires empty { blocks.old.numbers.items ≡ [] }
    requires fresh { core.values ≡ [] }
    requires kept { IsReader core }
    ensures inquired { IsInquired most_turns (inquiry core result.0 result.1) (line_told L.Line line.old) (line_told L.Line line.new) }
    ensures added { AddsAll result.1 blocks.old.from (found.now ++ result.0.values)
        (shelf_at S.Shelf blocks.old.shelf.now) (shelf_at S.Shelf blocks.new.shelf.now) }
    ensures same_reference { blocks.new.shelf.ghost_name ≡ blocks.old.shelf.ghost_name }
{
    if blocks.keep_found(found).is_err() {
        return (core, None);
    }
    let mut host = Reading { core };
    let stop = lead(&mut host, line, blocks, MOST_TURNS, onlooker);
    (host.core, stop_from(stop))
}
