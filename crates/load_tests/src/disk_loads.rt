//! Loads of a machine in memory, with a record on a disk that tells what it was asked.
ghost use Rattle.std.specs.Prelude.{IfErr, IfOk};
ghost use Rattle.machine_load.specs.Asked.{task, ◌⇒◌};
ghost use Rattle.machine_load.specs.Scene.{ending};
ghost use Rattle.told_calls.specs.ToldSteps.{steps_of};
ghost use Rattle.load_tests.specs.Told.{memory_line, record_told, IsFaultSo, IsReportedSo, IsSoAndClosed};

use crate::memory_consoles::MemoryConsoles;
use honest_line::MemoryLine;
use host_devices::Unwatched;
use machine_load::{Around, LoadFault, Outcome, load};
use record_file::RecordFile;
use request_values::LoadOptions;
use std::alloc::Global;
use std::io::Write;
use tape_image::Plan;
use told_calls::ToldDisk;

/// Loads a plan into a machine in memory, and closes its record. What `load` and `close` promise where the record is on a
/// disk is so of this one, which tells what it was asked.
pub(crate) fn load_on_disk<'a, W: Write>(
    alloc: Global,
    plan: Plan,
    options: LoadOptions,
    mut around: Around<'_, MemoryConsoles, RecordFile<'_, ToldDisk<'a>>>,
    out: &mut W,
) -> (Result<Outcome<MemoryLine>, LoadFault>, ToldDisk<'a>)
    ensures ok { IfOk result.0 (λ outcome. IsSoAndClosed (IsReportedSo (task plan options) (ending memory_line outcome))
        (record_told around.entry.records.disk.asked around.entry.records.name.now around.entry.records.held)
        (W.contents out.old ⇒ W.contents out.new) (steps_of result.1.asked)) }
    ensures err { IfErr result.0 (λ why. IsSoAndClosed (IsFaultSo (task plan options) why)
        (record_told around.entry.records.disk.asked around.entry.records.name.now around.entry.records.held)
        (W.contents out.old ⇒ W.contents out.new) (steps_of result.1.asked)) }
{
    let outcome = load(alloc, plan, options, &mut around, out, &Unwatched);
    (outcome, around.records.close())
}
