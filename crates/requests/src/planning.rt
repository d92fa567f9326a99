//! The plan of tapes.
ghost use Rattle.std.specs.Prelude.{◌≡◌, IfOk, IfErr};
ghost use Rattle.std.specs.Mem.{FitsInMemory};
ghost use Rattle.requests.specs.Planning.{IsPlanned, IsUnplanned};
ghost use Rattle.input_files.specs.Intake.{intake};

use endings::{Failure, FaultOutput, Output, Streams};
use input_files::{InputFiles, take};
use std::alloc::Global;
use std::io::Read;
use tape_image::Plan;

/// The plan of tapes, as one: of standard input's, where `-` is their only name, else of those in the
/// files. Nothing is written.
pub(crate) fn plan_tapes<'a, F: InputFiles, R: Read, W: Output, E: FaultOutput>(
    inputs: &mut F,
    alloc: Global,
    names: &[&'a str],
    streams: &mut Streams<R, W, E>,
) -> Result<Plan, Failure<'a>>
    requires { FitsInMemory R.row }
    ensures ok { IfOk result (IsPlanned names.now (intake (F.opened inputs.old) streams.old) (intake (F.opened inputs.new) streams.new)) }
    ensures err { IfErr result (IsUnplanned names.now (intake (F.opened inputs.old) streams.old) (intake (F.opened inputs.new) streams.new)) }
    ensures same_out { streams.new.out ≡ streams.old.out }
    ensures quiet { streams.new.err ≡ streams.old.err }
{
    let taken = take(inputs, alloc, names, streams)?;
    match Plan::of_all(alloc, &taken.tapes) {
        Ok(plan) => Ok(plan),
        Err(_) => Err(Failure::NoMemory),
    }
}
