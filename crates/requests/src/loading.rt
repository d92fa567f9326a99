//! Loading a real machine.
ghost use Rattle.std.specs.Prelude.{◌≡◌, IfOk, IfErr};
ghost use Rattle.std.specs.Mem.{FitsInMemory};
ghost use Rattle.machine_load.specs.Driving.{IsDrivenOn};
ghost use Rattle.machine_load.specs.Reporting.{AsksNoMore};
ghost use Rattle.machine_load.specs.Scene.{ending, keeper_of, scene};
ghost use Rattle.request_values.specs.Change.{◌⇒◌};
ghost use Rattle.requests.specs.Loading.{kept_in, planned_load, record_name};
ghost use Rattle.requests.specs.Loading.{AreLoaded, AreUnloaded, IsEnded, IsEndFailure, IsLoadFailure, IsLoadOver};
ghost use Rattle.requests.specs.Moment.{moment};

use crate::ending::after_load;
use crate::listening::listen_behind;
use crate::planning::plan_tapes;
use crate::request_fault::RequestFault;
use crate::system::{Kinds, System};
use crate::watch::Watch;
use advice::{PlanSize, advise_load, advise_unreported};
use console_lines::Dial;
use endings::{Failure, FaultOutput, Output, Status, Streams};
use machine_load::{Around, InMemory, Outcome, Surroundings, load};
use progress_display::KeptIn;
use record_file::RecordFile;
use request_values::Load;
use std::alloc::Global;
use std::io::{Print, Read, Write};
use std::time::Clock;
use tape_image::Plan;
use witness::Witness;

/// Loads tapes, as one, into a real machine, in a system that comes back, and answers the exit status.
///
/// Tapes are opened in the order of their names and read whole before anything else is asked for; the name `-`,
/// alone, is standard input. The start that is asked for stands in place of theirs. The report goes to standard
/// output, and behind it what the machine prints, where listening is asked for and the program was started or
/// may have been. A terminal, where there is one, shows how far the load is.
///
/// `CannotRead` names the tape or the record that can't be opened or read. It comes with nothing reported, as do
/// `TapeRefused` and `OneTapeRefused`, for which no console and no record are asked for, `RecordInUse`,
/// `RecordRefused` and `CannotConnect`, which leave the record as it was. `CannotWriteFile` is a record that can't
/// be written: one that is protected before there is a connection, another right behind the looks, both with nothing
/// reported; later behind the report. `LineFailed`, `StartInDoubt` and `RecordStale` come behind the report.
/// `CannotWrite` is a report, or what was heard, that could not be written whole. `NoMemory` comes only where a growth
/// was refused, before any key but those of looks.
///
/// What is asked of the caller is only that a value of the input's type fits into memory, as each type of a
/// program does.
pub(crate) fn load_tapes<'a, K: Kinds, R: Read, W: Output, E: FaultOutput, T: Print>(
    mut system: System<K>,
    alloc: Global,
    names: &[&'a str],
    request: Load<'a>,
    streams: &mut Streams<R, W, E>,
    terminal: Option<&T>,
    witness: &Witness,
) -> (System<K>, Result<Status, Failure<'a>>)
    requires { FitsInMemory R.row }
    ensures ok { IfOk result.1 (AreLoaded names.now request.entry (moment K.Disk.holds system streams.old ⇒ moment K.Disk.holds result.0 streams.new)) }
    ensures err { IfErr result.1 (AreUnloaded names.now request.entry (moment K.Disk.holds system streams.old ⇒ moment K.Disk.holds result.0 streams.new)) }
    ensures quiet { streams.new.err ≡ streams.old.err }
{
    let planned = match plan_tapes(&mut system.inputs, alloc, names, streams) {
        Ok(plan) => plan,
        Err(failure) => return (system, Err(failure)),
    };
    let System {
        inputs,
        disk,
        consoles,
        clock,
    } = system;
    let plan = planned.starting(request.start);
    let dial = Dial {
        name: request.line,
        quiet_ms: request.quiet_ms,
    };
    let out = &mut streams.out;
    let shown = Watch::new(&clock, terminal, kept_in(request.record), witness);
    match request.record {
        Some(name) => {
            let records = RecordFile::new(disk, name);
            let mut around = Around {
                consoles,
                dial,
                records,
            };
            let outcome = load_plan(alloc, plan, request, &mut around, out, &shown);
            let disk = around.records.close();
            let system = System::new(inputs, disk, around.consoles, clock);
            (system, outcome)
        }
        None => {
            let mut around = Around {
                consoles,
                dial,
                records: InMemory,
            };
            let outcome = load_plan(alloc, plan, request, &mut around, out, &shown);
            let system = System::new(inputs, disk, around.consoles, clock);
            (system, outcome)
        }
    }
}

// Loads a plan within these surroundings, and listens behind it.
fn load_plan<'a, S: Surroundings, W: Write, C: Clock, T: Print>(
    alloc: Global,
    plan: Plan,
    request: Load<'a>,
    around: &mut S,
    out: &mut W,
    watch: &Watch<'_, C, T>,
) -> Result<Status, Failure<'a>>
    ensures ok { IfOk result (IsLoadOver (record (planned_load plan request.entry) { goes_so = IsDrivenOn (keeper_of S.Surroundings S.Keeper.Keep) })
        (scene S.Surroundings W.Write around.old out.old ⇒ scene S.Surroundings W.Write around.new out.new)) }
    ensures err { IfErr result (IsLoadFailure (record (planned_load plan request.entry) { goes_so = IsDrivenOn (keeper_of S.Surroundings S.Keeper.Keep) })
        (scene S.Surroundings W.Write around.old out.old ⇒ scene S.Surroundings W.Write around.new out.new)) }
{
    let size = PlanSize::of(&plan);
    match load(alloc, plan, request.options, around, out, watch) {
        Ok(outcome) => {
            advise_load(alloc, watch.progress(), request, size, &outcome);
            end(request, outcome, around, out)
        }
        Err(fault) => {
            advise_unreported(watch.progress(), fault);
            let file = record_name(request.record);
            Err(RequestFault::Load(fault).failure(request.line, file))
        }
    }
}

// What comes behind the report of a load: listening, where it is asked for, the line given back, and then the status.
fn end<'a, S: Surroundings, W: Write>(
    load: Load<'a>,
    outcome: Outcome<S::Line>,
    around: &mut S,
    out: &mut W,
) -> Result<Status, Failure<'a>>
    ensures ok { IfOk result (IsEnded load.entry (ending S.Line.Line outcome)
        (scene S.Surroundings W.Write around.old out.old ⇒ scene S.Surroundings W.Write around.new out.new)) }
    ensures err { IfErr result (IsEndFailure load.entry (ending S.Line.Line outcome)
        (scene S.Surroundings W.Write around.old out.old ⇒ scene S.Surroundings W.Write around.new out.new)) }
    ensures no_more { AsksNoMore (scene S.Surroundings W.Write around.old out.old ⇒ scene S.Surroundings W.Write around.new out.new) }
{
    let Outcome {
        end,
        marked,
        line,
        ..
    } = outcome;
    let status = after_load(end, marked, record_name(load.record));
    let Some(mut line) = line else {
        return status;
    };
    let heard = match status {
        Ok(_) => listen_behind(load, end, &mut line, out),
        Err(_) => Ok(()),
    };
    around.let_go(line);
    heard?;
    status
}

// Where it is kept what a load has done.
fn kept_in(file: Option<&str>) -> KeptIn
    ensures { result ≡ kept_in file.entry }
{
    match file {
        Some(_) => KeptIn::Record,
        None => KeptIn::Nothing,
    }
}

// What faults call the record.
fn record_name<'a>(file: Option<&'a str>) -> &'a str
    ensures { result.now ≡ record_name file.entry }
{
    match file {
        Some(name) => name,
        None => "the record in memory",
    }
}
