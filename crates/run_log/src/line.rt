//! The line of a run in a log.
//!
//! It is gathered first and written in one write, so that nothing else can stand in its midst.
ghost use Rattle.std.specs.Prelude.{◌≡◌, ◌≤◌, ◌+◌, ◌++◌, OnOk, OnErr, codes};
ghost use Rattle.byte_io.specs.Text.{line};
ghost use Rattle.endings.specs.FaultOutput.{IsSaidInPart, IsSaidWhole};
ghost use Rattle.arrayvec.specs.ArrayVec.{array_vec_len};
ghost use Rattle.run_log.specs.LogLine.{IsLogged, changed_text, command_text, end_text, log_line, name_behind, request_text};

use crate::report_notes::{REPORT_ROOM, ReportNotes};
use crate::time_text::{TimeText, time_text};
use arrayvec::ArrayVec;
use byte_io::{WriteFault, push_bytes, push_decimal};
use endings::{FaultOutput, Status, say, write_name};
use request_values::MachineRequest;
use std::alloc::Global;
use std::marker::Model;
use std::time::Clock;

// What stands behind the names in a line.
type LineEnd = ArrayVec<u8, END_ROOM>;

// Room for the longest: the words and the number of a status, what is told of a report, the changed characters, and the
// line's end.
const END_ROOM: usize = REPORT_ROOM + 58;

/// A run that has ended, and what is told of it.
#[derive(Drop)]
pub struct Run<'r, 'a> {
    /// What was asked for.
    pub request: &'r MachineRequest<'a>,

    /// How the program ends.
    pub status: Status,

    /// What was noted of the report.
    pub report: &'r ReportNotes,

    /// How many characters came changed.
    pub changed: u32,
}

impl<'r, 'a> Model for Run<'r, 'a> {
    ghost use Rattle.run_log.specs.LogLine.{RunValue};

    ghost Value = { RunValue };

    ghost view = { λ run. record { request = run.request.now; status = run.status; report = run.report.now; changed = run.changed } };
}

/// Says the line of a run, with the time that the clock has: in one write, and in pieces where there is no memory to
/// gather it in. What can't be written is not told.
pub fn log_run<C: Clock, E: FaultOutput>(alloc: Global, clock: &C, run: &Run<'_, '_>, err: &mut E)
    ensures { IsLogged run.now (E.said err.old) (E.said err.new) }
{
    let now = clock.since_1970().ok().map(|time| time.as_secs());
    let time = time_text(now);
    let _ = write_at_once(alloc, &time, run, err);
}

// Writes the line of a run that ended at this time, in one write where there is memory to gather it in.
fn write_at_once<E: FaultOutput>(
    alloc: Global,
    time: &TimeText,
    run: &Run<'_, '_>,
    err: &mut E,
) -> Result<(), WriteFault>
    ensures ok { OnOk result (IsSaidWhole (E.said err.old) (E.said err.new) (log_line time.now.items run.now)) }
    ensures err { OnErr result (IsSaidInPart (E.said err.old) (E.said err.new) (log_line time.now.items run.now)) }
{
    let mut gathered = Vec::new(alloc);
    match write_line(&mut gathered, time, run) {
        Ok(()) => say(err, &gathered),
        Err(_) => write_line(err, time, run),
    }
}

// Writes it in pieces. At the first write that fails it stops.
fn write_line<E: FaultOutput>(
    err: &mut E,
    time: &TimeText,
    run: &Run<'_, '_>,
) -> Result<(), WriteFault>
    ensures ok { OnOk result (IsSaidWhole (E.said err.old) (E.said err.new) (log_line time.now.items run.now)) }
    ensures err { OnErr result (IsSaidInPart (E.said err.old) (E.said err.new) (log_line time.now.items run.now)) }
{
    say(err, time)?;
    write_request(err, run.request)?;
    say(err, &line_end(run))
}

// What stands behind the names: the status, what was noted of the report, and how many characters came changed.
fn line_end(run: &Run<'_, '_>) -> LineEnd
    ensures { result.items ≡ line (end_text run.now) }
{
    let mut end = LineEnd::new();
    push_bytes(&mut end, b" status ");
    push_decimal(&mut end, u64::from(run.status.code()));
    push_bytes(&mut end, &run.report.told());
    push_changed(&mut end, run.changed);
    push_bytes(&mut end, b"\n");
    end
}

// Puts how many characters came changed behind the rest, where any did: a line without them is as it always was.
fn push_changed(end: &mut LineEnd, count: u32)
    requires { array_vec_len end.old ≤ 350 }
    ensures items { end.new.items ≡ end.old.items ++ changed_text count }
    ensures length { array_vec_len end.new ≤ array_vec_len end.old + 29 }
{
    if count > 0 {
        push_bytes(end, b" changed ");
        push_decimal(end, u64::from(count));
    }
}

// Writes what was asked for, behind the time.
fn write_request<E: FaultOutput>(
    err: &mut E,
    request: &MachineRequest<'_>,
) -> Result<(), WriteFault>
    ensures ok { OnOk result (IsSaidWhole (E.said err.old) (E.said err.new) (codes " " ++ request_text request.now)) }
    ensures err { OnErr result (IsSaidInPart (E.said err.old) (E.said err.new) (codes " " ++ request_text request.now)) }
{
    match request {
        MachineRequest::Load(tapes, load) => write_names(err, b" load", tapes, load.line),
        MachineRequest::Verify(tapes, look) => write_names(err, b" verify", tapes, look.line),
        MachineRequest::Save(save) => write_names(err, b" save", &[save.file], save.look.line),
        MachineRequest::Probe(probe) => write_names(err, b" probe", &[], probe.look.line),
        MachineRequest::Memory(test) => write_names(err, b" memory", &[], test.look.line),
    }
}

// Writes a command, and behind it names and the line.
fn write_names<E: FaultOutput>(
    err: &mut E,
    command: &[u8],
    names: &[&str],
    line: &str,
) -> Result<(), WriteFault>
    ensures ok { OnOk result (IsSaidWhole (E.said err.old) (E.said err.new) (command_text command.now names.now line.now)) }
    ensures err { OnErr result (IsSaidInPart (E.said err.old) (E.said err.new) (command_text command.now names.now line.now)) }
{
    say(err, command)?;
    for name in names {
        write_behind(err, name)?;
    }
    write_behind(err, line)
}

// Writes a name behind other words.
fn write_behind<E: FaultOutput>(err: &mut E, name: &str) -> Result<(), WriteFault>
    ensures ok { OnOk result (IsSaidWhole (E.said err.old) (E.said err.new) (name_behind name.now)) }
    ensures err { OnErr result (IsSaidInPart (E.said err.old) (E.said err.new) (name_behind name.now)) }
{
    say(err, b" ")?;
    write_name(err, name)
}
