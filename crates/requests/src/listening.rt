//! Listening to a machine behind a load.
ghost use Rattle.std.specs.Prelude.{◌≡◌, ◌<◌, Some, OnOk, IfErr};
ghost use Rattle.request_values.specs.Change.{◌⇒◌};
ghost use Rattle.requests.specs.Listening.{line_and_out, quiet_time, seconds_behind, seconds_of};
ghost use Rattle.requests.specs.Listening.{IsHeardOut, IsListenedTo, IsListeningCut};

use console_lines::{listen, silences_within};
use endings::Failure;
use host_core::End;
use host_devices::Line;
use load_engine::Stop;
use machine_load::LoadEnd;
use request_values::Load;
use std::io::Write;

/// Listens behind a load that ended so, where that is asked for and the program was started or may have
/// been. Nothing is sent. `CannotWrite` where what is heard can't be written.
pub(crate) fn listen_behind<L: Line, W: Write>(
    load: Load<'_>,
    end: LoadEnd,
    line: &mut L,
    out: &mut W,
) -> Result<(), Failure<'static>>
    ensures heard { OnOk result (IsListenedTo (seconds_of load.entry.listen end) (quiet_time load.entry.quiet_ms)
        (line_and_out L.Line W.Write line.old out.old ⇒ line_and_out L.Line W.Write line.new out.new)) }
    ensures cut { IfErr result (IsListeningCut (seconds_of load.entry.listen end)
        (line_and_out L.Line W.Write line.old out.old ⇒ line_and_out L.Line W.Write line.new out.new)) }
{
    match seconds_of(load.listen, end) {
        Some(seconds) => listen_for(seconds, load.quiet_ms, line, out),
        None => Ok(()),
    }
}

// How many seconds of silence end the listening, where there is any.
fn seconds_of(listen: Option<u16>, end: LoadEnd) -> Option<u16>
    ensures { result ≡ seconds_of listen end }
{
    match end {
        LoadEnd::Driven(stop) => seconds_behind(listen, stop),
        _ => None,
    }
}

// The same, where the engine stopped so.
fn seconds_behind(listen: Option<u16>, stop: Stop) -> Option<u16>
    ensures { result ≡ seconds_behind listen stop }
{
    match stop {
        Stop::Ended(End::Started | End::Uncertain) => listen,
        _ => None,
    }
}

// Listens until so many seconds were silent.
fn listen_for<L: Line, W: Write>(
    seconds: u16,
    quiet_ms: u32,
    line: &mut L,
    out: &mut W,
) -> Result<(), Failure<'static>>
    ensures heard { OnOk result (IsHeardOut seconds (quiet_time quiet_ms)
        (line_and_out L.Line W.Write line.old out.old ⇒ line_and_out L.Line W.Write line.new out.new)) }
    ensures cut { IfErr result (IsListeningCut (Some seconds)
        (line_and_out L.Line W.Write line.old out.old ⇒ line_and_out L.Line W.Write line.new out.new)) }
{
    let silences = silences_within(seconds, quiet_time(quiet_ms));
    match listen(line, out, silences) {
        Ok(()) => Ok(()),
        Err(_) => Err(Failure::CannotWrite),
    }
}

// The quiet time of a line in milliseconds, which is 1 at least.
fn quiet_time(quiet_ms: u32) -> u32
    ensures value { result ≡ quiet_time quiet_ms }
    ensures some { 0 < result }
{
    if quiet_ms == 0 { 1 } else { quiet_ms }
}
