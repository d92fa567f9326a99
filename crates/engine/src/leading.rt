ghost use Rattle.std.specs.Prelude.{◌≡◌, None, Some, IfErr, OnOk, OnErr};
ghost use Rattle.host_devices.specs.Devices.{line_told};
ghost use Rattle.host_devices.specs.Failures.{count_after, fault_of};
ghost use Rattle.host_devices.specs.Told.{Gains};
ghost use Rattle.engine.specs.Giving.{GainsFront, Keeps, KeepsFront};
ghost use Rattle.engine.specs.Keeping.{calls_of};
ghost use Rattle.engine.specs.Led.{IsLed, scene};
ghost use Rattle.engine.specs.Session.{turns_of};
ghost use Rattle.engine.specs.Stopping.{IsFailure};
ghost use Rattle.engine.specs.Ways.{said_all};

use crate::host::Host;
use crate::keep::Keep;
use crate::stop::{Cut, Stop};
use host_devices::{KeepFault, Line, LineFault, Onlooker};

/// Lends the host to the line and the keeper for at most so many turns.
///
/// Before each turn, and after the last, an end of the host stops the engine. In a turn one thing is
/// heard, the host takes its step, what it gives to keep is kept, and last the keys that it answered
/// are sent. The first failure stops the engine, and nothing after it in that turn is done. The
/// onlooker is told of each step, before anything comes of it.
pub fn lead<H: Host, L: Line, K: Keep<H::News>, O: Onlooker>(
    host: &mut H,
    line: &mut L,
    keep: &mut K,
    turns: u64,
    onlooker: &O,
) -> Stop<H::End>
    requires { H.is_host host.old }
    ensures led { IsLed (calls_of K.Keep) turns (turns_of H.ways host.old host.new (Some result))
        (scene (line_told L.Line line.old) keep.old) (scene (line_told L.Line line.new) keep.new) }
    ensures kept { H.is_host host.new }
{
    let mut end = host.end();
    for _ in 0..turns {
        if let Some(end) = end {
            return Stop::Ended(end);
        }
        if let Err(stop) = turn(host, line, keep, onlooker) {
            return stop;
        }
        end = host.end();
    }
    match end {
        Some(end) => Stop::Ended(end),
        None => Stop::CutOff(Cut::TurnsOver),
    }
}

// One turn of a host that has no end.
fn turn<H: Host, L: Line, K: Keep<H::News>, O: Onlooker>(
    host: &mut H,
    line: &mut L,
    keep: &mut K,
    onlooker: &O,
) -> Result<(), Stop<H::End>>
    requires goes_on { H.ways.ended host.old ≡ None }
    requires host { H.is_host host.old }
    ensures turn { IsLed (calls_of K.Keep) 1 (turns_of H.ways host.old host.new (fault_of result))
        (scene (line_told L.Line line.old) keep.old) (scene (line_told L.Line line.new) keep.new) }
    ensures only_fails { IfErr result IsFailure }
    ensures kept { H.is_host host.new }
{
    let heard = match line.hear() {
        Ok(heard) => heard,
        Err(fault) => return Err(Stop::CutOff(Cut::LineFailed(fault))),
    };
    let step = host.step(heard);
    onlooker.sees(host.sight(heard, &step));
    if let Err(fault) = keep_all(keep, host, &step) {
        return Err(Stop::KeepFailed(fault));
    }
    let keys = host.keys(&step);
    match send_all(line, &keys) {
        Ok(()) => Ok(()),
        Err(fault) => Err(Stop::CutOff(Cut::LineFailed(fault))),
    }
}

// Has all that a step gives kept, in its order.
fn keep_all<H: Host, K: Keep<H::News>>(
    keep: &mut K,
    host: &H,
    step: &H::Step,
) -> Result<(), KeepFault>
    requires { H.is_host host.now }
    ensures kept { OnOk result (Keeps (calls_of K.Keep) keep.old (H.news_in host.now step.now) keep.new) }
    ensures not_kept { IfErr result (λ fault. KeepsFront (calls_of K.Keep) fault keep.old (H.news_in host.now step.now) keep.new) }
{
    for number in 0..host.count(step) {
        if let Err(fault) = keep.keep(host.news(step, number)) {
            return Err(fault);
        }
    }
    Ok(())
}

// Sends all these characters, in their order.
fn send_all<L: Line>(line: &mut L, keys: &[u8]) -> Result<(), LineFault>
    ensures sent { OnOk result (Gains (L.told line.old) (L.told line.new) (said_all keys.now)) }
    ensures not_sent { OnErr result (GainsFront (L.told line.old) (L.told line.new) keys.now) }
    ensures counted { L.fault_count line.new ≡ count_after (L.fault_count line.old) result }
    ensures fault { OnErr result (L.last_fault line.new ≡ fault_of result) }
{
    for key in keys {
        if let Err(fault) = line.send(*key) {
            return Err(fault);
        }
    }
    Ok(())
}
