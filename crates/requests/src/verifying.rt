//! Looking whether a real machine holds what tapes say.
ghost use Rattle.std.specs.Prelude.{◌≡◌, IfOk, IfErr};
ghost use Rattle.std.specs.Mem.{FitsInMemory};
ghost use Rattle.console_lines.specs.Console.{console_told};
ghost use Rattle.request_values.specs.Change.{◌⇒◌};
ghost use Rattle.requests.specs.Verifying.{AreVerified, AreUnverified, IsVerifyFailure, IsVerifyOver};
ghost use Rattle.requests.specs.Moment.{call_for, moment};

use crate::ending::after_verify;
use crate::planning::plan_tapes;
use crate::request_fault::RequestFault;
use crate::system::{Kinds, System};
use crate::watch::Watch;
use advice::advise_verify;
use console_lines::{Consoles, Dial};
use endings::{Failure, FaultOutput, Output, Status, Streams};
use machine_look::{VerifyOptions, verify};
use progress_display::KeptIn;
use request_values::Look;
use std::alloc::Global;
use std::io::{Print, Read, Write};
use std::time::Clock;
use tape_image::Plan;
use witness::Witness;

/// Looks whether a real machine holds what tapes, as one, say, in a system, and answers the exit status.
///
/// Tapes are opened in the order of their names and read whole before the console is asked for; the name `-`,
/// alone, is standard input. The report goes to standard output, and nothing is asked of the disk. A terminal,
/// where there is one, shows how far the look is.
///
/// `CannotRead`, which names the tape, `TapeRefused` and `OneTapeRefused` come before the console is asked for,
/// `CannotConnect` before anything was sent. `LineFailed` comes behind the report. `CannotWrite` is a report that
/// could not be written whole. `NoMemory` comes only where a growth was refused, before the console is reached.
///
/// What is asked of the caller is only that a value of the input's type fits into memory, as each type of a
/// program does.
pub(crate) fn verify_tapes<'a, K: Kinds, R: Read, W: Output, E: FaultOutput, T: Print>(
    system: &mut System<K>,
    alloc: Global,
    names: &[&'a str],
    look: Look<'a>,
    streams: &mut Streams<R, W, E>,
    terminal: Option<&T>,
    witness: &Witness,
) -> Result<Status, Failure<'a>>
    requires { FitsInMemory R.row }
    ensures ok { IfOk result (AreVerified names.now look.entry (moment K.Disk.holds system.old streams.old ⇒ moment K.Disk.holds system.new streams.new)) }
    ensures err { IfErr result (AreUnverified names.now look.entry (moment K.Disk.holds system.old streams.old ⇒ moment K.Disk.holds system.new streams.new)) }
    ensures quiet { streams.new.err ≡ streams.old.err }
{
    let plan = plan_tapes(&mut system.inputs, alloc, names, streams)?;
    let shown = Watch::new(&system.clock, terminal, KeptIn::Nothing, witness);
    let out = &mut streams.out;
    verify_over(alloc, &plan, look, &mut system.consoles, out, &shown)
}

// Looks whether it holds what a plan says, over the line of one of these consoles.
fn verify_over<'a, C: Consoles, W: Write, H: Clock, T: Print>(
    alloc: Global,
    plan: &Plan,
    look: Look<'a>,
    consoles: &mut C,
    out: &mut W,
    watch: &Watch<'_, H, T>,
) -> Result<Status, Failure<'a>>
    ensures ok { IfOk result (IsVerifyOver plan.now look.entry
        (console_told C.Consoles W.Write (call_for look.entry) consoles.old out.old
        ⇒ console_told C.Consoles W.Write (call_for look.entry) consoles.new out.new)) }
    ensures err { IfErr result (IsVerifyFailure plan.now look.entry
        (console_told C.Consoles W.Write (call_for look.entry) consoles.old out.old
        ⇒ console_told C.Consoles W.Write (call_for look.entry) consoles.new out.new)) }
{
    let options = VerifyOptions {
        care: look.care,
        patience: look.patience,
    };
    let dial = Dial {
        name: look.line,
        quiet_ms: look.quiet_ms,
    };
    let verified = verify(alloc, plan, options, consoles, dial, out, watch);
    advise_verify(watch.progress(), verified);
    match verified {
        Ok(end) => after_verify(end),
        // Nothing is saved, so that no fault names a file.
        Err(fault) => Err(RequestFault::Look(fault).failure(look.line, look.line)),
    }
}
