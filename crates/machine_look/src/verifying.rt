//! The command `verify`: whether memory holds what a plan says.
ghost use Rattle.std.specs.Prelude.{◌≡◌, IfErr, IfOk};
ghost use Rattle.console_lines.specs.Console.{console_told};
ghost use Rattle.console_lines.specs.Path.{call_of};
ghost use Rattle.machine_look.specs.LookFault.{IsVerifyFault};
ghost use Rattle.machine_look.specs.Verify.{IsVerifyReported};
ghost use Rattle.request_values.specs.Change.{◌⇒◌};

use crate::comparing::compare_over;
use crate::difference::count_differences;
use crate::look_fault::LookFault;
use crate::trust::trusts;
use crate::verify_end::VerifyEnd;
use crate::verify_report::{last_lines, verify_end};
use byte_io::write_and_flush;
use console_lines::{Consoles, Dial};
use host_devices::Onlooker;
use reading_core::{Care, ReadingCore};
use std::alloc::Global;
use std::io::Write;
use tape_image::Plan;

/// How a plan is verified.
#[derive(Clone, Copy)]
pub struct VerifyOptions {
    /// How often each word is looked at, where what the plan says is expected.
    pub care: Care,

    /// How many mishaps the host survives.
    pub patience: u32,
}

/// Looks at every word of a plan, in the order of their addresses, changes none, and reports each one that
/// differs, as soon as it was read, and in the end how far that came and how it ended.
///
/// A plan without words needs no console: it ends as `Same`. With less care than `Twice` that is `Changed` where a
/// character came that no loss explains.
///
/// `Connect` comes before anything was sent. `WriteOutput` is a report that could not be written whole: a front
/// of it was, and nothing more is read. `Memory` comes only where a growth was refused, before the console is
/// reached, with nothing reported.
pub fn verify<C: Consoles, W: Write, O: Onlooker>(
    alloc: Global,
    plan: &Plan,
    options: VerifyOptions,
    consoles: &mut C,
    dial: Dial<'_>,
    out: &mut W,
    onlooker: &O,
) -> Result<VerifyEnd, LookFault>
    ensures ok { IfOk result (IsVerifyReported plan.now options
        (console_told C.Consoles W.Write (call_of dial.entry) consoles.old out.old
        ⇒ console_told C.Consoles W.Write (call_of dial.entry) consoles.new out.new)) }
    ensures err { IfErr result (IsVerifyFault plan.now options
        (console_told C.Consoles W.Write (call_of dial.entry) consoles.old out.old
        ⇒ console_told C.Consoles W.Write (call_of dial.entry) consoles.new out.new)) }
{
    let core = ReadingCore::of_plan(alloc, plan, options.care, options.patience)?;
    let words = plan.words();
    let (core, stop) = compare_over(core, words, consoles, dial, out, onlooker)?;
    let differ = count_differences(words, core.values());
    let trusted = trusts(options.care, &core);
    write_and_flush(out, &last_lines(&core, trusted, differ, stop))?;
    Ok(verify_end(trusted, differ, stop))
}
