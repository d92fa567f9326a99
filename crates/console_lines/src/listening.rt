//! Copying what is heard of a console.
ghost use Rattle.std.specs.Prelude.{◌≡◌, ◌<◌, ◌≤◌, ◌+◌, ◌-◌, ◌*◌, ◌^◌, [], ◌∷◌, OnOk, OnErr, IfOk};
ghost use Rattle.console_lines.specs.Listening.{IsCopiedInPart, IsListening, IsNextCopied, copying, silences_behind};

use byte_io::{WriteFault, write_and_flush};
use host_core::Heard;
use host_devices::Line;
use std::io::Write;

/// Copies what is heard of a line to an output, each character as it comes, until so many silences
/// follow one another, until the line is at its end or fails, or until a character can't be written.
/// Nothing is sent.
///
/// The fault is a write or a flush that failed: the last character may be missing. A line that is over
/// is no fault; it tells its own.
pub fn listen<L: Line, W: Write>(line: &mut L, out: &mut W, silences: u32) -> Result<(), WriteFault>
    ensures copied { OnOk result (IsListening silences (L.last_fault line.new)
        (copying L.told W.contents line.old out.old)
        (copying L.told W.contents line.new out.new)) }
    ensures cut { OnErr result (IsCopiedInPart (copying L.told W.contents line.old out.old) (copying L.told W.contents line.new out.new)) }
{
    let mut silent = 0;
    for _ in 0..u64::MAX {
        if silent >= silences {
            break;
        }
        match copy_next(line, out)? {
            Some(heard) => silent = silences_then(silent, heard),
            None => break,
        }
    }
    Ok(())
}

// How many silences stand in a row at the end, once this was heard behind so many.
fn silences_then(silent: u32, heard: Heard) -> u32
    requires { silent < 2 ^ 32 - 1 }
    ensures count { result ≡ silences_behind silent (heard ∷ []) }
    ensures at_most { result ≤ silent + 1 }
{
    match heard {
        Heard::Quiet => silent + 1,
        Heard::Got(_) => 0,
    }
}

// Copies what is heard next, and answers it; None where the line is over.
fn copy_next<L: Line, W: Write>(line: &mut L, out: &mut W) -> Result<Option<Heard>, WriteFault>
    ensures copied { IfOk result (IsNextCopied (L.last_fault line.new)
        (copying L.told W.contents line.old out.old)
        (copying L.told W.contents line.new out.new)) }
    ensures cut { OnErr result (IsCopiedInPart (copying L.told W.contents line.old out.old) (copying L.told W.contents line.new out.new)) }
{
    match line.hear() {
        Ok(Heard::Got(character)) => {
            write_and_flush(out, &[character])?;
            Ok(Some(Heard::Got(character)))
        }
        Ok(Heard::Quiet) => Ok(Some(Heard::Quiet)),
        Err(_) => Ok(None),
    }
}

/// How many silences of the quiet time, in milliseconds, last so many seconds: as few as do.
pub fn silences_within(seconds: u16, quiet_ms: u32) -> u32
    requires { 0 < quiet_ms }
    ensures enough { 1000 * seconds ≤ result * quiet_ms }
    ensures no_more { result * quiet_ms < 1000 * seconds + quiet_ms }
{
    (u32::from(seconds) * 1000).div_ceil(quiet_ms)
}
