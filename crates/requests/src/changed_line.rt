//! The one place where a person is told of changed characters: a line of its own on standard error, behind all else.
ghost use Rattle.std.specs.Prelude.{◌≡◌, ◌≤◌, length};
ghost use Rattle.endings.specs.FaultOutput.{IsSaidOnError};
ghost use Rattle.requests.specs.ChangedLine.{IsChangeTold, changed_line, plural};

use arrayvec::ArrayVec;
use byte_io::{push_bytes, push_decimal};
use endings::{FaultOutput, Output, Streams, say};
use request_values::Request;
use std::io::Read;

// The longest such line has room.
type Line = ArrayVec<u8, 128>;

/// Says how many characters came changed, where any did, in one write. What can't be written is not told.
pub(crate) fn say_changed<R: Read, W: Output, E: FaultOutput>(
    request: &Request<'_>,
    count: u32,
    streams: &mut Streams<R, W, E>,
)
    ensures others { streams.new ≡ record streams.old { err = streams.new.err } }
    ensures told { IsChangeTold request.now count streams.old.err streams.new.err }
{
    match request {
        Request::Machine(_) if count > 0 => say_count(count, &mut streams.err),
        _ => {}
    }
}

// Says that so many did.
fn say_count<E: FaultOutput>(count: u32, err: &mut E)
    ensures { IsSaidOnError (E.said err.old) (E.said err.new) (changed_line count) }
{
    let _ = say(err, &changed_line(count));
}

// The line that tells how many did.
fn changed_line(count: u32) -> Line
    ensures { result.items ≡ changed_line count }
{
    let mut line = Line::new();
    push_bytes(&mut line, b"ldaodt: ");
    push_decimal(&mut line, u64::from(count));
    push_bytes(&mut line, plural(count));
    push_bytes(
        &mut line,
        b" came changed, or not from ODT: docs/REAL-MACHINE.md, step 7\n",
    );
    line
}

// One or several.
fn plural(count: u32) -> &'static [u8]
    ensures text { result.now ≡ plural count }
    ensures short { length result.now ≤ 11 }
{
    if count == 1 {
        b" character"
    } else {
        b" characters"
    }
}
