//! Texts for words that ask for nothing to be done: help, the version, or what is wrong with the words.
ghost use Rattle.std.specs.Prelude.{◌≡◌};
ghost use Rattle.endings.specs.Explained.{IsShown};
ghost use Rattle.endings.specs.FaultOutput.{IsSaidOnError};

use crate::fault_output::{FaultOutput, say};
use crate::output::Output;
use crate::printing::print_unwritten;
use crate::status::Status;
use crate::streams::Streams;
use byte_io::write_and_flush;
use std::alloc::Global;
use std::io::Read;

/// Prints a text that was asked for, in one write, and flushes it. Where that fails, standard error says
/// so, unless nobody reads the output any more.
pub fn show<R: Read, W: Output, E: FaultOutput>(
    alloc: Global,
    text: &str,
    streams: &mut Streams<R, W, E>,
) -> Status
    ensures { IsShown text.now streams.old streams.new result }
{
    match write_and_flush(&mut streams.out, text.as_bytes()) {
        Ok(()) => Status::Done,
        Err(_) => print_unwritten(alloc, &streams.out, &mut streams.err),
    }
}

/// Says what is wrong with the words, in one write. What can't be written is not told.
pub fn refuse<E: FaultOutput>(text: &str, err: &mut E) -> Status
    ensures said { IsSaidOnError (E.said err.old) (E.said err.new) text.now }
    ensures status { result ≡ Status.BadCommandLine }
{
    let _ = say(err, text.as_bytes());
    Status::BadCommandLine
}
