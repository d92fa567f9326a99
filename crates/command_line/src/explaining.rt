//! Saying why words ask for nothing that could be done.
ghost use Rattle.command_line.specs.Explanation.{IsExplained};

use crate::no_request::NoRequest;
use endings::{Failure, FaultOutput, Output, Status, Streams, print_failure, refuse, show};
use std::alloc::Global;
use std::io::Read;

// What is said of words that the parser let pass and that mean nothing.
const MEANINGLESS: &str = "ldaodt: the command line is not understood\n";

/// Says why there was nothing to do, and answers the exit status: help and the version go to standard output, what
/// is wrong with the words to standard error. What can't be written there is not told.
pub fn explain<R: Read, W: Output, E: FaultOutput>(
    alloc: Global,
    answer: NoRequest,
    streams: &mut Streams<R, W, E>,
) -> Status
    ensures { IsExplained answer streams.old streams.new result }
{
    match answer {
        NoRequest::Help(text) => show(alloc, &text, streams),
        NoRequest::Refused(text) => refuse(&text, &mut streams.err),
        NoRequest::Meaningless => refuse(MEANINGLESS, &mut streams.err),
        NoRequest::NoMemory => print_failure(alloc, Failure::NoMemory, &mut streams.err),
    }
}
