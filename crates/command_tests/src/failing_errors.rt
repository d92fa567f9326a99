//! Refusals and lines of faults over a standard error that fails once.
ghost use Rattle.std.specs.Prelude.{Some};
ghost use Rattle.endings.specs.Failure.{IsPrinted};
ghost use Rattle.endings.specs.FaultOutput.{IsSaidOnError};

use crate::broken_output::BrokenOutput;
use endings::{Failure, Status, print_failure, refuse};
use std::alloc::Global;

// Refuses words on an output that tells what it took, and how often it took nothing.
fn refuse_on(text: &str, err: &mut BrokenOutput) -> Status
    ensures { IsSaidOnError
        (record { text = Some err.old.written.items; failures = Some err.old.refused })
        (record { text = Some err.new.written.items; failures = Some err.new.refused })
        text.now }
{
    refuse(text, err)
}

// Tells a fault on such an output.
fn tell_on(alloc: Global, failure: Failure<'_>, err: &mut BrokenOutput) -> Status
    ensures { IsPrinted
        (record { text = Some err.old.written.items; failures = Some err.old.refused })
        (record { text = Some err.new.written.items; failures = Some err.new.refused })
        failure.entry }
{
    print_failure(alloc, failure, err)
}

// Whether an output that failed has the front of a text, and was not asked again.
fn is_broken_off(err: &BrokenOutput, text: &str) -> bool {
    err.failed_once() && text.as_bytes().starts_with(&err.written)
}

// Whether a refusal ends as one whose telling fails at the write of this number.
fn refusal_stops(alloc: Global, number: u32) -> bool {
    let mut err = BrokenOutput::new(alloc, number);
    let status = refuse_on("Usage: ldaodt\n", &mut err);
    matches!(status, Status::BadCommandLine) && is_broken_off(&err, "Usage: ldaodt\n")
}

// The same of the line of a fault.
fn telling_stops(alloc: Global, number: u32) -> bool {
    let mut err = BrokenOutput::new(alloc, number);
    let status = tell_on(alloc, Failure::CannotRead("no-such-tape.lda"), &mut err);
    matches!(status, Status::DeviceFailed)
        && is_broken_off(&err, "ldaodt: cannot read no-such-tape.lda\n")
}

#[test]
fn what_can_not_be_told_is_not(rt: HostRuntime) {
    for number in 1..3 {
        assert!(rt; refusal_stops(rt.alloc(), number), "write {number}");
        assert!(rt; telling_stops(rt.alloc(), number), "write {number}");
    }
}
