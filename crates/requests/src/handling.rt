//! Doing a request, and telling how it ended.
ghost use Rattle.std.specs.Mem.{FitsInMemory};
ghost use Rattle.request_values.specs.Change.{◌⇒◌};
ghost use Rattle.requests.specs.Moment.{moment};
ghost use Rattle.requests.specs.Attempt.{IsAttempted, IsEndOf};

use crate::attempted::Attempted;
use crate::changed_line::say_changed;
use crate::loading::load_tapes;
use crate::making::make_words;
use crate::probing::probe_console;
use crate::saving::save_words;
use crate::system::{Kinds, System};
use crate::testing::test_words;
use crate::verifying::verify_tapes;
use advice::{say_instead, say_probing};
use endings::{Failure, FaultOutput, Output, Status, Streams, print_with_reason};
use request_values::{MachineRequest, Request, TapeRequest};
use std::alloc::Global;
use std::io::{Print, Read};
use tape_commands::print_answer;
use witness::Witness;

/// Does a request in a system, which comes back, and answers the exit status, or tells why not, with the
/// status that says so; and how many characters came changed, for a log.
///
/// Reports go to standard output, which is flushed; a fault goes to standard error as one line, in one
/// write, and behind it, where the system could not read, write or connect to something, its reason, as the witness
/// of its parts has it; and behind all that, of a request at a machine, that characters came changed, by the witness's
/// count. What can't be written there is not told. Nor is that standard output can't be written, where
/// the request does nothing but print and nobody reads any more. A load of a machine and a look at it show
/// on the terminal, where there is one, how far they are; and what a refused tape is instead is told there.
///
/// Part by part, where the system tells: the files that are named are opened in their order; the console that is
/// named is asked for once, and no other; its line is given back, with what was said on it and no more; the disk is
/// asked for what the record takes, or the tape that is saved or made.
///
/// What is asked of the caller is only that a value of the input's type fits into memory, as each type
/// of a program does. It has to be said where the type is not known, since the input is lent as a slice of
/// one.
pub fn attempt<K: Kinds, R: Read, W: Output, E: FaultOutput, T: Print>(
    mut system: System<K>,
    alloc: Global,
    request: &Request<'_>,
    streams: &mut Streams<R, W, E>,
    terminal: Option<&T>,
    witness: &Witness,
) -> (System<K>, Attempted)
    requires { FitsInMemory R.row }
    ensures { IsAttempted request.now (moment K.Disk.holds system streams.old ⇒ moment K.Disk.holds result.0 streams.new) result.1 }
{
    let only_prints = request.only_prints();
    let (system, outcome) = match request {
        Request::Tape(TapeRequest::Print(request)) => {
            let outcome = print_answer(&mut system.inputs, alloc, request, streams);
            (system, outcome)
        }
        Request::Tape(TapeRequest::Make(make)) => make_words(system, alloc, *make, streams),
        Request::Machine(MachineRequest::Load(names, load)) => {
            load_tapes(system, alloc, names, *load, streams, terminal, witness)
        }
        Request::Machine(MachineRequest::Verify(names, look)) => {
            let outcome = verify_tapes(
                &mut system,
                alloc,
                names,
                *look,
                streams,
                terminal,
                witness,
            );
            (system, outcome)
        }
        Request::Machine(MachineRequest::Save(save)) => {
            save_words(system, alloc, *save, streams, terminal, witness)
        }
        Request::Machine(MachineRequest::Probe(probe)) => {
            say_probing(alloc, terminal, probe.look);
            let outcome = probe_console(&mut system, alloc, *probe, streams, witness);
            (system, outcome)
        }
        Request::Machine(MachineRequest::Memory(test)) => {
            let outcome = test_words(&mut system, alloc, *test, streams, terminal, witness);
            (system, outcome)
        }
    };
    let status = end(alloc, only_prints, outcome, streams, terminal, witness);
    let changed = witness.changed();
    say_changed(request, changed, streams);
    (system, Attempted { status, changed })
}

// The status that a request ends with which came to this: where it failed, that is told on standard error, if
// somebody is to hear of it.
fn end<R: Read, W: Output, E: FaultOutput, T: Print>(
    alloc: Global,
    only_prints: bool,
    outcome: Result<Status, Failure<'_>>,
    streams: &mut Streams<R, W, E>,
    terminal: Option<&T>,
    witness: &Witness,
) -> Status
    ensures { IsEndOf only_prints outcome.entry (streams.old ⇒ streams.new) result }
{
    match outcome {
        Ok(status) => status,
        Err(failure) => {
            let (out, err) = (&streams.out, &mut streams.err);
            let status = print_with_reason(alloc, only_prints, failure, witness.error(), out, err);
            say_instead(alloc, terminal, failure, witness);
            status
        }
    }
}
