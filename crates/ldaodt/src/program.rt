//! The body of `main`, over any files, lines and streams.
ghost use Rattle.std.specs.Prelude.{◌≡◌, [], map};
ghost use Rattle.std.specs.Mem.{FitsInMemory};
ghost use Rattle.std.specs.String.{string_bytes};
ghost use Rattle.request_values.specs.Change.{◌⇒◌};
ghost use Rattle.request_values.specs.declared.request.Request.{Request};
ghost use Rattle.request_values.specs.declared.request.PrintRequest.{PrintRequest};
ghost use Rattle.request_values.specs.declared.request.TapeRequest.{TapeRequest};
ghost use Rattle.endings.specs.declared.status.Status.{Status};
ghost use Rattle.endings.specs.Failure.{IsPrinted, status_of};
ghost use Rattle.endings.specs.Status.{status_code};
ghost use Rattle.requests.specs.Moment.{moment};
ghost use Rattle.requests.specs.Attempt.{IsAttempted};
ghost use Rattle.requests.specs.declared.attempted.Attempted.{Attempted};
ghost use Rattle.ldaodt.specs.Answer.{IsAnswered, IsLoggedIf, around, without_line};

use crate::followed::say_followed;
use crate::misplaced::misplaced;
use crate::names::Names;
use command_line::{Wanted, explain, parse};
use endings::{Failure, FaultOutput, Output, Streams, print_failure};
use request_values::Request;
use requests::{Attempted, Kinds, System, attempt};
use run_log::{FirstHeld, NotedOutput, Run, log_run};
use std::alloc::Global;
use std::io::{Print, Read};
use witness::Witness;

/// Does what the words after the program's name ask for, in a system that comes back, and answers the exit
/// status.
///
/// Reports and help go to standard output, which is flushed; refused command lines and faults go to
/// standard error, a fault as one line, and behind it the system's reason, as the witness has it, and that a machine's
/// line changed characters. What can't be written there is not told, nor that nobody reads any more what only prints. A load or a look shows on the terminal, where
/// there is one, how far it is. A run at a machine has the line of a log behind all else, where the words ask for one.
pub(crate) fn program<
    N: Names,
    K: Kinds,
    R: Read,
    W: Output,
    E: FaultOutput,
    T: Print,
    F: FirstHeld,
>(
    rt: &N,
    system: System<K>,
    alloc: Global,
    words: &[String],
    streams: &mut Streams<R, NotedOutput<W, F>, E>,
    terminal: Option<&T>,
    witness: &Witness,
) -> (System<K>, u8)
    requires { FitsInMemory R.row }
    // With no words, the tape on the input is checked.
    ensures checked { words.now ≡ [] → (ended : Attempted)
        × IsAttempted (Request.Tape (TapeRequest.Print PrintRequest.CheckInput)) (moment K.Disk.holds system streams.old ⇒ moment K.Disk.holds result.0 streams.new) ended
        × (result.1 ≡ status_code ended.status) }
    // Whatever the words are, what they ask for is tried, and told to a log where that is wanted, or they are explained.
    ensures answered { (status : Status)
        × IsAnswered (around (N.told rt.now) F.held) (map string_bytes words.now)
        (moment K.Disk.holds system streams.old) (moment K.Disk.holds result.0 streams.new) status
        × (result.1 ≡ status_code status) }
{
    match parse(alloc, words) {
        Ok(wanted) => {
            let request = &wanted.request;
            // A name that can't be what its place asks for is told, and nothing is done.
            let (system, ended) = match misplaced(rt, request) {
                Some(failure) => (system, tell_misplaced(alloc, failure, &mut streams.err)),
                None => {
                    if let Some(terminal) = terminal {
                        say_followed(rt, alloc, terminal, request);
                    }
                    attempt(system, alloc, request, streams, terminal, witness)
                }
            };
            log_if_wanted(alloc, &system, &wanted, ended, streams);
            (system, ended.status.code())
        }
        Err(answer) => {
            let status = explain(alloc, answer, streams);
            (system, status.code())
        }
    }
}

// Tells of a name that is out of place.
fn tell_misplaced<E: FaultOutput>(alloc: Global, failure: Failure<'_>, err: &mut E) -> Attempted
    ensures printed { IsPrinted (E.said err.old) (E.said err.new) failure.entry }
    ensures ended { result ≡ without_line (status_of failure.entry) }
{
    Attempted {
        status: print_failure(alloc, failure, err),
        changed: 0,
    }
}

// Says the line of a run that came to this, where one at a machine is to be in a log.
fn log_if_wanted<K: Kinds, R: Read, W: Output, E: FaultOutput, F: FirstHeld>(
    alloc: Global,
    system: &System<K>,
    wanted: &Wanted<'_>,
    ended: Attempted,
    streams: &mut Streams<R, NotedOutput<W, F>, E>,
)
    ensures { IsLoggedIf F.held wanted.now ended streams.old streams.new }
{
    if !wanted.log {
        return;
    }
    if let Request::Machine(request) = &wanted.request {
        let report = streams.out.notes();
        let run = Run {
            request,
            status: ended.status,
            report,
            changed: ended.changed,
        };
        log_run(alloc, &system.clock, &run, &mut streams.err);
    }
}
