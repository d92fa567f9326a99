//! Names that stand in each other's places on the command line, as a tape where the line belongs: what a device
//! sends would be waited for, and nobody told.
ghost use Rattle.std.specs.Prelude.{◌≡◌, [], ◌∷◌, None, IfSome, true, false};
ghost use Rattle.std.specs.Bool.{OnTrue};
ghost use Rattle.request_values.specs.declared.request.Request.{Request};
ghost use Rattle.request_values.specs.declared.request.PrintRequest.{PrintRequest};
ghost use Rattle.request_values.specs.declared.request.TapeRequest.{TapeRequest};
ghost use Rattle.endings.specs.declared.place.Place.{Place};
ghost use Rattle.ldaodt.specs.Misplaced.{IsAmong, IsOfPlace, inputs_at, names_at, record_at, tapes_at};
ghost use Rattle.ldaodt.specs.Names.{IsOut, IsOutAs, is_line};

use crate::names::Names;
use console_lines::is_path;
use endings::{Failure, Place};
use input_files::is_input;
use request_values::{MachineRequest, PrintRequest, Request, TapeRequest};
use tape_commands::{InputNames, names_of};

/// The first name of a request that can't be what its place asks for. Nothing is read for that.
///
/// What is not there, or can't be opened, is left to whoever opens it; so is a line that is a character device,
/// which to open twice may do something.
pub(crate) fn misplaced<'a, N: Names>(rt: &N, request: &Request<'a>) -> Option<Failure<'a>>
    ensures misplaced { IfSome result (IsOfPlace (names_at request.now)) }
    ensures out { IfSome result (IsOut (N.told rt.now)) }
    ensures checked { request.now ≡ Request.Tape (TapeRequest.Print PrintRequest.CheckInput) → result ≡ None }
{
    if let Some((line, place)) = line_of(request)
        && is_no_device(rt, line)
    {
        return Some(Failure::Misplaced(line, place));
    }
    match request {
        Request::Machine(MachineRequest::Load(tapes, load)) => {
            terminal_among(rt, tapes).or(terminal_as_record(rt, load.record))
        }
        Request::Machine(MachineRequest::Verify(tapes, _)) => terminal_among(rt, tapes),
        Request::Machine(
            MachineRequest::Save(_) | MachineRequest::Probe(_) | MachineRequest::Memory(_),
        ) => None,
        Request::Tape(TapeRequest::Make(make)) => terminal_as_words(rt, make.words),
        Request::Tape(TapeRequest::Print(request)) => terminal_as_input(rt, request),
    }
}

// The line of a request at a real machine, and whose it is.
fn line_of<'a>(request: &Request<'a>) -> Option<(&'a str, Place)>
    ensures own { IfSome result (λ line. IsAmong line (names_at request.now)) }
    ensures line { IfSome result (λ line. is_line line.1 ≡ true) }
    ensures checked { request.now ≡ Request.Tape (TapeRequest.Print PrintRequest.CheckInput) → result ≡ None }
{
    match request {
        Request::Machine(MachineRequest::Load(_, load)) => Some((load.line, Place::LineOfLoad)),
        Request::Machine(MachineRequest::Verify(_, look)) => Some((look.line, Place::LineOfVerify)),
        Request::Machine(MachineRequest::Save(save)) => Some((save.look.line, Place::LineOfSave)),
        Request::Machine(MachineRequest::Probe(probe)) => Some((
            probe.look.line,
            Place::LineOfProbe,
        )),
        Request::Machine(MachineRequest::Memory(test)) => Some((
            test.look.line,
            Place::LineOfMemory,
        )),
        Request::Tape(_) => None,
    }
}

// Whether a line is the path of something that is there and no device.
fn is_no_device<N: Names>(rt: &N, line: &str) -> bool
    ensures out { OnTrue result (IsOutAs (N.told rt.now) true line.now) }
{
    is_path(line) && rt.is_no_device(line)
}

// The first of some tapes that is a terminal. Standard input may be one.
fn terminal_among<'a, N: Names>(rt: &N, tapes: &[&'a str]) -> Option<Failure<'a>>
    ensures misplaced { IfSome result (IsOfPlace (tapes_at tapes.now)) }
    ensures out { IfSome result (IsOut (N.told rt.now)) }
{
    if is_input(tapes) {
        return None;
    }
    for name in tapes {
        if let Some(failure) = terminal(rt, name, Place::Tape) {
            return Some(failure);
        }
    }
    None
}

// The first name of a request that only prints which is a terminal's.
fn terminal_as_input<'a, N: Names>(rt: &N, request: &PrintRequest<'a>) -> Option<Failure<'a>>
    ensures misplaced { IfSome result (IsOfPlace (inputs_at request.now)) }
    ensures out { IfSome result (IsOut (N.told rt.now)) }
    ensures checked { request.now ≡ PrintRequest.CheckInput → result ≡ None }
{
    match names_of(request) {
        InputNames::Nothing => None,
        InputNames::Tapes(tapes) => terminal_among(rt, tapes),
        InputNames::Scripted(rehearsal) => {
            terminal_among(rt, &[rehearsal.tape])
                .or(terminal(rt, rehearsal.script, Place::Script))
                .or(terminal_among(rt, &rehearsal.more))
        }
    }
}

// That octal words have a terminal's name. Standard input may be one.
fn terminal_as_words<'a, N: Names>(rt: &N, words: &'a str) -> Option<Failure<'a>>
    ensures misplaced { IfSome result (IsOfPlace ((words.entry, Place.Words) ∷ [])) }
    ensures out { IfSome result (IsOut (N.told rt.now)) }
{
    if is_input(&[words]) {
        return None;
    }
    terminal(rt, words, Place::Words)
}

// That a record, where there is to be one, has a terminal's name.
fn terminal_as_record<'a, N: Names>(rt: &N, record: Option<&'a str>) -> Option<Failure<'a>>
    ensures misplaced { IfSome result (IsOfPlace (record_at record.entry)) }
    ensures out { IfSome result (IsOut (N.told rt.now)) }
{
    match record {
        Some(name) => terminal(rt, name, Place::Record),
        None => None,
    }
}

// That a name is a terminal, where it is one.
fn terminal<'a, N: Names>(rt: &N, name: &'a str, place: Place) -> Option<Failure<'a>>
    ensures misplaced { IfSome result (IsOfPlace ((name.entry, place) ∷ [])) }
    ensures out { is_line place ≡ false → IfSome result (IsOut (N.told rt.now)) }
{
    rt.is_terminal(name)
        .then_some(Failure::Misplaced(name, place))
}
