//! What the system says of why something failed: a line of its own behind the line of the failure.
ghost use Rattle.std.specs.Prelude.{◌≡◌, ◌++◌, true, IfSome};
ghost use Rattle.std.specs.String.{string_bytes};
ghost use Rattle.endings.specs.Failure.{status_of, is_unheard, IsPrinted};
ghost use Rattle.endings.specs.FaultOutput.{StandardError};
ghost use Rattle.endings.specs.SystemReason.{connect_hint, is_systems, reason_hint, reason_line, reason_words, IsReasonPrinted, IsPrintedWithReason};

use crate::failure::Failure;
use crate::fault_output::{FaultOutput, say};
use crate::output::Output;
use crate::printing::{print_unless_unheard, write_at_once};
use crate::status::Status;
use std::alloc::Global;
use std::io;
use std::io::ErrorKind;

/// Prints a failure as `print_unless_unheard` does, and behind its line, where that could be written whole, the system's
/// reason, where the failure is one that has such: what can't be read, written or connected to. A reason that there
/// is no memory for is not printed.
pub fn print_with_reason<W: Output, E: FaultOutput>(
    alloc: Global,
    only_prints: bool,
    failure: Failure<'_>,
    reason: Option<io::Error>,
    out: &W,
    err: &mut E,
) -> Status
    ensures status { result ≡ status_of failure.entry }
    ensures printed { IsPrintedWithReason (is_unheard only_prints (W.unread out.now) failure.entry) (E.said err.old) (E.said err.new) failure.entry }
{
    match reason {
        Some(error) if is_systems(failure) => print_with_systems_reason(alloc, failure, error, err),
        _ => print_unless_unheard(alloc, only_prints, failure, out, err),
    }
}

// Whether it is the system that has the reason of a failure.
fn is_systems(failure: Failure<'_>) -> bool
    ensures { result ≡ is_systems failure.entry }
{
    matches!(
        failure,
        Failure::CannotRead(_) | Failure::CannotWriteFile(_) | Failure::CannotConnect(_)
    )
}

// Tells a failure of which the system has the reason, and then that.
fn print_with_systems_reason<E: FaultOutput>(
    alloc: Global,
    failure: Failure<'_>,
    error: io::Error,
    err: &mut E,
) -> Status
    requires { is_systems failure ≡ true }
    ensures status { result ≡ status_of failure.entry }
    ensures printed { (between : StandardError) × IsPrinted (E.said err.old) between failure.entry × IsReasonPrinted failure.entry between (E.said err.new) }
{
    if write_at_once(alloc, failure, err).is_ok() {
        say_reason(alloc, failure, error, err);
    }
    failure.status()
}

// Says the reason of a failure on a line of its own, in one write. What can't be written is not printed.
fn say_reason<E: FaultOutput>(alloc: Global, failure: Failure<'_>, error: io::Error, err: &mut E)
    requires { is_systems failure ≡ true }
    ensures { IsReasonPrinted failure.entry (E.said err.old) (E.said err.new) }
{
    let Ok(text) = format!(in alloc; "{error}") else {
        return;
    };
    let words = without_number(text.as_str());
    if let Some(line) = line_of(alloc, failure, error.kind(), words) {
        let _ = say(err, line.as_bytes());
    }
}

// An error's words without its number, which std puts behind the system's.
fn without_number(text: &str) -> &str {
    match text.split_once(" (os error ") {
        Some((words, _)) => words,
        None => text,
    }
}

// The line of a reason of which the system has said this. None where there is no memory for it.
fn line_of(alloc: Global, failure: Failure<'_>, kind: ErrorKind, words: &str) -> Option<String>
    ensures { IfSome result (λ line. string_bytes line ≡ reason_line failure.entry kind words.now) }
{
    let said = reason_words(failure, kind, words);
    let hint = reason_hint(failure, kind);
    format!(in alloc; "ldaodt: {said}{hint}\n").ok()
}

// What the system has said, or the program's own words in place of that.
fn reason_words<'w>(failure: Failure<'_>, kind: ErrorKind, words: &'w str) -> &'w str
    ensures { result.now ≡ reason_words failure.entry kind words.now }
{
    match (failure, kind) {
        (Failure::CannotConnect(_), ErrorKind::Unsupported) => "no terminal",
        (Failure::CannotConnect(_), ErrorKind::WouldBlock | ErrorKind::ResourceBusy) => {
            "in use by another program"
        }
        _ => words,
    }
}

// What may help.
fn reason_hint(failure: Failure<'_>, kind: ErrorKind) -> &'static str
    ensures { result.now ≡ reason_hint failure.entry kind }
{
    match failure {
        Failure::CannotConnect(_) => connect_hint(kind),
        _ => "",
    }
}

// What may help where there is no connection.
fn connect_hint(kind: ErrorKind) -> &'static str
    ensures { result.now ≡ connect_hint kind }
{
    match kind {
        ErrorKind::WouldBlock | ErrorKind::ResourceBusy => ": 'fuser -v' shows which",
        ErrorKind::PermissionDenied => ": you may lack the group dialout",
        ErrorKind::NotFound => ": 'ls /dev/tty*' shows what is there",
        ErrorKind::ConnectionRefused => ": nobody listens there",
        ErrorKind::InvalidInput => ": LINE is HOST:PORT or a path with a slash",
        _ => "",
    }
}
