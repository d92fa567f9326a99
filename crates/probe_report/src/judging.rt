//! Whether the console forgets.
ghost use Rattle.std.specs.Prelude.{◌≡◌};
ghost use Rattle.probe_report.specs.Judging.{is_stored, on_numbers, on_same_number, verdict_of};

use crate::findings::{Findings, Sighting, TrialEnd};
use trial_core::digits_for;

/// What the findings say of a console.
#[derive(Clone, Copy)]
pub enum Verdict {
    /// It forgot the digits at the illegal key.
    Forgets,

    /// The word reads as a number that the typed digits make: it stored them.
    Stores,

    /// The trial or a look did not come to its end, or the word reads as another number that the typed digits don't make, as
    /// where memory or the line changed it.
    Unknown,
}

/// Whether the console forgets: it does where the trial came to its end and both looks read the same number, and it does not
/// where the second read another one that the digits make which the trial typed. All three make it where the trial came to its
/// end, else the first one, two or three.
///
/// Any other number says nothing: the first look may have misread, and then its number must not be put back.
pub fn judge(findings: &Findings) -> Verdict
    ensures { result ≡ verdict_of findings.now }
{
    match (findings.first, findings.trial, findings.second) {
        (Sighting::Number(old), Some(trial), Some(Sighting::Number(now))) => {
            on_numbers(old, now, trial.end)
        }
        _ => Verdict::Unknown,
    }
}

// The same, where the word was read before the trial and behind it.
fn on_numbers(old: u16, now: u16, trial: TrialEnd) -> Verdict
    ensures { result ≡ on_numbers old now trial }
{
    if now == old {
        on_same_number(trial)
    } else if is_stored(digits_for(old), now, trial) {
        Verdict::Stores
    } else {
        Verdict::Unknown
    }
}

// The same, where both numbers are the same.
fn on_same_number(trial: TrialEnd) -> Verdict
    ensures { result ≡ on_same_number trial }
{
    match trial {
        TrialEnd::Tried => Verdict::Forgets,
        _ => Verdict::Unknown,
    }
}

// Whether a console that stores makes this number of the digits. Each is typed once the one before was echoed, so that none
// of them can be missing in front of another.
fn is_stored(digits: u16, now: u16, trial: TrialEnd) -> bool
    ensures { result ≡ is_stored digits now trial }
{
    match trial {
        TrialEnd::Tried => now == digits,
        _ => now == digits || now == digits / 0o10 || now == digits / 0o100,
    }
}
