//! How a probe ends.
ghost use Rattle.std.specs.Prelude.{◌≡◌};
ghost use Rattle.probe_report.specs.Ending.{first_end, probe_end, same_end, search_end, second_end, trial_end};

use crate::findings::{Extent, Findings, Sighting, TrialEnd, TrialFindings};
use crate::probe_end::ProbeEnd;
use engine::Cut;

/// How a probe ends with these findings, where a prompt was heard or not.
pub(crate) fn end_of(findings: &Findings, prompt: bool) -> ProbeEnd
    ensures { result ≡ probe_end findings.now prompt }
{
    match findings.first {
        Sighting::Number(old) => first_end(findings, old),
        Sighting::GaveUp if prompt => ProbeEnd::GaveUp,
        Sighting::GaveUp => ProbeEnd::NoPrompt,
        Sighting::NoWord => ProbeEnd::NoWord(findings.address),
        Sighting::CutOff(cut) => ProbeEnd::CutOff(cut),
    }
}

// Behind a first look that read the word.
fn first_end(findings: &Findings, old: u16) -> ProbeEnd
    ensures { result ≡ first_end findings.now old findings.now.trial }
{
    match findings.trial {
        Some(trial) => trial_end(findings, old, trial),
        None => ProbeEnd::GaveUp,
    }
}

// Behind the trial.
fn trial_end(findings: &Findings, old: u16, trial: TrialFindings) -> ProbeEnd
    ensures { result ≡ trial_end findings.now old trial.end }
{
    match trial.end {
        TrialEnd::CutOff(Cut::LineFailed(fault)) => ProbeEnd::CutOff(Cut::LineFailed(fault)),
        end => second_end(findings, old, end),
    }
}

// Behind the second look.
fn second_end(findings: &Findings, old: u16, trial: TrialEnd) -> ProbeEnd
    ensures { result ≡ second_end findings.now old trial findings.now.second }
{
    match findings.second {
        Some(Sighting::Number(now)) if now == old => same_end(trial, findings.search),
        Some(Sighting::Number(_)) => ProbeEnd::NotTrusted,
        Some(Sighting::GaveUp) | None => ProbeEnd::GaveUp,
        Some(Sighting::NoWord) => ProbeEnd::NoWord(findings.address),
        Some(Sighting::CutOff(cut)) => ProbeEnd::CutOff(cut),
    }
}

// Where both looks read the same number.
fn same_end(trial: TrialEnd, search: Option<Extent>) -> ProbeEnd
    ensures { result ≡ same_end search trial }
{
    match trial {
        TrialEnd::Tried => search_end(search),
        TrialEnd::CutOff(cut) => ProbeEnd::CutOff(cut),
        _ => ProbeEnd::GaveUp,
    }
}

// Behind the search.
fn search_end(search: Option<Extent>) -> ProbeEnd
    ensures { result ≡ search_end search }
{
    match search {
        Some(Extent::Top(_)) => ProbeEnd::Probed,
        Some(Extent::GaveUp) | None => ProbeEnd::GaveUp,
        Some(Extent::CutOff(cut)) => ProbeEnd::CutOff(cut),
    }
}
