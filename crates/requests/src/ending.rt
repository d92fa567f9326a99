//! What a load, a look, a probe or a test comes to that was reported: the exit status, or the failure that names what was at fault.
ghost use Rattle.std.specs.Prelude.{◌≡◌, IfOk, IfErr};
ghost use Rattle.requests.specs.Ending.{IsLoadEndFailure, IsLoadEndStatus, IsSaveEndFailure, IsSaveEndStatus, IsStopFailure, IsStopStatus};
ghost use Rattle.requests.specs.Ending.{after_cut, after_probe, after_test, after_verify};

use endings::{Failure, Status};
use engine::Cut;
use load_engine::Stop;
use machine_load::LoadEnd;
use machine_look::{SaveEnd, VerifyEnd};
use machine_memory::{MemoryEnd, TestEnd};
use probe_report::ProbeEnd;

/// The status after a load that ended so and was reported, or the failure that it is where its line or its
/// record failed, or memory does not hold what the record says. `marked` says whether the start was typed, or
/// may have been.
pub(crate) fn after_load(end: LoadEnd, marked: bool, file: &str) -> Result<Status, Failure<'_>>
    ensures status { IfOk result (IsLoadEndStatus end) }
    ensures failure { IfErr result (IsLoadEndFailure end marked file.entry.now) }
{
    match end {
        LoadEnd::Driven(stop) => after_stop(stop, marked, file),
        LoadEnd::Unfinished(stop) => after_stop(stop, marked, file),
        LoadEnd::Stale(_) => Err(Failure::RecordStale),
    }
}

// The same, where an engine stopped so.
fn after_stop(stop: Stop, marked: bool, file: &str) -> Result<Status, Failure<'_>>
    ensures status { IfOk result (IsStopStatus stop) }
    ensures failure { IfErr result (IsStopFailure stop marked file.entry.now) }
{
    match stop {
        Stop::Ended(end) => Ok(Status::of_end(end)),
        Stop::KeepFailed(_) => Err(Failure::CannotWriteFile(file)),
        Stop::CutOff(Cut::LineFailed(fault)) if marked => Err(Failure::StartInDoubt(fault)),
        Stop::CutOff(Cut::LineFailed(fault)) => Err(Failure::LineFailed(fault)),
        Stop::CutOff(Cut::TurnsOver) => Ok(Status::NotLoaded),
    }
}

// The status where turns were over, or the failure that it is where a line failed.
fn after_cut(cut: Cut) -> Result<Status, Failure<'static>>
    ensures { result ≡ after_cut cut }
{
    match cut {
        Cut::LineFailed(fault) => Err(Failure::LineFailed(fault)),
        Cut::TurnsOver => Ok(Status::NotLoaded),
    }
}

/// The status after a `verify` that ended so, or the failure that it is where its line failed.
pub(crate) fn after_verify(end: VerifyEnd) -> Result<Status, Failure<'static>>
    ensures { result ≡ after_verify end }
{
    match end {
        VerifyEnd::Same => Ok(Status::Done),
        VerifyEnd::Differs => Ok(Status::Differs),
        VerifyEnd::Changed | VerifyEnd::NoWord(_) | VerifyEnd::GaveUp => Ok(Status::NotLoaded),
        VerifyEnd::CutOff(cut) => after_cut(cut),
    }
}

/// The status after a `save` to a file of this name that ended so, or the failure that it is where its line failed, or
/// memory does not hold what was left beside the file.
pub(crate) fn after_save(end: SaveEnd, file: &str) -> Result<Status, Failure<'_>>
    ensures status { IfOk result (IsSaveEndStatus end) }
    ensures failure { IfErr result (IsSaveEndFailure end file.entry.now) }
{
    match end {
        SaveEnd::Saved => Ok(Status::Done),
        SaveEnd::Changed => Ok(Status::NotLoaded),
        SaveEnd::NoWord(_) | SaveEnd::GaveUp => Ok(Status::NotLoaded),
        SaveEnd::CutOff(cut) => after_cut(cut),
        SaveEnd::Stale(_) => Err(Failure::PartStale(file)),
    }
}

/// The status after a `probe` that ended so, or the failure that it is where its line failed.
pub(crate) fn after_probe(end: ProbeEnd) -> Result<Status, Failure<'static>>
    ensures { result ≡ after_probe end }
{
    match end {
        ProbeEnd::Probed => Ok(Status::Done),
        ProbeEnd::NotTrusted | ProbeEnd::NoPrompt | ProbeEnd::GaveUp | ProbeEnd::NoWord(_) => Ok(
            Status::NotLoaded,
        ),
        ProbeEnd::CutOff(cut) => after_cut(cut),
    }
}

/// The status after a test of memory that came to this, or the failure that it is where its line failed.
pub(crate) fn after_test(tested: MemoryEnd) -> Result<Status, Failure<'static>>
    ensures { result ≡ after_test tested }
{
    match tested.end {
        TestEnd::Tested if tested.good => Ok(Status::Done),
        TestEnd::Tested => Ok(Status::Differs),
        TestEnd::NotTrusted | TestEnd::NoWord(_) | TestEnd::GaveUp => Ok(Status::NotLoaded),
        TestEnd::CutOff(cut) => after_cut(cut),
    }
}
