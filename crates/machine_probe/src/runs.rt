//! The runs of a probe, one after another over one line.
ghost use Rattle.std.specs.Prelude.{◌≡◌, true, None, IfOk, OnErr};
ghost use Rattle.reading_core.specs.Addresses.{IsAddress};
ghost use Rattle.reading_core.specs.Invariant.{IsReader};
ghost use Rattle.host_devices.specs.Devices.{line_told};
ghost use Rattle.host_devices.specs.Told.{SaysNothing};
ghost use Rattle.looking_law.specs.Again.{looker};
ghost use Rattle.probe_report.specs.Judging.{verdict_of};
ghost use Rattle.machine_probe.specs.Came.{trial_findings_of, extent_of, first_of, sighting_of, trial_end_of};
ghost use Rattle.machine_probe.specs.Follow.{IsBrokenOff, IsProbe, IsTriedOut, IsUntried, CountedWhere, MadeWhere, forgets, goes_on, has_line, is_number, number_in, stores};
ghost use Rattle.machine_probe.specs.Left.{AreLeftBy, LeavesDeposit, LeavesLook, LeavesSearch, LeavesTrial, LeftBy};
ghost use Rattle.machine_probe.specs.PuttingBack.{PutsBack};
ghost use Rattle.request_values.specs.Change.{◌⇒◌};
ghost use Rattle.machine_probe.specs.Rooms.{AreLookers, HasDeposit};
ghost use Rattle.machine_probe.specs.Runs.{LooksAt, IsSearch, IsTrialOf, OnLine};

use crate::memory_end::find_end;
use crate::probe_options::ProbeOptions;
use crate::putting_back::{Deposit, put_back};
use crate::search::Search;
use engine::Cut;
use host_devices::{Line, Onlooker, Unwatched};
use looking_engine::{conduct, inquire};
use probe_report::{Changes, Extent, Findings, Sighting, TrialEnd, TrialFindings, Verdict, judge};
use reading_core::{End, ReadingCore};
use std::alloc::{AllocError, Global};
use trial_core::{End as LastOfTrial, Trial};

/// The hosts of the two looks.
#[derive(Drop)]
pub(crate) struct Lookers {
    pub(crate) first: ReadingCore,
    pub(crate) second: ReadingCore,
}

impl Lookers {
    /// Two hosts that look at the word. The one error is want of memory.
    pub(crate) fn new(alloc: Global, options: ProbeOptions) -> Result<Lookers, AllocError>
        requires { IsAddress options.address }
        ensures { IfOk result (AreLookers options) }
    {
        Ok(Lookers {
            first: looker(alloc, options)?,
            second: looker(alloc, options)?,
        })
    }
}

// A host that looks at the word.
fn looker(alloc: Global, options: ProbeOptions) -> Result<ReadingCore, AllocError>
    requires { IsAddress options.address }
    ensures begun { IfOk result (λ core. core ≡ looker options.address options.patience) }
    ensures kept { IfOk result IsReader }
{
    ReadingCore::of_range(alloc, options.address, options.address, options.patience)
}

/// Makes the runs of a probe: it tries the console, and searches the end of memory where that forgets.
///
/// The one error is want of memory, before a digit was typed or behind a second look that read the same
/// number.
pub(crate) fn make_runs<L: Line, O: Onlooker>(
    alloc: Global,
    lookers: Lookers,
    options: ProbeOptions,
    line: &mut L,
    onlooker: &O,
) -> Result<Findings, AllocError>
    requires address { IsAddress options.address }
    requires lookers { AreLookers options lookers }
    ensures made { IfOk result (λ found. OnLine (IsProbe options found) (L.told line.old) (L.told line.new)) }
    ensures left { IfOk result (λ found. AreLeftBy found (line_told L.Line line.old ⇒ line_told L.Line line.new)) }
    ensures wanting { OnErr result (OnLine (IsBrokenOff options) (L.told line.old) (L.told line.new)) }
{
    let found = try_out(alloc, lookers, options, line, onlooker)?;
    let (search, changed) = find_memory(alloc, judge(&found), options, line, onlooker)?;
    let changes = Changes {
        search: changed,
        ..found.changes
    };
    Ok(Findings {
        search,
        changes,
        ..found
    })
}

/// Tries whether a console forgets digits at an illegal key, as `probe` does before it searches the end of memory: a look
/// at the word, the trial of it, a second look, and where that read what the typed digits make the old number is put back.
///
/// The one error is want of memory, before a digit was typed. Nobody looks on.
pub fn try_console<L: Line>(
    alloc: Global,
    options: ProbeOptions,
    line: &mut L,
) -> Result<Findings, AllocError>
    requires address { IsAddress options.address }
    ensures made { IfOk result (λ found. OnLine (IsTriedOut options found) (L.told line.old) (L.told line.new)) }
    ensures wanting { OnErr result (OnLine (IsUntried options) (L.told line.old) (L.told line.new)) }
{
    let lookers = Lookers::new(alloc, options)?;
    try_out(alloc, lookers, options, line, &Unwatched)
}

// The same, where there are the hosts of the two looks.
fn try_out<L: Line, O: Onlooker>(
    alloc: Global,
    lookers: Lookers,
    options: ProbeOptions,
    line: &mut L,
    onlooker: &O,
) -> Result<Findings, AllocError>
    requires address { IsAddress options.address }
    requires lookers { AreLookers options lookers }
    ensures made { IfOk result (λ found. OnLine (IsTriedOut options found) (L.told line.old) (L.told line.new)) }
    ensures left { IfOk result (λ found. AreLeftBy (record found { search = None }) (line_told L.Line line.old ⇒ line_told L.Line line.new)) }
    ensures wanting { OnErr result (OnLine (IsUntried options) (L.told line.old) (L.told line.new)) }
    ensures broken_off { OnErr result (OnLine (IsBrokenOff options) (L.told line.old) (L.told line.new)) }
{
    let Lookers {
        first: first_core,
        second: second_core,
    } = lookers;
    let (first, changed) = look(first_core, options, line, onlooker);
    let deposit = deposit_for(alloc, first, options)?;
    let trial = try_word(first, options, line);
    let (second, changed_again) = look_again(trial, second_core, options, line, onlooker);
    let found = Findings {
        address: options.address,
        first,
        trial,
        second,
        put_back: None,
        search: None,
        changes: Changes {
            first: changed,
            second: changed_again,
            search: 0,
        },
    };
    let put_back = restore(&found, deposit, options, line);
    Ok(Findings { put_back, ..found })
}

// A look at the word, and how many characters came in it that no loss explains.
fn look<L: Line, O: Onlooker>(
    core: ReadingCore,
    options: ProbeOptions,
    line: &mut L,
    onlooker: &O,
) -> (Sighting, u32)
    requires { core ≡ looker options.address options.patience }
    ensures made { OnLine (LooksAt options result.1 result.0) (L.told line.old) (L.told line.new) }
    ensures left { LeavesLook result.0 (line_told L.Line line.old ⇒ line_told L.Line line.new) }
{
    let (core, stop) = inquire(core, line, options.turns(), onlooker);
    let sighting = sighting_of(stop, first_of(core.values()));
    (sighting, core.foreign_count())
}

// The first of the numbers.
fn first_of(numbers: &[u16]) -> Option<u16>
    ensures { result ≡ first_of numbers.now }
{
    match numbers {
        [number, ..] => Some(*number),
        [] => None,
    }
}

// What a look gave that stopped so and read this number.
fn sighting_of(stop: Result<End, Cut>, number: Option<u16>) -> Sighting
    ensures { result ≡ sighting_of stop number }
{
    match (stop, number) {
        (Ok(End::Complete), Some(number)) => Sighting::Number(number),
        (Ok(End::Complete), None) => Sighting::GaveUp,
        (Ok(End::GaveUp), _) => Sighting::GaveUp,
        (Ok(End::NoWord(_)), _) => Sighting::NoWord,
        (Err(cut), _) => Sighting::CutOff(cut),
    }
}

// What it takes to put the number back that the first look read, if it read one.
fn deposit_for(
    alloc: Global,
    first: Sighting,
    options: ProbeOptions,
) -> Result<Option<Deposit>, AllocError>
    requires { IsAddress options.address }
    ensures { IfOk result (HasDeposit options first) }
{
    match first {
        Sighting::Number(old) => {
            let deposit = Deposit::new(alloc, options, old)?;
            Ok(Some(deposit))
        }
        _ => Ok(None),
    }
}

// The trial, where the first look read the word.
fn try_word<L: Line>(first: Sighting, options: ProbeOptions, line: &mut L) -> Option<TrialFindings>
    requires { IsAddress options.address }
    ensures made { OnLine (MadeWhere (is_number first) (IsTrialOf options (number_in first)) result) (L.told line.old) (L.told line.new) }
    ensures left { LeftBy LeavesTrial result (line_told L.Line line.old ⇒ line_told L.Line line.new) }
{
    match first {
        Sighting::Number(old) => Some(try_number(old, options, line)),
        _ => None,
    }
}

// A trial of the word, which holds this number.
fn try_number<L: Line>(old: u16, options: ProbeOptions, line: &mut L) -> TrialFindings
    requires { IsAddress options.address }
    ensures made { OnLine (IsTrialOf options old result) (L.told line.old) (L.told line.new) }
    ensures left { LeavesTrial result (line_told L.Line line.old ⇒ line_told L.Line line.new) }
{
    let trial = Trial::new(options.address, old, options.patience);
    let (trial, stop) = conduct(trial, line, options.turns());
    trial_findings_of(trial, stop)
}

// What a trial gave that stopped so.
fn trial_findings_of(trial: Trial, stop: Result<LastOfTrial, Cut>) -> TrialFindings
    ensures { result ≡ trial_findings_of trial stop }
{
    TrialFindings {
        end: trial_end_of(stop),
        seen: trial.seen,
        had_mishap: trial.spent > 0,
    }
}

// How a trial ended that stopped so.
fn trial_end_of(stop: Result<LastOfTrial, Cut>) -> TrialEnd
    ensures { result ≡ trial_end_of stop }
{
    match stop {
        Ok(LastOfTrial::Tried) => TrialEnd::Tried,
        Ok(LastOfTrial::GaveUp) => TrialEnd::GaveUp,
        Ok(LastOfTrial::NoWord) => TrialEnd::NoWord,
        Err(cut) => TrialEnd::CutOff(cut),
    }
}

// The second look, behind every trial whose line goes on: digits may have been typed in each of them.
fn look_again<L: Line, O: Onlooker>(
    trial: Option<TrialFindings>,
    core: ReadingCore,
    options: ProbeOptions,
    line: &mut L,
    onlooker: &O,
) -> (Option<Sighting>, u32)
    requires { core ≡ looker options.address options.patience }
    ensures made { OnLine (CountedWhere (goes_on trial) (LooksAt options) result.1 result.0) (L.told line.old) (L.told line.new) }
    ensures left { LeftBy LeavesLook result.0 (line_told L.Line line.old ⇒ line_told L.Line line.new) }
{
    if !goes_on(trial) {
        return (None, 0);
    }
    let (sighting, changed) = look(core, options, line, onlooker);
    (Some(sighting), changed)
}

// Whether there was a trial, and the line goes on behind it.
fn goes_on(trial: Option<TrialFindings>) -> bool
    ensures { result ≡ goes_on trial }
{
    match trial {
        Some(found) => has_line(found.end),
        None => false,
    }
}

// Whether the line goes on behind a trial that ended so.
fn has_line(end: TrialEnd) -> bool
    ensures { result ≡ has_line end }
{
    match end {
        TrialEnd::CutOff(Cut::LineFailed(_)) => false,
        _ => true,
    }
}

// Puts the old number back, where the console stored the typed digits.
fn restore<L: Line>(
    found: &Findings,
    deposit: Option<Deposit>,
    options: ProbeOptions,
    line: &mut L,
) -> Option<bool>
    requires { HasDeposit options found.now.first deposit }
    ensures made { OnLine (MadeWhere (stores (verdict_of found.now)) (PutsBack options (number_in found.now.first)) result) (L.told line.old) (L.told line.new) }
    ensures left { LeftBy LeavesDeposit result (line_told L.Line line.old ⇒ line_told L.Line line.new) }
{
    match (judge(found), deposit) {
        (Verdict::Stores, Some(deposit)) => Some(put_back(deposit, options, line)),
        _ => None,
    }
}

// Searches the end of memory, where the console forgets, and counts the characters that came meanwhile and no loss explains.
fn find_memory<L: Line, O: Onlooker>(
    alloc: Global,
    verdict: Verdict,
    options: ProbeOptions,
    line: &mut L,
    onlooker: &O,
) -> Result<(Option<Extent>, u64), AllocError>
    ensures searched { IfOk result (λ s. OnLine (CountedWhere (forgets verdict) (IsSearch options) s.1 s.0) (L.told line.old) (L.told line.new)) }
    ensures left { IfOk result (λ s. LeftBy LeavesSearch s.0 (line_told L.Line line.old ⇒ line_told L.Line line.new)) }
    ensures wanting { OnErr result ((forgets verdict ≡ true) × SaysNothing (L.told line.old) (L.told line.new)) }
{
    match verdict {
        Verdict::Forgets => {
            let found = find_end(alloc, line, options.patience, options.turns(), onlooker)?;
            Ok((Some(extent_of(found.search)), found.changed))
        }
        _ => Ok((None, 0)),
    }
}

// What a search gave that came out so.
fn extent_of(search: Search) -> Extent
    ensures { result ≡ extent_of search }
{
    match search {
        Search::Ends(top) => Extent::Top(top),
        Search::Stopped(Ok(_)) => Extent::GaveUp,
        Search::Stopped(Err(cut)) => Extent::CutOff(cut),
    }
}
