//! The stubs of a load.
ghost use Rattle.std.specs.Prelude.{◌≡◌, ◌<◌, ◌≤◌, ◌^◌, length, Some};
ghost use Rattle.host_devices.specs.Devices.{devices_of};
ghost use Rattle.engine.specs.Keeping.{progress_calls};
ghost use Rattle.host_devices.specs.Failures.{fault_of};
ghost use Rattle.stub_engine.specs.Brought.{AreAllStubs, IsNextStub, stubs_give};
ghost use Rattle.stub_engine.specs.Keeping.{IsKeptBy};
ghost use Rattle.stub_engine.specs.Parts.{bringing, most_in_vain, why_left, why_unstarted};
ghost use Rattle.stub_engine.specs.Tallies.{begun};

use crate::bringing::bring;
use crate::exchanging::{ExchangeStop, exchange};
use crate::planning::{PlannedStub, planned_stub};
use crate::stop::{Stop, StubsEnd};
use crate::tally::Tally;
use crate::typist::Typist;
use host_core::End;
use host_devices::{Keep, Line, MOST_TURNS, Onlooker};
use load_engine::Stop as LoadStop;
use std::alloc::Global;
use tape_image::Plan;

// So many stubs in a row that verify nothing are enough.
const MOST_IN_VAIN: u32 = 3;

/// Brings in stub after stub behind the plan's first `verified` words, and exchanges with each, until a
/// stop. How far that came is in the tally.
///
/// A stub is planned for the words that are not verified; the typist types and starts it,
/// of which nothing is kept, and the onlooker is told only that it begins; and in the exchange with it the
/// words that become verified are kept, and the onlooker is told of each step. Behind a stub that verified
/// nothing the exchange goes one way at a time. The first failure of a device stops it all, and so does a
/// stub that did not start.
pub fn bring_in<L: Line, K: Keep, O: Onlooker>(
    alloc: Global,
    plan: &Plan,
    verified: u32,
    typist: Typist,
    line: &mut L,
    keep: &mut K,
    onlooker: &O,
) -> (Tally, Stop)
    requires within { verified ≤ length plan.now.words }
    ensures brought { AreAllStubs (bringing plan.now typist (begun verified, result.0) (Some result.1))
        (devices_of L.Line K.Keep line.old keep.old) (devices_of L.Line K.Keep line.new keep.new) }
    ensures kept { IsKeptBy (progress_calls K.Keep) (stubs_give (bringing plan.now typist (begun verified, result.0) (Some result.1))) keep.old keep.new }
{
    let mut tally = Tally::begun(verified);
    while tally.in_vain < MOST_IN_VAIN {
        if let Err(stop) = part(alloc, plan, typist, &mut tally, line, keep, onlooker) {
            return (tally, stop);
        }
    }
    (tally, Stop::Ended(StubsEnd::InVain))
}

// One stub's part: it is planned, brought in, and exchanged with.
fn part<L: Line, K: Keep, O: Onlooker>(
    alloc: Global,
    plan: &Plan,
    typist: Typist,
    tally: &mut Tally,
    line: &mut L,
    keep: &mut K,
    onlooker: &O,
) -> Result<(), Stop>
    requires within { tally.old.verified ≤ length plan.now.words }
    requires worth { tally.old.in_vain < most_in_vain }
    requires sent_fits { tally.old.sent ≤ 2 ^ 60 }
    requires spent_fits { tally.old.spent ≤ 2 ^ 60 }
    ensures brought { IsNextStub (bringing plan.now typist (tally.old, tally.new) (fault_of result))
        (devices_of L.Line K.Keep line.old keep.old) (devices_of L.Line K.Keep line.new keep.new) }
    ensures kept { IsKeptBy (progress_calls K.Keep) (stubs_give (bringing plan.now typist (tally.old, tally.new) (fault_of result))) keep.old keep.new }
{
    let planned = match planned_stub(alloc, plan, tally.verified) {
        Ok(planned) => planned,
        Err(end) => return Err(Stop::Ended(end)),
    };
    let PlannedStub { plan: stub, chunks } = planned;
    onlooker.stub_begins();
    let (core, stop) = bring(stub, typist, line);
    let brought = tally.with_counts(core.sent_count(), core.spent());
    if let Some(stop) = why_unstarted(stop) {
        *tally = brought.with_words(tally.verified);
        return Err(stop);
    }
    let (state, stop) = exchange(
        plan,
        &chunks,
        tally.verified,
        tally.duplex(),
        line,
        keep,
        MOST_TURNS,
        onlooker,
    );
    *tally = brought
        .with_counts(u64::from(state.sent), 0)
        .with_words(state.verified);
    left_by(stop)
}

// Why no exchange follows where the host that was to bring in a stub stopped so.
fn why_unstarted(stop: LoadStop) -> Option<Stop>
    ensures { result ≡ why_unstarted stop }
{
    match stop {
        LoadStop::Ended(End::Started) => None,
        LoadStop::Ended(end) => Some(Stop::Ended(StubsEnd::NotStarted(end))),
        LoadStop::KeepFailed(fault) => Some(Stop::KeepFailed(fault)),
        LoadStop::CutOff(cut) => Some(Stop::CutOff(cut)),
    }
}

// Whether another stub may follow where an exchange stopped so, or why none does.
fn left_by(stop: ExchangeStop) -> Result<(), Stop>
    ensures { fault_of result ≡ why_left stop }
{
    match stop {
        ExchangeStop::Ended(_) => Ok(()),
        ExchangeStop::KeepFailed(fault) => Err(Stop::KeepFailed(fault)),
        ExchangeStop::CutOff(cut) => Err(Stop::CutOff(cut)),
    }
}
