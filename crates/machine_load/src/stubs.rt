//! The stubs of a load.
ghost use Rattle.std.specs.Prelude.{◌≡◌, is_some};
ghost use Rattle.host_core.specs.Core.{ended};
ghost use Rattle.host_devices.specs.Devices.{devices_of};
ghost use Rattle.engine.specs.Keeping.{progress_calls};
ghost use Rattle.machine_load.specs.Parts.{AreBrought, AreKept, stubs_of};
ghost use Rattle.machine_load.specs.Stubs.{hindrance, looks_again};

use crate::first_life::FirstLife;
use host_core::End;
use host_devices::{Keep, Line, Onlooker};
use load_engine::Stop;
use std::alloc::Global;
use stub_engine::{Stop as StubStop, StubsEnd, Tally, bring_in};

/// How far the stubs of a load came, and why no more were brought in.
#[derive(Clone, Copy)]
pub struct Stubs {
    /// How far they came.
    pub tally: Tally,

    /// Why no more were brought in.
    pub stop: StubStop,
}

/// Brings in the stubs of a life, where they are asked for.
pub(crate) fn bring_stubs<L: Line, K: Keep, O: Onlooker>(
    alloc: Global,
    first: &FirstLife,
    fast: bool,
    line: &mut L,
    keeper: &mut K,
    onlooker: &O,
) -> Option<Stubs>
    ensures asked { is_some result ≡ fast }
    ensures brought { AreBrought (stubs_of first.now result) (devices_of L.Line K.Keep line.old keeper.old) (devices_of L.Line K.Keep line.new keeper.new) }
    ensures kept { AreKept (progress_calls K.Keep) (stubs_of first.now result) keeper.old keeper.new }
{
    if !fast {
        return None;
    }
    let (tally, stop) = bring_in(
        alloc,
        first.plan(),
        first.verified(),
        first.typist(),
        line,
        keeper,
        onlooker,
    );
    Some(Stubs { tally, stop })
}

/// Why a load stops with its stubs, where no host follows them: a device failed, turns were over, or the machine lacks a
/// word that one was to be typed into. The tape has that word, too.
pub(crate) fn hindrance(stubs: Option<Stubs>) -> Option<Stop>
    ensures { result ≡ hindrance stubs }
{
    match stubs?.stop {
        StubStop::Ended(StubsEnd::NotStarted(End::NoWord(address))) => {
            Some(Stop::Ended(End::NoWord(address)))
        }
        StubStop::Ended(_) => None,
        StubStop::KeepFailed(fault) => Some(Stop::KeepFailed(fault)),
        StubStop::CutOff(cut) => Some(Stop::CutOff(cut)),
    }
}

/// Whether words are looked at again behind the stubs of a load: where the last of them verified nothing, it may have been
/// started and have written anywhere, and where they do not hinder the host.
pub(crate) fn looks_again(stubs: Option<Stubs>) -> bool
    ensures { result ≡ looks_again stubs }
{
    match stubs {
        Some(it) => hindrance(stubs).is_none() && it.tally.in_vain > 0,
        None => false,
    }
}
