ghost use Rattle.std.specs.Prelude.{◌≡◌};
ghost use Rattle.machine_load.specs.Outcome.{lived_at_once, outcome_of};

use crate::first_life::FirstLife;
use crate::load_end::LoadEnd;
use crate::looks::Looks;
use crate::outcome::Outcome;
use crate::stubs::Stubs;
use host_core::{End, HostCore};
use load_engine::Stop;

/// A life that is over: its host, how it ended, its looks, its stubs and its looks behind these, where there were some,
/// and the line that it had.
#[derive(Drop)]
pub(crate) struct Lived<L> {
    pub(crate) core: HostCore,
    pub(crate) end: LoadEnd,
    pub(crate) looks: Option<Looks>,
    pub(crate) stubs: Option<Stubs>,
    pub(crate) again: Option<Looks>,
    pub(crate) line: Option<L>,
}

impl<L> Lived<L> {
    /// One that is over before it has begun.
    pub(crate) fn at_once(first: FirstLife, end: End) -> Lived<L>
        ensures { result ≡ lived_at_once first end }
    {
        Lived {
            core: first.host(),
            end: LoadEnd::Driven(Stop::Ended(end)),
            looks: None,
            stubs: None,
            again: None,
            line: None,
        }
    }

    /// What the load gives back.
    pub(crate) fn outcome(self) -> Outcome<L>
        ensures { result ≡ outcome_of self }
    {
        let Lived {
            core,
            end,
            stubs,
            line,
            ..
        } = self;
        Outcome {
            end,
            marked: core.progress().going,
            stubs,
            line,
        }
    }
}
