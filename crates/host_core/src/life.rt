ghost use Rattle.std.specs.Prelude.{◌≡◌, ℕ, ◌+◌, ◌^◌, ◌<◌, Bool, true, Some, None};
ghost use Rattle.host_core.specs.Core.{begun_by};
ghost use Rattle.host_core.specs.Life.{core_of};

use crate::phase::{End, Phase};
use crate::progress::Progress;
use tape_image::Plan;

/// One life of the host: what changes from step to step.
#[derive(Clone, Copy)]
pub(crate) struct LifeState {
    pub(crate) progress: Progress,
    pub(crate) spent: u32,
    pub(crate) sent: u64,
    pub(crate) phase: Phase,
}

/// A life after a step, and the character that the step sends.
#[derive(Clone, Copy)]
pub(crate) struct LifeStep {
    pub(crate) life: LifeState,
    pub(crate) key: Option<u8>,
}

impl LifeState {
    /// The beginning of a life: after the mark nothing is typed; with all words verified and no start nothing is left to do.
    pub(crate) fn begun(plan: &Plan, progress: Progress) -> LifeState
        ensures { (careful : Bool) (patience : ℕ) →
            core_of careful plan.now patience result ≡ begun_by careful plan.now progress.verified progress.going patience }
    {
        let phase = if progress.going {
            Phase::Ended(End::MaybeStarted)
        } else if progress.verified as usize == plan.words().len() && plan.start().is_none() {
            Phase::Ended(End::Loaded)
        } else {
            Phase::Settle
        };
        LifeState {
            progress,
            spent: 0,
            sent: 0,
            phase,
        }
    }

    /// One more word is verified.
    pub(crate) fn with_word(self) -> LifeState
        requires { self.progress.verified + 1 < 2 ^ 32 }
        ensures { result ≡ record self { progress = record { verified = self.progress.verified + 1; going = self.progress.going } } }
    {
        let verified = self.progress.verified + 1;
        LifeState {
            progress: Progress {
                verified,
                ..self.progress
            },
            ..self
        }
    }

    /// The mark is set.
    pub(crate) fn with_mark(self) -> LifeState
        ensures { result ≡ record self { progress = record { verified = self.progress.verified; going = true } } }
    {
        LifeState {
            progress: Progress {
                going: true,
                ..self.progress
            },
            ..self
        }
    }

    /// One mishap more.
    pub(crate) fn with_mishap(self) -> LifeState
        requires { self.spent + 1 < 2 ^ 32 }
        ensures { result ≡ record self { spent = self.spent + 1 } }
    {
        LifeState {
            spent: self.spent + 1,
            ..self
        }
    }

    /// Goes on in this phase, nothing is sent.
    pub(crate) fn listens(self, phase: Phase) -> LifeStep
        ensures { result ≡ record { life = record self { phase = phase }; key = None } }
    {
        LifeStep {
            life: LifeState { phase, ..self },
            key: None,
        }
    }

    /// Sends the character and goes on in this phase.
    pub(crate) fn sends(self, key: u8, phase: Phase) -> LifeStep
        requires { self.sent + 1 < 2 ^ 64 }
        ensures { result ≡ record { life = record self { sent = self.sent + 1; phase = phase }; key = Some key } }
    {
        LifeStep {
            life: LifeState {
                sent: self.sent + 1,
                phase,
                ..self
            },
            key: Some(key),
        }
    }
}
