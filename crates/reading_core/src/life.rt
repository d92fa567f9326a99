ghost use Rattle.std.specs.Prelude.{◌≡◌, ◌+◌, ◌^◌, ◌<◌, ◌==◌, Some, None};
ghost use Rattle.host_core.specs.Console.{carriage_return};
ghost use Rattle.reading_core.specs.Foreign.{count_after};
ghost use Rattle.reading_core.specs.Reader.{first_phase};
ghost use Rattle.reading_core.specs.declared.phase.Phase.TheVariants.{Close};

use crate::phase::{End, Phase};
use host_core::console::CARRIAGE_RETURN;

/// What changes from step to step in one life of the host, beside the numbers that were read.
#[derive(Clone, Copy)]
pub(crate) struct LifeState {
    pub(crate) spent: u32,

    /// The characters of all lives that no loss explains.
    pub(crate) foreign: u32,
    pub(crate) sent: u64,

    /// What an earlier look at the word under way read.
    pub(crate) earlier: Option<u16>,
    pub(crate) phase: Phase,
}

/// A life after a step, and the character that the step sends.
#[derive(Clone, Copy)]
pub(crate) struct ReaderStep {
    pub(crate) life: LifeState,
    pub(crate) key: Option<u8>,
}

impl LifeState {
    /// The beginning of a life: with every word read nothing is left to do.
    pub(crate) fn begun(addresses: usize, read: usize) -> LifeState
        ensures { result ≡ record { spent = 0; foreign = 0; sent = 0; earlier = None; phase = first_phase addresses read } }
    {
        let phase = if read == addresses {
            Phase::Ended(End::Complete)
        } else {
            Phase::Settle
        };
        LifeState {
            spent: 0,
            foreign: 0,
            sent: 0,
            earlier: None,
            phase,
        }
    }

    /// What was heard is counted where no loss explains it. The count stays at its largest.
    pub(crate) fn counting(self, is_foreign: bool) -> LifeState
        ensures { result ≡ record self { foreign = count_after self.foreign is_foreign } }
    {
        if is_foreign && self.foreign < u32::MAX {
            LifeState {
                foreign: self.foreign + 1,
                ..self
            }
        } else {
            self
        }
    }

    /// One mishap more: a word that is under way begins anew.
    pub(crate) fn with_mishap(self) -> LifeState
        requires { self.spent + 1 < 2 ^ 32 }
        ensures { result ≡ record self { spent = self.spent + 1; earlier = None } }
    {
        LifeState {
            spent: self.spent + 1,
            earlier: None,
            ..self
        }
    }

    /// Closes the word as it was: another look at it follows behind one that read this, else the next word.
    pub(crate) fn closes(self, earlier: Option<u16>) -> ReaderStep
        requires { self.sent + 1 < 2 ^ 64 }
        ensures { result ≡ record { life = record self { sent = self.sent + 1; earlier = earlier; phase = Close 0 }; key = Some carriage_return } }
    {
        let life = LifeState { earlier, ..self };
        life.sends(CARRIAGE_RETURN, Phase::Close(0))
    }

    /// Goes on in this phase, nothing is sent.
    pub(crate) fn listens(self, phase: Phase) -> ReaderStep
        ensures { result ≡ record { life = record self { phase = phase }; key = None } }
    {
        ReaderStep {
            life: LifeState { phase, ..self },
            key: None,
        }
    }

    /// Sends the character and goes on in this phase.
    pub(crate) fn sends(self, key: u8, phase: Phase) -> ReaderStep
        requires { self.sent + 1 < 2 ^ 64 }
        ensures { result ≡ record { life = record self { sent = self.sent + 1; phase = phase }; key = Some key } }
    {
        ReaderStep {
            life: LifeState {
                sent: self.sent + 1,
                phase,
                ..self
            },
            key: Some(key),
        }
    }
}
