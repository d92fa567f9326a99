ghost use Rattle.std.specs.Prelude.{◌≡◌, ◌<◌, ◌≤◌, ◌^◌};
ghost use Rattle.stub_engine.specs.Tallies.{begun, duplex_behind, with_counts, with_words};

use exchange_core::Duplex;

/// How far the stubs of a load have come.
#[derive(Clone, Copy)]
pub struct Tally {
    /// So many words from the beginning of the plan are verified.
    pub verified: u32,

    /// The characters sent: by the hosts that brought in the stubs, and in the exchanges.
    pub sent: u64,

    /// The mishaps that these hosts met.
    pub spent: u64,

    /// How many stubs in a row, the last ones, verified nothing.
    pub in_vain: u32,
}

impl Tally {
    /// Before the first stub, where so many words are verified.
    pub(crate) fn begun(verified: u32) -> Tally
        ensures { result ≡ begun verified }
    {
        Tally {
            verified,
            sent: 0,
            spent: 0,
            in_vain: 0,
        }
    }

    /// Whether the host sends while the next stub answers: not where the last one verified nothing.
    pub(crate) fn duplex(self) -> Duplex
        ensures { result ≡ duplex_behind self.in_vain }
    {
        if self.in_vain == 0 {
            Duplex::Full
        } else {
            Duplex::Half
        }
    }

    /// With characters and mishaps more.
    pub(crate) fn with_counts(self, sent: u64, spent: u32) -> Tally
        requires sent_fits { self.sent ≤ 2 ^ 62 }
        requires more_fits { sent ≤ 2 ^ 62 }
        requires spent_fits { self.spent ≤ 2 ^ 62 }
        ensures { result ≡ with_counts self sent spent }
    {
        Tally {
            sent: self.sent + sent,
            spent: self.spent + u64::from(spent),
            ..self
        }
    }

    /// With a stub behind which so many words are verified.
    pub(crate) fn with_words(self, verified: u32) -> Tally
        requires { self.in_vain < 2 ^ 31 }
        ensures { result ≡ with_words self verified }
    {
        let in_vain = if verified == self.verified {
            self.in_vain + 1
        } else {
            0
        };
        Tally {
            verified,
            in_vain,
            ..self
        }
    }
}
