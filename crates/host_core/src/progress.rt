ghost use Rattle.std.specs.Prelude.{◌≡◌};
ghost use Rattle.tape_image.specs.Plan.{IsPlan};
ghost use Rattle.host_core.specs.Opening.{refusal_of};

use tape_image::Plan;

/// How far a load has come.
#[derive(Clone, Copy)]
pub struct Progress {
    /// So many words from the beginning of the plan are verified.
    pub verified: u32,

    /// The mark: `G` was sent, or is about to be.
    pub going: bool,
}

/// Why a load can't go on from a progress.
#[derive(Clone, Copy)]
pub enum BadProgress {
    /// More words are verified than the plan has.
    TooMany,

    /// The mark is set with words missing, or with no start.
    EarlyMark,
}

impl Progress {
    /// What is wrong with this progress in a load of the plan, if anything.
    pub(crate) fn refusal(self, plan: &Plan) -> Option<BadProgress>
        ensures refusal { result ≡ refusal_of plan.now self.verified self.going }
        ensures plan { IsPlan plan.now }
    {
        let words = plan.words().len();
        let verified = self.verified as usize;
        if verified > words {
            Some(BadProgress::TooMany)
        } else if self.going && (verified < words || plan.start().is_none()) {
            Some(BadProgress::EarlyMark)
        } else {
            None
        }
    }
}
