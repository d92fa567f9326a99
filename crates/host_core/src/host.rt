ghost use Rattle.std.specs.Prelude.{◌≡◌, ◌≤◌, ◌⊎◌, ◌↔◌, true, false, length, IsTrue, IfOk, IfErr, OnOk, Some, None};
ghost use Rattle.host_core.specs.Bound.{character_bound, largest_bound};
ghost use Rattle.host_core.specs.Console.{go};
ghost use Rattle.host_core.specs.Core.{IsFresh, begins_attempt, begun, begun_by, ended, first_phase, restarted};
ghost use Rattle.host_core.specs.Foreign.{is_foreign};
ghost use Rattle.host_core.specs.Host.{IsHost};
ghost use Rattle.host_core.specs.Laws.{KeepsBound, IsSilent, StartsOnlyWhole, VerifiesOnlyRead};
ghost use Rattle.host_core.specs.Opening.{refusal_of};
ghost use Rattle.host_core.specs.PhaseTable.{move};
ghost use Rattle.host_core.specs.Steps.{IsVerifying, IsMarking};

mod foreign;
mod turns;

use crate::heard::Heard;
use crate::life::{LifeState, LifeStep};
use crate::phase::{End, Phase, Reason};
use crate::progress::{BadProgress, Progress};
use std::marker::Model;
use tape_image::Plan;

/// The patience of a host where nothing names one, in mishaps.
pub const PLAIN_PATIENCE: u32 = 8;

/// A host that loads one plan: it says which character to type next.
///
/// Each `new` and each `restart` begins a life. Contracts see a record of the care, the plan, the
/// progress, the patience, the mishaps spent, the characters sent and the phase.
#[derive(Drop)]
pub struct HostCore {
    careful: bool,
    plan: Plan,
    patience: u32,
    life: LifeState,
}

impl Model for HostCore {
    ghost use Rattle.std.specs.Coded.{codes};
    ghost use Rattle.tape_image.specs.Plan.{plan_code};
    ghost use Rattle.host_core.specs.Core.{Core};

    ghost Value = { Core };

    ghost coded = { Prim.hlevel (codes, plan_code) };

    ghost use Rattle.host_core.specs.Life.{core_of};
    ghost use Rattle.host_core.specs.Host.{IsHost};

    ghost view = { λ h. core_of h.careful h.plan h.patience h.life };

    ghost invariant = { λ h. IsHost (core_of h.careful h.plan h.patience h.life) };
}

impl HostCore {
    /// A host at the beginning of a life: it has verified what `progress` says, and survives
    /// `patience` mishaps.
    ///
    /// The plan comes back where the progress is refused: `TooMany` exactly where more words are
    /// verified than the plan has, else `EarlyMark` exactly where the mark is set and a word is not
    /// verified, or the plan has no start. A life that begins with the mark has ended already, as
    /// `MaybeStarted`; one with every word verified and no start as `Loaded`.
    pub fn new(
        plan: Plan,
        progress: Progress,
        patience: u32,
    ) -> Result<HostCore, (Plan, BadProgress)>
        ensures begun { IfOk result (λ core. core ≡ begun plan progress.verified progress.going patience) }
        ensures accepted { OnOk result (refusal_of plan progress.verified progress.going ≡ None) }
        ensures refused { IfErr result (λ err. refusal_of plan progress.verified progress.going ≡ Some err.1) }
        ensures given_back { IfErr result (λ err. err.0 ≡ plan) }
        ensures whole_start { IfOk result StartsOnlyWhole }
        ensures read_first { IfOk result VerifiesOnlyRead }
        ensures kept { IfOk result IsHost }
    {
        HostCore::with_care(false, plan, progress, patience)
    }

    /// The same of a host that is careful, or plain as that of `new`.
    ///
    /// A careful host can stand on a line that also changes characters. It looks twice at a word that seems to stand, and
    /// at every half word; it deposits a value twice before it ends with `WontHold`; it ends with `NoWord` only behind the
    /// whole refusal of an address; and it resynchronises by `U`, which no command is one changed bit away from.
    pub fn with_care(
        careful: bool,
        plan: Plan,
        progress: Progress,
        patience: u32,
    ) -> Result<HostCore, (Plan, BadProgress)>
        ensures begun { IfOk result (λ core. core ≡ begun_by careful plan progress.verified progress.going patience) }
        ensures accepted { OnOk result (refusal_of plan progress.verified progress.going ≡ None) }
        ensures refused { IfErr result (λ err. refusal_of plan progress.verified progress.going ≡ Some err.1) }
        ensures given_back { IfErr result (λ err. err.0 ≡ plan) }
        ensures whole_start { IfOk result StartsOnlyWhole }
        ensures read_first { IfOk result VerifiesOnlyRead }
        ensures kept { IfOk result IsHost }
    {
        if let Some(why) = progress.refusal(&plan) {
            return Err((plan, why));
        }
        let life = LifeState::begun(&plan, progress);
        Ok(HostCore {
            careful,
            plan,
            patience,
            life,
        })
    }

    /// Whether the host is careful.
    pub fn is_careful(&self) -> bool
        ensures value { result ≡ self.now.careful }
        ensures kept { IsHost self.now }
    {
        self.careful
    }

    /// Whether an attempt at a word has just begun: with the key that resynchronises, or with the CR
    /// that closes the word verified before.
    pub fn begins_attempt(&self) -> bool
        ensures value { result ≡ begins_attempt self.now.phase }
        ensures kept { IsHost self.now }
    {
        matches!(
            self.life.phase,
            Phase::Sync(_) | Phase::Return(Reason::Close, _)
        )
    }

    /// The plan that is loaded.
    pub fn plan(&self) -> &Plan
        ensures value { result.now ≡ self.now.plan }
        ensures kept { IsHost self.now }
    {
        &self.plan
    }

    /// How many words are verified, and the mark. Once the mark is set nothing is sent, whatever is
    /// heard.
    pub fn progress(&self) -> Progress
        ensures verified { result.verified ≡ self.now.verified }
        ensures going { result.going ≡ self.now.going }
        ensures silent { self.now.going ≡ true → IsSilent self.now }
        ensures kept { IsHost self.now }
    {
        self.life.progress
    }

    /// The mishaps of this life so far.
    pub fn spent(&self) -> u32
        ensures value { result ≡ self.now.spent }
        ensures kept { IsHost self.now }
    {
        self.life.spent
    }

    /// The characters sent in this life so far, also the key that resynchronises. Whatever is heard, they
    /// never pass the character bound, which for the largest plan and patience is 98,784,878,599, and
    /// 193,274,789,895 of a careful host.
    pub fn sent_count(&self) -> u64
        ensures value { result ≡ self.now.sent }
        ensures bound { result ≤ character_bound self.now.careful (length self.now.plan.words) self.now.patience }
        ensures later { KeepsBound self.now }
        ensures most { result ≤ largest_bound self.now.careful }
        ensures kept { IsHost self.now }
    {
        self.life.sent
    }

    /// How this life ended, if it did.
    pub fn end(&self) -> Option<End>
        ensures value { result ≡ ended self.now.phase }
        ensures kept { IsHost self.now }
    {
        match self.life.phase {
            Phase::Ended(end) => Some(end),
            _ => None,
        }
    }

    /// Whether this is what `with_care` makes for its plan and its patience, with nothing verified and no mark.
    pub fn is_fresh(&self) -> bool
        ensures fresh { IsTrue result ↔ IsFresh self.now }
        ensures kept { IsHost self.now }
    {
        let LifeState {
            progress,
            spent,
            sent,
            ..
        } = self.life;
        progress.verified == 0
            && !progress.going
            && spent == 0
            && sent == 0
            && self.is_at_first_phase()
    }

    // Whether the phase is the first of a life with nothing verified and no mark.
    fn is_at_first_phase(&self) -> bool
        ensures { IsTrue result ↔ (self.now.phase ≡ first_phase self.now.plan 0 false) }
    {
        let is_done = self.plan.words().is_empty() && self.plan.start().is_none();
        match self.life.phase {
            Phase::Settle => !is_done,
            Phase::Ended(End::Loaded) => is_done,
            _ => false,
        }
    }

    /// Whether no loss explains what is heard: the character is in no answer that is awaited here. Over a
    /// line that only loses characters none is ever heard (`honest_line`, `foreign_is_never_lost`).
    pub fn is_foreign(&self, heard: Heard) -> bool
        ensures { result ≡ is_foreign self.now heard }
    {
        match heard {
            Heard::Got(c) => !self.may_come(c),
            Heard::Quiet => false,
        }
    }

    /// Begins a new life, as after the host's computer was restarted: at most the first `kept` of the
    /// verified words still count, and the mark stays as it was.
    pub fn restart(&mut self, kept: u32)
        ensures begun { self.new ≡ restarted self.old kept }
        ensures whole_start { StartsOnlyWhole self.new }
        ensures read_first { VerifiesOnlyRead self.new }
        ensures kept { IsHost self.new }
    {
        let Progress { verified, going } = self.progress();
        let progress = Progress {
            verified: kept.min(verified),
            going,
        };
        self.life = LifeState::begun(&self.plan, progress);
    }

    /// Hears one thing and answers the character to send now, if any: a step of the phase table. It
    /// never refuses.
    pub fn step(&mut self, heard: Heard) -> Option<u8>
        ensures next { self.new ≡ (move self.old heard).next }
        ensures key { result ≡ (move self.old heard).key }
        ensures kept { IsHost self.new }
        ensures same_plan { self.new.plan ≡ self.old.plan }
        ensures same_patience { self.new.patience ≡ self.old.patience }
        ensures same_care { self.new.careful ≡ self.old.careful }
        ensures verified { (self.new.verified ≡ self.old.verified) ⊎ IsVerifying self.old self.new result }
        ensures start { result ≡ Some go → IsMarking self.old self.new result }
        ensures mark { (self.new.going ≡ self.old.going) ⊎ IsMarking self.old self.new result }
        ensures silent { self.old.going ≡ true → result ≡ None }
        ensures bound { self.new.sent ≤ character_bound self.new.careful (length self.new.plan.words) self.new.patience }
    {
        let turn = self.turn(heard);
        let LifeStep { life, key } = self.taken(turn);
        self.life = life;
        key
    }
}
