//! A life as it begins.
ghost use Rattle.std.specs.Prelude.{◌≡◌, ◌≤◌, ◌||◌, length, None, IfSome};
ghost use Rattle.host_core.specs.Core.{begun_by, ended};
ghost use Rattle.host_core.specs.Opening.{refusal_of};
ghost use Rattle.machine_load.specs.Looks.{behind_looks, care_of};
ghost use Rattle.machine_load.specs.Parts.{typist_for};
ghost use Rattle.machine_load.specs.Stubs.{host_behind};

use crate::looks::Looks;
use crate::stubs::Stubs;
use host_core::{End, HostCore, Progress};
use reading_core::Care;
use sample_looks::Finding;
use std::marker::Model;
use stub_engine::Typist;
use tape_image::Plan;

/// A life as its record opens it, or as it goes on behind its looks and its stubs. Its host is made when it is its
/// turn. Contracts see the host that nothing came before.
#[derive(Drop)]
pub(crate) struct FirstLife {
    plan: Plan,
    progress: Progress,
    patience: u32,
    careful: bool,
}

impl Model for FirstLife {
    ghost use Rattle.std.specs.Prelude.{◌≡◌, None};
    ghost use Rattle.std.specs.Coded.{codes};
    ghost use Rattle.tape_image.specs.Plan.{plan_code};
    ghost use Rattle.host_core.specs.Core.{Core, begun_by};
    ghost use Rattle.host_core.specs.Opening.{refusal_of};

    ghost Value = { Core };

    ghost coded = { Prim.hlevel (codes, plan_code) };

    ghost view = { λ life. begun_by life.careful life.plan life.progress.verified life.progress.going life.patience };

    ghost invariant = { λ life. refusal_of life.plan life.progress.verified life.progress.going ≡ None };
}

impl FirstLife {
    /// A life of a careful host, or a plain one, that begins with a progress and survives so many mishaps.
    pub(crate) fn new(careful: bool, plan: Plan, progress: Progress, patience: u32) -> FirstLife
        requires { refusal_of plan progress.verified progress.going ≡ None }
        ensures { result ≡ begun_by careful plan progress.verified progress.going patience }
    {
        FirstLife {
            plan,
            progress,
            patience,
            careful,
        }
    }

    /// What is loaded.
    pub(crate) fn plan(&self) -> &Plan
        ensures { result.now ≡ self.now.plan }
    {
        &self.plan
    }

    /// How many words count as verified.
    pub(crate) fn verified(&self) -> u32
        ensures value { result ≡ self.now.verified }
        ensures within { result ≤ length self.now.plan.words }
    {
        self.progress.verified
    }

    /// The host that types its stubs: as careful and as patient as its own.
    pub(crate) fn typist(&self) -> Typist
        ensures { result ≡ typist_for self.now }
    {
        Typist {
            careful: self.careful,
            patience: self.patience,
        }
    }

    /// How many mishaps a host of it survives.
    pub(crate) fn patience(&self) -> u32
        ensures { result ≡ self.now.patience }
    {
        self.patience
    }

    /// How often it looks at a word.
    pub(crate) fn care(&self) -> Care
        ensures { result ≡ care_of self.now.careful }
    {
        if self.careful {
            Care::Twice
        } else {
            Care::Once
        }
    }

    /// Whether its first looks visit the tape's highest word, too: it is careful, or its load is fast.
    pub(crate) fn asks_for_highest(&self, fast: bool) -> bool
        ensures { result ≡ fast || self.now.careful }
    {
        fast || self.careful
    }

    /// The end of a life that is over before it begins: the start was typed before, or nothing is left to
    /// do.
    pub(crate) fn end(&self) -> Option<End>
        ensures { result ≡ ended self.now.phase }
    {
        let all = self.progress.verified as usize == self.plan.words().len();
        if self.progress.going {
            Some(End::MaybeStarted)
        } else if all && self.plan.start().is_none() {
            Some(End::Loaded)
        } else {
            None
        }
    }

    /// The life behind its looks: with the patience that they left, and where a word does not stand, with
    /// none that counts as verified.
    pub(crate) fn behind(self, looks: Looks) -> FirstLife
        requires paid { looks.spent ≤ self.patience }
        requires within { self.verified ≤ length self.plan.words }
        ensures { result ≡ behind_looks self looks }
    {
        let FirstLife {
            plan,
            progress,
            patience,
            careful,
        } = self;
        let verified = match looks.finding {
            Finding::Stale(_) => 0,
            _ => progress.verified,
        };
        let progress = Progress {
            verified,
            going: false,
        };
        FirstLife::new(careful, plan, progress, patience - looks.spent)
    }

    /// Its host, as one that nothing came before.
    pub(crate) fn host(self) -> HostCore
        ensures { result ≡ self }
    {
        let FirstLife {
            plan,
            progress,
            patience,
            careful,
        } = self;
        HostCore::with_care(careful, plan, progress, patience).unwrap()
    }

    /// The life behind its stubs, where it brings some in: with the words that they verified, and a patience of its own.
    pub(crate) fn behind_stubs(self, stubs: Option<Stubs>) -> FirstLife
        requires within { IfSome stubs (λ stubs. stubs.tally.verified ≤ length self.plan.words) }
        ensures { result ≡ host_behind self stubs }
    {
        let Some(stubs) = stubs else {
            return self;
        };
        let FirstLife {
            plan,
            patience,
            careful,
            ..
        } = self;
        let progress = Progress {
            verified: stubs.tally.verified,
            going: false,
        };
        FirstLife::new(careful, plan, progress, patience)
    }
}
