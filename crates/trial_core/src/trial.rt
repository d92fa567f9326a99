ghost use Rattle.std.specs.Prelude.{◌≡◌, ◌+◌, ◌<◌, ◌^◌, Some, None};
ghost use Rattle.host_core.specs.declared.heard.Heard.TheVariants.{Got};
ghost use Rattle.reading_core.specs.Addresses.{IsAddress};
ghost use Rattle.trial_core.specs.Laws.{TypesOnlyTrying};
ghost use Rattle.trial_core.specs.Trial.{IsTrial, begun_trial, ended};
ghost use Rattle.trial_core.specs.TrialTable.{KeyTries, ask, listens, sends, taken, turn_of};

use crate::digits::digits_for;
use crate::habit::Seen;
use crate::letter::SMALL_LETTER;
use crate::phase::{End, Phase};
use crate::table::{self, LEFT_OUT_DIGITS};
use crate::turn::Turn;
use host_core::Heard;
use host_core::answers::{
    digit_echo, reading_rest, reading_start, refusal_reply, resynchronise_reply,
};
use host_core::console::RESYNCHRONISE;

/// A host that tries whether a console forgets digits: it says which character to type next.
///
/// It opens the word at its address, types three digits into it, and then `Z`; and at the prompt a small
/// letter.
#[derive(Clone, Copy)]
pub struct Trial {
    /// The word's address.
    pub address: u16,

    /// The number whose last three octal digits are typed into the open word.
    pub digits: u16,

    /// How many mishaps the host survives.
    pub patience: u32,

    /// The mishaps so far.
    pub spent: u32,

    /// What was seen of the console's style, and of small letters.
    pub seen: Seen,

    /// What the host waits for.
    pub phase: Phase,
}

/// A trial after a step, and the character that the step sends.
#[derive(Clone, Copy)]
pub struct TrialStep {
    /// The trial.
    pub next: Trial,

    /// The character, if any.
    pub key: Option<u8>,
}

impl Trial {
    /// A host that tries the word at an address, which holds `old`, and survives `patience` mishaps.
    pub fn new(address: u16, old: u16, patience: u32) -> Trial
        requires { IsAddress address }
        ensures begun { result ≡ begun_trial address old patience }
        ensures later { TypesOnlyTrying result }
        ensures kept { IsTrial result }
    {
        Trial {
            address,
            digits: digits_for(old),
            patience,
            spent: 0,
            seen: Seen::NOTHING,
            phase: Phase::Settle,
        }
    }

    /// How this life ended, if it did.
    pub fn end(self) -> Option<End>
        ensures { result ≡ ended self.phase }
    {
        match self.phase {
            Phase::Ended(end) => Some(end),
            _ => None,
        }
    }

    /// Hears one thing and answers the trial behind it, and the character to send now, if any: a step of
    /// the table. Whatever is heard, the character is a digit, `/`, `Z` or `a`.
    pub fn step(self, heard: Heard) -> TrialStep
        requires { IsTrial self }
        ensures asked { result.next ≡ (ask self heard).next }
        ensures key { result.key ≡ (ask self heard).key }
        ensures tries { KeyTries result.key }
        ensures kept { IsTrial result.next }
    {
        let turn = self.turn(heard);
        let seen = self.seen.after(self.phase, heard);
        Trial { seen, ..self }.taken(turn)
    }

    // The answer of the table.
    fn turn(self, heard: Heard) -> Turn
        requires { IsTrial self }
        ensures { result ≡ turn_of self heard }
    {
        match heard {
            Heard::Got(c) => self.hears(c),
            Heard::Quiet => table::quiet(self.phase),
        }
    }

    // The row of the table for a character.
    fn hears(self, c: u8) -> Turn
        requires { IsTrial self }
        ensures { result ≡ turn_of self (Got c) }
    {
        match self.phase {
            Phase::Settle => Turn::Listen(Phase::Settle),
            Phase::Sync(place) => table::synced(self.address, resynchronise_reply(place, c)),
            Phase::Address(place) => table::addressed(place, digit_echo(self.address, place, c)),
            Phase::Slash => table::slash(c),
            Phase::Before => table::reads(self.digits, reading_start(c)),
            // Which number the word holds was read before: here its digits are counted alone.
            Phase::Value(count) => table::reads(self.digits, reading_rest(0, count, c)),
            Phase::Typed(place) => {
                let place_in_number = place + LEFT_OUT_DIGITS;
                table::typed(place, digit_echo(self.digits, place_in_number, c))
            }
            Phase::Done(place) => table::finished(resynchronise_reply(place, c)),
            Phase::Letter => table::echoed(c),
            Phase::Refused(letters, place) => {
                table::refused(letters, refusal_reply(SMALL_LETTER, place, c))
            }
            Phase::Ended(end) => Turn::Listen(Phase::Ended(end)),
        }
    }

    // What the turn does to the trial, and the character that it sends.
    fn taken(self, turn: Turn) -> TrialStep
        requires { self.patience < 2 ^ 32 }
        ensures next { result.next ≡ (taken self turn).next }
        ensures key { result.key ≡ (taken self turn).key }
    {
        match turn {
            Turn::Listen(phase) => self.listens(phase),
            Turn::Key(key, phase) => self.sends(key, phase),
            Turn::Stop(end) => self.listens(Phase::Ended(end)),
            Turn::Stray if self.spent < self.patience => {
                self.with_mishap().listens(Phase::Settle)
            }
            Turn::Timeout if self.spent < self.patience => {
                self.with_mishap().sends(RESYNCHRONISE, Phase::Sync(0))
            }
            Turn::Stray | Turn::Timeout => self.listens(Phase::Ended(End::GaveUp)),
        }
    }

    // One mishap more.
    fn with_mishap(self) -> Trial
        requires { self.spent + 1 < 2 ^ 32 }
        ensures { result ≡ record self { spent = self.spent + 1 } }
    {
        Trial {
            spent: self.spent + 1,
            ..self
        }
    }

    // Goes on in this phase, nothing is sent.
    fn listens(self, phase: Phase) -> TrialStep
        ensures next { result.next ≡ (listens self phase).next }
        ensures key { result.key ≡ None }
    {
        TrialStep {
            next: Trial { phase, ..self },
            key: None,
        }
    }

    // Sends the character and goes on in this phase.
    fn sends(self, key: u8, phase: Phase) -> TrialStep
        ensures next { result.next ≡ (sends self key phase).next }
        ensures key { result.key ≡ Some key }
    {
        TrialStep {
            next: Trial { phase, ..self },
            key: Some(key),
        }
    }
}
