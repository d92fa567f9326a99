ghost use Rattle.std.specs.Prelude.{◌≡◌, ◌+◌, ◌^◌, ◌<◌};
ghost use Rattle.host_core.specs.declared.heard.Heard.TheVariants.{Got};
ghost use Rattle.host_core.specs.Core.{start_of, word_under_way};
ghost use Rattle.host_core.specs.Host.{IsHost, HasWord, basis_of};
ghost use Rattle.host_core.specs.Life.{core_of};
ghost use Rattle.host_core.specs.PhaseTable.{next_word, taken, turn_of};

use super::HostCore;
use crate::answers::{digit, reading_rest, reading_start, refusal_reply, return_reply};
use crate::console::{CARRIAGE_RETURN, GO};
use crate::heard::Heard;
use crate::life::LifeStep;
use crate::phase::{End, Phase, Reason, Visit};
use crate::table;
use crate::turn::Turn;
use tape_image::Word;

impl HostCore {
    /// The answer of the phase table.
    pub(super) fn turn(&self, heard: Heard) -> Turn
        ensures { result ≡ turn_of self.now heard }
    {
        match heard {
            Heard::Got(c) => self.hears(c),
            Heard::Quiet => table::quiet(self.careful, self.life.phase),
        }
    }

    /// The word under way.
    pub(super) fn word(&self) -> Word
        requires { HasWord (basis_of self.now) }
        ensures { result ≡ word_under_way self.now }
    {
        self.plan.words()[self.life.progress.verified as usize]
    }

    // The row of the phase table for a character.
    fn hears(&self, c: u8) -> Turn
        ensures { result ≡ turn_of self.now (Got c) }
    {
        let careful = self.careful;
        match self.life.phase {
            Phase::Settle => Turn::Listen(Phase::Settle),
            Phase::Sync(place) => {
                table::synced(refusal_reply(table::resynchronise(careful), place, c))
            }
            Phase::Address(visit, place) => table::address(self.word().address(), visit, place, c),
            Phase::Slash(visit) => table::slash(visit, c),
            Phase::Before(visit) => table::reads(careful, self.word(), visit, reading_start(c)),
            Phase::Value(visit, value, place) => {
                table::reads(careful, self.word(), visit, reading_rest(value, place, c))
            }
            Phase::Deposit(deposit, value, place) => table::deposit(deposit, value, place, c),
            Phase::Return(reason, place) => table::after_return(reason, return_reply(place, c)),
            Phase::Start(place) => table::start(self.start(), place, c),
            Phase::Go => table::go(c),
            Phase::Ended(end) => Turn::Listen(Phase::Ended(end)),
        }
    }

    /// The start address: phase Start has one.
    pub(super) fn start(&self) -> u16
        ensures { result ≡ start_of self.now }
    {
        self.plan.start().unwrap_or(0)
    }

    /// What the turn does to the life, and the character that it sends.
    pub(super) fn taken(&self, turn: Turn) -> LifeStep
        requires { IsHost (taken self.now turn).next }
        ensures next { core_of self.now.careful self.now.plan self.now.patience result.life ≡ (taken self.now turn).next }
        ensures key { result.key ≡ (taken self.now turn).key }
    {
        let life = self.life;
        match turn {
            Turn::Listen(phase) => life.listens(phase),
            Turn::Key(key, phase) => life.sends(key, phase),
            Turn::Verified => life
                .with_word()
                .sends(CARRIAGE_RETURN, Phase::Return(Reason::Close, 0)),
            Turn::Revisit(visit) => {
                life.sends(digit(self.word().address(), 1), Phase::Address(visit, 1))
            }
            Turn::Next => self.next_word(),
            Turn::Mark => life.with_mark().sends(GO, Phase::Go),
            Turn::Stop(end) => life.listens(Phase::Ended(end)),
            Turn::Stray if life.spent < self.patience => life.with_mishap().listens(Phase::Settle),
            Turn::Timeout if life.spent < self.patience => life
                .with_mishap()
                .sends(table::resynchronise(self.careful), Phase::Sync(0)),
            Turn::Stray | Turn::Timeout => life.listens(Phase::Ended(End::GaveUp)),
        }
    }

    // The next word, or the start, or nothing more.
    fn next_word(&self) -> LifeStep
        requires { self.now.sent + 1 < 2 ^ 64 }
        ensures next { core_of self.now.careful self.now.plan self.now.patience result.life ≡ (next_word self.now).next }
        ensures key { result.key ≡ (next_word self.now).key }
    {
        if (self.life.progress.verified as usize) < self.plan.words().len() {
            return self.life.sends(
                digit(self.word().address(), 1),
                Phase::Address(Visit::Look, 1),
            );
        }
        match self.plan.start() {
            Some(start) => self.life.sends(digit(start, 1), Phase::Start(1)),
            None => self.life.listens(Phase::Ended(End::Loaded)),
        }
    }
}
