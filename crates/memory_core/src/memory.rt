ghost use Rattle.std.specs.Prelude.{◌≡◌, ◌+◌, ◌^◌, ◌<◌, ◌≤◌, [], true, length, vec_capacity, IfOk, Some};
ghost use Rattle.host_core.specs.declared.heard.Heard.TheVariants.{Got};
ghost use Rattle.reading_core.specs.Addresses.{AreAddresses, IsRange};
ghost use Rattle.memory_core.specs.Addresses.{every_address};
ghost use Rattle.memory_core.specs.Bound.{testing_bound};
ghost use Rattle.memory_core.specs.Invariant.{IsTester, HasWord, basis_of};
ghost use Rattle.memory_core.specs.Laws.{KeepsBound, ReportsOnlyHeard, TypesOnlyTesting};
ghost use Rattle.memory_core.specs.MemoryTable.{KeyTests, ask, counts, next_word, seen_after, taken, turn_of};
ghost use Rattle.memory_core.specs.Tester.{address_under_way, begun, borrowed, ended, tester_of};

use crate::life::{LifeState, TesterStep};
use crate::phase::{End, Phase, Visit};
use crate::seen::Seen;
use crate::stage::{Borrowed, Stage};
use crate::table;
use crate::turn::Turn;
use host_core::Heard;
use host_core::answers::{
    digit, digit_echo, reading_rest, reading_start, resynchronise_reply, return_reply,
};
use host_core::console::{CARRIAGE_RETURN, RESYNCHRONISE};
use std::alloc::{AllocError, Global};
use std::marker::Model;

/// A host that tests the words at a list of addresses: it says which character to type next.
///
/// Contracts see a record of the addresses, what was read of the first of them, the patience, the mishaps spent, the
/// characters sent, what is known of the word under way, and the phase.
#[derive(Drop)]
pub struct MemoryCore {
    addresses: Vec<u16>,
    seen: Vec<Seen>,
    patience: u32,
    life: LifeState,
}

impl Model for MemoryCore {
    ghost use Rattle.std.specs.Prelude.{◌≤◌, length, vec_capacity};
    ghost use Rattle.memory_core.specs.Tester.{Tester, tester_of};
    ghost use Rattle.memory_core.specs.Invariant.{IsTester};

    ghost Value = { Tester };

    ghost view = { λ c. tester_of c.addresses.items c.seen.items c.patience c.life };

    ghost invariant = { λ c. IsTester (tester_of c.addresses.items c.seen.items c.patience c.life) × (length c.addresses.items ≤ vec_capacity c.seen) };
}

impl MemoryCore {
    /// A host that has tested nothing of these addresses, and survives `patience` mishaps. With no address it has ended
    /// already, as `Complete`. The room for what is read was made before: no memory is taken.
    pub fn in_room(addresses: Vec<u16>, room: Vec<Seen>, patience: u32) -> MemoryCore
        requires asked { AreAddresses addresses.items }
        requires empty { room.items ≡ [] }
        requires ample { length addresses.items ≤ vec_capacity room }
        ensures begun { result ≡ begun addresses.items patience }
        ensures types { TypesOnlyTesting result }
        ensures reports { ReportsOnlyHeard result }
        ensures kept { IsTester result }
    {
        let life = LifeState::begun(addresses.len());
        MemoryCore {
            addresses,
            seen: room,
            patience,
            life,
        }
    }

    /// A host that tests every so manieth word from the first address to the last, the first included. The one error is want
    /// of memory, for the addresses or what is read.
    pub fn of_range(
        alloc: Global,
        from: u16,
        to: u16,
        every: u16,
        patience: u32,
    ) -> Result<MemoryCore, AllocError>
        requires range { IsRange from to }
        requires some { 1 ≤ every }
        ensures begun { IfOk result (λ core. core ≡ begun (every_address from to every) patience) }
        ensures types { IfOk result TypesOnlyTesting }
        ensures reports { IfOk result ReportsOnlyHeard }
        ensures kept { IfOk result IsTester }
    {
        let step = 2 * u32::from(every);
        let count = u32::from(to - from) / step + 1;
        let mut addresses = Vec::with_capacity(alloc, count as usize)?;
        for number in 0..count {
            addresses.push((u32::from(from) + step * number) as u16)?;
        }
        let room = Vec::with_capacity(alloc, addresses.len())?;
        Ok(MemoryCore::in_room(addresses, room, patience))
    }

    /// The addresses to be tested, rising.
    pub fn addresses(&self) -> &[u16]
        ensures value { result.now ≡ self.now.addresses }
        ensures kept { IsTester self.now }
    {
        &self.addresses
    }

    /// What was read so far, of the word at the address of its place each.
    pub fn seen(&self) -> &[Seen]
        ensures value { result.now ≡ self.now.seen }
        ensures kept { IsTester self.now }
    {
        &self.seen
    }

    /// The word under way and what it held, where it may hold another number by now. Every other word is as it was before.
    pub fn borrowed(&self) -> Option<Borrowed>
        ensures value { result ≡ borrowed self.now }
        ensures kept { IsTester self.now }
    {
        let old = self.life.stage.old()?;
        Some(Borrowed {
            address: self.address(),
            old,
        })
    }

    /// The mishaps of this life so far.
    pub fn spent(&self) -> u32
        ensures value { result ≡ self.now.spent }
        ensures kept { IsTester self.now }
    {
        self.life.spent
    }

    /// The characters sent in this life so far, also the first `Z`. Whatever is heard, they never pass the testing bound.
    pub fn sent_count(&self) -> u64
        ensures value { result ≡ self.now.sent }
        ensures bound { result ≤ testing_bound (length self.now.addresses) self.now.patience }
        ensures later { KeepsBound self.now }
        ensures kept { IsTester self.now }
    {
        self.life.sent
    }

    /// How this life ended, if it did.
    pub fn end(&self) -> Option<End>
        ensures value { result ≡ ended self.now.phase }
        ensures kept { IsTester self.now }
    {
        match self.life.phase {
            Phase::Ended(end) => Some(end),
            _ => None,
        }
    }

    /// Hears one thing and answers the character to send now, if any: a step of the table. Whatever is heard, the
    /// character is a digit, `/`, CR or `Z`.
    pub fn step(&mut self, heard: Heard) -> Option<u8>
        ensures next { self.new ≡ (ask self.old heard).next }
        ensures key { result ≡ (ask self.old heard).key }
        ensures tests { KeyTests result }
        ensures kept { IsTester self.new }
        ensures same_addresses { self.new.addresses ≡ self.old.addresses }
        ensures same_patience { self.new.patience ≡ self.old.patience }
        ensures bound { self.new.sent ≤ testing_bound (length self.new.addresses) self.new.patience }
    {
        let turn = self.turn(heard);
        let TesterStep { life, key } = self.taken(turn);
        note(&mut self.seen, turn);
        self.life = life;
        key
    }

    // The answer of the table.
    fn turn(&self, heard: Heard) -> Turn
        ensures { result ≡ turn_of self.now heard }
    {
        match heard {
            Heard::Got(c) => self.hears(c),
            Heard::Quiet => table::quiet(self.life.phase),
        }
    }

    // The row of the table for a character.
    fn hears(&self, c: u8) -> Turn
        ensures { result ≡ turn_of self.now (Got c) }
    {
        let stage = self.life.stage;
        match self.life.phase {
            Phase::Settle => Turn::Listen(Phase::Settle),
            Phase::Sync(place) => table::synced(resynchronise_reply(place, c)),
            Phase::Address(visit, place) => {
                table::addressed(visit, place, digit_echo(self.address(), place, c))
            }
            Phase::Slash(visit) => table::slash(visit, c),
            Phase::Before(visit) => table::reads(self.address(), stage, visit, reading_start(c)),
            Phase::Value(visit, value, place) => table::reads(
                self.address(),
                stage,
                visit,
                reading_rest(value, place, c),
            ),
            Phase::Deposit(place) => {
                table::deposited(place, digit_echo(stage.number(), place, c))
            }
            Phase::Return(place) => table::returned(return_reply(place, c)),
            Phase::Close(place) => table::closed(return_reply(place, c)),
            Phase::Ended(end) => Turn::Listen(Phase::Ended(end)),
        }
    }

    // The address under way.
    fn address(&self) -> u16
        requires { HasWord (basis_of self.now) }
        ensures { result ≡ address_under_way self.now }
    {
        self.addresses[self.seen.len()]
    }

    // What the turn does to the life, and the character that it sends.
    fn taken(&self, turn: Turn) -> TesterStep
        requires { IsTester (taken self.now turn).next }
        ensures next { tester_of self.now.addresses (seen_after self.now.seen turn) self.now.patience result.life ≡ (taken self.now turn).next }
        ensures key { result.key ≡ (taken self.now turn).key }
    {
        let life = self.life;
        match turn {
            Turn::Listen(phase) => life.listens(phase),
            Turn::Key(key, phase) => life.sends(key, phase),
            Turn::LooksAgain(first) => life
                .with_stage(Stage::Once(first))
                .sends(CARRIAGE_RETURN, Phase::Close(0)),
            Turn::Deposits(stage) => life
                .with_stage(stage)
                .sends(digit(stage.number(), 1), Phase::Deposit(1)),
            Turn::Counts(_) => life
                .with_stage(Stage::Unseen)
                .sends(CARRIAGE_RETURN, Phase::Close(0)),
            Turn::ReadBack => life.sends(digit(self.address(), 1), Phase::Address(Visit::Check, 1)),
            Turn::Next => self.next_word(),
            Turn::Stop(end) => life.listens(Phase::Ended(end)),
            Turn::Stray if life.spent < self.patience => life.with_mishap().listens(Phase::Settle),
            Turn::Timeout if life.spent < self.patience => life
                .with_mishap()
                .sends(RESYNCHRONISE, Phase::Sync(0)),
            Turn::Stray | Turn::Timeout => life.listens(Phase::Ended(End::GaveUp)),
        }
    }

    // The word under way, or nothing more.
    fn next_word(&self) -> TesterStep
        requires { self.now.sent + 1 < 2 ^ 64 }
        ensures next { tester_of self.now.addresses self.now.seen self.now.patience result.life ≡ (next_word self.now).next }
        ensures key { result.key ≡ (next_word self.now).key }
    {
        if self.seen.len() < self.addresses.len() {
            self.life
                .sends(digit(self.address(), 1), Phase::Address(Visit::Look, 1))
        } else {
            self.life.listens(Phase::Ended(End::Complete))
        }
    }
}

// Notes what a turn read of a word that counts with it: there is room for it.
fn note(seen: &mut Vec<Seen>, turn: Turn)
    requires { counts turn ≡ true → length seen.old.items < vec_capacity seen.old }
    ensures items { seen.new.items ≡ seen_after seen.old.items turn }
    ensures room { vec_capacity seen.old ≤ vec_capacity seen.new }
{
    if let Turn::Counts(word) = turn {
        let _ = seen.push(word);
    }
}
