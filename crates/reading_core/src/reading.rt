ghost use Rattle.std.specs.Prelude.{◌≡◌, ◌+◌, ◌^◌, ◌<◌, ◌≤◌, [], true, length, vec_capacity, IfOk, Some};
ghost use Rattle.host_core.specs.declared.heard.Heard.TheVariants.{Got};
ghost use Rattle.reading_core.specs.Addresses.{AreAddresses, IsRange, addresses_between, addresses_of};
ghost use Rattle.reading_core.specs.Bound.{life_bound};
ghost use Rattle.reading_core.specs.Foreign.{is_foreign};
ghost use Rattle.reading_core.specs.Invariant.{IsReader, HasWord, basis_of};
ghost use Rattle.reading_core.specs.Laws.{KeepsBound};
ghost use Rattle.reading_core.specs.Reader.{address_under_way, begun, begun_in, ended, looks_twice, manner_of, reader_of, restarted};
ghost use Rattle.reading_core.specs.ReadingTable.{ask, counted, doubts, is_read, judged, next_word, questioned, reads, taken, target_of, turn_of, values_after};

mod foreign;

use crate::care::Care;
use crate::life::{LifeState, ReaderStep};
use crate::phase::{End, Phase};
use crate::table;
use crate::turn::Turn;
use host_core::answers::{
    Reading, digit, digit_echo, reading_rest, reading_start, resynchronise_reply, return_reply,
};
use host_core::console::RESYNCHRONISE;
use host_core::{Heard, Plan};
use std::alloc::{AllocError, Global};
use std::marker::Model;
use tape_image::{Word, merge};

/// A host that reads the words at a list of addresses and changes none: it says which character to
/// type next.
///
/// The constructors and each `restart` begin a life. Contracts see a record of the addresses, how
/// their words are read, the numbers read at the first of them, the patience, the mishaps spent, the
/// characters heard that no loss explains, those sent, an earlier look and the phase. Only the
/// constructors take memory.
#[derive(Drop)]
pub struct ReadingCore {
    addresses: Vec<u16>,
    care: Care,
    expected: Vec<Word>,
    values: Vec<u16>,
    patience: u32,
    life: LifeState,
}

impl Model for ReadingCore {
    ghost use Rattle.std.specs.Coded.{codes};
    ghost use Rattle.std.specs.Prelude.{◌≤◌, length, vec_capacity};
    ghost use Rattle.tape_image.specs.Word.{word_code};
    ghost use Rattle.reading_core.specs.Reader.{Reader, manner_of, reader_of};
    ghost use Rattle.reading_core.specs.Invariant.{IsReader};

    ghost Value = { Reader };

    ghost coded = { Prim.hlevel (codes, word_code) };

    ghost view = { λ c. reader_of c.addresses.items (manner_of c.care c.expected.items) c.values.items c.patience c.life };

    ghost invariant = { λ c. IsReader (reader_of c.addresses.items (manner_of c.care c.expected.items) c.values.items c.patience c.life)
        × (length c.addresses.items ≤ vec_capacity c.values) };
}

impl ReadingCore {
    // A host as `in_room` begins it. The one error is want of memory, for the numbers.
    fn new(alloc: Global, addresses: Vec<u16>, patience: u32) -> Result<ReadingCore, AllocError>
        requires { AreAddresses addresses.items }
        ensures begun { IfOk result (λ core. core ≡ begun addresses.items [] patience) }
        ensures kept { IfOk result IsReader }
    {
        let values = Vec::with_capacity(alloc, addresses.len())?;
        Ok(ReadingCore::in_room(addresses, values, patience))
    }

    /// A host that has read nothing of these addresses, and survives `patience` mishaps. With no
    /// address it has ended already, as `Complete`. The room for the numbers was made before: no
    /// memory is taken.
    pub fn in_room(addresses: Vec<u16>, room: Vec<u16>, patience: u32) -> ReadingCore
        requires asked { AreAddresses addresses.items }
        requires empty { room.items ≡ [] }
        requires ample { length addresses.items ≤ vec_capacity room }
        ensures begun { result ≡ begun addresses.items [] patience }
        ensures kept { IsReader result }
    {
        let expected = Vec::new(*room.allocator());
        let life = LifeState::begun(addresses.len(), 0);
        ReadingCore {
            addresses,
            care: Care::Once,
            expected,
            values: room,
            patience,
            life,
        }
    }

    /// The same host, that looks at each word so often. Nothing is expected of the words.
    pub fn with_care(self, care: Care) -> ReadingCore
        requires { self ≡ begun self.addresses [] self.patience }
        ensures begun { result ≡ begun_in (manner_of care []) self.addresses [] self.patience }
        ensures kept { IsReader result }
    {
        ReadingCore { care, ..self }
    }

    /// A host that reads the words from the first address to the last, both included. The one error
    /// is want of memory, for the addresses or the numbers.
    pub fn of_range(
        alloc: Global,
        from: u16,
        to: u16,
        patience: u32,
    ) -> Result<ReadingCore, AllocError>
        requires { IsRange from to }
        ensures begun { IfOk result (λ core. core ≡ begun (addresses_between from to) [] patience) }
        ensures kept { IfOk result IsReader }
    {
        let count = (to - from) / 2 + 1;
        let mut addresses = Vec::with_capacity(alloc, usize::from(count))?;
        for number in 0..count {
            addresses.push(from + 2 * number)?;
        }
        ReadingCore::new(alloc, addresses, patience)
    }

    /// A host that reads the words of the plan, whole ones, in the order of their addresses, looks at
    /// each so often, and expects what the plan says. The one error is want of memory, for the
    /// addresses, the words or the numbers.
    pub fn of_plan(
        alloc: Global,
        plan: &Plan,
        care: Care,
        patience: u32,
    ) -> Result<ReadingCore, AllocError>
        ensures begun { IfOk result (λ core. core ≡ begun_in (manner_of care plan.now.words) (addresses_of plan.now.words) [] patience) }
        ensures kept { IfOk result IsReader }
    {
        let words = plan.words();
        let mut addresses = Vec::with_capacity(alloc, words.len())?;
        let mut expected = Vec::with_capacity(alloc, words.len())?;
        for word in words {
            addresses.push(word.address())?;
            expected.push(*word)?;
        }
        let core = ReadingCore::new(alloc, addresses, patience)?;
        Ok(ReadingCore {
            care,
            expected,
            ..core
        })
    }

    /// The addresses to be read, rising.
    pub fn addresses(&self) -> &[u16]
        ensures value { result.now ≡ self.now.addresses }
        ensures kept { IsReader self.now }
    {
        &self.addresses
    }

    /// The numbers read so far, each at the address of its place.
    pub fn values(&self) -> &[u16]
        ensures value { result.now ≡ self.now.values }
        ensures kept { IsReader self.now }
    {
        &self.values
    }

    /// The mishaps of this life so far.
    pub fn spent(&self) -> u32
        ensures value { result ≡ self.now.spent }
        ensures kept { IsReader self.now }
    {
        self.life.spent
    }

    /// How many characters were heard so far, in all lives, that no loss explains. Over a line that only
    /// loses characters none ever is (`looking_law`, `readings_hear_nothing_foreign`), so that a count
    /// above 0 says that the line changed or made up a character.
    pub fn foreign_count(&self) -> u32
        ensures { result ≡ self.now.foreign }
    {
        self.life.foreign
    }

    /// Whether no loss explains what is heard: the character is in no answer that is awaited here.
    pub fn is_foreign(&self, heard: Heard) -> bool
        ensures { result ≡ is_foreign (address_under_way self.now) self.now.phase heard }
    {
        match heard {
            Heard::Got(c) => !self.may_come(c),
            Heard::Quiet => false,
        }
    }

    /// The characters sent in this life so far, also the first `Z`. Whatever is heard, they never pass
    /// the bound of a life, which for all of memory, the largest patience and two looks at each word is
    /// 73,014,902,784.
    pub fn sent_count(&self) -> u64
        ensures value { result ≡ self.now.sent }
        ensures bound { result ≤ life_bound self.now.manner.care (length self.now.addresses) self.now.patience }
        ensures later { KeepsBound self.now }
        ensures most { result ≤ 73014902784 }
        ensures kept { IsReader self.now }
    {
        self.life.sent
    }

    /// How this life ended, if it did.
    pub fn end(&self) -> Option<End>
        ensures value { result ≡ ended self.now.phase }
        ensures kept { IsReader self.now }
    {
        match self.life.phase {
            Phase::Ended(end) => Some(end),
            _ => None,
        }
    }

    /// Begins a new life, as after the host's computer was restarted: at most the first `kept` of the
    /// numbers still count, and so does what no loss explains.
    pub fn restart(&mut self, kept: u32)
        ensures begun { self.new ≡ restarted self.old kept }
        ensures kept { IsReader self.new }
    {
        self.values.truncate(kept as usize);
        self.life = LifeState {
            foreign: self.life.foreign,
            ..LifeState::begun(self.addresses.len(), self.values.len())
        };
    }

    /// Hears one thing and answers the character to send now, if any: a step of the table. It never
    /// refuses.
    pub fn step(&mut self, heard: Heard) -> Option<u8>
        ensures next { self.new ≡ (ask self.old heard).next }
        ensures key { result ≡ (ask self.old heard).key }
        ensures kept { IsReader self.new }
        ensures same_addresses { self.new.addresses ≡ self.old.addresses }
        ensures same_patience { self.new.patience ≡ self.old.patience }
        ensures same_manner { self.new.manner ≡ self.old.manner }
        ensures bound { self.new.sent ≤ life_bound self.new.manner.care (length self.new.addresses) self.new.patience }
    {
        let turn = self.turn(heard);
        self.count(heard);
        let ReaderStep { life, key } = self.taken(turn);
        note(&mut self.values, turn);
        self.life = life;
        key
    }

    // What is heard counts where no loss explains it.
    fn count(&mut self, heard: Heard)
        ensures { self.new ≡ counted self.old heard }
    {
        let is_foreign = self.is_foreign(heard);
        self.life = self.life.counting(is_foreign);
    }

    // The answer of the table.
    fn turn(&self, heard: Heard) -> Turn
        ensures { result ≡ turn_of self.now heard }
    {
        match heard {
            Heard::Got(c) => self.hears(c),
            Heard::Quiet => table::quiet(self.life.phase),
        }
    }

    // The row of the table for a character.
    fn hears(&self, c: u8) -> Turn
        ensures { result ≡ turn_of self.now (Got c) }
    {
        match self.life.phase {
            Phase::Settle => Turn::Listen(Phase::Settle),
            Phase::Sync(place) => table::synced(resynchronise_reply(place, c)),
            Phase::Address(place) => table::addressed(place, digit_echo(self.address(), place, c)),
            Phase::Slash => table::slash(c),
            Phase::Before => self.reads(reading_start(c)),
            Phase::Value(value, place) => self.reads(reading_rest(value, place, c)),
            Phase::Close(place) => table::closed(return_reply(place, c)),
            Phase::Refused(place) => table::refused(self.address(), return_reply(place, c)),
            Phase::Ended(end) => Turn::Listen(Phase::Ended(end)),
        }
    }

    // A reading of the word under way: it goes on, it is whole, or there is no memory.
    fn reads(&self, reading: Reading) -> Turn
        requires { HasWord (basis_of self.now) }
        ensures { result ≡ reads (target_of self.now) reading }
    {
        match reading {
            Reading::Digits(value, count) => Turn::Listen(Phase::Value(value, count)),
            Reading::Number(value) => self.judged(value),
            Reading::NoMemory => self.questioned(),
            Reading::NoReading => Turn::Stray,
        }
    }

    // A whole number, behind an earlier look or none.
    fn judged(&self, number: u16) -> Turn
        ensures { result ≡ judged self.now.earlier (doubts self.now.manner.care (target_of self.now).expected number) number }
    {
        match self.life.earlier {
            None if self.doubts(number) => Turn::Again(number),
            None => Turn::Read(number),
            Some(first) if number == first => Turn::Read(number),
            Some(_) => Turn::Stray,
        }
    }

    // Whether a number at the address under way has to be read twice.
    fn doubts(&self, number: u16) -> bool
        ensures { result ≡ doubts self.now.manner.care (target_of self.now).expected number }
    {
        match self.care {
            Care::Once => false,
            Care::Twice => true,
            Care::TwiceWhereOther => match self.expected.get(self.values.len()) {
                Some(word) => merge(*word, number) != number,
                None => false,
            },
        }
    }

    // A `?` in the place of a reading.
    fn questioned(&self) -> Turn
        requires { HasWord (basis_of self.now) }
        ensures { result ≡ questioned (looks_twice self.now.manner.care) (address_under_way self.now) }
    {
        match self.care {
            Care::Once => Turn::Stop(End::NoWord(self.address())),
            Care::Twice | Care::TwiceWhereOther => Turn::Listen(Phase::Refused(0)),
        }
    }

    // The address under way.
    fn address(&self) -> u16
        requires { HasWord (basis_of self.now) }
        ensures { result ≡ address_under_way self.now }
    {
        self.addresses[self.values.len()]
    }

    // What the turn does to the life, and the character that it sends.
    fn taken(&self, turn: Turn) -> ReaderStep
        requires { IsReader (taken self.now turn).next }
        ensures next { reader_of self.now.addresses self.now.manner (values_after self.now.values turn) self.now.patience result.life
            ≡ (taken self.now turn).next }
        ensures key { result.key ≡ (taken self.now turn).key }
    {
        let life = self.life;
        match turn {
            Turn::Listen(phase) => life.listens(phase),
            Turn::Key(key, phase) => life.sends(key, phase),
            Turn::Read(_) => life.closes(None),
            Turn::Again(number) => life.closes(Some(number)),
            Turn::Next => self.next_word(),
            Turn::Stop(end) => life.listens(Phase::Ended(end)),
            Turn::Stray if life.spent < self.patience => life.with_mishap().listens(Phase::Settle),
            Turn::Timeout if life.spent < self.patience => life
                .with_mishap()
                .sends(RESYNCHRONISE, Phase::Sync(0)),
            Turn::Stray | Turn::Timeout => life.listens(Phase::Ended(End::GaveUp)),
        }
    }

    // The next word, or nothing more.
    fn next_word(&self) -> ReaderStep
        requires { self.now.sent + 1 < 2 ^ 64 }
        ensures next { reader_of self.now.addresses self.now.manner self.now.values self.now.patience result.life ≡ (next_word self.now).next }
        ensures key { result.key ≡ (next_word self.now).key }
    {
        if self.values.len() < self.addresses.len() {
            self.life.sends(digit(self.address(), 1), Phase::Address(1))
        } else {
            self.life.listens(Phase::Ended(End::Complete))
        }
    }
}

// Notes the number of a turn that takes one: there is room for it.
fn note(values: &mut Vec<u16>, turn: Turn)
    requires { is_read turn ≡ true → length values.old.items < vec_capacity values.old }
    ensures items { values.new.items ≡ values_after values.old.items turn }
    ensures room { vec_capacity values.old ≤ vec_capacity values.new }
{
    if let Turn::Read(value) = turn {
        let _ = values.push(value);
    }
}
