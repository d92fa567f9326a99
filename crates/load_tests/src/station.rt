//! A station in memory, on which a stub runs that takes a few bytes, and the line to it, which tells what was said.
ghost use Rattle.std.specs.Prelude.{◌≡◌, ◌∷◌, ◌++◌, [], OnOk, OnErr};
ghost use Rattle.host_devices.specs.Failures.{count_after, fault_of};

use host_core::Heard;
use host_devices::{Item, Line, LineFault};
use std::alloc::Global;

/// What is lost on the line, if anything. Keys and the characters of answers are counted from 1.
#[derive(Clone, Copy)]
pub(crate) enum Upset {
    /// Nothing.
    Nothing,

    /// The key with this number, on its way to the stub.
    LosesKey(u32),

    /// The character with this number of the answers, on its way to the host.
    LosesAnswer(u32),
}

/// The station's half: memory, the stub, and the characters under way from it.
#[derive(Drop)]
struct Station {
    upset: Upset,
    memory: Vec<u8>,
    high: u8,
    taken: usize,
    is_halted: bool,
    keys: u32,
    answers: u32,
    up: Vec<u8>,
    next: usize,
}

impl Station {
    // A key is sent to it.
    fn receive(&mut self, key: u8) {
        self.keys = self.keys.saturating_add(1);
        match self.upset {
            Upset::LosesKey(number) if number == self.keys => {}
            _ => self.take(key),
        }
    }

    // The stub takes a key: behind a byte's second nibble it answers both. Anything but a nibble halts it.
    fn take(&mut self, key: u8) {
        if self.is_halted || key < 0o140 || key > 0o157 || self.is_full() {
            self.is_halted = true;
            return;
        }
        let place = self.taken;
        self.taken = place.saturating_add(1);
        if place % 2 == 0 {
            self.high = key - 0o140;
        } else {
            self.store(place / 2, (self.high % 16) * 16 + (key - 0o140) % 16);
        }
    }

    // Nothing is left to fill.
    fn is_full(&self) -> bool {
        self.taken / 2 >= self.memory.len()
    }

    // Stores a byte, and answers as memory has it.
    fn store(&mut self, number: usize, byte: u8) {
        if let Some(place) = self.memory.get_mut(number) {
            *place = byte;
        }
        self.give(0o157 - byte / 16);
        self.give(0o157 - byte % 16);
    }

    fn give(&mut self, character: u8) {
        self.answers = self.answers.saturating_add(1);
        match self.upset {
            Upset::LosesAnswer(number) if number == self.answers => {}
            _ => {
                let _ = self.up.push(character);
            }
        }
    }

    // What the host hears next.
    fn next(&mut self) -> Heard {
        match self.up.get(self.next) {
            Some(character) => {
                let character = *character;
                self.next = self.next.saturating_add(1);
                Heard::Got(character)
            }
            None => Heard::Quiet,
        }
    }
}

/// What was said on the line, and how its calls went.
#[derive(Drop)]
struct Log {
    items: Vec<Item>,
    failures: u64,
    fault: Option<LineFault>,
}

impl Log {
    // Notes what is said at a call, or that the call failed for want of room.
    fn note(&mut self, item: Item) -> Result<(), LineFault>
        ensures said { OnOk result (self.new.items.items ≡ self.old.items.items ++ item ∷ []) }
        ensures silent { OnErr result (self.new.items.items ≡ self.old.items.items) }
        ensures counted { self.new.failures ≡ count_after self.old.failures result }
        ensures fault { self.new.fault ≡ fault_of result }
    {
        let outcome = self.items.push(item).map_err(|_| LineFault::Full);
        self.fault = outcome.err();
        if outcome.is_err() {
            self.failures = self.failures.saturating_add(1);
        }
        outcome
    }
}

/// The line to the station.
#[derive(Drop)]
pub(crate) struct StationLine {
    station: Station,
    log: Log,
}

impl StationLine {
    /// A line on which nothing was said yet, to a station with so many bytes; none for want of memory.
    pub(crate) fn new(alloc: Global, upset: Upset, bytes: usize) -> Option<StationLine> {
        let mut memory = Vec::new(alloc);
        memory.resize(bytes, 0).ok()?;
        Some(StationLine {
            station: Station {
                upset,
                memory,
                high: 0,
                taken: 0,
                is_halted: false,
                keys: 0,
                answers: 0,
                up: Vec::new(alloc),
                next: 0,
            },
            log: Log {
                items: Vec::new(alloc),
                failures: 0,
                fault: None,
            },
        })
    }

    /// What was said, the oldest first.
    pub(crate) fn items(&self) -> &[Item] {
        &self.log.items
    }

    /// The bytes that the stub was to fill.
    pub(crate) fn memory(&self) -> &[u8] {
        &self.station.memory
    }

    /// Whether the stub has halted: behind its last byte it takes no nibble, and any key but a nibble
    /// halts it.
    pub(crate) fn is_halted(&self) -> bool {
        self.station.is_halted || self.station.is_full()
    }
}

impl Line for StationLine {
    ghost use Rattle.std.specs.Prelude.{Some};

    ghost told = { λ line. Some line.log.items.items };

    ghost fault_count = { λ line. line.log.failures };

    ghost last_fault = { λ line. line.log.fault };

    fn send(&mut self, key: u8) -> Result<(), LineFault> {
        self.log.note(Item::Sent(key))?;
        self.station.receive(key);
        Ok(())
    }

    fn hear(&mut self) -> Result<Heard, LineFault> {
        let heard = self.station.next();
        self.log.note(Item::Heard(heard))?;
        Ok(heard)
    }

    fn failures(&self) -> u64 {
        self.log.failures
    }

    fn failed(&self) -> bool {
        self.log.fault.is_some()
    }
}
