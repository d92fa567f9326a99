ghost use Rattle.std.specs.Prelude.{◌≡◌, ℕ, ◌<◌, ◌≤◌, true, false, if◌then◌else◌, List, length, is_some, [], option_to_list, None, IfOk, IfErr, OnOk};
ghost use Rattle.std.specs.Bool.{OnFalse};
ghost use Rattle.host_core.specs.Core.{ended};
ghost use Rattle.host_core.specs.Host.{IsHost};
ghost use Rattle.odt_machine.specs.Answer.{longest_answer};
ghost use Rattle.odt_machine.specs.Machine.{IsMachine};
ghost use Rattle.line_world.specs.World.{occurs, happens, after, possible_count, typed_in, typed, is_timeout, had_timeout, first_event, hears_foreign, renewing, work_left};
ghost use Rattle.line_world.specs.Wire.{is_harmless, may_change};
ghost use Rattle.line_world.specs.Invariant.{IsKept};
ghost use Rattle.line_world.specs.Safe.{IsSafe};
ghost use Rattle.line_world.specs.Promises.{IsTame, StartsOnce};
ghost use Rattle.line_world.specs.Opening.{opened, IsAccepted, IsRefusedSetup};
ghost use Rattle.line_world.specs.Runs.{RunsClean, RunsTo};

use crate::event::Event;
use crate::setup::Setup;
use arrayvec::ArrayVec;
use host_core::console::{CARRIAGE_RETURN, GO, SLASH};
use host_core::{End, Heard, HostCore};
use odt_machine::{Mode, Odt};
use std::marker::Model;

/// The most answer characters that may wait when a world opens; no more ever wait at once.
pub const MOST_WAITING: usize = 32;

/// A host and a machine on one line, with the characters that are under way.
#[derive(Drop)]
pub struct World {
    odt: Odt,
    core: HostCore,
    down: ArrayVec<u8, 1>,
    up: ArrayVec<u8, MOST_WAITING>,
    lost: u64,
    changed: bool,
}

impl Model for World {
    ghost use Rattle.std.specs.Coded.{codes};
    ghost use Rattle.tape_image.specs.Plan.{plan_code};
    ghost use Rattle.line_world.specs.Scene.{Scene};
    ghost use Rattle.line_world.specs.Invariant.{IsKept};

    ghost Value = { Scene };

    ghost coded = { Prim.hlevel (codes, plan_code) };

    ghost view = { λ w. record { machine = w.odt; core = w.core; down = w.down.items; up = w.up.items; lost = w.lost; changed = w.changed } };

    ghost invariant = { λ w. IsKept (record { machine = w.odt; core = w.core; down = w.down.items; up = w.up.items; lost = w.lost; changed = w.changed }) };
}

impl World {
    /// A world at its opening: `waiting` are the answer characters that wait for the host, the oldest first.
    ///
    /// Refused by the first of `Setup` that holds; the machine and the host come back.
    pub fn new(odt: Odt, core: HostCore, waiting: &[u8]) -> Result<World, (Odt, HostCore, Setup)>
        ensures accepted { OnOk result (IsAccepted odt core waiting.now) }
        ensures opened { IfOk result (λ world. world ≡ opened odt core waiting.now) }
        ensures safe { IfOk result (λ world. IsSafe odt.memory world.core world.machine.memory) }
        ensures tame { IfOk result IsTame }
        ensures refused { IfErr result (λ err. IsRefusedSetup odt core waiting.now err.2) }
        ensures given_back { IfErr result (λ err. (err.0 ≡ odt) × (err.1 ≡ core)) }
    {
        if waiting.len() > MOST_WAITING {
            return Err((odt, core, Setup::TooMuchWaiting));
        }
        if matches!(odt.mode(), Mode::Running(_)) {
            return Err((odt, core, Setup::Running));
        }
        if !core.is_fresh() {
            return Err((odt, core, Setup::NotFresh));
        }
        let mut up = ArrayVec::new();
        let _ = up.try_extend_from_slice(waiting);
        Ok(World {
            odt,
            core,
            down: ArrayVec::new(),
            up,
            lost: 0,
            changed: false,
        })
    }

    // Does nothing, but that the invariant is known where it is called: it uses a field.
    fn recall_invariant(&self)
        ensures { IsKept self.now }
    {
        let _ = &self.lost;
    }

    /// One event. False exactly where it is not possible, and then nothing changes.
    pub fn apply(&mut self, event: Event) -> bool
        ensures possible { result ≡ is_some (occurs self.old event) }
        ensures world { self.new ≡ happens self.old event }
        ensures unchanged { OnFalse result (self.new ≡ self.old) }
        ensures safe { IsSafe self.old.machine.memory self.new.core self.new.machine.memory }
        ensures since { (earlier : List ℕ) → IsSafe earlier self.old.core self.old.machine.memory → IsSafe earlier self.new.core self.new.machine.memory }
        ensures start { StartsOnce self.old.core self.new.core (typed_in self.old event) }
        ensures tame { IsTame self.new }
        ensures short { length self.old.up ≤ longest_answer → length self.new.up ≤ longest_answer }
        ensures silent { is_timeout self.old event ≡ true → length self.new.up ≤ longest_answer }
        ensures next { event ≡ first_event self.old → result ≡ true }
        ensures work { event ≡ first_event self.old → ended self.old.core.phase ≡ None → work_left self.new < work_left self.old }
    {
        self.recall_invariant();
        self.happen(event)
    }

    fn happen(&mut self, event: Event) -> bool
        ensures possible { result ≡ is_some (occurs self.old event) }
        ensures world { self.new ≡ happens self.old event }
    {
        match event {
            Event::Take => self.take(),
            Event::Hear => self.hear(),
            Event::LoseDown(place) => self.lose_down(place),
            Event::LoseUp(place) => self.lose_up(place),
            Event::ChangeDown(place, key) => self.change_down(place, key),
            Event::ChangeUp(place, character) => self.change_up(place, character),
            Event::Quiet => self.time_out(),
            Event::Restart(kept) => self.restart(kept),
        }
    }

    fn take(&mut self) -> bool
        ensures possible { result ≡ is_some (occurs self.old Event.Take) }
        ensures world { self.new ≡ happens self.old Event.Take }
    {
        let Some(key) = self.down.pop_at(0) else {
            return false;
        };
        let answer = self.odt.take(key);
        // It has room: no answer waits where a key is under way.
        let _ = self.up.try_extend_from_slice(answer.as_slice());
        true
    }

    fn hear(&mut self) -> bool
        ensures possible { result ≡ is_some (occurs self.old Event.Hear) }
        ensures world { self.new ≡ happens self.old Event.Hear }
    {
        let Some(character) = self.up.pop_at(0) else {
            return false;
        };
        let key = self.core.step(Heard::Got(character));
        self.changed = still_changed(self.changed, &self.core, key);
        send(&mut self.down, key);
        true
    }

    fn lose_down(&mut self, place: u8) -> bool
        ensures possible { result ≡ is_some (occurs self.old (Event.LoseDown place)) }
        ensures world { self.new ≡ happens self.old (Event.LoseDown place) }
    {
        let Some(_) = self.down.pop_at(usize::from(place)) else {
            return false;
        };
        self.lost += 1;
        true
    }

    fn lose_up(&mut self, place: u8) -> bool
        ensures possible { result ≡ is_some (occurs self.old (Event.LoseUp place)) }
        ensures world { self.new ≡ happens self.old (Event.LoseUp place) }
    {
        let Some(_) = self.up.pop_at(usize::from(place)) else {
            return false;
        };
        self.lost += 1;
        true
    }

    fn change_down(&mut self, place: u8, key: u8) -> bool
        ensures possible { result ≡ is_some (occurs self.old (Event.ChangeDown place key)) }
        ensures world { self.new ≡ happens self.old (Event.ChangeDown place key) }
    {
        let place = usize::from(place);
        if !self.core.is_careful()
            || place >= self.down.len()
            || !may_change(self.changed, self.down[place], key)
        {
            return false;
        }
        self.down[place] = key;
        self.lost += 1;
        self.changed = true;
        true
    }

    fn change_up(&mut self, place: u8, character: u8) -> bool
        ensures possible { result ≡ is_some (occurs self.old (Event.ChangeUp place character)) }
        ensures world { self.new ≡ happens self.old (Event.ChangeUp place character) }
    {
        let place = usize::from(place);
        if !self.core.is_careful() || place >= self.up.len() || self.changed {
            return false;
        }
        self.up[place] = character;
        self.lost += 1;
        self.changed = true;
        true
    }

    fn time_out(&mut self) -> bool
        ensures possible { result ≡ is_some (occurs self.old Event.Quiet) }
        ensures world { self.new ≡ happens self.old Event.Quiet }
    {
        if !self.down.is_empty() || !self.up.is_empty() {
            return false;
        }
        let key = self.core.step(Heard::Quiet);
        self.changed = still_changed(self.changed, &self.core, key);
        send(&mut self.down, key);
        true
    }

    fn restart(&mut self, kept: u32) -> bool
        ensures possible { result ≡ is_some (occurs self.old (Event.Restart kept)) }
        ensures world { self.new ≡ happens self.old (Event.Restart kept) }
    {
        self.core.restart(kept);
        self.lost = 0;
        self.changed = false;
        true
    }

    /// The events in order, the impossible ones skipped; the answer is how many were possible.
    pub fn run(&mut self, events: &[Event]) -> u64
        ensures count { result ≡ possible_count self.old events.now }
        ensures world { self.new ≡ after self.old events.now }
        ensures safe { IsSafe self.old.machine.memory self.new.core self.new.machine.memory }
        ensures since { (earlier : List ℕ) → IsSafe earlier self.old.core self.old.machine.memory → IsSafe earlier self.new.core self.new.machine.memory }
        ensures start { StartsOnce self.old.core self.new.core (typed self.old events.now) }
        ensures tame { IsTame self.new }
        ensures short { length self.old.up ≤ longest_answer → length self.new.up ≤ longest_answer }
        ensures silent { had_timeout self.old events.now ≡ true → length self.new.up ≤ longest_answer }
    {
        self.recall_invariant();
        self.happen_in_turn(events)
    }

    fn happen_in_turn(&mut self, events: &[Event]) -> u64
        ensures count { result ≡ possible_count self.old events.now }
        ensures world { self.new ≡ after self.old events.now }
    {
        let mut possible = 0;
        for event in events {
            if self.happen(*event) {
                possible += 1;
            }
        }
        possible
    }

    /// Runs to the host's end on a line that loses nothing: each event is the first possible one of
    /// `Take`, `Hear` and `Quiet`. After an end no event follows. The answer is the end.
    pub fn run_clean(&mut self) -> End
        ensures run { RunsClean self.old self.new result }
        ensures safe { IsSafe self.old.machine.memory self.new.core self.new.machine.memory }
        ensures since { (earlier : List ℕ) → IsSafe earlier self.old.core self.old.machine.memory → IsSafe earlier self.new.core self.new.machine.memory }
        ensures tame { IsTame self.new }
    {
        self.recall_invariant();
        self.run_to_end()
    }

    fn run_to_end(&mut self) -> End
        ensures { RunsTo self.old self.new result }
    {
        loop {
            if let Some(end) = self.core().end() {
                return end;
            }
            let event = self.next_event();
            self.apply(event);
        }
    }

    /// The event that comes next on a line that loses nothing.
    pub fn next_event(&self) -> Event
        ensures { result ≡ first_event self.now }
    {
        if !self.down.is_empty() {
            Event::Take
        } else if !self.up.is_empty() {
            Event::Hear
        } else {
            Event::Quiet
        }
    }

    /// Whether no loss explains the next character that the host hears. It never is so where the line
    /// has changed none in this attempt.
    pub fn hears_foreign(&self) -> bool
        ensures value { result ≡ hears_foreign self.now.core self.now.up }
        ensures honest { self.now.changed ≡ false → result ≡ false }
    {
        match self.up.first() {
            Some(character) => self.core.is_foreign(Heard::Got(*character)),
            None => false,
        }
    }

    /// The machine.
    pub fn odt(&self) -> &Odt
        ensures value { result.now ≡ self.now.machine }
        ensures machine { IsMachine self.now.machine }
        ensures tame { IsTame self.now }
    {
        &self.odt
    }

    /// The host.
    pub fn core(&self) -> &HostCore
        ensures value { result.now ≡ self.now.core }
        ensures kept { IsHost self.now.core }
        ensures tame { IsTame self.now }
    {
        &self.core
    }

    /// The keys under way to the machine, the oldest first.
    pub fn down(&self) -> &[u8]
        ensures value { result.now ≡ self.now.down }
        ensures tame { IsTame self.now }
    {
        self.down.as_slice()
    }

    /// The answer characters under way to the host, the oldest first.
    pub fn up(&self) -> &[u8]
        ensures value { result.now ≡ self.now.up }
        ensures tame { IsTame self.now }
    {
        self.up.as_slice()
    }

    /// How many characters the line has lost or changed in this life of the host.
    pub fn lost(&self) -> u64
        ensures value { result ≡ self.now.lost }
        ensures tame { IsTame self.now }
    {
        self.lost
    }
}

// Whether a character was changed in the attempt, once the host has sent this key or none: a key may begin an attempt.
fn still_changed(changed: bool, core: &HostCore, key: Option<u8>) -> bool
    ensures { result ≡ (if renewing key core.now.phase then false else changed) }
{
    match key {
        Some(_) if core.begins_attempt() => false,
        _ => changed,
    }
}

// Whether the line may change this key into that.
fn may_change(changed: bool, old: u8, key: u8) -> bool
    ensures { result ≡ may_change changed old key }
{
    !changed && is_harmless(key) && key != old
}

// A key that stores nothing, opens nothing and starts nothing.
fn is_harmless(key: u8) -> bool
    ensures { result ≡ is_harmless key }
{
    key != CARRIAGE_RETURN && key != SLASH && key != GO
}

// A key that the host sends goes down the line, where no other is under way.
fn send(down: &mut ArrayVec<u8, 1>, key: Option<u8>)
    requires { down.old.items ≡ [] }
    ensures { down.new.items ≡ option_to_list key }
{
    if let Some(key) = key {
        down.push(key);
    }
}
