ghost use Rattle.std.specs.Prelude.{◌≡◌, ◌+◌, ◌*◌, ◌^◌, ◌<◌, ◌≤◌, ◌++◌, length, Some, None, IfOk, OnOk, OnErr};
ghost use Rattle.std.specs.List.{list_any};
ghost use Rattle.odt_machine.specs.Answer.{longest_answer};
ghost use Rattle.odt_machine.specs.Machine.{Machine};
ghost use Rattle.host_devices.specs.Failures.{fault_of};
ghost use Rattle.honest_line.specs.LineTable.{is_key, is_answer, let_through, called, with_key, with_sent, with_heard, first_heard};
ghost use Rattle.honest_line.specs.LineTable.{call_refusal, send_refusal, hear_refusal, after_send, after_hear, quiet_line, most_before_key, waiting_room};
ghost use Rattle.honest_line.specs.Reached.{HasMoved, IsUnmoved, IsReached, IsHonestFrom};

use crate::loss::Loss;
use arrayvec::ArrayVec;
use host_core::Heard;
use host_devices::{Item, Line, LineFault};
use odt_machine::Odt;
use std::alloc::Global;
use std::marker::Model;
use tape_values::Memory;

// The most answer characters for which the line has room.
const WAITING_ROOM: usize = 64;

// The most answer characters that may wait when a key is sent: there is room then for the longest answer, of nine.
const MOST_BEFORE_KEY: usize = 55;

/// A line in memory, with a simulated console at its other end. It shows what was said on it, loses
/// the characters that it is told to lose, and can be made to fail.
///
/// A key that is not lost is taken at once. Of its answer, what is not lost waits to be heard.
#[derive(Drop)]
pub struct MemoryLine {
    odt: Odt,
    waiting: ArrayVec<u8, WAITING_ROOM>,
    items: Vec<Item>,
    losses: Vec<Loss>,
    room: u32,
    fail_at: Option<u64>,
    calls: u64,
    keys: u64,
    answers: u64,
    failures: u64,
    fault: Option<LineFault>,
}

impl Model for MemoryLine {
    ghost use Rattle.std.specs.Prelude.{◌≤◌, ◌*◌, length, vec_capacity};
    ghost use Rattle.odt_machine.specs.Answer.{longest_answer};
    ghost use Rattle.honest_line.specs.LineTable.{LineValue};

    ghost Value = { LineValue };

    ghost view = { λ l. record {
      machine = l.odt;
      waiting = l.waiting.items;
      items = l.items.items;
      losses = l.losses.items;
      room = l.room;
      fail_at = l.fail_at;
      calls = l.calls;
      keys = l.keys;
      answers = l.answers;
      failures = l.failures;
      fault = l.fault;
    } };

    ghost invariant = { λ l. (l.room ≤ vec_capacity l.items) × (length l.items.items ≤ l.room)
        × (l.keys ≤ length l.items.items) × (l.answers ≤ longest_answer * l.keys) };
}

impl MemoryLine {
    /// A line to this console on which nothing was said yet, with room for so many things that are
    /// said. With `fail_at` each call of `send` or `hear` from that number on fails; calls are counted
    /// from 1, so 0 means every call.
    ///
    /// For want of memory the arguments are dropped.
    pub fn new(
        alloc: Global,
        odt: Odt,
        losses: Vec<Loss>,
        room: u32,
        fail_at: Option<u64>,
    ) -> Result<MemoryLine, Memory>
        ensures line { IfOk result (λ line. line ≡ quiet_line odt losses.items room fail_at) }
        ensures reached { IfOk result (λ line. IsReached odt line) }
    {
        Ok(MemoryLine {
            odt,
            waiting: ArrayVec::new(),
            items: Vec::with_capacity(alloc, room as usize)?,
            losses,
            room,
            fail_at,
            calls: 0,
            keys: 0,
            answers: 0,
            failures: 0,
            fault: None,
        })
    }

    /// The console.
    pub fn odt(&self) -> &Odt
        ensures { result.now ≡ self.now.machine }
    {
        &self.odt
    }

    /// The answer characters that wait to be heard, the oldest first.
    pub fn waiting(&self) -> &[u8]
        ensures { result.now ≡ self.now.waiting }
    {
        self.waiting.as_slice()
    }

    /// What was sent and heard so far, the oldest first. After any calls one after another from `new`
    /// it is honest from the console that `new` was given to this one.
    pub fn items(&self) -> &[Item]
        ensures value { result.now ≡ self.now.items }
        ensures honest { (opening : Machine) → IsReached opening self.now → IsHonestFrom opening self.now }
    {
        &self.items
    }

    // Counts a call and judges it: whether it fails by its number, or for want of room.
    fn judge(&mut self, failure: LineFault, is_full: bool) -> Option<LineFault>
        ensures answer { result ≡ call_refusal self.old failure is_full }
        ensures next { self.new ≡ called self.old result }
        ensures room { result ≡ None → length self.new.items < self.new.room }
    {
        self.calls = self.calls.saturating_add(1);
        self.fault = if self.fail_at.is_some_and(|first| first <= self.calls) {
            Some(failure)
        } else if is_full || self.items.len() == self.room as usize {
            Some(LineFault::Full)
        } else {
            None
        };
        if self.fault.is_some() {
            self.failures = self.failures.saturating_add(1);
        }
        self.fault
    }

    // The next key goes out, and the console takes it unless it is lost.
    fn pass_key(&mut self, key: u8)
        requires room { length self.old.items < self.old.room }
        requires short { length self.old.waiting ≤ most_before_key }
        ensures { self.new ≡ with_sent self.old key }
    {
        let _ = self.items.push(Item::Sent(key));
        self.keys += 1;
        if !loses_key(&self.losses, self.keys) {
            self.deliver(key);
        }
    }

    // The console takes a key that was sent.
    fn deliver(&mut self, key: u8)
        requires short { length self.old.waiting ≤ most_before_key }
        requires counted { self.old.answers + longest_answer ≤ longest_answer * self.old.keys }
        ensures { self.new ≡ with_key self.old key }
    {
        let answer = self.odt.take(key);
        let_through(
            &mut self.waiting,
            &self.losses,
            self.answers,
            answer.as_slice(),
        );
        self.answers += answer.len() as u64;
    }

    // The first that waits is heard, or that nothing waits.
    fn pass_heard(&mut self) -> Heard
        requires { length self.old.items < self.old.room }
        ensures next { self.new ≡ with_heard self.old }
        ensures heard { result ≡ first_heard self.old.waiting }
    {
        let heard = match self.waiting.pop_at(0) {
            Some(character) => Heard::Got(character),
            None => Heard::Quiet,
        };
        let _ = self.items.push(Item::Heard(heard));
        heard
    }
}

impl Line for MemoryLine {
    ghost told = { λ line. Some line.items };

    ghost fault_count = { λ line. line.failures };

    ghost last_fault = { λ line. line.fault };

    fn send(&mut self, key: u8) -> Result<(), LineFault>
        ensures next { self.new ≡ after_send self.old key }
        ensures answer { fault_of result ≡ send_refusal self.old }
        ensures moved { OnOk result (HasMoved self.old (Item.Sent key) self.new) }
        ensures unmoved { OnErr result (IsUnmoved self.old self.new) }
        ensures reached { (opening : Machine) → IsReached opening self.old → IsReached opening self.new }
    {
        let is_full = self.waiting.len() > MOST_BEFORE_KEY;
        if let Some(fault) = self.judge(LineFault::Send, is_full) {
            return Err(fault);
        }
        self.pass_key(key);
        Ok(())
    }

    fn hear(&mut self) -> Result<Heard, LineFault>
        ensures next { self.new ≡ after_hear self.old }
        ensures answer { fault_of result ≡ hear_refusal self.old }
        ensures heard { IfOk result (λ heard. heard ≡ first_heard self.old.waiting) }
        ensures moved { IfOk result (λ heard. HasMoved self.old (Item.Heard heard) self.new) }
        ensures unmoved { OnErr result (IsUnmoved self.old self.new) }
        ensures reached { (opening : Machine) → IsReached opening self.old → IsReached opening self.new }
    {
        if let Some(fault) = self.judge(LineFault::Receive, false) {
            return Err(fault);
        }
        Ok(self.pass_heard())
    }

    fn failures(&self) -> u64 {
        self.failures
    }

    fn failed(&self) -> bool {
        self.fault.is_some()
    }
}

// Whether the key with this number is lost.
fn loses_key(losses: &[Loss], number: u64) -> bool
    ensures { result ≡ list_any (is_key number) losses.now }
{
    losses.iter().any(|loss| loss.is_key(number))
}

// Whether the answer character with this number is lost.
fn loses_answer(losses: &[Loss], number: u64) -> bool
    ensures { result ≡ list_any (is_answer number) losses.now }
{
    losses.iter().any(|loss| loss.is_answer(number))
}

// What the line lets through of an answer waits behind the answers before it, of which the machine
// gave so many characters.
fn let_through(
    waiting: &mut ArrayVec<u8, WAITING_ROOM>,
    losses: &[Loss],
    before: u64,
    answer: &[u8],
)
    requires room { length waiting.old.items + length answer.now ≤ waiting_room }
    requires count { before + length answer.now < 2 ^ 64 }
    ensures { waiting.new.items ≡ waiting.old.items ++ let_through losses.now before answer.now }
{
    let mut number = before;
    for character in answer {
        number += 1;
        if !loses_answer(losses, number) {
            waiting.push(*character);
        }
    }
}
