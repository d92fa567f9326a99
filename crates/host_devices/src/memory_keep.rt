ghost use Rattle.std.specs.Prelude.{◌≡◌, Some, IfOk};
ghost use Rattle.host_devices.specs.Failures.{fault_of};
ghost use Rattle.host_devices.specs.KeepTable.{empty_keep, after_keeping, keep_refusal};

use crate::fault::KeepFault;
use crate::item::Kept;
use crate::keep::Keep;
use host_core::Word;
use std::alloc::Global;
use std::marker::Model;
use tape_values::Memory;

/// A keeper in memory, which shows what it keeps, and can be made to fail.
///
/// Only `new` takes memory. A count of calls or of failures that stands at its largest value stays.
#[derive(Drop)]
pub struct MemoryKeep {
    kept: Vec<Kept>,
    room: u32,
    fail_at: Option<u32>,
    calls: u32,
    failures: u64,
    fault: Option<KeepFault>,
}

impl Model for MemoryKeep {
    ghost use Rattle.std.specs.Prelude.{◌≤◌, length, vec_capacity};
    ghost use Rattle.host_devices.specs.KeepTable.{KeepValue};

    ghost Value = { KeepValue };

    ghost view = { λ k. record { kept = k.kept.items; room = k.room; fail_at = k.fail_at; calls = k.calls; failures = k.failures; fault = k.fault } };

    ghost invariant = { λ k. (k.room ≤ vec_capacity k.kept) × (length k.kept.items ≤ k.room) };
}

impl MemoryKeep {
    /// A keeper with room for so many things. With `fail_at` each call from that number on fails with
    /// `Write`; calls are counted from 1, so 0 means every call.
    pub fn new(alloc: Global, room: u32, fail_at: Option<u32>) -> Result<MemoryKeep, Memory>
        ensures { IfOk result (λ keep. keep ≡ empty_keep room fail_at) }
    {
        Ok(MemoryKeep {
            kept: Vec::with_capacity(alloc, room as usize)?,
            room,
            fail_at,
            calls: 0,
            failures: 0,
            fault: None,
        })
    }

    /// What is kept, the oldest first.
    pub fn kept(&self) -> &[Kept]
        ensures { result.now ≡ self.now.kept }
    {
        &self.kept
    }

    // Keeps one thing, where this call is not one that fails and there is room.
    fn keep(&mut self, item: Kept) -> Result<(), KeepFault>
        ensures next { self.new ≡ after_keeping self.old item }
        ensures answer { fault_of result ≡ keep_refusal self.old }
    {
        self.calls = self.calls.saturating_add(1);
        let outcome = if self.fail_at.is_some_and(|first| first <= self.calls) {
            Err(KeepFault::Write)
        } else if self.kept.len() < self.room as usize {
            self.kept.push(item).map_err(|_| KeepFault::Full)
        } else {
            Err(KeepFault::Full)
        };
        self.fault = outcome.err();
        if outcome.is_err() {
            self.failures = self.failures.saturating_add(1);
        }
        outcome
    }
}

impl Keep for MemoryKeep {
    ghost told = { λ keep. Some keep.kept };

    ghost fault_count = { λ keep. keep.failures };

    ghost last_fault = { λ keep. keep.fault };

    fn add(&mut self, word: Word) -> Result<(), KeepFault>
        ensures next { self.new ≡ after_keeping self.old (Kept.Word word) }
        ensures answer { fault_of result ≡ keep_refusal self.old }
    {
        self.keep(Kept::Word(word))
    }

    fn mark(&mut self) -> Result<(), KeepFault>
        ensures next { self.new ≡ after_keeping self.old Kept.Go }
        ensures answer { fault_of result ≡ keep_refusal self.old }
    {
        self.keep(Kept::Go)
    }

    fn failures(&self) -> u64 {
        self.failures
    }

    fn failed(&self) -> bool {
        self.fault.is_some()
    }
}
