//! Writing a record, a word at a time.
ghost use Rattle.std.specs.Prelude.{◌≡◌, [], ◌++◌, ℕ, ◌+◌, ◌-◌, ◌<◌, ◌↔◌, IsTrue, IsOk, OnOk, IfOk, IfErr, Some, None, slice_get, true, false};
ghost use Rattle.std.specs.Io.KnownBytes.{Keeps};
ghost use Rattle.tape_image.specs.Plan.{PlanValue};
ghost use Rattle.host_devices.specs.Failures.{one_more};
ghost use Rattle.host_devices.specs.declared.fault.KeepFault.{KeepFault};
ghost use Rattle.load_record.specs.declared.version.Version.TheVariants.{Second};
ghost use Rattle.load_record.specs.Keeper.{Failed, HasCutShort, HasKept, HoldsRecord, Lasts, Wrote, fault_now};
ghost use Rattle.load_record.specs.RecordText.{ending, mark_text, open_run, record_text, second_piece, second_run};

use crate::lasting_write::LastingWrite;
use crate::output::{write_begin, write_mark, write_word};
use crate::run::OpenRun;
use byte_io::WriteFault;
use host_devices::{Keep, KeepFault};
use std::marker::Model;
use tape_image::{Plan, Word};

/// A keeper that writes the record, version 2, to a writer: each call writes what the record gains,
/// and makes it last before it answers.
///
/// The one fault is `Write`, where the writer failed or took nothing; it is not asked again. How
/// much of the text went out is then not known, so every later call answers `Write`, is counted and
/// writes nothing. What such a file holds is still read, as what went out whole.
///
/// Contracts see what the writer holds and what of it lasts, where it tells its bytes, the run line that
/// stands open at its end, and how many calls have failed.
#[derive(Drop)]
pub struct FileKeep<W: LastingWrite> {
    writer: W,
    run: Option<OpenRun>,
    failures: u64,
}

impl<W: LastingWrite> Model for FileKeep<W> {
    ghost use Rattle.std.specs.Coded.{codes};
    ghost use Rattle.load_record.specs.Keeper.{Keeper};

    ghost Value = { Keeper };

    ghost coded = { Prim.hlevel codes };

    ghost view = { λ k. record { text = W.contents k.writer; lasting = W.lasting k.writer; run = k.run; failures = k.failures } };
}

impl<W: LastingWrite> FileKeep<W> {
    /// A keeper that has written nothing to the writer yet.
    pub fn new(writer: W) -> FileKeep<W>
        ensures { result ≡ record { text = W.contents writer; lasting = W.lasting writer; run = None; failures = 0 } }
    {
        FileKeep {
            writer,
            run: None,
            failures: 0,
        }
    }

    /// Begins the record of a plan: the header and the first `verified` words, or all where the plan
    /// has fewer. A run line that stands open is ended first. A fault counts as one of `add` does.
    pub fn begin(&mut self, plan: &Plan, verified: u32) -> Result<(), KeepFault>
        ensures ok { OnOk result
            (Wrote self.old self.new (ending self.old.run ++ record_text Second plan.now verified false) (open_run Second plan.now verified)) }
        ensures err { IfErr result (λ fault. (fault ≡ KeepFault.Write)
            × Failed self.old self.new (ending self.old.run ++ record_text Second plan.now verified false)) }
        ensures begins { OnOk result (self.old.text ≡ Some [] → self.old.run ≡ None → HoldsRecord self.new plan.now verified) }
    {
        if self.is_broken() {
            return self.settle(Err(WriteFault));
        }
        let outcome = write_begin(&mut self.writer, self.run, plan, verified);
        self.settle(outcome)
    }

    /// The writer.
    pub fn writer(&self) -> &W
        ensures text { W.contents result.now ≡ self.now.text }
        ensures lasting { W.lasting result.now ≡ self.now.lasting }
    {
        &self.writer
    }

    // Whether a call has failed, so that no other may write.
    fn is_broken(&self) -> bool
        ensures { IsTrue result ↔ (0 < self.now.failures) }
    {
        self.failures > 0
    }

    // Makes last what a call wrote, and takes note of the run line that stands open, or of the fault.
    fn settle(&mut self, written: Result<Option<OpenRun>, WriteFault>) -> Result<(), KeepFault>
        ensures ok { OnOk result (IfOk written (λ run. self.new.run ≡ run) × IsOk written × (self.new.failures ≡ self.old.failures)
            × Lasts self.new.lasting self.new.text) }
        ensures err { IfErr result (λ fault. (fault ≡ KeepFault.Write) × (self.new.failures ≡ one_more self.old.failures)) }
        ensures text { Keeps self.old.text self.new.text }
    {
        if let Ok(run) = written
            && self.writer.make_last().is_ok()
        {
            self.run = run;
            return Ok(());
        }
        self.failures = self.failures.saturating_add(1);
        Err(KeepFault::Write)
    }
}

impl<W: LastingWrite> Keep for FileKeep<W> {
    ghost keeps = { λ before item after. HasKept before item after };

    ghost fails = { λ before item after. HasCutShort before item after };

    ghost fault_count = { λ keep. keep.failures };

    ghost last_fault = { λ keep. fault_now keep.failures };

    fn add(&mut self, word: Word) -> Result<(), KeepFault>
        ensures ok { OnOk result (Wrote self.old self.new (second_piece self.old.run word) (second_run self.old.run word)) }
        ensures err { IfErr result (λ fault. (fault ≡ KeepFault.Write) × Failed self.old self.new (second_piece self.old.run word)) }
        ensures adds { OnOk result ((plan : PlanValue) (k : ℕ)
            → HoldsRecord self.old plan k → slice_get plan.words k ≡ Some word → HoldsRecord self.new plan (k + 1)) }
    {
        if self.is_broken() {
            return self.settle(Err(WriteFault));
        }
        let outcome = write_word(&mut self.writer, self.run, word);
        self.settle(outcome)
    }

    fn mark(&mut self) -> Result<(), KeepFault>
        ensures ok { OnOk result (Wrote self.old self.new (mark_text self.old.run) None) }
        ensures err { IfErr result (λ fault. (fault ≡ KeepFault.Write) × Failed self.old self.new (mark_text self.old.run)) }
        ensures marks { OnOk result ((plan : PlanValue) (k : ℕ) → HoldsRecord self.old plan k → self.new.text ≡ Some (record_text Second plan k true)) }
    {
        if self.is_broken() {
            return self.settle(Err(WriteFault));
        }
        let outcome = write_mark(&mut self.writer, self.run);
        self.settle(outcome)
    }

    fn failures(&self) -> u64 {
        self.failures
    }

    fn failed(&self) -> bool {
        self.is_broken()
    }
}
