//! Surroundings of a load that tell what they are, in which order they were asked, and what was said on each line that was
//! given back.
ghost use Rattle.std.specs.Prelude.{◌≡◌, ◌∷◌, [], ◌++◌, Some, IfErr, IfOk, OnOk};
ghost use Rattle.tape_values.specs.Told.{IsAsTold};
ghost use Rattle.load_record.specs.Keeper.{HoldsRecord};
ghost use Rattle.machine_load.specs.Asked.{task, ◌⇒◌};
ghost use Rattle.machine_load.specs.Driving.{IsDrivenOn};
ghost use Rattle.machine_load.specs.Lives.{of_file};
ghost use Rattle.machine_load.specs.Load.{IsReported};
ghost use Rattle.machine_load.specs.LoadFault.{IsLoadFault};
ghost use Rattle.machine_load.specs.Scene.{ending};
ghost use Rattle.machine_load.specs.Step.{begin_step, failing, read_step};
ghost use Rattle.record_file.specs.RecordFault.{IsUnbegun, IsUnread};
ghost use Rattle.load_tests.specs.Told.{memory_line};
ghost use Rattle.load_tests.specs.ToldBench.{lines_told, setting_told, step_of, steps_of};

use crate::disk_text::DiskText;
use crate::load_step::LoadStep;
use crate::memory_consoles::{CALLED, MemoryConsoles};
use console_lines::Consoles;
use honest_line::MemoryLine;
use host_devices::{LineFault, Unwatched};
use load_record::FileKeep;
use machine_load::{LoadFault, Outcome, Surroundings, load};
use odt_machine::Odt;
use record_file::{OldRecord, RecordFault, Writable};
use request_values::LoadOptions;
use std::alloc::Global;
use std::process::Abort;
use tape_image::Plan;

/// A machine, the record of its loads in memory, with the keeper that has written it, what was asked, and the lines that
/// were given back. Where there is no memory for one thing more the process ends, since a list that lacks one would be wrong.
#[derive(Drop)]
pub(crate) struct ToldBench<'a, R: Abort> {
    rt: &'a R,
    consoles: MemoryConsoles,
    keeper: FileKeep<DiskText>,
    pub(crate) steps: Vec<LoadStep>,
    pub(crate) lines: Vec<MemoryLine>,
}

impl<'a, R: Abort> ToldBench<'a, R> {
    /// This machine, or none, and an empty record, of which nothing was asked yet.
    pub(crate) fn new(rt: &'a R, alloc: Global, odt: Option<Odt>) -> ToldBench<'a, R> {
        ToldBench {
            rt,
            consoles: MemoryConsoles::new(alloc, odt),
            keeper: FileKeep::new(DiskText::new(alloc)),
            steps: Vec::new(alloc),
            lines: Vec::new(alloc),
        }
    }

    /// What the record is.
    pub(crate) fn record(&self) -> &[u8] {
        self.keeper.writer().text()
    }

    /// What a loss of power would leave of it.
    pub(crate) fn left(&self) -> &[u8] {
        self.keeper.writer().left()
    }

    // Puts a step behind the list.
    fn tell(&mut self, step: LoadStep)
        ensures steps { steps_of self.new.steps.items ≡ steps_of self.old.steps.items ++ step_of step ∷ [] }
        ensures keeper { self.new.keeper ≡ self.old.keeper }
        ensures lines { self.new.lines ≡ self.old.lines }
    {
        self.steps.push(step).expect(self.rt, "no memory");
    }

    // A copy of the record.
    fn read(&self, alloc: Global) -> Result<OldRecord, RecordFault>
        ensures text { IfOk result (λ old. IsAsTold self.now.keeper.text old.text.items) }
        ensures fault { IfErr result IsUnread }
    {
        let text = Vec::from_slice(alloc, self.keeper.writer().text())?;
        Ok(OldRecord {
            text,
            writable: Writable::Anew,
        })
    }

    // Begins the record anew, with the first verified words of a plan, and another that its keeper goes on with.
    fn begin(
        &mut self,
        alloc: Global,
        plan: &Plan,
        verified: u32,
    ) -> Result<FileKeep<DiskText>, RecordFault>
        ensures steps { self.new.steps ≡ self.old.steps }
        ensures lines { self.new.lines ≡ self.old.lines }
        ensures begun { OnOk result (HoldsRecord self.new.keeper plan.now verified) }
        ensures keeper { IfOk result (λ keeper. HoldsRecord keeper plan.now verified) }
        ensures fault { IfErr result IsUnbegun }
    {
        self.keeper = begun(alloc, plan, verified)?;
        begun(alloc, plan, verified)
    }
}

// A new record of the first verified words of a plan.
fn begun(alloc: Global, plan: &Plan, verified: u32) -> Result<FileKeep<DiskText>, RecordFault>
    ensures begun { IfOk result (λ keeper. HoldsRecord keeper plan.now verified) }
    ensures fault { IfErr result IsUnbegun }
{
    let mut keeper = FileKeep::new(DiskText::new(alloc));
    keeper.begin(plan, verified)?;
    Ok(keeper)
}

// What a record that failed was asked for in vain.
fn failing(fault: RecordFault) -> LoadStep
    ensures { step_of result ≡ failing fault }
{
    match fault {
        RecordFault::Read => LoadStep::NotRead,
        RecordFault::InUse => LoadStep::InUse,
        RecordFault::Write => LoadStep::NotBegun,
        RecordFault::Memory => LoadStep::OutOfMemory,
    }
}

// What was answered where the record was asked for.
fn read_step(read: &Result<OldRecord, RecordFault>) -> LoadStep
    ensures { step_of result ≡ read_step read.now }
{
    match read {
        Ok(old) => LoadStep::RecordRead(old.writable),
        Err(fault) => failing(*fault),
    }
}

// What was answered where it was to be begun anew.
fn begin_step<T>(begun: &Result<T, RecordFault>) -> LoadStep
    ensures { step_of result ≡ begin_step begun.now }
{
    match begun {
        Ok(_) => LoadStep::RecordBegun,
        Err(fault) => failing(*fault),
    }
}

impl<'a, R: Abort> Surroundings for ToldBench<'a, R> {
    type Line = MemoryLine;

    type Keeper = FileKeep<DiskText>;

    ghost steps = { λ told. Some (steps_of told.steps.items) };

    ghost lines = { λ told. Some (lines_told told.lines.items) };

    ghost record_text = { λ told. told.keeper.text };

    ghost kept_text = { λ keeper. keeper.text };

    ghost begins = { λ keeper plan count. HoldsRecord keeper plan count };

    fn read_record(&mut self, alloc: Global) -> Result<OldRecord, RecordFault> {
        let read = self.read(alloc);
        self.tell(read_step(&read));
        read
    }

    fn connect(&mut self) -> Result<MemoryLine, LineFault> {
        match self.consoles.reach(CALLED) {
            Ok(line) => {
                self.tell(LoadStep::Connected);
                Ok(line)
            }
            Err(fault) => {
                self.tell(LoadStep::NotConnected);
                Err(fault)
            }
        }
    }

    fn begin_record(
        &mut self,
        alloc: Global,
        plan: &Plan,
        verified: u32,
    ) -> Result<FileKeep<DiskText>, RecordFault> {
        let begun = self.begin(alloc, plan, verified);
        self.tell(begin_step(&begun));
        begun
    }

    fn end_record(&mut self, keeper: FileKeep<DiskText>) {
        self.keeper = keeper;
        self.tell(LoadStep::RecordGivenBack);
    }

    fn let_go(&mut self, line: MemoryLine) {
        self.lines.push(line).expect(self.rt, "no memory");
    }
}

/// Loads a plan into the machine of a bench. What `load` promises of its devices is so of these, which
/// tell: of the line that comes back, and of the record as its keeper left it.
pub(crate) fn load_once<R: Abort>(
    alloc: Global,
    plan: Plan,
    options: LoadOptions,
    bench: &mut ToldBench<'_, R>,
    report: &mut Vec<u8>,
) -> Result<Outcome<MemoryLine>, LoadFault>
    ensures reported { IfOk result (λ outcome. IsReported (IsDrivenOn of_file) (task plan options)
        (setting_told bench.old.steps.items bench.old.keeper.text bench.old.lines.items report.old.items
        ⇒ setting_told bench.new.steps.items bench.new.keeper.text bench.new.lines.items report.new.items)
        (ending memory_line outcome)) }
{
    load(alloc, plan, options, bench, report, &Unwatched)
}

/// The same. What `load` promises of the order in which it asks, where it comes to nothing, is so of this bench, which tells.
pub(crate) fn load_in_order<R: Abort>(
    alloc: Global,
    plan: Plan,
    options: LoadOptions,
    bench: &mut ToldBench<'_, R>,
    report: &mut Vec<u8>,
) -> Result<Outcome<MemoryLine>, LoadFault>
    ensures fault { IfErr result (IsLoadFault (IsDrivenOn of_file) (task plan options)
        (setting_told bench.old.steps.items bench.old.keeper.text bench.old.lines.items report.old.items
        ⇒ setting_told bench.new.steps.items bench.new.keeper.text bench.new.lines.items report.new.items)) }
{
    load(alloc, plan, options, bench, report, &Unwatched)
}
