ghost use Rattle.std.specs.Prelude.{◌≡◌, ℕ, List, [], ◌∷◌, Option, None, IfOk, IfErr, OnOk, ⊤};
ghost use Rattle.std.specs.Io.KnownBytes.{Keeps};
ghost use Rattle.tape_values.specs.Told.{IsAsTold};
ghost use Rattle.host_devices.specs.Told.{Gains};
ghost use Rattle.machine_load.specs.Load.{IsTextBegun};
ghost use Rattle.machine_load.specs.RecordDisk.{RecordDisk, IsReadAnswered, IsBeginAnswered, begun_text};
ghost use Rattle.record_file.specs.Reading.{OldText, found_in};
ghost use Rattle.record_file.specs.RecordFault.{IsUnread, IsUnbegun};
ghost use Rattle.host_devices.specs.Devices.{LineTold, line_told};
ghost use Rattle.console_lines.specs.Reached.{IsUnused};
ghost use Rattle.console_lines.specs.Dialling.{LineRequest, Call, ToDevice, asked_for};
ghost use Rattle.tape_image.specs.Plan.{PlanValue};
ghost use Rattle.machine_load.specs.Step.{LoadStep, RecordGivenBack, read_step, connect_step, begin_step};

use host_devices::{Keep, Line, LineFault};
use record_file::{OldRecord, RecordFault};
use std::alloc::Global;
use tape_image::Plan;

/// What a load needs of the world around it: the record of earlier lives, a line to the console, and
/// a keeper for the life that begins.
pub trait Surroundings {
    /// The line to the console.
    type Line: Line;

    /// Who keeps the progress of the life that begins.
    type Keeper: Keep + Drop;

    /// What was asked so far, in its order, with what was answered; None where the type doesn't tell.
    ghost steps: { Self → Option (List LoadStep) } = { λ _. None };

    /// What was asked for lines so far, of the network or of the devices; None where the type doesn't tell.
    ghost asked: { Self → Option (List LineRequest) } = { λ _. None };

    /// Whom a connection leads to, where the type tells what was asked.
    ghost call: { Self → Call } = { λ _. ToDevice [] 0 };

    /// What the lines tell that were given back, in their order; None where the type doesn't tell.
    ghost lines: { Self → Option (List LineTold) } = { λ _. None };

    /// What the record is; None where the type doesn't tell.
    ghost record_text: { Self → Option (List ℕ) } = { λ _. None };

    /// What earlier lives left, where the type says it without a disk.
    ghost left: { Option OldText } = { None };

    /// What the record is that a keeper keeps; None where the type doesn't tell.
    ghost kept_text: { Self.Keeper → Option (List ℕ) } = { λ _. None };

    /// What a keeper is that was begun with so many words of a plan, where the type says it.
    ghost begins: { Self.Keeper → PlanValue → ℕ → Type 0 } = { λ _ _ _. ⊤ };

    /// The disk on which the record is, with what was asked of it; None where it is on none, or the type doesn't say.
    ghost disk: { Self → Option RecordDisk } = { λ _. None };

    /// The record of earlier lives, which from there on is held: no other load has it until this one is
    /// over. It is changed in nothing.
    fn read_record(&mut self, alloc: Global) -> Result<OldRecord, RecordFault>
        ensures lines { lines self.new ≡ lines self.old }
        ensures step { Gains (steps self.old) (steps self.new) (read_step result ∷ []) }
        ensures text { IfOk result (λ old. IsAsTold (record_text self.old) old.text.items) }
        ensures left { IfOk result (λ old. IsAsTold left (found_in old)) }
        ensures fault { IfErr result IsUnread }
        ensures same { Keeps (record_text self.old) (record_text self.new) }
        ensures asked { asked self.new ≡ asked self.old }
        ensures call { call self.new ≡ call self.old }
        ensures disk { IsReadAnswered (disk self.old) (disk self.new) result };

    /// A connection to the console, on which nothing was said.
    fn connect(&mut self) -> Result<Self::Line, LineFault>
        ensures lines { lines self.new ≡ lines self.old }
        ensures step { Gains (steps self.old) (steps self.new) (connect_step result ∷ []) }
        ensures fresh { IfOk result (λ line. IsUnused (Self.Line.told line) (Self.Line.fault_count line) (Self.Line.last_fault line)) }
        ensures same { Keeps (record_text self.old) (record_text self.new) }
        ensures asked { Gains (asked self.old) (asked self.new) (asked_for (call self.old) result) }
        ensures disk { disk self.new ≡ disk self.old };

    /// Writes the record anew, with the first verified words of the plan, and keeps it from there on.
    fn begin_record(
        &mut self,
        alloc: Global,
        plan: &Plan,
        verified: u32,
    ) -> Result<Self::Keeper, RecordFault>
        ensures lines { lines self.new ≡ lines self.old }
        ensures step { Gains (steps self.old) (steps self.new) (begin_step result ∷ []) }
        ensures fault { IfErr result IsUnbegun }
        ensures begun { OnOk result (IsTextBegun (record_text self.new) plan.now verified) }
        ensures keeper { IfOk result (λ keeper. begins keeper plan.now verified) }
        ensures asked { asked self.new ≡ asked self.old }
        ensures disk { IsBeginAnswered (begun_text plan.now verified) (disk self.old) (disk self.new) result };

    /// Takes back the keeper of a life that is over: the record is what it has kept.
    fn end_record(&mut self, keeper: Self::Keeper)
        ensures lines { lines self.new ≡ lines self.old }
        ensures step { Gains (steps self.old) (steps self.new) (RecordGivenBack ∷ []) }
        ensures text { record_text self.new ≡ kept_text keeper }
        ensures asked { asked self.new ≡ asked self.old }
        ensures disk { disk self.new ≡ disk self.old };

    /// Takes back a line that it gave.
    fn let_go(&mut self, line: Self::Line)
        ensures lines { Gains (lines self.old) (lines self.new) (line_told Self.Line.Line line ∷ []) }
        ensures steps { steps self.new ≡ steps self.old }
        ensures text { record_text self.new ≡ record_text self.old }
        ensures asked { asked self.new ≡ asked self.old }
        ensures disk { disk self.new ≡ disk self.old };
}
