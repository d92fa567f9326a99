//! Where the record of a load is: in a file, or in memory alone.
ghost use Rattle.std.specs.Prelude.{◌≡◌, ℕ, ◌+◌, [], length, IfErr, IfOk, ⊤, Option, Some, None, option_map};
ghost use Rattle.tape_values.specs.Told.{IsAsTold};
ghost use Rattle.host_devices.specs.KeepTable.{empty_keep};
ghost use Rattle.machine_load.specs.RecordDisk.{RecordDisk, IsReadAnswered, IsBeginAnswered, begun_text, left_by_none};
ghost use Rattle.record_file.specs.DiskRecord.{HasBegun};
ghost use Rattle.record_file.specs.RecordFault.{IsUnbegun, IsUnread};
ghost use Rattle.record_file.specs.Known.{known_of};
ghost use Rattle.record_file.specs.Reading.{OldText, found_in};
ghost use Rattle.tape_image.specs.Plan.{PlanValue};

use host_devices::{Keep, MemoryKeep};
use record_file::{Disk, DiskRecord, OldRecord, RecordFault, RecordFile, Writable};
use std::alloc::Global;
use tape_image::Plan;

/// The record of a load, which is read once and then begun anew.
pub trait Records {
    /// Who keeps the progress of the life that begins.
    type Keeper: Keep + Drop;

    /// What a keeper is that was begun with so many words of a plan, where the type says it.
    ghost begins: { Self.Keeper → PlanValue → ℕ → Type 0 } = { λ _ _ _. ⊤ };

    /// What earlier lives left, where the type says it without a disk.
    ghost left: { Option OldText } = { None };

    /// The disk on which the record is, with what was asked of it; None where it is on none, or the type doesn't say.
    ghost disk: { Self → Option RecordDisk } = { λ _. None };

    /// The record of earlier lives, which from there on is held. It is changed in nothing.
    fn read(&mut self, alloc: Global) -> Result<OldRecord, RecordFault>
        ensures fault { IfErr result IsUnread }
        ensures left { IfOk result (λ old. IsAsTold left (found_in old)) }
        ensures disk { IsReadAnswered (disk self.old) (disk self.new) result };

    /// Writes the record anew, with the first verified words of the plan, and keeps it from there on.
    fn begin(
        &mut self,
        alloc: Global,
        plan: &Plan,
        verified: u32,
    ) -> Result<Self::Keeper, RecordFault>
        ensures keeper { IfOk result (λ keeper. begins keeper plan.now verified) }
        ensures fault { IfErr result IsUnbegun }
        ensures disk { IsBeginAnswered (begun_text plan.now verified) (disk self.old) (disk self.new) result };
}

impl<D: Disk + Drop> Records for RecordFile<'_, D> {
    type Keeper = DiskRecord<D::File>;

    ghost begins = { λ keeper plan count. HasBegun D.File.contents plan count keeper };

    ghost disk = { λ file. Some (record {
      asked = D.asked file.disk;
      name = file.name.now;
      known = option_map (known_of D.File.written) file.held;
      holds = D.holds file.disk file.name.now;
    }) };

    fn read(&mut self, alloc: Global) -> Result<OldRecord, RecordFault> {
        RecordFile::read(self, alloc)
    }

    fn begin(
        &mut self,
        alloc: Global,
        plan: &Plan,
        verified: u32,
    ) -> Result<DiskRecord<D::File>, RecordFault> {
        RecordFile::begin(self, alloc, plan, verified)
    }
}

/// A record in memory alone, so that a later life begins at the first word.
#[derive(Clone, Copy)]
pub struct InMemory;

impl Records for InMemory {
    type Keeper = MemoryKeep;

    ghost begins = { λ keeper plan count. keeper ≡ empty_keep (length plan.words + 1) None };

    ghost left = { Some left_by_none };

    fn read(&mut self, alloc: Global) -> Result<OldRecord, RecordFault> {
        Ok(OldRecord {
            text: Vec::new(alloc),
            writable: Writable::Anew,
        })
    }

    // Room for every word and the mark.
    fn begin(
        &mut self,
        alloc: Global,
        plan: &Plan,
        _verified: u32,
    ) -> Result<MemoryKeep, RecordFault> {
        let room = plan.words().len() as u32 + 1;
        match MemoryKeep::new(alloc, room, None) {
            Ok(keeper) => Ok(keeper),
            Err(_) => Err(RecordFault::Memory),
        }
    }
}
