//! The record's file over a whole load.
ghost use Rattle.std.specs.Prelude.{◌≡◌, None, false, IfErr, IfOk, IsSome, OnErr, OnOk, MatchOption, option_map};
ghost use Rattle.record_file.specs.Known.{IsNoDevice, IsUntouched, known_of};
ghost use Rattle.record_file.specs.Beginning.{IsBegun, IsNotBegun, IsRecordClosed, Remains};
ghost use Rattle.record_file.specs.DiskRecord.{HasBegun};
ghost use Rattle.host_devices.specs.Told.{HasAsked};
ghost use Rattle.record_file.specs.InPlace.{HasRead, MayBeWrittenOver};
ghost use Rattle.load_record.specs.RecordText.{record_text};
ghost use Rattle.load_record.specs.declared.version.Version.TheVariants.{Second};
ghost use Rattle.record_file.specs.OldRecord.{IsWritable};
ghost use Rattle.record_file.specs.Reading.{IsRead, IsReadOf, IsNotRead, found_in};
ghost use Rattle.record_file.specs.RecordFault.{IsUnbegun, IsUnread};

use crate::disk::Disk;
use crate::disk_record::{DiskRecord, begin_beside, begin_in_place};
use crate::held_file::{HeldFile, hold, let_go, way_over};
use crate::old_record::{OldRecord, Writable};
use crate::record_fault::RecordFault;
use std::alloc::Global;
use tape_image::Plan;

/// A record in a file, which is held from its reading on until this value is closed.
///
/// Whoever lets it go without closing it leaves the empty file that its reading may have made.
#[derive(Drop)]
pub struct RecordFile<'a, D: Disk + Drop> {
    disk: D,
    name: &'a str,
    held: Option<HeldFile<D::File>>,
}

impl<'a, D: Disk + Drop> RecordFile<'a, D> {
    /// The record in the file of this name.
    pub fn new(disk: D, name: &'a str) -> RecordFile<'a, D>
        ensures disk { result.disk ≡ disk }
        ensures name { result.name.now ≡ name.now }
        ensures held { option_map (known_of D.File.written) result.held ≡ None }
    {
        RecordFile {
            disk,
            name,
            held: None,
        }
    }

    /// What the file holds, which is held from there on, and how it may be begun anew: so what can't be is known
    /// before anything else is done. One that is not there is made, and is an empty record; one that can't be made
    /// is an empty record that may not be written.
    ///
    /// `Read` comes where it can't be read, or is neither a plain file nor a character device, `InUse`
    /// where another load holds it, `Memory` where a growth is refused.
    pub fn read(&mut self, alloc: Global) -> Result<OldRecord, RecordFault>
        ensures fault { IfErr result IsUnread }
        ensures name { self.new.name.now ≡ self.old.name.now }
        ensures writable { IfOk result (λ old. IsWritable old.writable → IsSome self.new.held) }
        ensures standing { IfOk result (λ old. IsWritable old.writable → MatchOption self.new.held ⊥ (HasRead (λ standing. standing ≡ old.text.items))) }
        ensures text { IfOk result (λ old. self.old.held ≡ None → IsSome self.new.held → IsReadOf (D.holds self.old.disk self.old.name.now) old.text.items) }
        ensures plain { OnOk result (self.old.held ≡ None → IsNoDevice (D.holds self.old.disk self.old.name.now) (option_map (known_of D.File.written) self.new.held)) }
        ensures untouched { OnOk result (self.old.held ≡ None → IsUntouched (D.asked self.new.disk) (option_map (known_of D.File.written) self.new.held)) }
        ensures asked { IfOk result (λ old. HasAsked (D.asked self.old.disk) (D.asked self.new.disk)
            (IsRead self.old.name.now (found_in old) (option_map (known_of D.File.written) self.old.held)
            (option_map (known_of D.File.written) self.new.held))) }
        ensures failed { IfErr result (λ _. HasAsked (D.asked self.old.disk) (D.asked self.new.disk) (IsNotRead self.old.name.now)) }
        ensures kept { OnErr result (option_map (known_of D.File.written) self.new.held ≡ option_map (known_of D.File.written) self.old.held) }
    {
        let Some(mut held) = hold(&mut self.disk, self.name)? else {
            return Ok(OldRecord {
                text: Vec::new(alloc),
                writable: Writable::No,
            });
        };
        match held.read(alloc) {
            Ok(text) => {
                let writable = way_over(&mut self.disk, self.name, &held);
                self.held = Some(held);
                Ok(OldRecord { text, writable })
            }
            Err(fault) => {
                let_go(&mut self.disk, self.name, held);
                Err(fault)
            }
        }
    }

    /// Begins the record anew, with the first verified words of a plan: beside the file that was read,
    /// and then in its place, or where that can't be done, over it.
    ///
    /// The old file is held to the end, also where another has its name now: a load may have opened it.
    /// The fault is `Write`, where the new record can't be written, or none was read, or its name leads elsewhere
    /// by now; or `Memory`.
    ///
    /// Where no old file is held any more, the record was written over it, and no byte of it became another one.
    ///
    /// A record that was begun remains where it is, also once it is closed; of one that was not no file is held
    /// any more.
    pub fn begin(
        &mut self,
        alloc: Global,
        plan: &Plan,
        verified: u32,
    ) -> Result<DiskRecord<D::File>, RecordFault>
        ensures begun { IfOk result (HasBegun D.File.contents plan.now verified) }
        ensures fault { IfErr result IsUnbegun }
        ensures name { self.new.name.now ≡ self.old.name.now }
        ensures asked { OnOk result (MatchOption (option_map (known_of D.File.written) self.old.held) ⊥ (λ known.
            HasAsked (D.asked self.old.disk) (D.asked self.new.disk) (IsBegun self.old.name.now known (record_text Second plan.now verified false)))) }
        ensures failed { OnErr result (MatchOption (option_map (known_of D.File.written) self.old.held)
            (D.asked self.new.disk ≡ D.asked self.old.disk) (λ known. HasAsked (D.asked self.old.disk) (D.asked self.new.disk)
            (IsNotBegun self.old.name.now known (record_text Second plan.now verified false)))) }
        ensures remains { OnOk result (Remains (option_map (known_of D.File.written) self.new.held)) }
        ensures over { OnOk result (option_map (known_of D.File.written) self.new.held ≡ None
            → MatchOption self.old.held ⊥ (MayBeWrittenOver (record_text Second plan.now verified false))) }
        ensures not_held { OnErr result (option_map (known_of D.File.written) self.new.held ≡ None) }
    {
        let Some(mut held) = self.held.take() else {
            return Err(RecordFault::Write);
        };
        match begin_beside(&mut self.disk, self.name, &mut held, alloc, plan, verified) {
            Ok(Some(keeper)) => {
                self.held = Some(held);
                Ok(keeper)
            }
            Ok(None) => begin_in_place(&mut self.disk, self.name, held, alloc, plan, verified),
            Err(fault) => {
                let_go(&mut self.disk, self.name, held);
                Err(fault)
            }
        }
    }

    /// Lets the file go, and gives the disk back.
    ///
    /// Where the load made the file under this very name, and nothing was written to it, it is removed, while it
    /// is held. One that was made where a link leads to stays, empty.
    pub fn close(self) -> D
        ensures asked { HasAsked (D.asked self.entry.disk) (D.asked result)
            (IsRecordClosed self.entry.name.now (option_map (known_of D.File.written) self.entry.held)) }
    {
        let RecordFile {
            mut disk,
            name,
            held,
        } = self;
        let Some(held) = held else {
            return disk;
        };
        let_go(&mut disk, name, held);
        disk
    }
}
