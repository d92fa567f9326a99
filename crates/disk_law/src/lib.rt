//! Why a record and a saved tape survive a crash: a disk as a table, and what the calls leave on it by which they come there.
//!
//! `Disk` in specs has the table, one equation a call, and the crash. Each function here does nothing: its contract is a law,
//! over the calls that the contracts of `record_file` and `tape_shelf` tell. No crate stands on this one.
#![tactic(auto)]

ghost use Rattle.disk_law.specs.Laws.{AppendsLast, ANewRecordIsDurable, ANewRecordStays, ARecordIsKept, FoldersAreKept};
ghost use Rattle.disk_law.specs.Laws.{InPlaceKeeps, SyncsAreNeeded, WhatIsRenamedIsSeen, WhatIsSyncedIsOnDisk};
ghost use Rattle.disk_law.specs.Lives.{AppendsAreStops, BeginningsAreStops};
ghost use Rattle.disk_law.specs.Removing.{OnlyItsOwnFileGoes};
ghost use Rattle.disk_law.specs.Shelf.{APartBegins, ATapeComesWhole, ATapeStays, BlocksLast};

/// Behind any of the calls that begin a record beside the old one a crash leaves the old record or the new one, whole. This function does
/// nothing: its contract is the law.
pub fn a_record_is_kept()
    ensures { ARecordIsKept }
{}

/// Behind all of them it leaves the new one. This function does nothing: its contract is the law.
pub fn a_new_record_stays()
    ensures { ANewRecordStays }
{}

/// Behind all of them it is durable under its name: what appends go on from. This function does nothing: its contract is the law.
pub fn a_new_record_is_durable()
    ensures { ANewRecordIsDurable }
{}

/// What is written to a new file and synced is on the disk. This function does nothing: its contract is the law.
pub fn what_is_synced_is_on_disk()
    ensures { WhatIsSyncedIsOnDisk }
{}

/// What is renamed is seen so, and goes on from there. This function does nothing: its contract is the law.
pub fn what_is_renamed_is_seen()
    ensures { WhatIsRenamedIsSeen }
{}

/// What is appended and synced lasts, so the mark. This function does nothing: its contract is the law.
pub fn appends_last()
    ensures { AppendsLast }
{}

/// A record that is written in place is the old one, the new one or between. This function does nothing: its contract is the law.
pub fn in_place_keeps()
    ensures { InPlaceKeeps }
{}

/// A file is found again once its folder is synced, whoever made it. This function does nothing: its contract is the law.
pub fn folders_are_kept()
    ensures { FoldersAreKept }
{}

/// Each sync is needed. This function does nothing: its contract is the law.
pub fn syncs_are_needed()
    ensures { SyncsAreNeeded }
{}

/// A load takes FILE away only where it made it. This function does nothing: its contract is the law.
pub fn only_its_own_file_goes()
    ensures { OnlyItsOwnFileGoes }
{}

/// Behind any of the calls that give a saved tape its name a crash leaves FILE whole or not at all. This function does nothing: its contract is the law.
pub fn a_tape_comes_whole()
    ensures { ATapeComesWhole }
{}

/// Behind all of them it leaves FILE whole. This function does nothing: its contract is the law.
pub fn a_tape_stays()
    ensures { ATapeStays }
{}

/// FILE.part is found again once it was made, or taken up: blocks begin in it. This function does nothing: its contract is the law.
pub fn a_part_begins()
    ensures { APartBegins }
{}

/// Each block that was added to a tape is found in FILE.part. This function does nothing: its contract is the law.
pub fn blocks_last()
    ensures { BlocksLast }
{}

/// Where a crash comes while a record is begun, what it leaves of FILE is what a stopped life leaves. This function does nothing: its contract
/// is the law.
pub fn beginnings_are_stops()
    ensures { BeginningsAreStops }
{}

/// So it is where the crash comes later. This function does nothing: its contract is the law.
pub fn appends_are_stops()
    ensures { AppendsAreStops }
{}
