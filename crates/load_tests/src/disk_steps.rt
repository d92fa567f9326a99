//! What a disk is asked over a whole load, and over a whole save.

use crate::disk_loads::load_on_disk;
use crate::disk_saves::save_on_disk;
use crate::loads::{OPTIONS, RECORD, plan_of_one_word};
use crate::memory_consoles::{CALLED, MemoryConsoles, new_machine};
use crate::saves::{TAPE, one_word};
use machine_load::Around;
use machine_look::SaveEnd;
use record_file::RecordFile;
use std::fs;
use std::test::Fail;
use tape_shelf::NewFile;
use told_calls::ToldDisk;

// What a load asks whose record is not there: it is made, held and looked at before there is a line. Once there is one a
// new record is made beside it and held, and takes its place where the name still leads to it; then that is brought to
// the disk.
const LOADED: &str = "- look d.record\n\
    + open new d.record\n\
    + hold d.record\n\
    + look d.record\n\
    + sole d.record\n\
    + sole d.record\n\
    + open to read .\n\
    + open new d.record.ldaodt-new\n\
    + hold d.record.ldaodt-new\n\
    + look d.record\n\
    + rename d.record.ldaodt-new d.record\n\
    + sync folder .\n";

// What a load of one word asks of the disk for its record, where it comes to its end.
fn load_asks(rt: &HostRuntime) -> Option<String> {
    let alloc = rt.alloc();
    let around = Around {
        consoles: MemoryConsoles::new(alloc, new_machine(alloc)),
        dial: CALLED,
        records: RecordFile::new(ToldDisk::new(rt), "d.record"),
    };
    let mut report = Vec::new(alloc);
    let (outcome, disk) = load_on_disk(
        alloc,
        plan_of_one_word(alloc)?,
        OPTIONS,
        around,
        &mut report,
    );
    outcome.ok()?;
    disk.shown()
}

#[test]
fn a_record_is_read_and_then_begun(rt: HostRuntime) -> Result<(), Fail> {
    let _ = fs::remove_file(&rt, "d.record");
    let asked = load_asks(&rt);
    assert!(rt; asked.is_some_and(|asked| asked.as_str() == LOADED));
    assert!(rt; fs::read(&rt, "d.record")?.as_slice() == RECORD);
    Ok(fs::remove_file(&rt, "d.record")?)
}

// What a save asks of a file that is not there. Before the console is reached a file beside it is made in its folder, held,
// and filled with as many bytes as the tape is to have; that and its name are on the disk, and it is opened once more. Once
// the word was read the tape is on the disk before it has its name, as a second one; then that is, too, and the first goes.
// (`?` is the tape, which is no text.)
const SAVED: &str = "- look at name d.lda\n\
    + open to read .\n\
    + open new d.lda.part\n\
    + hold d.lda.part\n\
    + sync \0\0\0\0\0\0\0\0\0\0\0\0\0\0\0\0\n\
    + sync folder .\n\
    + open to write d.lda.part\n\
    + find d.lda.part \0\0\0\0\0\0\0\0\0\0\0\0\0\0\0\0\n\
    + cut ?\n\
    + sync ?\n\
    + find d.lda.part ?\n\
    + link d.lda.part d.lda\n\
    + sync folder .\n\
    + find d.lda.part ?\n\
    + remove d.lda.part\n";

// What a save of one word asks of the disk for its tape, where it comes to its end.
fn save_asks(rt: &HostRuntime) -> Option<String> {
    let alloc = rt.alloc();
    let (options, mut consoles) = one_word(alloc)?;
    let mut report = Vec::new(alloc);
    let mut shelf = NewFile::new(ToldDisk::new(rt), "d.lda");
    let end = save_on_disk(alloc, options, &mut shelf, &mut consoles, &mut report);
    let disk = shelf.close();
    if !matches!(end, Ok(SaveEnd::Saved)) {
        return None;
    }
    disk.shown()
}

#[test]
fn a_tape_is_on_the_disk_before_its_name(rt: HostRuntime) -> Result<(), Fail> {
    let _ = fs::remove_file(&rt, "d.lda");
    let _ = fs::remove_file(&rt, "d.lda.part");
    let asked = save_asks(&rt);
    assert!(rt; asked.is_some_and(|asked| asked.as_str() == SAVED));
    assert!(rt; fs::read(&rt, "d.lda")?.as_slice() == TAPE.as_slice());
    assert!(rt; fs::read(&rt, "d.lda.part").is_err());
    Ok(fs::remove_file(&rt, "d.lda")?)
}
