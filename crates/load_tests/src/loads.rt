//! A load of one word: in which order it asks, and what its record is then.

use crate::load_step::LoadStep;
use crate::memory_consoles::new_machine;
use crate::told_bench::{ToldBench, load_in_order, load_once};
use machine_load::LoadFault;
use record_file::Writable;
use request_values::LoadOptions;
use std::alloc::Global;
use std::process::Abort;
use tape_blocks::read_tape;
use tape_image::Plan;

/// The smallest tape with a word: 011064 at 001000, where it starts.
const ONE_WORD: [u8; 16] = [
    0x01, 0x00, 0x08, 0x00, 0x00, 0x02, 0x34, 0x12, 0xAF, 0x01, 0x00, 0x06, 0x00, 0x00, 0x02, 0xF7,
];

/// The plan of that tape, or none for want of memory.
pub(crate) fn plan_of_one_word(alloc: Global) -> Option<Plan> {
    let (tape, _) = read_tape(alloc, &ONE_WORD).ok()?;
    Plan::of(alloc, &tape).ok()
}

/// Eight mishaps are survived, and what the record says is believed.
pub(crate) const OPTIONS: LoadOptions = LoadOptions {
    patience: 8,
    recheck: false,
    fast: false,
    careful: false,
};

/// The whole record of such a load.
pub(crate) const RECORD: &[u8] = b"LDAODT 2\n001000 011064\nG\n";

// Whether a load has asked for everything, in its order, and another behind it for the record alone, since the start
// was typed.
fn are_of_two(steps: &[LoadStep]) -> bool {
    matches!(
        steps,
        [
            LoadStep::RecordRead(Writable::Anew),
            LoadStep::Connected,
            LoadStep::RecordBegun,
            LoadStep::RecordGivenBack,
            LoadStep::RecordRead(Writable::Anew),
        ]
    )
}

// Whether one load types the start and the next one has no line, and the record is whole then, also on the disk.
fn is_loaded_once<R: Abort>(bench: &mut ToldBench<'_, R>, alloc: Global) -> Option<bool> {
    let mut report = Vec::new(alloc);
    let first = load_once(alloc, plan_of_one_word(alloc)?, OPTIONS, bench, &mut report).ok()?;
    let second = load_once(alloc, plan_of_one_word(alloc)?, OPTIONS, bench, &mut report).ok()?;
    let is_whole = bench.record() == RECORD && bench.left() == RECORD;
    Some(first.line.is_some() && second.line.is_none() && is_whole && are_of_two(&bench.steps))
}

#[test]
fn a_load_that_was_started_is_over(rt: HostRuntime) {
    let mut bench = ToldBench::new(&rt, rt.alloc(), new_machine(rt.alloc()));
    assert!(rt; is_loaded_once(&mut bench, rt.alloc()) == Some(true));
}

// Whether a load without a machine has read its record, then asked for a connection in vain, and nothing more.
fn is_in_vain<R: Abort>(bench: &mut ToldBench<'_, R>, alloc: Global) -> Option<bool> {
    let mut report = Vec::new(alloc);
    let fault = load_in_order(alloc, plan_of_one_word(alloc)?, OPTIONS, bench, &mut report).err()?;
    let steps = bench.steps.as_slice();
    Some(
        matches!(fault, LoadFault::Connect)
            && matches!(
                steps,
                [LoadStep::RecordRead(Writable::Anew), LoadStep::NotConnected]
            )
            && bench.record().is_empty()
            && bench.lines.is_empty(),
    )
}

#[test]
fn the_record_is_read_before_the_connection(rt: HostRuntime) {
    let mut bench = ToldBench::new(&rt, rt.alloc(), None);
    assert!(rt; is_in_vain(&mut bench, rt.alloc()) == Some(true));
}
