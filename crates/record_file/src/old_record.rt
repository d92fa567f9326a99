//! What the record's file held before a load.
ghost use Rattle.std.specs.Prelude.{◌≡◌, ◌↔◌, Contains, IfOk, IsTrue, OnErr, false};
ghost use Rattle.byte_io.specs.Text.{line_end};
ghost use Rattle.load_record.specs.RecordText.{record_text};
ghost use Rattle.load_record.specs.declared.version.Version.TheVariants.{Second};
ghost use Rattle.record_file.specs.OldRecord.{BeginsHeader, HoldsNoRecord, MayBecome};

use crate::in_place::{begun_in_memory, changes_no_byte, is_front};
use load_record::Version;
use std::alloc::{AllocError, Global};
use tape_image::Plan;

/// How a record may be begun anew over the one that was read.
#[derive(Clone, Copy)]
pub enum Writable {
    /// Not at all: its file may not be written, or is not there and can't be made.
    No,

    /// Only where no byte of it becomes another one: it is behind a link, or has a second name, so that a
    /// rename would not reach it.
    InPlace,

    /// Whatever stands in it: a rename reaches it, or it is a device.
    Anew,
}

/// The record of earlier lives.
#[derive(Drop)]
pub struct OldRecord {
    /// Its bytes: none where there is no file.
    pub text: Vec<u8>,

    /// How it may be begun anew.
    pub writable: Writable,
}

impl OldRecord {
    /// Whether the record of a plan's first verified words may be begun over this one.
    ///
    /// Where that is written in place, the two are compared; `AllocError` comes where there is no room for
    /// the new one then.
    pub fn may_become(&self, alloc: Global, plan: &Plan, verified: u32) -> Result<bool, AllocError>
        ensures means { IfOk result (λ may. IsTrue may ↔ MayBecome self.now.writable self.now.text.items (record_text Second plan.now verified false)) }
        ensures room { OnErr result (self.now.writable ≡ Writable.InPlace) }
    {
        match self.writable {
            Writable::No => Ok(false),
            Writable::InPlace => {
                let keeper = begun_in_memory(alloc, plan, verified)?;
                Ok(changes_no_byte(keeper.writer(), &self.text))
            }
            Writable::Anew => Ok(true),
        }
    }
}

/// Whether a text holds something that no load wrote, although it has no line that could be refused:
/// it is not empty, has no LF, and is no beginning of a header.
pub fn holds_no_record(text: &[u8]) -> bool
    ensures { IsTrue result ↔ HoldsNoRecord text.now }
{
    if has_line(text) {
        return false;
    }
    if begins(text, Version::First) {
        return false;
    }
    !begins(text, Version::Second)
}

// Whether a text is a beginning of a version's header.
fn begins(text: &[u8], version: Version) -> bool
    ensures { IsTrue result ↔ BeginsHeader version text.now }
{
    is_front(text, version.header())
}

/// Whether a text has a line: an LF stands in it.
pub(crate) fn has_line(text: &[u8]) -> bool
    ensures { IsTrue result ↔ Contains text.now line_end }
{
    text.contains(&b'\n')
}
