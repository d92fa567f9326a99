//! What may be written over a text where it stands.
ghost use Rattle.std.specs.Prelude.{◌≡◌, ◌↔◌, IfOk, IsTrue, Some, false};
ghost use Rattle.load_record.specs.RecordText.{record_text};
ghost use Rattle.load_record.specs.declared.version.Version.TheVariants.{Second};
ghost use Rattle.record_file.specs.InPlace.{ChangesNoByte, IsFrontOf};

use load_record::FileKeep;
use std::alloc::{AllocError, Global};
use tape_image::Plan;

/// The record that begins with the first verified words of a plan, in memory.
pub(crate) fn begun_in_memory(
    alloc: Global,
    plan: &Plan,
    verified: u32,
) -> Result<FileKeep<Vec<u8>>, AllocError>
    ensures { IfOk result (λ keeper. keeper.text ≡ Some (record_text Second plan.now verified false)) }
{
    let mut keeper = FileKeep::new(Vec::new(alloc));
    match keeper.begin(plan, verified) {
        Ok(()) => Ok(keeper),
        Err(_) => Err(AllocError),
    }
}

/// Whether no byte that stands there becomes another one where a text is written over it: one of the two is a
/// front of the other.
pub(crate) fn changes_no_byte(text: &[u8], standing: &[u8]) -> bool
    ensures { IsTrue result ↔ ChangesNoByte text.now standing.now }
{
    if is_front(text, standing) {
        return true;
    }
    is_front(standing, text)
}

/// Whether a text begins with another one.
pub(crate) fn is_front(front: &[u8], text: &[u8]) -> bool
    ensures { IsTrue result ↔ IsFrontOf front.now text.now }
{
    text.starts_with(front)
}
