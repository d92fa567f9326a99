//! The words that a core tested.
ghost use Rattle.std.specs.Prelude.{◌≡◌, ◌≤◌, ◌++◌, length, OnOk};
ghost use Rattle.machine_memory.specs.Words.{words_of};

use memory_core::Seen;
use memory_report::Word;
use std::alloc::AllocError;

/// Puts the words at these addresses, of which this was read, behind those that were tested before.
pub(crate) fn push_words(
    words: &mut Vec<Word>,
    addresses: &[u16],
    seen: &[Seen],
) -> Result<(), AllocError>
    requires { length seen.now ≤ length addresses.now }
    ensures { OnOk result (words.new.items ≡ words.old.items ++ words_of addresses.now seen.now) }
{
    for (place, seen) in seen.iter().enumerate() {
        words.push(Word {
            address: addresses[place],
            seen: *seen,
        })?;
    }
    Ok(())
}
