//! The bytes of a word of the plan.
ghost use Rattle.std.specs.Prelude.{◌≡◌};
ghost use Rattle.exchange_core.specs.Chunking.{bytes_of};

use crate::stretch::Stretch;
use tape_image::{HIGH_BYTE, LOW_BYTE, Word};

/// The addresses of the word's bytes: one, or both.
pub(crate) fn bytes_of(word: Word) -> Stretch
    ensures { result ≡ bytes_of word }
{
    let address = word.address();
    match word.mask() {
        LOW_BYTE => Stretch {
            from: address,
            to: address + 1,
        },
        HIGH_BYTE => Stretch {
            from: address + 1,
            to: address + 2,
        },
        _ => Stretch {
            from: address,
            to: address + 2,
        },
    }
}
