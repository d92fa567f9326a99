ghost use Rattle.std.specs.Prelude.{◌≡◌, ℕ, ◌%◌, ◌<◌, ◌↔◌, IsTrue, IsSome, IfSome};
ghost use Rattle.tape_values.specs.Block.{top};
ghost use Rattle.tape_image.specs.Memory.{half};
ghost use Rattle.tape_image.specs.Word.{IsWord, IsInside, covers, merged, merged_half, Stands};
ghost use Rattle.tape_image.specs.Plan.{word_of};

use std::marker::Model;
use tape_values::TOP;

/// The mask of the low byte, at the word's own address.
pub const LOW_BYTE: u16 = 0o377;

/// The mask of the high byte, at the next address.
pub const HIGH_BYTE: u16 = 0o177400;

/// The mask of both bytes.
pub const BOTH_BYTES: u16 = 0o177777;

// How many values a byte has: a word is its low byte plus so many times its high byte.
const BYTE: u16 = 256;

/// A word of a tape's image: an address, and the bits that the tape has for the word there.
///
/// The address is even and below 160000 (octal). The mask says which bytes of the word are the
/// tape's: 000377 the low one, 177400 the high one, 177777 both. The value has these bytes, and 0
/// outside the mask. Contracts see the record of the three.
#[derive(Clone, Copy)]
pub struct Word {
    address: u16,
    mask: u16,
    value: u16,
}

impl Model for Word {
    ghost use Rattle.tape_image.specs.Word.{WordValue, word_code, IsWord};

    ghost Value = { WordValue };

    ghost coded = { word_code };

    ghost view = { λ w. record { address = w.address; mask = w.mask; value = w.value } };

    ghost invariant = { λ w. IsWord (record { address = w.address; mask = w.mask; value = w.value }) };

    ghost inverse = { λ w. record { address = w.address; mask = w.mask; value = w.value } };
}

impl Word {
    /// The word of this address, mask and value. None where the address is odd or not below 160000
    /// (octal), the mask is none of the three, or the value has a bit outside the mask.
    pub fn new(address: u16, mask: u16, value: u16) -> Option<Word>
        ensures made { IsSome result ↔ IsWord (record { address = address; mask = mask; value = value }) }
        ensures value { IfSome result (λ word. word ≡ record { address = address; mask = mask; value = value }) }
    {
        if address % 2 == 0 && address < TOP as u16 && is_inside(mask, value) {
            Some(Word {
                address,
                mask,
                value,
            })
        } else {
            None
        }
    }

    /// The word of these bytes of an image, at an even address and the next, if there is one.
    pub(crate) fn of_bytes(address: u16, low: Option<u8>, high: Option<u8>) -> Option<Word>
        requires even { address % 2 ≡ 0 }
        requires below { address < top }
        ensures { result ≡ word_of address low high }
    {
        let (mask, value) = match (low, high) {
            (None, None) => return None,
            (Some(low), None) => (LOW_BYTE, u16::from(low)),
            (None, Some(high)) => (HIGH_BYTE, BYTE * u16::from(high)),
            (Some(low), Some(high)) => (BOTH_BYTES, u16::from(low) + BYTE * u16::from(high)),
        };
        Some(Word {
            address,
            mask,
            value,
        })
    }

    /// The address of the word, and of its low byte: even, and below 160000 (octal).
    pub fn address(self) -> u16
        ensures value { result ≡ self.address }
        ensures sound { IsWord self }
    {
        self.address
    }

    /// The mask: 000377, 177400 or 177777 (octal).
    pub fn mask(self) -> u16
        ensures value { result ≡ self.mask }
        ensures sound { IsWord self }
    {
        self.mask
    }

    /// The bits under the mask, and 0 outside it.
    pub fn value(self) -> u16
        ensures value { result ≡ self.value }
        ensures sound { IsWord self }
    {
        self.value
    }

    // Whether the low byte is the tape's.
    fn has_low(self) -> bool
        ensures { result ≡ covers 0 self.mask }
    {
        matches!(self.mask, LOW_BYTE | BOTH_BYTES)
    }

    // Whether the high byte is the tape's.
    fn has_high(self) -> bool
        ensures { result ≡ covers 1 self.mask }
    {
        matches!(self.mask, HIGH_BYTE | BOTH_BYTES)
    }
}

// Whether the mask is one of the three, and the value has no bit outside it.
fn is_inside(mask: u16, value: u16) -> bool
    ensures { IsTrue result ↔ IsInside mask value }
{
    match mask {
        LOW_BYTE => value / BYTE == 0,
        HIGH_BYTE => value % BYTE == 0,
        BOTH_BYTES => true,
        _ => false,
    }
}

/// The word of memory after `word` is laid over `old`: the value's bits inside the mask, and the old
/// ones outside.
pub fn merge(word: Word, old: u16) -> u16
    ensures value { result ≡ merged word old }
    ensures halves { (b : ℕ) → half b result ≡ merged_half b word old }
    ensures stands { Stands word result }
    ensures unchanged { Stands word old → result ≡ old }
{
    let low = if word.has_low() { word.value } else { old };
    let high = if word.has_high() { word.value } else { old };
    low % BYTE + BYTE * (high / BYTE)
}

/// Whether a word of memory has the value's bits inside the mask, whatever it has outside.
pub fn stands(word: Word, now: u16) -> bool
    ensures stands { IsTrue result ↔ Stands word now }
    ensures merged { IsTrue result ↔ (merged word now ≡ now) }
{
    let low = !word.has_low() || now % BYTE == word.value % BYTE;
    let high = !word.has_high() || now / BYTE == word.value / BYTE;
    low && high
}
