//! What was seen in a bank of 4,096 words.
ghost use Rattle.std.specs.Prelude.{◌≡◌, ◌<◌};
ghost use Rattle.memory_report.specs.Words.{bad_in, bank_of, column, count_bad, gap_in, join, tested_in};

use crate::findings::Word;
use crate::verdict::Verdict;

/// How many bytes a bank has.
pub(crate) const BANK: u16 = 0o20000;

/// The bank of an address.
pub(crate) fn bank_of(address: u16) -> u16
    ensures { result ≡ bank_of address }
{
    address / BANK
}

/// What was seen of a bit in the tested words of a bank, if one was tested.
pub(crate) fn column(words: &[Word], bank: u16, bit: u8) -> Option<Verdict>
    requires { bit < 16 }
    ensures { result ≡ column words.now bank bit }
{
    let mut seen = None;
    for word in words {
        seen = join(seen, *word, bank, bit);
    }
    seen
}

// What was seen of the bit, once one word more was tested.
fn join(seen: Option<Verdict>, word: Word, bank: u16, bit: u8) -> Option<Verdict>
    requires { bit < 16 }
    ensures { result ≡ join bank bit seen word }
{
    if bank_of(word.address) != bank {
        return seen;
    }
    match (seen, Verdict::of(word.seen, bit)) {
        (Some(earlier), Some(verdict)) => Some(earlier.and_then(verdict)),
        (None, verdict) => verdict,
        (Some(earlier), None) => Some(earlier),
    }
}

/// How many words of a bank were tested.
pub(crate) fn tested_in(words: &[Word], bank: u16) -> u64
    ensures value { result ≡ tested_in words.now bank }
{
    let mut count = 0;
    for word in words {
        if bank_of(word.address) == bank {
            count += 1;
        }
    }
    count
}

/// How many words of a bank do not hold.
pub(crate) fn bad_in(words: &[Word], bank: u16) -> u64
    ensures value { result ≡ bad_in words.now bank }
{
    let mut count = 0;
    for word in words {
        if bank_of(word.address) == bank && word.is_bad() {
            count += 1;
        }
    }
    count
}

/// How many words do not hold.
pub(crate) fn count_bad(words: &[Word]) -> u64
    ensures value { result ≡ count_bad words.now }
{
    let mut count = 0;
    for word in words {
        if word.is_bad() {
            count += 1;
        }
    }
    count
}

/// The address in a bank at which nothing answered, if there is one.
pub(crate) fn gap_in(gaps: &[u16], bank: u16) -> Option<u16>
    ensures { result ≡ gap_in gaps.now bank }
{
    let mut found = None;
    for gap in gaps {
        if bank_of(*gap) == bank {
            found = Some(*gap);
        }
    }
    found
}
