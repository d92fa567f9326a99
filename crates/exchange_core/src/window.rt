//! The window in which a stub lies.
ghost use Rattle.std.specs.Prelude.{◌≡◌, ℕ, ◌+◌, ◌<◌, ◌≤◌, length, IfSome};
ghost use Rattle.exchange_core.specs.Window.{IsFirstTogether, IsNoLower, IsWindow};

use tape_image::{BOTH_BYTES, Plan, Word};

/// The number of the word at which a stub of so many words lies: the highest behind the first `from`
/// words and at least one more, at which so many whole words follow one another. None where there is
/// no such word.
pub fn window_for(plan: &Plan, from: u32, size: u32) -> Option<u32>
    requires some { 0 < size }
    ensures window { IfSome result (IsWindow plan.now.words from size) }
    ensures highest { (i : ℕ) → IsWindow plan.now.words from size i → IsNoLower result i }
{
    let words = plan.words();
    let mut window = None;
    let mut first = from as usize + 1;
    for number in from as usize + 1..words.len() {
        first = first_together(words, from, first, number);
        if number + 1 - first >= size as usize {
            window = Some((number + 1) as u32 - size);
        }
    }
    window
}

// The first word from which on all up to this one are whole and follow one another, where `first` is
// that for the word before; the number behind this one if it is not whole.
fn first_together(words: &[Word], from: u32, first: usize, number: usize) -> usize
    requires is { IsFirstTogether words.now from first number }
    requires within { number < length words.now }
    requires few { length words.now < 65536 }
    ensures { IsFirstTogether words.now from result (number + 1) }
{
    let word = words[number];
    if word.mask() != BOTH_BYTES {
        return number + 1;
    }
    if first == number {
        return number;
    }
    if words[number - 1].address() + 2 == word.address() {
        first
    } else {
        number
    }
}
