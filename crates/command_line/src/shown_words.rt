//! Words as a refusal shows them: control characters by their escapes.

use endings::shown_character;
use std::alloc::{AllocError, Global};

/// Whether one of these words has a control character.
pub(crate) fn have_control(words: &[String]) -> bool {
    words.iter().any(|word| word.chars().any(char::is_control))
}

/// These words, as they are shown.
pub(crate) fn shown_words(alloc: Global, words: &[String]) -> Result<Vec<String>, AllocError> {
    let mut shown = Vec::new(alloc);
    for word in words {
        shown.push(shown_word(alloc, word)?)?;
    }
    Ok(shown)
}

// A word, as it is shown.
fn shown_word(alloc: Global, word: &str) -> Result<String, AllocError> {
    let mut shown = String::new(alloc);
    for character in word.chars() {
        shown.push_str(&shown_character(character))?;
    }
    Ok(shown)
}
