ghost use Rattle.std.specs.Prelude.{◌≡◌, ◌+◌, ◌≤◌, [], ◌∷◌, ◌++◌, length};
ghost use Rattle.octal.specs.Octal.{octal_text};
ghost use Rattle.odt_machine.specs.Answer.{prompt_text, refused_text, illegal_text, word_text};

use crate::character::{CARRIAGE_RETURN, LINE_FEED, PROMPT, QUESTION_MARK, SPACE};
use crate::style::Style;
use arrayvec::ArrayVec;
use octal::oct6;

/// What the console prints for one key. It has room for ten characters; the longest answer, an
/// opened word with a space before its digits, has nine.
pub type Answer = ArrayVec<u8, 10>;

/// Nothing, as a running machine answers.
pub(crate) fn silence() -> Answer
    ensures { result.items ≡ [] }
{
    ArrayVec::new()
}

/// The key alone, as the console echoes it.
pub(crate) fn echo(key: u8) -> Answer
    ensures { result.items ≡ key ∷ [] }
{
    let mut answer = ArrayVec::new();
    answer.push(key);
    answer
}

/// The end of the line and the prompt.
pub(crate) fn prompt(style: Style) -> Answer
    ensures { result.items ≡ prompt_text style }
{
    let mut answer = ArrayVec::new();
    push_prompt(&mut answer, style);
    answer
}

/// A command's key, and then that it was refused.
pub(crate) fn refused(style: Style, key: u8) -> Answer
    ensures { result.items ≡ refused_text style key }
{
    let mut answer = echo(key);
    answer.push(QUESTION_MARK);
    push_prompt(&mut answer, style);
    answer
}

/// The answer to a key that is illegal in its mode.
pub(crate) fn illegal(style: Style, key: u8) -> Answer
    ensures { result.items ≡ illegal_text style key }
{
    if style.echo_illegal {
        return refused(style, key);
    }
    let mut answer = echo(QUESTION_MARK);
    push_prompt(&mut answer, style);
    answer
}

/// The key that opened a word, and the word in octal.
pub(crate) fn opened(style: Style, key: u8, word: u16) -> Answer
    ensures { result.items ≡ key ∷ word_text style word }
{
    let mut answer = echo(key);
    if style.space_before {
        answer.push(SPACE);
    }
    push_digits(&mut answer, word);
    answer.push(SPACE);
    answer
}

// Adds the six octal digits of a word.
fn push_digits(answer: &mut Answer, word: u16)
    requires { length answer.old.items ≤ 4 }
    ensures { answer.new.items ≡ answer.old.items ++ octal_text word }
{
    for digit in oct6(word) {
        answer.push(digit);
    }
}

// Adds the end of the line and the prompt.
fn push_prompt(answer: &mut Answer, style: Style)
    requires { length answer.old.items ≤ 6 }
    ensures { answer.new.items ≡ answer.old.items ++ prompt_text style }
{
    answer.push(CARRIAGE_RETURN);
    if style.two_returns {
        answer.push(CARRIAGE_RETURN);
    }
    answer.push(LINE_FEED);
    answer.push(PROMPT);
}
