ghost use Rattle.std.specs.Prelude.{◌≡◌};
ghost use Rattle.host_core.specs.Core.{start_of, word_under_way};
ghost use Rattle.host_core.specs.Foreign.{in_prompt, in_reading, in_refusal, may_come};

use super::HostCore;
use crate::answers::digit;
use crate::console::{CARRIAGE_RETURN, GO, LINE_FEED, PROMPT, QUESTION_MARK, SLASH, SPACE};
use crate::phase::Phase;
use crate::table;

impl HostCore {
    /// Whether the answer that is awaited may have the character.
    pub(super) fn may_come(&self, c: u8) -> bool
        ensures { result ≡ may_come self.now.careful (word_under_way self.now).address (start_of self.now) self.now.phase c }
    {
        match self.life.phase {
            Phase::Settle | Phase::Ended(_) => true,
            Phase::Sync(_) => c == table::resynchronise(self.careful) || is_in_refusal(c),
            Phase::Address(_, place) => c == digit(self.word().address(), place),
            Phase::Slash(_) => c == SLASH || is_in_reading(c) || is_in_refusal(c),
            Phase::Before(_) => is_in_reading(c) || is_in_refusal(c),
            Phase::Value(..) => is_in_reading(c),
            Phase::Deposit(_, value, place) => c == digit(value, place),
            Phase::Return(..) => is_in_prompt(c),
            Phase::Start(place) => c == digit(self.start(), place),
            Phase::Go => c == GO,
        }
    }
}

// Whether a new line with the prompt has the character.
fn is_in_prompt(c: u8) -> bool
    ensures { result ≡ in_prompt c }
{
    matches!(c, CARRIAGE_RETURN | LINE_FEED | PROMPT)
}

// Whether a refusal has it.
fn is_in_refusal(c: u8) -> bool
    ensures { result ≡ in_refusal c }
{
    c == QUESTION_MARK || is_in_prompt(c)
}

// Whether a reading has it.
fn is_in_reading(c: u8) -> bool
    ensures { result ≡ in_reading c }
{
    matches!(c, SPACE | b'0'..=b'7')
}
