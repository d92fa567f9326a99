// What a trial sees of a console's style, and of small letters.
ghost use Rattle.std.specs.Prelude.{◌≡◌};
ghost use Rattle.trial_core.specs.Style.{and_then, letters_seen, reply_seen, seen_after, shown, space_seen};

use crate::habit::{Habit, Seen};
use crate::letter::{SMALL_LETTER, SmallLetters};
use crate::phase::Phase;
use host_core::Heard;
use host_core::answers::{Reply, refusal_reply};
use host_core::console::{CARRIAGE_RETURN, LINE_FEED, QUESTION_MARK, RESYNCHRONISE, SPACE};

impl Habit {
    // What was seen, once it was seen again.
    fn and_then(self, now: Habit) -> Habit
        ensures { result ≡ and_then self now }
    {
        match (self, now) {
            (Habit::Unseen, seen) | (seen, Habit::Unseen) => seen,
            (Habit::Yes, Habit::Yes) => Habit::Yes,
            (Habit::No, Habit::No) => Habit::No,
            _ => Habit::Mixed,
        }
    }
}

impl Seen {
    /// Nothing was seen.
    pub(crate) const NOTHING: Seen = Seen {
        space_before: Habit::Unseen,
        two_returns: Habit::Unseen,
        echo_illegal: Habit::Unseen,
        small_letters: SmallLetters::NotKnown,
    };

    /// What was seen, once one thing more was heard in a phase.
    pub(crate) fn after(self, phase: Phase, heard: Heard) -> Seen
        ensures { result ≡ seen_after self phase heard }
    {
        let Heard::Got(c) = heard else {
            return self;
        };
        match phase {
            Phase::Sync(place) | Phase::Done(place) => self.after_reply(place, c),
            Phase::Before => self.after_space(c),
            Phase::Refused(letters, place) => {
                self.after_letter(letters, refusal_reply(SMALL_LETTER, place, c))
            }
            _ => self,
        }
    }

    // The answer to `Z`: its echo or `?`, and behind its first CR a second one or LF.
    fn after_reply(self, place: u8, c: u8) -> Seen
        ensures { result ≡ reply_seen self place c }
    {
        match place {
            0 => Seen {
                echo_illegal: self
                    .echo_illegal
                    .and_then(shown(RESYNCHRONISE, QUESTION_MARK, c)),
                ..self
            },
            3 => Seen {
                two_returns: self
                    .two_returns
                    .and_then(shown(CARRIAGE_RETURN, LINE_FEED, c)),
                ..self
            },
            _ => self,
        }
    }

    // The answer to the small letter: what its echo showed holds once the prompt is there.
    fn after_letter(self, letters: SmallLetters, reply: Reply) -> Seen
        ensures { result ≡ letters_seen self letters reply }
    {
        match reply {
            Reply::Over => Seen {
                small_letters: letters,
                ..self
            },
            Reply::On(_) | Reply::Wrong => self,
        }
    }

    // Behind the echo of `/`: a space, or the first digit.
    fn after_space(self, c: u8) -> Seen
        ensures { result ≡ space_seen self c }
    {
        let now = match c {
            SPACE => Habit::Yes,
            b'0' | b'1' => Habit::No,
            _ => Habit::Unseen,
        };
        Seen {
            space_before: self.space_before.and_then(now),
            ..self
        }
    }
}

// What a character shows that may be one of two.
fn shown(does: u8, does_not: u8, c: u8) -> Habit
    ensures { result ≡ shown does does_not c }
{
    if c == does {
        Habit::Yes
    } else if c == does_not {
        Habit::No
    } else {
        Habit::Unseen
    }
}
