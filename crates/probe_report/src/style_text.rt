//! What a probe prints of a console's style and of small letters.
ghost use Rattle.std.specs.Prelude.{◌≡◌, ◌+◌, ◌≤◌, ◌++◌, length, codes, decimal};
ghost use Rattle.arrayvec.specs.ArrayVec.{array_vec_len};
ghost use Rattle.byte_io.specs.Text.{line};
ghost use Rattle.probe_report.specs.StyleText.{is_done, is_seen, letters_text, mishap_text};
ghost use Rattle.probe_report.specs.StyleText.{mixed_lines, number_lines, seen_lines, style_lines, style_of};

use crate::findings::TrialFindings;
use crate::report::Report;
use byte_io::{push_bytes, push_decimal};
use odt_machine::Style;
use trial_core::{Habit, Seen, SmallLetters};

/// Puts the lines of the style that a trial saw and of small letters, if there was one.
pub(crate) fn push_style(text: &mut Report, trial: Option<TrialFindings>)
    requires { array_vec_len text.old ≤ 300 }
    ensures items { text.new.items ≡ text.old.items ++ style_lines trial }
    ensures length { array_vec_len text.new ≤ array_vec_len text.old + 362 }
{
    let Some(trial) = trial else {
        return;
    };
    push_seen(text, trial.seen, trial.had_mishap);
    push_letters(text, trial.seen.small_letters);
}

fn push_letters(text: &mut Report, letters: SmallLetters)
    requires { array_vec_len text.old ≤ 700 }
    ensures items { text.new.items ≡ text.old.items ++ line (letters_text letters) }
    ensures length { array_vec_len text.new ≤ array_vec_len text.old + 48 }
{
    match letters {
        SmallLetters::NotKnown => push_bytes(text, b"keeps small letters not known\n"),
        SmallLetters::Kept => push_bytes(text, b"keeps small letters yes\n"),
        SmallLetters::Folded => {
            push_bytes(text, b"keeps small letters no: do not load with --fast\n");
        }
    }
}

fn push_seen(text: &mut Report, seen: Seen, had_mishap: bool)
    requires { array_vec_len text.old ≤ 300 }
    ensures items { text.new.items ≡ text.old.items ++ seen_lines seen had_mishap }
    ensures length { array_vec_len text.new ≤ array_vec_len text.old + 314 }
{
    push_number(text, seen);
    push_mixed(text, b"the second CR", seen.two_returns, had_mishap);
    push_mixed(
        text,
        b"the space before a word",
        seen.space_before,
        had_mishap,
    );
    push_mixed(
        text,
        b"the echo of an illegal key",
        seen.echo_illegal,
        had_mishap,
    );
}

// Puts the style's number, where all of it was seen.
fn push_number(text: &mut Report, seen: Seen)
    requires { array_vec_len text.old ≤ 300 }
    ensures items { text.new.items ≡ text.old.items ++ number_lines seen }
    ensures length { array_vec_len text.new ≤ array_vec_len text.old + 27 }
{
    if is_seen(seen.space_before) && is_seen(seen.two_returns) && is_seen(seen.echo_illegal) {
        push_style_number(text, style_of(seen).number());
    }
}

fn push_style_number(text: &mut Report, number: u8)
    requires { array_vec_len text.old ≤ 300 }
    ensures items { text.new.items ≡ text.old.items ++ line (codes "style " ++ decimal number) }
    ensures length { array_vec_len text.new ≤ array_vec_len text.old + 27 }
{
    push_bytes(text, b"style ");
    push_decimal(text, number.into());
    push_bytes(text, b"\n");
}

// The style that was seen. What comes from time to time counts as there.
fn style_of(seen: Seen) -> Style
    ensures { result ≡ style_of seen }
{
    Style {
        space_before: is_done(seen.space_before),
        two_returns: is_done(seen.two_returns),
        echo_illegal: is_done(seen.echo_illegal),
    }
}

fn is_seen(habit: Habit) -> bool
    ensures { result ≡ is_seen habit }
{
    match habit {
        Habit::Unseen => false,
        Habit::Yes | Habit::No | Habit::Mixed => true,
    }
}

fn is_done(habit: Habit) -> bool
    ensures { result ≡ is_done habit }
{
    match habit {
        Habit::Yes | Habit::Mixed => true,
        Habit::Unseen | Habit::No => false,
    }
}

// Puts the line of a thing that was seen both ways.
fn push_mixed(text: &mut Report, name: &[u8], habit: Habit, had_mishap: bool)
    requires room { array_vec_len text.old ≤ 600 }
    requires name { length name.now ≤ 26 }
    ensures items { text.new.items ≡ text.old.items ++ mixed_lines name.now habit had_mishap }
    ensures length { array_vec_len text.new ≤ array_vec_len text.old + length name.now + 75 }
{
    let Habit::Mixed = habit else {
        return;
    };
    push_bytes(text, name);
    push_bytes(text, b" comes from time to time");
    push_mishap(text, had_mishap);
    push_bytes(text, b"\n");
}

fn push_mishap(text: &mut Report, had_mishap: bool)
    requires { array_vec_len text.old ≤ 700 }
    ensures items { text.new.items ≡ text.old.items ++ mishap_text had_mishap }
    ensures length { array_vec_len text.new ≤ array_vec_len text.old + 50 }
{
    if had_mishap {
        push_bytes(text, b", which says nothing of the console after a mishap");
    }
}
