//! The report of a probe.
ghost use Rattle.std.specs.Prelude.{◌≡◌, ◌+◌, ◌≤◌, ◌++◌, [], codes, decimal};
ghost use Rattle.arrayvec.specs.ArrayVec.{array_vec_len};
ghost use Rattle.octal.specs.Octal.{octal_text};
ghost use Rattle.byte_io.specs.Text.{line};
ghost use Rattle.probe_report.specs.Ending.{probe_end};
ghost use Rattle.probe_report.specs.ProbeText.{end_name, held_once, holds_again, memory_lines, extent_text, probe_text};
ghost use Rattle.probe_report.specs.ProbeText.{changed_in_all, changed_lines, prompt_line, trust_lines, verdict_text, word_lines};

use crate::ending::end_of;
use crate::findings::{Changes, Extent, Findings, Sighting};
use crate::heard_text::push_heard;
use crate::judging::{Verdict, judge};
use crate::notes::Notes;
use crate::pace::{Pace, push_key, push_load};
use crate::probe_end::ProbeEnd;
use crate::style_text::push_style;
use arrayvec::ArrayVec;
use byte_io::{push_bytes, push_decimal, push_octal};

// More bytes than a report has.
const REPORT_ROOM: usize = 1040;

/// A report, in room of its own: a probe that is over needs no memory to say what it found.
pub type Report = ArrayVec<u8, REPORT_ROOM>;

/// Puts the report of a probe into an empty text, and answers how the probe ended.
pub fn push_report(text: &mut Report, findings: &Findings, notes: &Notes, pace: Pace) -> ProbeEnd
    requires { text.old.items ≡ [] }
    ensures text { text.new.items ≡ probe_text findings.now notes.now pace }
    ensures end { result ≡ probe_end findings.now notes.now.prompt }
{
    let end = end_of(findings, notes.prompt());
    push_prompt(text, notes.prompt());
    push_heard(text, end, notes);
    push_style(text, findings.trial);
    push_trust(text, findings);
    push_memory(text, findings.search, pace);
    push_changed(text, changed_in_all(findings.changes));
    push_end(text, end);
    end
}

fn push_prompt(text: &mut Report, prompt: bool)
    requires { array_vec_len text.old ≤ 900 }
    ensures items { text.new.items ≡ text.old.items ++ line (prompt_line prompt) }
    ensures length { array_vec_len text.new ≤ array_vec_len text.old + 11 }
{
    if prompt {
        push_bytes(text, b"prompt yes\n");
    } else {
        push_bytes(text, b"prompt no\n");
    }
}

// Puts whether the console forgets and what became of the word, where a first look read it.
fn push_trust(text: &mut Report, findings: &Findings)
    requires { array_vec_len text.old ≤ 700 }
    ensures items { text.new.items ≡ text.old.items ++ trust_lines findings.now findings.now.first }
    ensures length { array_vec_len text.new ≤ array_vec_len text.old + 91 }
{
    let Sighting::Number(old) = findings.first else {
        return;
    };
    let verdict = judge(findings);
    push_verdict(text, verdict);
    push_word(text, findings.address, old, verdict, findings.put_back);
}

fn push_verdict(text: &mut Report, verdict: Verdict)
    requires { array_vec_len text.old ≤ 700 }
    ensures items { text.new.items ≡ text.old.items ++ line (verdict_text verdict) }
    ensures length { array_vec_len text.new ≤ array_vec_len text.old + 44 }
{
    match verdict {
        Verdict::Forgets => push_bytes(text, b"forgets digits yes\n"),
        Verdict::Stores => push_bytes(text, b"forgets digits no: do not load this machine\n"),
        Verdict::Unknown => push_bytes(text, b"forgets digits not known\n"),
    }
}

fn push_word(text: &mut Report, address: u16, old: u16, verdict: Verdict, put_back: Option<bool>)
    requires { array_vec_len text.old ≤ 800 }
    ensures items { text.new.items ≡ text.old.items ++ word_lines address old verdict put_back }
    ensures length { array_vec_len text.new ≤ array_vec_len text.old + 47 }
{
    match (verdict, put_back) {
        (Verdict::Forgets, _) => {}
        (Verdict::Stores, Some(true)) => push_holds_again(text, address, old),
        _ => push_held_once(text, address, old),
    }
}

fn push_holds_again(text: &mut Report, address: u16, old: u16)
    requires { array_vec_len text.old ≤ 800 }
    ensures items { text.new.items ≡ text.old.items ++ line (holds_again address old) }
    ensures length { array_vec_len text.new ≤ array_vec_len text.old + 47 }
{
    push_bytes(text, b"the word at ");
    push_octal(text, address);
    push_bytes(text, b" holds ");
    push_octal(text, old);
    push_bytes(text, b" again\n");
}

fn push_held_once(text: &mut Report, address: u16, old: u16)
    requires { array_vec_len text.old ≤ 800 }
    ensures items { text.new.items ≡ text.old.items ++ line (held_once address old) }
    ensures length { array_vec_len text.new ≤ array_vec_len text.old + 47 }
{
    push_bytes(text, b"the word at ");
    push_octal(text, address);
    push_bytes(text, b" held ");
    push_octal(text, old);
    push_bytes(text, b", now look at it\n");
}

// Puts memory's end and the pace, where the search found an end.
fn push_memory(text: &mut Report, search: Option<Extent>, pace: Pace)
    requires { array_vec_len text.old ≤ 720 }
    ensures items { text.new.items ≡ text.old.items ++ memory_lines search pace }
    ensures length { array_vec_len text.new ≤ array_vec_len text.old + 158 }
{
    let Some(Extent::Top(top)) = search else {
        return;
    };
    push_top(text, top);
    push_key(text, pace);
    push_load(text, pace, top / 2);
}

fn push_top(text: &mut Report, top: u16)
    requires { array_vec_len text.old ≤ 800 }
    ensures items { text.new.items ≡ text.old.items ++ line (extent_text top) }
    ensures length { array_vec_len text.new ≤ array_vec_len text.old + 24 }
{
    if top < 2 {
        push_bytes(text, b"no memory at 000000\n");
        return;
    }
    push_last_word(text, top - 2);
}

fn push_last_word(text: &mut Report, last: u16)
    requires { array_vec_len text.old ≤ 800 }
    ensures items { text.new.items ≡ text.old.items ++ line (codes "memory 000000 to " ++ octal_text last) }
    ensures length { array_vec_len text.new ≤ array_vec_len text.old + 24 }
{
    push_bytes(text, b"memory 000000 to ");
    push_octal(text, last);
    push_bytes(text, b"\n");
}

// Puts how many characters came changed, where any did: the report of a line that changes none is as it always was.
fn push_changed(text: &mut Report, count: u64)
    requires { array_vec_len text.old ≤ 880 }
    ensures items { text.new.items ≡ text.old.items ++ changed_lines count }
    ensures length { array_vec_len text.new ≤ array_vec_len text.old + 40 }
{
    if count > 0 {
        push_changed_count(text, count);
    }
}

fn push_changed_count(text: &mut Report, count: u64)
    requires { array_vec_len text.old ≤ 880 }
    ensures items { text.new.items ≡ text.old.items ++ line (codes "changed characters " ++ decimal count) }
    ensures length { array_vec_len text.new ≤ array_vec_len text.old + 40 }
{
    push_bytes(text, b"changed characters ");
    push_decimal(text, count);
    push_bytes(text, b"\n");
}

// How many came changed in all looks.
fn changed_in_all(changes: Changes) -> u64
    ensures { result ≡ changed_in_all changes }
{
    let at_the_word = u64::from(changes.first) + u64::from(changes.second);
    at_the_word.saturating_add(changes.search)
}

fn push_end(text: &mut Report, end: ProbeEnd)
    requires { array_vec_len text.old ≤ 920 }
    ensures { text.new.items ≡ text.old.items ++ line (codes "end " ++ end_name end) }
{
    push_bytes(text, b"end ");
    push_end_name(text, end);
    push_bytes(text, b"\n");
}

fn push_end_name(text: &mut Report, end: ProbeEnd)
    requires { array_vec_len text.old ≤ 950 }
    ensures items { text.new.items ≡ text.old.items ++ end_name end }
    ensures length { array_vec_len text.new ≤ array_vec_len text.old + 13 }
{
    match end {
        ProbeEnd::Probed => push_bytes(text, b"Probed"),
        ProbeEnd::NotTrusted => push_bytes(text, b"NotTrusted"),
        ProbeEnd::NoPrompt => push_bytes(text, b"NoPrompt"),
        ProbeEnd::GaveUp => push_bytes(text, b"GaveUp"),
        ProbeEnd::NoWord(address) => push_no_word(text, address),
        ProbeEnd::CutOff(cut) => push_bytes(text, cut.name()),
    }
}

fn push_no_word(text: &mut Report, address: u16)
    requires { array_vec_len text.old ≤ 950 }
    ensures items { text.new.items ≡ text.old.items ++ (codes "NoWord " ++ octal_text address) }
    ensures length { array_vec_len text.new ≤ array_vec_len text.old + 13 }
{
    push_bytes(text, b"NoWord ");
    push_octal(text, address);
}
