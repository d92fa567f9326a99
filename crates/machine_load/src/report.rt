//! The report of a load.
ghost use Rattle.std.specs.Prelude.{◌≡◌, ◌+◌, ◌^◌, ◌≤◌, ◌++◌, [], codes, IfSome};
ghost use Rattle.arrayvec.specs.ArrayVec.{array_vec_len};
ghost use Rattle.host_core.specs.End.{end_name};
ghost use Rattle.byte_io.specs.Text.{line};
ghost use Rattle.machine_load.specs.LoadReport.{end_text, load_counts_text, load_report, stop_name};
ghost use Rattle.machine_load.specs.Looks.{AreFewLooks};
ghost use Rattle.machine_load.specs.Stubs.{AreFew, counting, sent_by, spent_by, with_stubs};

use crate::load_end::LoadEnd;
use crate::looks::Looks;
use crate::stubs::Stubs;
use arrayvec::ArrayVec;
use byte_io::{push_bytes, push_decimal, push_octal};
use host_core::{End, HostCore};
use load_engine::Stop;

// Room for the longest report: its words, four numbers of 20 digits, the longest word for an end and an address.
const REPORT_ROOM: usize = 131;

// A report, in room of its own: a load that is over needs no memory to say so.
type Report = ArrayVec<u8, REPORT_ROOM>;

/// The report of a load: the counts of all its parts, and how it ended.
pub(crate) fn load_report(
    core: &HostCore,
    looks: Option<Looks>,
    stubs: Option<Stubs>,
    again: Option<Looks>,
    end: LoadEnd,
) -> Report
    requires few { IfSome looks AreFewLooks × (IfSome stubs AreFew × IfSome again AreFewLooks) }
    ensures { result.items ≡ load_report (counting core.now looks stubs again) end }
{
    let mut text = Report::new();
    push_counts(&mut text, core, looks, stubs, again);
    push_end(&mut text, end);
    text
}

fn push_counts(
    text: &mut Report,
    core: &HostCore,
    looks: Option<Looks>,
    stubs: Option<Stubs>,
    again: Option<Looks>,
)
    requires empty { text.old.items ≡ [] }
    requires few { IfSome looks AreFewLooks × (IfSome stubs AreFew × IfSome again AreFewLooks) }
    ensures items { text.new.items ≡ line (load_counts_text (counting core.now looks stubs again)) }
    ensures length { array_vec_len text.new ≤ 107 }
{
    push_bytes(text, b"sent ");
    push_decimal(
        text,
        sent_with(core, stubs) + sent_by(looks) + sent_by(again),
    );
    push_bytes(text, b" spent ");
    push_decimal(
        text,
        spent_with(core, stubs) + spent_by(looks) + spent_by(again),
    );
    push_bytes(text, b" verified ");
    push_decimal(text, core.progress().verified.into());
    push_bytes(text, b" of ");
    push_decimal(text, core.plan().words().len() as u64);
    push_bytes(text, b"\n");
}
// The characters sent by a host, with those of the stubs.
fn sent_with(core: &HostCore, stubs: Option<Stubs>) -> u64
    requires { IfSome stubs AreFew }
    ensures sent { result ≡ (with_stubs core.now stubs).sent }
    ensures few { result ≤ 2 ^ 61 }
{
    match stubs {
        Some(stubs) => core.sent_count() + stubs.tally.sent,
        None => core.sent_count(),
    }
}

// Those that looks sent, where there were some.
fn sent_by(looks: Option<Looks>) -> u64
    requires { IfSome looks AreFewLooks }
    ensures sent { result ≡ sent_by looks }
    ensures few { result ≤ 2 ^ 40 }
{
    match looks {
        Some(looks) => looks.sent,
        None => 0,
    }
}

// The mishaps that a host met, with those of the stubs' hosts.
fn spent_with(core: &HostCore, stubs: Option<Stubs>) -> u64
    requires { IfSome stubs AreFew }
    ensures spent { result ≡ (with_stubs core.now stubs).spent }
    ensures few { result ≤ 2 ^ 61 }
{
    let spent = u64::from(core.spent());
    match stubs {
        Some(stubs) => spent + stubs.tally.spent,
        None => spent,
    }
}

// Those that looks met, where there were some.
fn spent_by(looks: Option<Looks>) -> u64
    ensures spent { result ≡ spent_by looks }
    ensures few { result ≤ 2 ^ 32 }
{
    match looks {
        Some(looks) => looks.spent.into(),
        None => 0,
    }
}

fn push_end(text: &mut Report, end: LoadEnd)
    requires { array_vec_len text.old ≤ 107 }
    ensures { text.new.items ≡ text.old.items ++ line (codes "end " ++ end_text end) }
{
    push_bytes(text, b"end ");
    push_end_text(text, end);
    push_bytes(text, b"\n");
}

fn push_end_text(text: &mut Report, end: LoadEnd)
    requires { array_vec_len text.old ≤ 111 }
    ensures items { text.new.items ≡ text.old.items ++ end_text end }
    ensures length { array_vec_len text.new ≤ array_vec_len text.old + 19 }
{
    match end {
        LoadEnd::Driven(stop) | LoadEnd::Unfinished(stop) => push_stop_name(text, stop),
        LoadEnd::Stale(address) => {
            push_bytes(text, b"Stale ");
            push_octal(text, address);
        }
    }
}

fn push_stop_name(text: &mut Report, stop: Stop)
    requires { array_vec_len text.old ≤ 111 }
    ensures items { text.new.items ≡ text.old.items ++ stop_name stop }
    ensures length { array_vec_len text.new ≤ array_vec_len text.old + 19 }
{
    match stop {
        Stop::Ended(end) => push_end_name(text, end),
        Stop::KeepFailed(_) => push_bytes(text, b"KeepFailed"),
        Stop::CutOff(cut) => push_bytes(text, cut.name()),
    }
}

fn push_end_name(text: &mut Report, end: End)
    requires { array_vec_len text.old ≤ 111 }
    ensures items { text.new.items ≡ text.old.items ++ end_name end }
    ensures length { array_vec_len text.new ≤ array_vec_len text.old + 19 }
{
    push_bytes(text, end.word().as_bytes());
    if let Some(address) = end.address() {
        push_bytes(text, b" ");
        push_octal(text, address);
    }
}
