//! What a system tells of the requests that are done in it: which files were opened, what was asked for lines and given
//! back of them, and whether anything was asked of the disk.

use crate::told_consoles::ToldConsoles;
use crate::told_inputs::ToldInputs;
use crate::told_system::{ToldSystem, attempt_told};
use endings::Status;
use host_devices::Item;
use odt_machine::{LARGEST_WORDS, Odt, PLAIN_STYLE};
use request_values::{Load, LoadOptions, MachineRequest, PrintRequest, Request, TapeRequest};
use std::alloc::Global;
use std::fs;
use std::process::Abort;
use std::rt::Files;
use std::test::Fail;
use std::time::Clock;
use tape_image::Start;
use told_calls::{LineRequest, ToldDisk, ToldOpening};

// The smallest tape with a word: 011064 at 001000, where it starts.
const ONE_WORD: [u8; 16] = [
    0x01, 0x00, 0x08, 0x00, 0x00, 0x02, 0x34, 0x12, 0xAF, 0x01, 0x00, 0x06, 0x00, 0x00, 0x02, 0xF7,
];

const TAPE: &str = "told.lda";

const RECORD: &str = "told.record";

const PORT: &str = "127.0.0.1:2323";

const QUIET_MS: u32 = 2000;

// A load of that tape with a record, which survives no mishap; none for want of memory.
fn load(alloc: Global) -> Option<Request<'static>> {
    let load = Load {
        line: PORT,
        record: Some(RECORD),
        options: LoadOptions {
            patience: 0,
            recheck: false,
            fast: false,
            careful: false,
        },
        start: Start::OfTape,
        listen: None,
        quiet_ms: QUIET_MS,
    };
    let tapes = Vec::from_slice(alloc, &[TAPE]).ok()?;
    Some(Request::Machine(MachineRequest::Load(tapes, load)))
}

// A system in which nothing was asked, with this machine behind each name, or none.
fn system_of<'a, R: Abort + Files>(
    rt: &'a R,
    host: &'a HostRuntime,
    odt: Option<Odt>,
) -> ToldSystem<'a, R> {
    let alloc = host.alloc();
    ToldSystem {
        inputs: ToldInputs::new(rt, alloc),
        disk: ToldDisk::new(host),
        consoles: ToldConsoles::new(rt, alloc, odt),
    }
}

// Whether just the tape was opened.
fn is_opened(opened: &[ToldOpening]) -> bool {
    match opened {
        [ToldOpening::Opened(name, text)] => {
            name.as_str() == TAPE && text.as_slice() == ONE_WORD.as_slice()
        }
        _ => false,
    }
}

// Whether just the port was dialled, and its line limited.
fn is_reached(asked: &[LineRequest]) -> bool {
    match asked {
        [LineRequest::Dialled(name), LineRequest::Limited(quiet_ms)] => {
            name.as_str() == PORT && *quiet_ms == QUIET_MS
        }
        _ => false,
    }
}

// Whether just the port was dialled.
fn is_dialled(asked: &[LineRequest]) -> bool {
    match asked {
        [LineRequest::Dialled(name)] => name.as_str() == PORT,
        _ => false,
    }
}

// How often the start was typed.
fn starts_in(items: &[Item]) -> usize {
    let mut count: usize = 0;
    for item in items {
        if matches!(item, Item::Sent(b'G')) {
            count = count.saturating_add(1);
        }
    }
    count
}

// Whether a check of standard input asks for nothing.
fn check_asks_nothing<R: Abort + Files + Clock>(rt: &R, host: &HostRuntime) -> bool {
    let request = Request::Tape(TapeRequest::Print(PrintRequest::CheckInput));
    let system = system_of(rt, host, None);
    let (system, ended) = attempt_told(rt, host.alloc(), system, &request, &ONE_WORD);
    matches!(ended.status, Status::Done)
        && system.inputs.opened.is_empty()
        && system.consoles.asked.is_empty()
        && system.disk.asked().is_some_and(|steps| steps.is_empty())
}

// Whether a load opens its tape, reaches the machine, types its start once, and asks the disk for its record.
fn is_loaded<R: Abort + Files + Clock>(rt: &R, host: &HostRuntime) -> Option<bool> {
    let alloc = host.alloc();
    let odt = Odt::new(alloc, LARGEST_WORDS, PLAIN_STYLE).ok()?;
    let system = system_of(rt, host, Some(odt));
    let (system, ended) = attempt_told(rt, alloc, system, &load(alloc)?, &[]);
    let is_started = match system.consoles.given_back.as_slice() {
        [line] => starts_in(line.items()) == 1,
        _ => false,
    };
    let is_done = matches!(ended.status, Status::Done) && is_started;
    let is_asked = is_opened(&system.inputs.opened) && is_reached(&system.consoles.asked);
    Some(is_done && is_asked && !system.disk.asked()?.is_empty())
}

// Whether one without a machine dials in vain, and gives no line back.
fn is_in_vain<R: Abort + Files + Clock>(rt: &R, host: &HostRuntime) -> Option<bool> {
    let alloc = host.alloc();
    let system = system_of(rt, host, None);
    let (system, ended) = attempt_told(rt, alloc, system, &load(alloc)?, &[]);
    let is_asked = is_opened(&system.inputs.opened) && is_dialled(&system.consoles.asked);
    let is_failed = matches!(ended.status, Status::DeviceFailed);
    Some(is_failed && is_asked && system.consoles.given_back.is_empty())
}

#[test]
fn a_system_tells_what_a_request_asks_of_it(rt: HostRuntime) -> Result<(), Fail> {
    let _ = fs::remove_file(&rt, RECORD);
    fs::write(&rt, TAPE, ONE_WORD)?;
    assert!(rt; check_asks_nothing(&rt, &rt));
    assert!(rt; is_in_vain(&rt, &rt) == Some(true));
    assert!(rt; is_loaded(&rt, &rt) == Some(true));
    fs::remove_file(&rt, RECORD)?;
    Ok(fs::remove_file(&rt, TAPE)?)
}
