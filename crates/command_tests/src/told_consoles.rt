//! Consoles that tell what was asked for lines, and what was said on each that was given back.
ghost use Rattle.std.specs.Prelude.{◌≡◌, ◌∷◌, [], ◌++◌, Some};
ghost use Rattle.std.specs.String.{string_bytes};
ghost use Rattle.console_lines.specs.Path.{call_to};
ghost use Rattle.console_lines.specs.Dialling.{asked_first};
ghost use Rattle.told_calls.specs.LineRequests.{asked_by, request};
ghost use Rattle.command_tests.specs.ToldSystem.{lines_told};

use console_lines::{Consoles, Dial, is_path};
use honest_line::MemoryLine;
use host_devices::LineFault;
use odt_machine::Odt;
use std::alloc::Global;
use std::process::Abort;
use told_calls::LineRequest;

// How much may be said on a line.
const ROOM: u32 = 20_000;

/// A machine in memory, behind every name, until it is reached. Where there is no memory for one thing more the process
/// ends, since a list that lacks one would be wrong.
#[derive(Drop)]
pub(crate) struct ToldConsoles<'a, R: Abort> {
    rt: &'a R,
    alloc: Global,
    odt: Option<Odt>,
    pub(crate) asked: Vec<LineRequest>,
    pub(crate) given_back: Vec<MemoryLine>,
}

impl<'a, R: Abort> ToldConsoles<'a, R> {
    /// This machine, or none.
    pub(crate) fn new(rt: &'a R, alloc: Global, odt: Option<Odt>) -> ToldConsoles<'a, R> {
        ToldConsoles {
            rt,
            alloc,
            odt,
            asked: Vec::new(alloc),
            given_back: Vec::new(alloc),
        }
    }

    // Tells that the console of a name was asked for.
    fn tell_name(&mut self, name: &str, quiet_ms: u32)
        ensures asked { asked_by self.new.asked.items ≡ asked_by self.old.asked.items ++ asked_first (call_to name.now quiet_ms) }
        ensures given_back { self.new.given_back ≡ self.old.given_back }
    {
        let copy = String::from_str(self.alloc, name).expect(self.rt, "no memory");
        let request = if is_path(name) {
            LineRequest::Opened(copy)
        } else {
            LineRequest::Dialled(copy)
        };
        self.asked.push(request).expect(self.rt, "no memory");
    }

    // Tells that the reads of its line were limited.
    fn tell_limit(&mut self, quiet_ms: u32)
        ensures asked { asked_by self.new.asked.items ≡ asked_by self.old.asked.items ++ request (LineRequest.Limited quiet_ms) ∷ [] }
        ensures given_back { self.new.given_back ≡ self.old.given_back }
    {
        let limited = LineRequest::Limited(quiet_ms);
        self.asked.push(limited).expect(self.rt, "no memory");
    }
}

impl<'a, R: Abort> Consoles for ToldConsoles<'a, R> {
    type Line = MemoryLine;

    ghost asked = { λ consoles. Some (asked_by consoles.asked.items) };

    ghost lines = { λ consoles. Some (lines_told consoles.given_back.items) };

    fn reach(&mut self, dial: Dial<'_>) -> Result<MemoryLine, LineFault> {
        let Dial { name, quiet_ms } = dial;
        self.tell_name(name, quiet_ms);
        let Some(odt) = self.odt.take() else {
            return Err(LineFault::Connect);
        };
        match MemoryLine::new(self.alloc, odt, Vec::new(self.alloc), ROOM, None) {
            Ok(line) => {
                self.tell_limit(quiet_ms);
                Ok(line)
            }
            Err(_) => Err(LineFault::Connect),
        }
    }

    fn let_go(&mut self, line: MemoryLine) {
        self.given_back.push(line).expect(self.rt, "no memory");
    }
}
