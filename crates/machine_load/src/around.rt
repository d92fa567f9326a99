//! A console and a record, as the surroundings of a load.

use crate::records::Records;
use crate::surroundings::Surroundings;
use console_lines::{Consoles, Dial};
use host_devices::LineFault;
use record_file::{OldRecord, RecordFault};
use std::alloc::Global;
use tape_image::Plan;

/// What a load needs of the world around it, in two parts that know nothing of each other.
#[derive(Drop)]
pub struct Around<'a, C: Consoles, R: Records> {
    /// The consoles of the system.
    pub consoles: C,

    /// The one that is called.
    pub dial: Dial<'a>,

    /// Where the record is.
    pub records: R,
}

impl<C: Consoles, R: Records> Surroundings for Around<'_, C, R> {
    ghost use Rattle.console_lines.specs.Path.{call_of};

    type Line = C::Line;

    type Keeper = R::Keeper;

    ghost asked = { λ around. C.asked around.consoles };

    ghost call = { λ around. call_of around.dial };

    ghost lines = { λ around. C.lines around.consoles };

    ghost left = { R.left };

    ghost begins = { λ keeper plan count. R.begins keeper plan count };

    ghost disk = { λ around. R.disk around.records };

    fn read_record(&mut self, alloc: Global) -> Result<OldRecord, RecordFault> {
        self.records.read(alloc)
    }

    fn connect(&mut self) -> Result<C::Line, LineFault> {
        self.consoles.reach(self.dial)
    }

    fn begin_record(
        &mut self,
        alloc: Global,
        plan: &Plan,
        verified: u32,
    ) -> Result<R::Keeper, RecordFault> {
        self.records.begin(alloc, plan, verified)
    }

    fn let_go(&mut self, line: C::Line) {
        self.consoles.let_go(line);
    }

    // Its own file is closed with it; the records hold the record on.
    fn end_record(&mut self, _keeper: R::Keeper) {}
}
