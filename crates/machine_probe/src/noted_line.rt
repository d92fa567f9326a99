//! A line of which what is said is noted and timed.
ghost use Rattle.std.specs.Prelude.{◌≡◌, []};
ghost use Rattle.machine_probe.specs.Noted.{AreNotesSince};
ghost use Rattle.tape_values.specs.Told.{IsAsTold};

use crate::stopwatch::Stopwatch;
use host_core::Heard;
use host_devices::{Line, LineFault};
use probe_report::{Notes, Pace};
use std::marker::{Brand, Model, PhantomData};
use std::time::Clock;

/// A name for what a line told at first, which only proofs read.
pub(crate) trait FirstTold {
    ghost use Rattle.std.specs.Prelude.{List, Option};
    ghost use Rattle.host_devices.specs.declared.item.Item.{Item};

    /// What the line told at first.
    ghost told: { Option (List Item) };
}

impl FirstTold for Brand {
    ghost use Rattle.std.specs.Prelude.{None};

    ghost told = { None };
}

/// A line that notes what was sent and heard and times the looks, and is otherwise the line in it.
///
/// What a borrower promises of every line says nothing of the notes of this one. This type's own calls
/// keep them true of all that was said, so that they may be read whoever said it.
#[derive(Drop)]
pub(crate) struct NotedLine<'a, L: Line, C: Clock, E: FirstTold> {
    line: L,
    clock: &'a C,
    notes: Notes,
    stopwatch: Stopwatch,
    of: PhantomData<E>,
}

impl<'a, L: Line, C: Clock, E: FirstTold> Model for NotedLine<'a, L, C, E> {
    ghost use Rattle.machine_probe.specs.Noted.{AreNotesSince};

    ghost Value = { L };

    ghost view = { λ n. n.line };

    ghost invariant = { λ n. AreNotesSince E.told (L.told n.line) n.notes };
}

impl<'a, L: Line, C: Clock, E: FirstTold> NotedLine<'a, L, C, E> {
    /// A line on which nothing was said, of which nothing is noted yet, and the clock that times it.
    pub(crate) fn new(line: L, clock: &'a C) -> NotedLine<'a, L, C, E>
        requires opening { L.told line ≡ E.told }
        requires fresh { IsAsTold (L.told line) [] }
        ensures { result ≡ line }
    {
        NotedLine {
            line,
            clock,
            notes: Notes::new(),
            stopwatch: Stopwatch::new(),
            of: PhantomData,
        }
    }

    /// The line in it.
    pub(crate) fn into_line(self) -> L
        ensures { result ≡ self.entry }
    {
        let NotedLine {
            line,
            clock: _,
            notes: _,
            stopwatch: _,
            of: _,
        } = self;
        line
    }

    /// What is noted of all that was said on the line.
    pub(crate) fn notes(&self) -> &Notes
        ensures { AreNotesSince E.told (L.told self.now) result.now }
    {
        &self.notes
    }

    /// How fast the looks went so far.
    pub(crate) fn pace(&self) -> Pace {
        self.stopwatch.pace()
    }
}

impl<L: Line, C: Clock, E: FirstTold> Line for NotedLine<'_, L, C, E> {
    ghost told = { λ noted. L.told noted };

    ghost fault_count = { λ noted. L.fault_count noted };

    ghost last_fault = { λ noted. L.last_fault noted };

    fn send(&mut self, key: u8) -> Result<(), LineFault> {
        let begun = microseconds(self.clock);
        self.line.send(key)?;
        self.notes.sends(key);
        self.stopwatch = self.stopwatch.with_key(key, begun);
        Ok(())
    }

    fn hear(&mut self) -> Result<Heard, LineFault> {
        let heard = self.line.hear()?;
        self.notes.hears(heard);
        self.stopwatch = self.stopwatch.with_heard(heard, microseconds(self.clock));
        Ok(heard)
    }

    fn failures(&self) -> u64 {
        self.line.failures()
    }

    fn failed(&self) -> bool {
        self.line.failed()
    }
}

// The clock's time in microseconds, where it has one.
fn microseconds<C: Clock>(clock: &C) -> Option<u64> {
    let time = clock.monotonic().ok()?;
    u64::try_from(time.as_micros()).ok()
}
