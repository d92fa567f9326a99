//! How a stub is brought in, and started.
ghost use Rattle.stub_engine.specs.Parts.{typist_of};
ghost use Rattle.host_devices.specs.Devices.{line_told};
ghost use Rattle.stub_engine.specs.Brought.{IsBringerDriven};

use crate::typist::Typist;
use crate::unkept::Unkept;
use host_core::{HostCore, Progress};
use host_devices::{Line, MOST_TURNS, Unwatched};
use load_engine::{Stop, drive};
use tape_image::Plan;

/// Has a loading host type a stub's plan, and start it. The host that comes back saw it start where
/// its end is `Started`. Nothing of it is kept, and nobody looks on.
pub(crate) fn bring<L: Line>(stub: Plan, typist: Typist, line: &mut L) -> (HostCore, Stop)
    ensures { IsBringerDriven (typist_of stub typist) result (line_told L.Line line.old) (line_told L.Line line.new) }
{
    let progress = Progress {
        verified: 0,
        going: false,
    };
    let Typist { careful, patience } = typist;
    let core = HostCore::with_care(careful, stub, progress, patience).unwrap();
    drive(core, line, &mut Unkept, MOST_TURNS, &Unwatched)
}
