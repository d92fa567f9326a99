//! How a life goes on behind its stubs.
ghost use Rattle.std.specs.Prelude.{◌≡◌, ◌≤◌, length, IfSome, List, Option};
ghost use Rattle.host_devices.specs.Devices.{devices, line_told};
ghost use Rattle.host_devices.specs.declared.item.Kept.{Kept};
ghost use Rattle.engine.specs.Keeping.{progress_calls};
ghost use Rattle.machine_load.specs.GoneOn.{course_behind};
ghost use Rattle.machine_load.specs.Looks.{AreFewLooks, IsRoom, behind_any_looks};
ghost use Rattle.machine_load.specs.Parts.{HasGoneOnOver, LooksAgain, held, held_back};
ghost use Rattle.machine_load.specs.Stubs.{hindrance, looks_again};

use crate::first_life::FirstLife;
use crate::load_end::LoadEnd;
use crate::looks::{Looks, LooksRoom, look};
use crate::stubs::{Stubs, hindrance, looks_again};
use host_core::HostCore;
use host_devices::{Keep, Line, MOST_TURNS, Onlooker};
use load_engine::drive;

/// How a life went on behind its stubs: its looks, where it looked again, its host, and how it ended.
#[derive(Drop)]
pub(crate) struct GoneOn {
    pub(crate) again: Option<Looks>,
    pub(crate) core: HostCore,
    pub(crate) end: LoadEnd,
}

/// Goes on with a life behind its stubs. Where the last of them verified nothing, samples of the words that count as
/// verified are looked at again, and only where all stand its host goes on.
pub(crate) fn go_on<L: Line, K: Keep, O: Onlooker>(
    first: FirstLife,
    stubs: Option<Stubs>,
    room: LooksRoom,
    line: &mut L,
    keeper: &mut K,
    onlooker: &O,
) -> GoneOn
    requires room { IsRoom room }
    requires within { IfSome stubs (λ stubs. stubs.tally.verified ≤ length first.plan.words) }
    ensures gone { HasGoneOnOver (progress_calls K.Keep) (course_behind first stubs result)
        (held (line_told L.Line line.old) keeper.old) (held (line_told L.Line line.new) keeper.new) }
    ensures few { IfSome result.again AreFewLooks }
{
    let life = first.behind_stubs(stubs);
    let (life, again) = look_again(life, stubs, room, line);
    if let Some(end) = held_back(stubs, again) {
        return GoneOn {
            again,
            core: life.host(),
            end,
        };
    }
    let (core, stop) = drive(life.host(), line, keeper, MOST_TURNS, onlooker);
    GoneOn {
        again,
        core,
        end: LoadEnd::Driven(stop),
    }
}

// The life behind its looks, where words are looked at again behind its stubs: samples alone.
fn look_again<L: Line>(
    life: FirstLife,
    stubs: Option<Stubs>,
    room: LooksRoom,
    line: &mut L,
) -> (FirstLife, Option<Looks>)
    requires { IsRoom room }
    ensures life { result.0 ≡ behind_any_looks life result.1 }
    ensures looks { (kept : Option (List Kept)) →
        LooksAgain (looks_again stubs) life result.1 (devices (line_told L.Line line.old) kept) (devices (line_told L.Line line.new) kept) }
    ensures few { IfSome result.1 AreFewLooks }
{
    if !looks_again(stubs) {
        return (life, None);
    }
    let looks = look(&life, false, room, line);
    (life.behind(looks), Some(looks))
}

// Why no host follows stubs and looks.
fn held_back(stubs: Option<Stubs>, again: Option<Looks>) -> Option<LoadEnd>
    ensures { result ≡ held_back (hindrance stubs) again }
{
    match (hindrance(stubs), again) {
        (Some(stop), _) => Some(LoadEnd::Driven(stop)),
        (None, Some(looks)) => looks.hindrance(),
        (None, None) => None,
    }
}
