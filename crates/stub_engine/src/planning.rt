//! The stub that is planned next.
ghost use Rattle.std.specs.Prelude.{◌≡◌, ◌≤◌, ◌^◌, length, IfOk, IfErr};
ghost use Rattle.stub_engine.specs.Planning.{IsLayout, IsNotLaidOut, IsPlannedFor, IsUnplanned};

use crate::stop::StubsEnd;
use exchange_core::{Chunk, Stretch, chunks_of, stretches_of, stub_plan, window_for};
use std::alloc::Global;
use stub::{stub_size, stub_words};
use tape_image::Plan;

// With fewer words to be gained an ordinary load is as fast.
const LEAST_GAIN: u32 = 256;

/// A stub as it is planned for the words behind those that are verified.
#[derive(Drop)]
pub(crate) struct PlannedStub {
    /// The plan that brings it in.
    pub(crate) plan: Plan,

    /// The chunks that it takes.
    pub(crate) chunks: Vec<Chunk>,
}

/// Plans a stub for the plan's words behind the first `from`. The errors are `TooFewWords`, where each window leaves
/// fewer than 256 words before it, `NoRoom`, where there is no window, and `Memory`.
///
/// How long a stub is depends on its stretches, and these on where it lies: so room is looked for with one
/// stretch first, and then with as many as there were; a lower window has no more of them.
pub(crate) fn planned_stub(alloc: Global, plan: &Plan, from: u32) -> Result<PlannedStub, StubsEnd>
    requires within { from ≤ length plan.now.words }
    ensures planned { IfOk result (λ stub. IsPlannedFor plan.now from stub.plan stub.chunks.items) }
    ensures unplanned { IfErr result (IsUnplanned plan.now from) }
{
    let words = plan.words().len() as u32;
    if words - from < LEAST_GAIN {
        return Err(StubsEnd::TooFewWords);
    }
    let first = laid_out(alloc, plan, from, 1)?;
    let count = first.stretches.len();
    let layout = laid_out(alloc, plan, from, count)?;
    if layout.stretches.len() > count {
        return Err(StubsEnd::NoRoom);
    }
    brought_in_by(alloc, plan, from, layout)
}

// Where a stub lies, the chunks that it takes, and the stretches of its table.
#[derive(Drop)]
struct StubLayout {
    window: u32,
    chunks: Vec<Chunk>,
    stretches: Vec<Stretch>,
}

// Where a stub lies that has room for so many stretches.
fn laid_out(alloc: Global, plan: &Plan, from: u32, count: usize) -> Result<StubLayout, StubsEnd>
    requires few { count ≤ 2 ^ 16 }
    ensures layout { IfOk result (IsLayout plan.now from count) }
    ensures unplanned { IfErr result (IsNotLaidOut plan.now from count) }
{
    let Some(window) = window_for(plan, from, stub_size(count) as u32) else {
        return Err(StubsEnd::NoRoom);
    };
    if window - from < LEAST_GAIN {
        return Err(StubsEnd::TooFewWords);
    }
    let chunks = chunks_of(alloc, plan, from, window)?;
    let stretches = stretches_of(alloc, &chunks)?;
    Ok(StubLayout {
        window,
        chunks,
        stretches,
    })
}

// The stub that lies there, and the plan that brings it in.
fn brought_in_by(
    alloc: Global,
    plan: &Plan,
    from: u32,
    layout: StubLayout,
) -> Result<PlannedStub, StubsEnd>
    requires layout { IsLayout plan.now from (length layout.stretches.items) layout }
    ensures planned { IfOk result (λ stub. IsPlannedFor plan.now from stub.plan stub.chunks.items) }
    ensures memory { IfErr result (λ end. end ≡ StubsEnd.Memory) }
{
    let StubLayout {
        window,
        chunks,
        stretches,
    } = layout;
    let place = plan.words()[window as usize].address();
    let words = stub_words(alloc, place, &stretches)?;
    let plan = stub_plan(alloc, plan, from, window, &words)?;
    Ok(PlannedStub { plan, chunks })
}
