//! What the event lines of a script do to a world.
ghost use Rattle.std.specs.Prelude.{◌≡◌, ℕ, ◌++◌, ◌==◌, replicate, OnOk, List, [], Bool, if◌then◌else◌};
ghost use Rattle.line_world.specs.declared.event.Event.{Event};
ghost use Rattle.line_world.specs.World.{after, possible_count};
ghost use Rattle.tape_commands.specs.Played.{is_over, IsCleanUntil, Plays, Played, not_possible_text, not_possible_lines};

use byte_io::put_decimal;
use line_world::{Event, World};
use loss_scripts::{ScriptStep, StepLine};
use std::alloc::AllocError;

/// Lets the event lines of a script happen to a world, in order. A line that is not possible is told
/// at the end of `text`, the rest of its count is dropped, and the script goes on. The error is
/// want of memory.
pub(crate) fn play(
    world: &mut World,
    steps: &[StepLine],
    text: &mut Vec<u8>,
) -> Result<(), AllocError>
    ensures { OnOk result ((numbers : List ℕ) × Played world.old steps.now world.new numbers × (text.new.items ≡ text.old.items
        ++ not_possible_lines numbers)) }
{
    for line in steps {
        play_line(world, *line, text)?;
    }
    Ok(())
}

// One event line.
fn play_line(world: &mut World, line: StepLine, text: &mut Vec<u8>) -> Result<(), AllocError>
    ensures { OnOk result ((possible : Bool) × Plays world.old line.step world.new possible × (text.new.items ≡ text.old.items
        ++ (if possible then [] else not_possible_text line.line))) }
{
    if play_step(world, line.step) {
        return Ok(());
    }
    put_not_possible(text, line.line)
}

fn put_not_possible(text: &mut Vec<u8>, number: u32) -> Result<(), AllocError>
    ensures { OnOk result (text.new.items ≡ text.old.items ++ not_possible_text number) }
{
    text.extend_from_slice(b"line ")?;
    put_decimal(text, number as usize)?;
    text.extend_from_slice(b": not possible\n")
}

// Answers whether the step was possible as a whole.
fn play_step(world: &mut World, step: ScriptStep) -> bool
    ensures { Plays world.old step world.new result }
{
    match step {
        ScriptStep::Times(event, times) => repeat(world, event, times),
        ScriptStep::Until(sent) => {
            run_until(world, sent);
            true
        }
        ScriptStep::Clean => {
            world.run_clean();
            true
        }
    }
}

// The event so many times, or up to the first that is not possible: answers whether all were.
fn repeat(world: &mut World, event: Event, times: u32) -> bool
    ensures world { world.new ≡ after world.old (replicate times event) }
    ensures possible { result ≡ (possible_count world.old (replicate times event) == times) }
{
    for _done in 0..times {
        if !world.apply(event) {
            return false;
        }
    }
    true
}

// A clean line, until so many characters were sent or the host has an end.
fn run_until(world: &mut World, sent: u32)
    ensures { (events : List Event) × IsCleanUntil sent world.old events × (world.new ≡ after world.old events) }
{
    while !is_over(world, sent) {
        let event = world.next_event();
        world.apply(event);
    }
}

fn is_over(world: &World, sent: u32) -> bool
    ensures { result ≡ is_over sent world.now }
{
    let core = world.core();
    u64::from(sent) <= core.sent_count() || core.end().is_some()
}
