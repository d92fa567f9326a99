//! The worlds that commands open.
ghost use Rattle.std.specs.Prelude.{◌≡◌, ◌≤◌, false, length, replicate, IfOk, IfErr, OnOk};
ghost use Rattle.odt_machine.specs.declared.mode.Mode.TheVariants.{Prompt};
ghost use Rattle.host_core.specs.Core.{begun};
ghost use Rattle.host_core.specs.Host.{IsHost};
ghost use Rattle.odt_machine.specs.Machine.{IsMachine};
ghost use Rattle.line_world.specs.Opening.{opened};
ghost use Rattle.line_world.specs.Wire.{most_waiting};
ghost use Rattle.tape_commands.specs.Rehearsal.{after_puts, AllLie, IsRefusedPut, IsMachineFault, machine_of};

use endings::CommandFault;
use host_core::{HostCore, Progress};
use line_world::World;
use loss_scripts::PutLine;
use odt_machine::{Odt, OdtError, Style};
use std::alloc::Global;
use tape_image::Plan;

/// A host that has done nothing yet, with a plan to type into a machine at its prompt, while `waiting`
/// answers wait for it.
pub(crate) fn open_world(plan: Plan, odt: Odt, patience: u32, waiting: &[u8]) -> World
    requires prompt { odt.mode ≡ Prompt }
    requires few { length waiting.now ≤ most_waiting }
    ensures world { result ≡ opened odt (begun plan 0 false patience) waiting.now }
    ensures host { IsHost result.core }
{
    let nothing = Progress {
        verified: 0,
        going: false,
    };
    let Ok(core) = HostCore::new(plan, nothing, patience) else {
        unreachable!()
    };
    let Ok(world) = World::new(odt, core, waiting) else {
        unreachable!()
    };
    world
}

/// A zeroed machine. `TooLarge` exactly above 28,672 words, else `Memory`.
pub(crate) fn zeroed(alloc: Global, words: u16, style: Style) -> Result<Odt, CommandFault>
    ensures ok { IfOk result (λ odt. odt ≡ machine_of style (replicate words 0)) }
    ensures machine { IfOk result IsMachine }
    ensures err { IfErr result (IsMachineFault words) }
{
    match Odt::new(alloc, words, style) {
        Ok(odt) => Ok(odt),
        Err(OdtError::TooLarge) => Err(CommandFault::TooLarge),
        Err(OdtError::Memory) => Err(CommandFault::Memory),
    }
}

/// Stores words in a machine's memory, in order. The error is the line of the first word that does
/// not lie there.
pub(crate) fn store_words(odt: &mut Odt, puts: &[PutLine]) -> Result<(), u32>
    ensures ok { OnOk result (odt.new ≡ record odt.old { memory = after_puts odt.old.memory puts.now }) }
    ensures lie { OnOk result (AllLie odt.old.memory puts.now) }
    ensures err { IfErr result (IsRefusedPut odt.old.memory puts.now) }
{
    for put in puts {
        if !odt.put(put.address, put.value) {
            return Err(put.line);
        }
    }
    Ok(())
}
