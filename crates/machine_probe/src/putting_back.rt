//! Putting an old number back into a word.
ghost use Rattle.std.specs.Prelude.{◌≡◌, ℕ, IfOk};
ghost use Rattle.host_devices.specs.Devices.{line_told};
ghost use Rattle.reading_core.specs.Addresses.{IsAddress};
ghost use Rattle.request_values.specs.Change.{◌⇒◌};
ghost use Rattle.machine_probe.specs.Left.{LeavesDeposit};
ghost use Rattle.machine_probe.specs.PuttingBack.{IsDeposit, IsPlanOfWord, PutsBack, is_loaded};
ghost use Rattle.machine_probe.specs.Runs.{OnLine};

use crate::probe_options::ProbeOptions;
use host_core::{End, HostCore, Progress};
use host_devices::{Line, MemoryKeep, Unwatched};
use load_engine::{Stop, drive};
use std::alloc::{AllocError, Global};
use tape_image::Plan;
use tape_values::{Block, Tape};

// An odd start address, which asks for no start.
const NO_START: u16 = 1;

// How many values a byte has.
const BYTE: u16 = 256;

/// A load of one word that was not begun, with all the memory that it takes.
#[derive(Drop)]
pub struct Deposit {
    /// The host, at the beginning of its life.
    pub core: HostCore,

    /// What keeps the one word, once it is verified.
    pub keeper: MemoryKeep,
}

impl Deposit {
    /// A load that deposits this number in the word, as its old one, and starts nothing. The error is want of memory.
    pub fn new(alloc: Global, options: ProbeOptions, old: u16) -> Result<Deposit, AllocError>
        requires { IsAddress options.address }
        ensures { IfOk result (IsDeposit options old) }
    {
        let plan = plan_of(alloc, options.address, old)?;
        let nothing = Progress {
            verified: 0,
            going: false,
        };
        let core = HostCore::new(plan, nothing, options.patience).unwrap();
        let Ok(keeper) = MemoryKeep::new(alloc, 1, None) else {
            return Err(AllocError);
        };
        Ok(Deposit { core, keeper })
    }
}

/// Makes the load over a line, and answers whether it came to its end: the word was read back and holds
/// the old number again. It takes no memory.
pub(crate) fn put_back<L: Line>(deposit: Deposit, options: ProbeOptions, line: &mut L) -> bool
    ensures made { (old : ℕ) → IsDeposit options old deposit → OnLine (PutsBack options old result) (L.told line.old) (L.told line.new) }
    ensures left { LeavesDeposit result (line_told L.Line line.old ⇒ line_told L.Line line.new) }
{
    let Deposit { core, mut keeper } = deposit;
    let (_, stop) = drive(core, line, &mut keeper, options.turns(), &Unwatched);
    is_loaded(stop)
}

// Whether a load came to its end.
fn is_loaded(stop: Stop) -> bool
    ensures { result ≡ is_loaded stop }
{
    match stop {
        Stop::Ended(End::Loaded) => true,
        _ => false,
    }
}

// The plan of this one word.
fn plan_of(alloc: Global, address: u16, old: u16) -> Result<Plan, AllocError>
    requires { IsAddress address }
    ensures { IfOk result (IsPlanOfWord address old) }
{
    let bytes = vec![in alloc; (old % BYTE) as u8, (old / BYTE) as u8]?;
    let blocks = vec![in alloc; Block { address, bytes }]?;
    let tape = Tape::new(blocks, NO_START).unwrap();
    match Plan::of(alloc, &tape) {
        Ok(plan) => Ok(plan),
        Err(_) => Err(AllocError),
    }
}
