ghost use Rattle.std.specs.Prelude.{Some};
ghost use Rattle.host_devices.specs.Devices.{devices_of};
ghost use Rattle.engine.specs.Keeping.{progress_calls};
ghost use Rattle.exchange_core.specs.Chunk.{AreChunks};
ghost use Rattle.exchange_core.specs.Exchange.{begun};
ghost use Rattle.stub_engine.specs.Exchanged.{IsCarriedOut, turns_give};
ghost use Rattle.stub_engine.specs.Exchanging.{exchanging};
ghost use Rattle.stub_engine.specs.Keeping.{IsKeptBy};

use crate::hosting::ExchangeHost;
use engine::lead;
use exchange_core::{Chunk, Duplex, End, Exchange};
use host_devices::{Keep, Line, Onlooker};
use tape_image::Plan;

/// Why the engine stopped.
pub type ExchangeStop = engine::Stop<End>;

/// Exchanges the chunks with the stub at the other end of the line, behind the plan's first `from`
/// words, for at most so many turns, and sends while answers come, or one way at a time.
///
/// Before each turn, and after the last, an end of the exchange stops the engine. In a turn one thing
/// is heard, the exchange takes its step, the words that became verified are kept one after another,
/// and last the characters that the step answered are sent. The first failure stops the engine, and
/// nothing after it in that turn is done. The exchange that comes back has taken the step. The onlooker
/// is told of each step, before anything comes of it, and of no key, since a step has many.
pub fn exchange<L: Line, K: Keep, O: Onlooker>(
    plan: &Plan,
    chunks: &[Chunk],
    from: u32,
    duplex: Duplex,
    line: &mut L,
    keep: &mut K,
    turns: u64,
    onlooker: &O,
) -> (Exchange, ExchangeStop)
    requires chunks { AreChunks plan.now from chunks.now }
    ensures led { IsCarriedOut turns (exchanging plan.now chunks.now (begun from duplex, result.0) (Some result.1))
        (devices_of L.Line K.Keep line.old keep.old) (devices_of L.Line K.Keep line.new keep.new) }
    ensures kept { IsKeptBy (progress_calls K.Keep)
        (turns_give (exchanging plan.now chunks.now (begun from duplex, result.0) (Some result.1))) keep.old keep.new }
{
    let state = Exchange::new(from, duplex);
    let mut host = ExchangeHost {
        plan,
        chunks,
        state,
    };
    let stop = lead(&mut host, line, keep, turns, onlooker);
    (host.state, stop)
}
