//! What a host decides that brings a stub to a machine and exchanges bytes with it.
//!
//! First how a tape's words are split: a `Chunk` is a few consecutive bytes of its image, a stretch an entry of
//! the stub's table of them. The stub lies in a window behind the verified words; its plan has its words there,
//! and before it soundings with the tape's own content: where the stub starts, memory is there.
//!
//! Then the exchange. The host waits for silence and sends the nibbles of a chunk, some of them ahead of the
//! stub's answer (`Duplex` says how many). That tells each nibble as memory holds it now, complemented, so that no
//! echo passes for an answer. The words of a chunk are verified once its whole answer came and is the image's;
//! `specs/Exchange.antt` says why not sooner. At anything else, and at a silence, the host leaves. The contract of
//! `step` is the table of the phases. `exchange_law` shows what this means for a machine.
#![tactic(auto)]

mod chunk;
mod chunking;
mod duplex;
mod exchange;
mod phase;
mod planning;
mod stretch;
mod stretches;
mod turn;
mod window;
mod word_bytes;

pub use chunk::{Chunk, Keys};
pub use chunking::chunks_of;
pub use duplex::Duplex;
pub use exchange::{Exchange, ExchangeStep};
pub use phase::{End, Phase};
pub use planning::stub_plan;
pub use stretch::Stretch;
pub use stretches::stretches_of;
pub use window::window_for;
