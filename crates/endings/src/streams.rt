use crate::fault_output::FaultOutput;
use crate::output::Output;
use std::io::Read;
use std::marker::Model;

/// The three standard streams.
///
/// Contracts see what each of them holds, as far as its type tells, and what it has met.
#[derive(Drop)]
pub struct Streams<R: Read, W: Output, E: FaultOutput> {
    /// Standard input.
    pub input: R,

    /// Standard output, for reports and help.
    pub out: W,

    /// Standard error, for faults and refused command lines.
    pub err: E,
}

impl<R: Read, W: Output, E: FaultOutput> Model for Streams<R, W, E> {
    ghost use Rattle.endings.specs.Held.{Held};

    ghost Value = { Held };

    ghost view = { λ streams. record {
      input = R.remaining streams.input;
      out = W.contents streams.out;
      unread = W.unread streams.out;
      err = E.said streams.err;
    } };
}
