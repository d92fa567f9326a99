ghost use Rattle.std.specs.Prelude.{◌≡◌, [], ◌∷◌, true, None, IfOk, IfErr, OnOk, Ok, Err};
ghost use Rattle.std.specs.Io.KnownBytes.{Appends};
ghost use Rattle.host_devices.specs.Failures.{count_after, fault_of};
ghost use Rattle.host_core.specs.declared.heard.Heard.TheVariants.{Quiet};
ghost use Rattle.console_lines.specs.Hearing.{GoesUpBy, IsCharacter, IsHearing, IsHearingFault, IsSentInPart, silences_of};

use crate::read_ahead::ReadAhead;
use crate::receive::TimedStream;
use crate::stream::hear_from;
use host_core::Heard;
use host_devices::{Line, LineFault};
use std::io::Write;
use std::marker::Model;
use std::time::Duration;

/// A line over a stream: the console is behind its other end.
///
/// Contracts see what was read of the stream and not heard yet; the bytes that are still to come, those first, which went
/// out, how often the time limit was met and whether the stream is at its end, where the stream tells them; and how the
/// line's calls failed.
#[derive(Drop)]
pub struct StreamLine<S: TimedStream> {
    stream: ReadAhead<S>,
    failures: u64,
    fault: Option<LineFault>,
}

impl<S: TimedStream> Model for StreamLine<S> {
    ghost use Rattle.std.specs.Io.KnownBytes.{prepend_known};
    ghost use Rattle.console_lines.specs.ReadAhead.{is_over_behind, left_ahead};
    ghost use Rattle.console_lines.specs.StreamLine.{StreamLineValue};

    ghost Value = { StreamLineValue };

    ghost view = { λ l. record {
      ahead = left_ahead l.stream.bytes l.stream.given l.stream.filled;
      to_come = prepend_known (left_ahead l.stream.bytes l.stream.given l.stream.filled) (S.to_come l.stream.stream);
      gone_out = S.contents l.stream.stream;
      silences = S.silences l.stream.stream;
      is_over = is_over_behind (left_ahead l.stream.bytes l.stream.given l.stream.filled) (S.is_over l.stream.stream);
      failures = l.failures;
      fault = l.fault;
    } };
}

impl<S: TimedStream + Drop> StreamLine<S> {
    ghost use Rattle.console_lines.specs.StreamLine.{fresh_line};

    /// A line over a stream, on which silence for the quiet time, in milliseconds, is heard as such.
    ///
    /// `Receive` where the stream takes no such time limit, as none takes 0; it is then closed.
    pub fn new(stream: S, quiet_ms: u32) -> Result<StreamLine<S>, LineFault>
        ensures fresh { IfOk result (λ line. line ≡ fresh_line (S.to_come stream) (S.contents stream) (S.silences stream) (S.is_over stream)) }
        ensures fault { IfErr result (λ fault. fault ≡ LineFault.Receive) }
    {
        let quiet_time = Duration::from_millis(u64::from(quiet_ms));
        if stream.set_read_timeout(Some(quiet_time)).is_err() {
            return Err(LineFault::Receive);
        }
        Ok(StreamLine::over(stream))
    }

    /// A line over a stream whose reads are limited to the quiet time.
    pub(crate) fn over(stream: S) -> StreamLine<S>
        ensures { result ≡ fresh_line (S.to_come stream) (S.contents stream) (S.silences stream) (S.is_over stream) }
    {
        // A key is a packet of its own and waits for no other. A stream that is no TCP connection has
        // no such delay, and no such setting either.
        let _ = stream.set_nodelay(true);
        StreamLine {
            stream: ReadAhead::new(stream),
            failures: 0,
            fault: None,
        }
    }
}

impl<S: TimedStream> StreamLine<S> {
    ghost use Rattle.console_lines.specs.StreamLine.{after_call};

    // Counts a call that failed, and keeps how the last one did.
    fn note(&mut self, fault: Option<LineFault>)
        ensures { self.new ≡ after_call self.old fault }
    {
        self.fault = fault;
        if fault.is_some() {
            self.failures = self.failures.saturating_add(1);
        }
    }
}

impl<S: TimedStream> Line for StreamLine<S> {
    ghost fault_count = { λ line. line.failures };

    ghost last_fault = { λ line. line.fault };

    /// Sends one key, in one write; `Send` where that fails. It is not tried again then, and it is unknown
    /// whether the key went out.
    fn send(&mut self, key: u8) -> Result<(), LineFault>
        ensures gone_out { OnOk result (Appends self.old.gone_out self.new.gone_out (key ∷ [])) }
        ensures failed { IfErr result (IsSentInPart self.old.gone_out self.new.gone_out key) }
        ensures ahead { self.new.ahead ≡ self.old.ahead }
        ensures counted { self.new.failures ≡ count_after self.old.failures result }
        ensures fault { self.new.fault ≡ fault_of result }
    {
        let outcome = match self.stream.write(&[key]) {
            Ok(1) => self.stream.flush().map_err(|_| LineFault::Send),
            _ => Err(LineFault::Send),
        };
        self.note(outcome.err());
        outcome
    }

    /// Hears the next character, with bit 7 cleared and the character 000 dropped.
    ///
    /// `Closed` is the stream's end, `Receive` a read that failed, and `Noise` the 4,096th character
    /// that is dropped.
    fn hear(&mut self) -> Result<Heard, LineFault>
        ensures character { IfOk result IsCharacter }
        ensures taken { IfOk result (IsHearing self.old.to_come self.new.to_come) }
        ensures failed { IfErr result (IsHearingFault self.old.to_come self.new.to_come) }
        ensures silence { GoesUpBy self.old.silences self.new.silences (silences_of result) }
        ensures none_ahead { result ≡ Ok Quiet → self.new.ahead ≡ [] }
        ensures over { self.old.is_over ≡ true → result ≡ Err LineFault.Closed }
        ensures counted { self.new.failures ≡ count_after self.old.failures result }
        ensures fault { self.new.fault ≡ fault_of result }
    {
        let outcome = hear_from(&mut self.stream);
        self.note(outcome.err());
        outcome
    }

    fn failures(&self) -> u64 {
        self.failures
    }

    fn failed(&self) -> bool {
        self.fault.is_some()
    }
}
