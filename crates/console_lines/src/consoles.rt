//! The consoles that names stand for.
ghost use Rattle.std.specs.Prelude.{◌≡◌, [], ◌∷◌, List, Option, None, IfOk, IfErr};
ghost use Rattle.host_devices.specs.Told.{Gains};
ghost use Rattle.console_lines.specs.Dialling.{LineRequest, asked_for};
ghost use Rattle.console_lines.specs.Path.{call_of};
ghost use Rattle.host_devices.specs.Devices.{LineTold, line_told};
ghost use Rattle.console_lines.specs.Reached.{IsUnused, IsReachFault};

use crate::dial::Dial;
use host_devices::{Line, LineFault};

/// The consoles of a system, each of which is reached by its name.
pub trait Consoles {
    /// The line to a console. It can't be dropped: each that was reached is given back, by `let_go`.
    type Line: Line;

    /// What was asked for lines so far, in its order; None where the type doesn't tell.
    ghost asked: { Self → Option (List LineRequest) } = { λ _. None };

    /// What the lines tell that were given back, in their order; None where the type doesn't tell.
    ghost lines: { Self → Option (List LineTold) } = { λ _. None };

    /// Reaches the console that a name stands for, and gives a line on which nothing was said: of the serial device at
    /// a path, where the name has a slash, else of whoever answers at HOST:PORT. No other console is asked for.
    ///
    /// `Connect` where the console can't be reached, and `Receive` where its line takes no such quiet
    /// time; it is then closed.
    fn reach(&mut self, dial: Dial<'_>) -> Result<Self::Line, LineFault>
        ensures fresh { IfOk result (λ line. IsUnused (Self.Line.told line) (Self.Line.fault_count line) (Self.Line.last_fault line)) }
        ensures fault { IfErr result IsReachFault }
        ensures asked { Gains (asked self.old) (asked self.new) (asked_for (call_of dial.entry) result) }
        ensures lines { lines self.new ≡ lines self.old };

    /// Takes a line back that it gave. What the line tells then is told from there on.
    fn let_go(&mut self, line: Self::Line)
        ensures lines { Gains (lines self.old) (lines self.new) (line_told Self.Line.Line line ∷ []) }
        ensures asked { asked self.new ≡ asked self.old };
}
