ghost use Rattle.tape_making.specs.Words.{OneReading};

/// A text says one thing and no second: these rows, or it is refused at one line for one reason. This
/// function does nothing: its contract is the law.
pub fn one_reading()
    ensures { OneReading }
{}
