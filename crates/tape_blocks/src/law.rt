ghost use Rattle.tape_blocks.specs.Reading.{OneTape, OneReading};

/// No tape begins another: no text of a tape is a proper beginning of a second tape, and a text has
/// one list of blocks and one start. This function does nothing: its contract is the law.
pub fn one_tape()
    ensures { OneTape }
{}

/// An input of bytes says one thing and no second: either a tape of so many bytes begins it, or it is
/// refused for one reason at one place. This function does nothing: its contract is the law.
pub fn one_reading()
    ensures { OneReading }
{}
