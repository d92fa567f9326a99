ghost use Rattle.load_record.specs.Law.{CutsAreRecords, FirstLinesAreThese, WholeIsRead};
ghost use Rattle.load_record.specs.Runs.{RunsAreLongest};

/// Each cut of a record is a record: the text of the first `k` words of a plan, in either version,
/// with the mark or without, cut at any byte, is read as at most `k` words, and with the mark only
/// where it had one. This function does nothing: its contract is the law.
pub fn cut_record()
    ensures { CutsAreRecords }
{}

/// A record that is not cut is read as the words and the mark that it was written of. This function
/// does nothing: its contract is the law.
pub fn whole_record()
    ensures { WholeIsRead }
{}

/// In version 1 the lines of a record are one for each word, and then the mark; no others are read.
/// This function does nothing: its contract is the law.
pub fn first_lines()
    ensures { FirstLinesAreThese }
{}

/// In version 2 each line of a record holds as many words as it may: none of them could have taken the
/// first word of the line behind it. This function does nothing: its contract is the law.
pub fn longest_runs()
    ensures { RunsAreLongest }
{}
