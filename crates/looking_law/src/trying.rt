ghost use Rattle.looking_law.specs.Again.{OneLineFindsTheWordAgain, ProbesFindTheWordAgain};
ghost use Rattle.looking_law.specs.Parts.{OneLineIsARow, RunsLeaveReady};
ghost use Rattle.looking_law.specs.Runs.{LooksAndTrialsDoNoHarm, OthersMayFollow};
ghost use Rattle.looking_law.specs.Splitting.{HonestLinesSplit, ReadingsEndTidily, TrialsEndTidily};
ghost use Rattle.looking_law.specs.Trying.{TrialsOnlyTry, TryingKeysStoreNothing};

/// Digits, `/`, `Z` and `a` store nothing and start nothing, whatever happens on the line. This function
/// does nothing: its contract is the law.
pub fn trying_keys_store_nothing()
    ensures { TryingKeysStoreNothing }
{}

/// A trial types digits, `/`, `Z` and `a` alone, whatever it hears. This function does nothing: its
/// contract is the law.
pub fn trials_only_try()
    ensures { TrialsOnlyTry }
{}

/// A look, a trial and a second look change nothing and read the same number twice. This function does
/// nothing: its contract is the law.
pub fn probes_find_the_word_again()
    ensures { ProbesFindTheWordAgain }
{}

/// An honest line on which hosts ran one after another is one honest line for each. This function does
/// nothing: its contract is the law.
pub fn honest_lines_split()
    ensures { HonestLinesSplit }
{}

/// Where a reading ends, a next host may begin. This function does nothing: its contract is the law.
pub fn readings_end_tidily()
    ensures { ReadingsEndTidily }
{}

/// Where a trial ends, a next host may begin. This function does nothing: its contract is the law.
pub fn trials_end_tidily()
    ensures { TrialsEndTidily }
{}

/// The same of a look, a trial and a second look over one honest line. This function does nothing: its
/// contract is the law.
pub fn one_line_finds_the_word_again()
    ensures { OneLineFindsTheWordAgain }
{}

/// Any number of looks and trials over one honest line change nothing, and what they learned is true.
/// This function does nothing: its contract is the law.
pub fn looks_and_trials_do_no_harm()
    ensures { LooksAndTrialsDoNoHarm }
{}

/// The same where another host followed them on the line. This function does nothing: its contract is
/// the law.
pub fn others_may_follow()
    ensures { OthersMayFollow }
{}

/// A look and a trial leave the machine ready for the next host. This function does nothing: its
/// contract is the law.
pub fn runs_leave_ready()
    ensures { RunsLeaveReady }
{}

/// One honest line on which several hosts ran is an honest line for each of them. This function does
/// nothing: its contract is the law.
pub fn one_line_is_a_row()
    ensures { OneLineIsARow }
{}
