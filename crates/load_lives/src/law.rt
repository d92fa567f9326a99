ghost use Rattle.load_lives.specs.Keepers.{KeepersLeave};
ghost use Rattle.load_lives.specs.Lives.{LivesAreTrusted};
ghost use Rattle.load_lives.specs.Stops.{FrontsAreStopped, RecordsAreFronts, SessionsAreLives};

/// Lives in a row may be trusted, of plain hosts and careful ones in any order, however many they are
/// and wherever each was stopped: the record that is left is true of memory, memory is safe against
/// the one before the first life, and `G` was sent once at most over all of them, with the mark in the
/// record. This function does nothing: its contract is the law.
pub fn lives_are_trusted()
    ensures { LivesAreTrusted }
{}

/// What the engine's contract gives is a life, whatever stopped it, where the line was honest and the
/// record was left as a life leaves it. This function does nothing: its contract is the law.
pub fn sessions_are_lives()
    ensures { SessionsAreLives }
{}

/// A host that is killed at any moment has lived: what it said up to there, any front of what it
/// would have said, is what a stopped life says. This function does nothing: its contract is the law.
pub fn fronts_are_stopped()
    ensures { FrontsAreStopped }
{}

/// What a record's file holds at any moment of a life is a front of the record that the life leaves:
/// fewer words, or the next word or the mark cut off anywhere. This function does nothing: its
/// contract is the law.
pub fn records_are_fronts()
    ensures { RecordsAreFronts }
{}

/// A keeper that writes the record leaves what a life leaves, wherever the engine stopped: by what
/// its calls do and by the order in which the engine makes them. This function does nothing: its
/// contract is the law.
pub fn keepers_leave()
    ensures { KeepersLeave }
{}
