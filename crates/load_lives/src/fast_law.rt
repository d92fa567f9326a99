ghost use Rattle.load_lives.specs.FastLives.{FastLivesAreTrusted};
ghost use Rattle.load_lives.specs.FastLoads.{FastLoadsAreTrusted};
ghost use Rattle.load_lives.specs.FastLooksFirst.{FastLivesMayLookFirst};
ghost use Rattle.load_lives.specs.Planned.{PlannedStubsAreStubs};

/// A load that brings in stubs may be trusted as every load, wherever it stops, and leaves a line at
/// which the next may begin. This function does nothing: its contract is the law.
pub fn fast_loads_are_trusted()
    ensures { FastLoadsAreTrusted }
{}

/// Loads in a row may be trusted, with stubs or without, however many they are and wherever each was
/// stopped: the record that is left is true of memory, outside the image memory is what it was before
/// the first, and the program's `G` was sent once at most over all of them, last of all, with the mark
/// in the record, over a memory that holds the whole image. This function does nothing: its contract
/// is the law.
pub fn fast_lives_are_trusted()
    ensures { FastLivesAreTrusted }
{}

/// A stub that was planned for a tape's words is one that a load may bring in: where all words of its
/// plan stand, the stub stands there, and is to fill exactly these chunks. This function does nothing:
/// its contract is the law.
pub fn planned_stubs_are_stubs()
    ensures { PlannedStubsAreStubs }
{}

/// Loads in a row may be trusted, with stubs or without, also where each looks first at words that its
/// record has, whatever a stub is in the middle of then. This function does nothing: its contract is
/// the law.
pub fn fast_lives_may_look_first()
    ensures { FastLivesMayLookFirst }
{}
