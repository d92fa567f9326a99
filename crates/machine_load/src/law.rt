ghost use Rattle.machine_load.specs.Fronts.{StubFrontsAreStopped};
ghost use Rattle.machine_load.specs.Lives.{LoadsAreFastLives, LoadsAreLives};

/// What `load` promises of a plain load whose keeper writes the record's file is a life, with stubs or
/// without, whatever stopped it, or two in a row, where it looks again behind its stubs: so
/// `fast_lives_may_look_first` of the crate `load_lives` speaks of loads in a row, also with `recheck`. This
/// function does nothing: its contract is the law.
pub fn loads_are_fast_lives()
    ensures { LoadsAreFastLives }
{}

/// What `load` promises of a load without stubs, plain or careful, is a life at a machine, whatever stopped
/// it and behind its looks, so that `looks_may_come_first` of the crate `sample_looks` speaks of such loads in
/// a row. This function does nothing: its contract is the law.
pub fn loads_are_lives()
    ensures { LoadsAreLives }
{}

/// A load that is killed with its stubs has lived: what it said up to there, any front of what it would
/// have said, is what a life says that was stopped with its stubs. Behind them `fronts_are_stopped` of the
/// crate `load_lives` says it. This function does nothing: its contract is the law.
pub fn stub_fronts_are_stopped()
    ensures { StubFrontsAreStopped }
{}
