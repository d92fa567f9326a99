ghost use Rattle.sample_looks.specs.LooksFirst.{LoadsMayFollow, LooksMayComeFirst, LooksMayStandAlone, SamplesAreOfTheRecord};

/// Behind looks a load may begin on their line that might have begun without them, and memory is what it
/// was. This function does nothing: its contract is the law.
pub fn loads_may_follow()
    ensures { LoadsMayFollow }
{}

/// Lives in a row, plain and careful ones in any order, may be trusted, also where each looks first, in
/// any manner, whatever was under way on the line when it began to look: of all keys, those of the looks
/// too, `G` is the last. This function does nothing: its contract is the law.
pub fn looks_may_come_first()
    ensures { LooksMayComeFirst }
{}

/// Looks with nothing behind them are a life that leaves the record alone. This function does nothing:
/// its contract is the law.
pub fn looks_may_stand_alone()
    ensures { LooksMayStandAlone }
{}

/// What `look_at_samples` promises of a record's samples is a look of which these laws speak, whatever
/// stopped it. This function does nothing: its contract is the law.
pub fn samples_are_of_the_record()
    ensures { SamplesAreOfTheRecord }
{}
