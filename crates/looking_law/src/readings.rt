ghost use Rattle.looking_law.specs.Belief.{HonestReadingsAreTrue, ReadingsHearNothingForeign, ReadingsLeaveItReady, UnsaidReadingsAreTrue};
ghost use Rattle.looking_law.specs.Harmless.{ReadingsDoNoHarm};

/// Readings do no harm, whatever happens on the line and however often the host is restarted. This
/// function does nothing: its contract is the law.
pub fn readings_do_no_harm()
    ensures { ReadingsDoNoHarm }
{}

/// What a host read that heard an honest line is true, and nothing was changed. This function does
/// nothing: its contract is the law.
pub fn honest_readings_are_true()
    ensures { HonestReadingsAreTrue }
{}

/// The same of a host whose last key was never sent, as of one whose line lost it. This function does
/// nothing: its contract is the law.
pub fn unsaid_readings_are_true()
    ensures { UnsaidReadingsAreTrue }
{}

/// A reading host that heard an honest line heard nothing that no loss explains. This function does
/// nothing: its contract is the law.
pub fn readings_hear_nothing_foreign()
    ensures { ReadingsHearNothingForeign }
{}

/// Behind a reading the machine is ready for the next host. This function does nothing: its contract is
/// the law.
pub fn readings_leave_it_ready()
    ensures { ReadingsLeaveItReady }
{}
