ghost use Rattle.exchange_law.specs.Start.{StartedStubsAreStations};
ghost use Rattle.exchange_law.specs.StubStation.{StubsAreStations, StubsBeginFresh};

/// What passes between a host and the machine with the stub's words in it passes over a line at whose
/// end a station stands on which that stub runs. This function does nothing: its contract is the law.
pub fn stubs_are_stations()
    ensures { StubsAreStations }
{}

/// At its start it is the station that ODT makes of that stub. This function does nothing: its
/// contract is the law.
pub fn stubs_begin_fresh()
    ensures { StubsBeginFresh }
{}

/// From ODT's `G` on, the machine is the station that ODT leaves. This function does nothing: its
/// contract is the law.
pub fn started_stubs_are_stations()
    ensures { StartedStubsAreStations }
{}
