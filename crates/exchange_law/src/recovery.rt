ghost use Rattle.exchange_law.specs.Mirror.{StationsWithoutStubAreMachines};
ghost use Rattle.exchange_law.specs.Recovery.{HostsRecover};

/// What a loading host says and hears over a line to a station at which no stub runs is what it could
/// say and hear over an honest line to its machine, with the same losses. This function does nothing:
/// its contract is the law.
pub fn stations_without_stub_are_machines()
    ensures { StationsWithoutStubAreMachines }
{}

/// An ordinary host that begins over a line on which a stub was at work may be trusted, wherever the
/// stub stands and whatever is under way. This function does nothing: its contract is the law.
pub fn hosts_recover()
    ensures { HostsRecover }
{}
