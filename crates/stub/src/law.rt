ghost use Rattle.stub.specs.Decoder.{StubsAreFound};
ghost use Rattle.stub.specs.Example.{AStubRuns};
ghost use Rattle.stub.specs.Law.{StubsDoAsTold};
ghost use Rattle.stub.specs.Pace.{StubsKeepUp, StubsRest};
ghost use Rattle.stub.specs.Seen.{StubsAreSeenSo};

/// The machine that was started at the stub does what the stub does as the host knows it, however
/// instructions, arrivals and leavings interleave. This function does nothing: its contract is the law.
pub fn stubs_do_as_told()
    ensures { StubsDoAsTold }
{}

/// A host at the other end of the line sees what it would see of the stub as it knows it: whatever
/// happens, there are moves of that one by which the same is sent and heard. This function does
/// nothing: its contract is the law.
pub fn stubs_are_seen_so()
    ensures { StubsAreSeenSo }
{}

/// The stub fetches a character that waits, or gives one to the transmitter, within 33 instructions,
/// or has halted by then. This function does nothing: its contract is the law.
pub fn stubs_keep_up()
    ensures { StubsKeepUp }
{}

/// Where no character waits and the transmitter is free, the machine is at rest within 33
/// instructions, unless it halts or gives a character to the transmitter before. This function does
/// nothing: its contract is the law.
pub fn stubs_rest()
    ensures { StubsRest }
{}

/// Which stub stands at an address is one function of memory. This function does nothing: its contract
/// is the law.
pub fn stubs_are_found()
    ensures { StubsAreFound }
{}

/// One run of the stub, by computing alone. This function does nothing: its contract is the example.
pub fn a_stub_runs()
    ensures { AStubRuns }
{}
