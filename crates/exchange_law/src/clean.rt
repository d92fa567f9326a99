ghost use Rattle.exchange_law.specs.Cable.{CleanLinesBringAllIn};
ghost use Rattle.exchange_law.specs.Clean.{CleanExchangesComplete};

/// Where the host hears silence and then all that the stub answers to what it sends, it sends all chunks
/// and ends complete, and memory has their bytes. This function does nothing: its contract is the law.
pub fn clean_exchanges_complete()
    ensures { CleanExchangesComplete }
{}

/// Over a line that loses nothing an exchange is never broken off, however deliveries follow one another;
/// and once nothing is under way any more it is complete, and memory has all bytes of the chunks. This
/// function does nothing: its contract is the law.
pub fn clean_lines_bring_all_in()
    ensures { CleanLinesBringAllIn }
{}
