ghost use Rattle.exchange_law.specs.Law.{ExchangesAreTrue};

/// An exchange with a stub, over any line that keeps order, whatever that loses and wherever the host
/// stops: each word that counts as verified stands in memory, no byte outside its chunks has changed,
/// and a complete one leads back to ODT. This function does nothing: its contract is the law.
pub fn exchanges_are_true()
    ensures { ExchangesAreTrue }
{}
