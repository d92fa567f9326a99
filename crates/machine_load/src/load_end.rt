use load_engine::Stop;

/// How a load ended that was reported.
#[derive(Clone, Copy)]
pub enum LoadEnd {
    /// Its host stopped so, or a device failed with its stubs, or it was over before it began.
    Driven(Stop),

    /// Looks, its first or those behind its stubs, stopped so before each word was read. It did nothing behind them.
    Unfinished(Stop),

    /// The word at this address is the first of those looked at that does not stand. It did nothing behind
    /// its looks.
    Stale(u16),
}
