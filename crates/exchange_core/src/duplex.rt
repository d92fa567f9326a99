/// Whether the host sends while answers come. It holds for a whole exchange.
#[derive(Clone, Copy)]
pub enum Duplex {
    /// Both ways at once: the host sends up to 32 characters beyond the answers that it heard.
    Full,

    /// One way at a time: the host sends a byte's two characters, and those of the next byte once both
    /// answers came. For lines that carry one way at a time, and processors that are too slow for both.
    Half,
}
