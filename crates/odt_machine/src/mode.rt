/// What the console is in the middle of.
///
/// Digits are counted from 1, and the count stays at 7 however many more are typed.
#[derive(Clone, Copy)]
pub enum Mode {
    /// At the prompt, with nothing typed.
    Prompt,

    /// Digits were typed at the prompt: the number so far, and how many digits.
    Number(u16, u8),

    /// The word at this address is open, and nothing was typed since.
    Opened(u16),

    /// Digits were typed into an open word: its address, the value so far, and how many digits.
    Typing(u16, u16, u8),

    /// The program runs, started at this address.
    Running(u16),
}
