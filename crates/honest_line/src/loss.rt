/// A character that a line loses. Keys, and the characters that the machine answers, are each counted
/// from 1 over the whole life of the line, the lost ones too.
#[derive(Clone, Copy)]
pub enum Loss {
    /// The key with this number.
    Down(u64),

    /// The answer character with this number.
    Up(u64),
}

impl Loss {
    ghost use Rattle.std.specs.Prelude.{◌≡◌};
    ghost use Rattle.honest_line.specs.LineTable.{is_key, is_answer};

    /// Whether this is the key with the number.
    pub(crate) fn is_key(&self, number: u64) -> bool
        ensures { result ≡ is_key number self.now }
    {
        match *self {
            Loss::Down(lost) => lost == number,
            Loss::Up(_) => false,
        }
    }

    /// Whether this is the answer character with the number.
    pub(crate) fn is_answer(&self, number: u64) -> bool
        ensures { result ≡ is_answer number self.now }
    {
        match *self {
            Loss::Down(_) => false,
            Loss::Up(lost) => lost == number,
        }
    }
}
