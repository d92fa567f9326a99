ghost use Rattle.std.specs.Prelude.{◌≡◌, ◌≤◌, MatchOption};
ghost use Rattle.odt_machine.specs.Style.{style_number};

/// What the console's answers leave open: three choices, each a machine's own.
#[derive(Clone, Copy)]
pub struct Style {
    /// One space stands before the digits of an opened word.
    pub space_before: bool,

    /// Two carriage returns, in place of one, stand before the line feed.
    pub two_returns: bool,

    /// An illegal key is echoed before the question mark.
    pub echo_illegal: bool,
}

/// The style of number 0: the answers have nothing that a style may add.
pub const PLAIN_STYLE: Style = Style {
    space_before: false,
    two_returns: false,
    echo_illegal: false,
};

/// The largest number of a style: all three choices.
pub const LARGEST_STYLE: u8 = 7;

impl Style {
    /// The style with this number: 1 for `space_before`, plus 2 for `two_returns`, plus 4 for
    /// `echo_illegal`. `None` exactly above 7.
    pub fn from_number(number: u8) -> Option<Style>
        ensures { MatchOption result (8 ≤ number) (λ style. style_number style ≡ number) }
    {
        if number > LARGEST_STYLE {
            return None;
        }
        Some(Style {
            space_before: number % 2 == 1,
            two_returns: number / 2 % 2 == 1,
            echo_illegal: number / 4 == 1,
        })
    }

    /// The number of this style, 7 at most.
    pub fn number(self) -> u8
        ensures { result ≡ style_number self }
    {
        u8::from(self.space_before)
            + 2 * u8::from(self.two_returns)
            + 4 * u8::from(self.echo_illegal)
    }
}
