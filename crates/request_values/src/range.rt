ghost use Rattle.std.specs.Prelude.{◌≡◌, ◌↔◌, IsSome, IfSome};
ghost use Rattle.reading_core.specs.Addresses.{IsRange};

use tape_values::TOP;

/// A first and a last address of words, both of them meant: even, below 160000 (octal), and in this order.
#[derive(Clone, Copy)]
pub struct AddressRange {
    from: u16,
    to: u16,
    ghost in_order: { IsRange from to },
}

impl AddressRange {
    /// The range of these two addresses. None where one of them is odd or not below 160000 (octal), or the
    /// first lies above the last.
    pub fn new(from: u16, to: u16) -> Option<AddressRange>
        ensures made { IsSome result ↔ IsRange from to }
        ensures value { IfSome result (λ range. (range.from ≡ from) × (range.to ≡ to)) }
    {
        if from % 2 == 0 && to % 2 == 0 && to < TOP as u16 && from <= to {
            Some(AddressRange { from, to })
        } else {
            None
        }
    }

    /// The first address.
    pub fn from(self) -> u16
        ensures value { result ≡ self.from }
        ensures in_order { IsRange self.from self.to }
    {
        self.from
    }

    /// The last address.
    pub fn to(self) -> u16
        ensures value { result ≡ self.to }
        ensures in_order { IsRange self.from self.to }
    {
        self.to
    }
}
