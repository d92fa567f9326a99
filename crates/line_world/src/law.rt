ghost use Rattle.line_world.specs.OneBit.{OneBitIsHarmless};

/// No key that a host types becomes a CR, a `/` or a `G` where one of its seven bits is changed: so a line that changes
/// single bits keeps to what `Event::ChangeDown` allows. This function does nothing: its contract is the law.
pub fn one_bit_is_harmless()
    ensures { OneBitIsHarmless }
{}
