ghost use Rattle.std.specs.Prelude.{◌≡◌};
ghost use Rattle.machine_look.specs.Trust.{are_trusted, is_trusted};

use reading_core::{Care, ReadingCore};

/// Whether what this host read may be believed, each word looked at with this care: it heard no character that
/// no loss explains, or looked at each word twice.
pub(crate) fn trusts(care: Care, core: &ReadingCore) -> bool
    ensures { result ≡ is_trusted care core.now.foreign }
{
    match care {
        Care::Twice => true,
        Care::Once | Care::TwiceWhereOther => core.foreign_count() == 0,
    }
}

/// The same of a save, of its looks at samples and of its reading.
pub(crate) fn are_trusted(care: Care, looks: &ReadingCore, last: &ReadingCore) -> bool
    ensures { result ≡ are_trusted care looks.now last.now }
{
    trusts(care, looks) && trusts(care, last)
}
