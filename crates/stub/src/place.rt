ghost use Rattle.std.specs.Prelude.{◌≡◌, ◌↔◌, ◌≤◌, ◌^◌, IsTrue, length};
ghost use Rattle.tape_values.specs.Block.{top};
ghost use Rattle.stub.specs.Decoder.{all_fit, fits};
ghost use Rattle.stub.specs.Place.{StretchesFit, stub_end};

use crate::words::stub_size;
use exchange_core::Stretch;

// The first address above every memory.
const TOP: u16 = 0o160000;

/// Whether a stub that lies at an address may have these stretches: each has a byte, ends at 160000 or
/// below, and touches none of the stub's words.
pub fn stub_fits(place: u16, stretches: &[Stretch]) -> bool
    requires few { length stretches.now ≤ 2 ^ 16 }
    ensures { IsTrue result ↔ StretchesFit place (stub_end place stretches.now) top stretches.now }
{
    all_fit(place, end_of(place, stretches), stretches)
}

// The first address behind the stub.
fn end_of(place: u16, stretches: &[Stretch]) -> usize
    requires few { length stretches.now ≤ 2 ^ 16 }
    ensures { result ≡ stub_end place stretches.now }
{
    usize::from(place) + 2 * stub_size(stretches.len())
}

// Whether these stretches fit a stub that lies from an address up to another.
fn all_fit(place: u16, until: usize, stretches: &[Stretch]) -> bool
    ensures { result ≡ all_fit place until top stretches.now }
{
    for stretch in stretches {
        if !fits(place, until, *stretch) {
            return false;
        }
    }
    true
}

// Whether one does.
fn fits(place: u16, until: usize, stretch: Stretch) -> bool
    ensures { result ≡ fits place until top stretch }
{
    stretch.from < stretch.to
        && stretch.to <= TOP
        && (stretch.to <= place || until <= usize::from(stretch.from))
}
