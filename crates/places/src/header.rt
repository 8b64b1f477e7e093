// The figures that the header holds: each kind has its place.

ghost use Rattle.std.specs.Prelude.{◌≡◌, List, ℕ, ◌<◌, length, get_or, set};
ghost use Rattle.layout.specs.Codec.{head_size, head_section};

use crate::{figure, store_figure};

// What a header counts, in the order of the bytes.
#[derive(Clone, Copy, PartialEq, Eq)]
pub enum Figure {
    Entries,
    Given,
    Records,
    Permits,
    Ties,
    Waiters,
}

impl Figure {
    ghost use Rattle.places.specs.Figures.{place_of};

    // The figure that a header has.
    pub fn read(self, head: &[u8]) -> usize
        requires { length head.now ≡ head_size }
        ensures { (fs : List ℕ) → head.now ≡ head_section fs → get_or fs (place_of self) 0 < 65536 → result ≡ get_or fs (place_of self) 0 }
    {
        figure(head, self as usize)
    }

    // It becomes v.
    pub fn store(self, head: &mut [u8], v: u16)
        requires { length head.old ≡ head_size }
        ensures { (fs : List ℕ) → head.old ≡ head_section fs → place_of self < length fs → head.new ≡ head_section (set fs (place_of self) v) }
    {
        store_figure(head, self as usize, v);
    }
}
