ghost use Rattle.std.specs.Prelude.{◌≡◌, ◌<◌, IsTrue, length, slice_index};
ghost use Rattle.fp_field.specs.Served.{served};
ghost use Rattle.fp_field.specs.Orbits.{AreOrbits, orbit_masks};

use crate::tables;

/// The cyclic orbits of the words of length `P` in two letters that have both letters.
///
/// A word is a mask: bit i is its letter i + 1.
pub struct NormOrbits<const P: u32>;

impl<const P: u32> NormOrbits<P> {
    /// The number of orbits.
    pub fn orbit_count() -> usize
        requires { IsTrue (served P) }
        ensures { result ≡ length (orbit_masks P) }
    {
        tables::orbit_count(P)
    }

    /// The least mask of an orbit; the orbits ascend by it.
    pub fn orbit_mask(at: usize) -> u32
        requires prime { IsTrue (served P) }
        requires listed { at < length (orbit_masks P) }
        ensures { result ≡ slice_index (orbit_masks P) at }
    {
        tables::orbit_mask(P, at)
    }

    /// Each word with both letters is a turn of exactly one listed mask, by exactly one power.
    pub fn orbits_law()
        requires { IsTrue (served P) }
        ensures { AreOrbits P (orbit_masks P) }
    {}
}
