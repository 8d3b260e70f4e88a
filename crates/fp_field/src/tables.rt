ghost use Rattle.std.specs.Prelude.{◌≡◌, ℕ, ◌*◌, ◌%◌, ◌<◌, ◌≢◌, IsTrue, length, slice_index};
ghost use Rattle.fp_field.specs.Served.{served};
ghost use Rattle.fp_field.specs.Element.{factorial};
ghost use Rattle.fp_field.specs.Orbits.{orbit_masks};

/// The entry of the prime's row in a table with one row for each served prime.
macro_rules! entry {
    ($p:expr, $at:expr; $($prime:literal => $row:expr),* $(,)?) => {
        match $p {
            $($prime => $row[$at],)*
            _ => 0,
        }
    };
}

/// The inverse of `n` modulo `p`.
pub(crate) fn inverse(p: u32, n: u8) -> u8
    requires prime { IsTrue (served p) }
    requires small { n < p }
    requires nonzero { n ≢ 0 }
    ensures small { result < p }
    ensures inverse { (n * result) % p ≡ 1 }
{
    entry!(p, n as usize; 2 => [0, 1], 3 => [0, 1, 2], 5 => [0, 1, 3, 2, 4])
}

/// The factorial of `n` modulo `p`.
pub(crate) fn factorial(p: u32, n: u8) -> u8
    requires prime { IsTrue (served p) }
    requires small { n < p }
    ensures { result ≡ factorial n % p }
{
    entry!(p, n as usize; 2 => [1, 1], 3 => [1, 1, 2], 5 => [1, 1, 2, 1, 4])
}

/// The number of orbits of words of length `p`.
pub(crate) fn orbit_count(p: u32) -> usize
    requires { IsTrue (served p) }
    ensures { result ≡ length (orbit_masks p) }
{
    entry!(p, 0; 2 => [1], 3 => [2], 5 => [6])
}

/// The least mask of an orbit of words of length `p`.
pub(crate) fn orbit_mask(p: u32, at: usize) -> u32
    requires prime { IsTrue (served p) }
    requires listed { at < length (orbit_masks p) }
    ensures { result ≡ slice_index (orbit_masks p) at }
{
    entry!(p, at; 2 => [1], 3 => [1, 3], 5 => [1, 3, 5, 7, 11, 15])
}
