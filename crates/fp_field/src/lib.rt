//! The field with P elements, for each prime P that is served.
#![tactic(auto)]

mod element;
mod orbits;
mod tables;

ghost use Rattle.std.specs.Prelude.{◌≡◌};
ghost use Rattle.fp_field.specs.Served.{served};

pub use element::Fp;
pub use orbits::NormOrbits;

/// Whether `p` is a prime that the tables of this crate serve.
pub fn served(p: u32) -> bool
    ensures { result ≡ served p }
{
    matches!(p, 2 | 3 | 5)
}
