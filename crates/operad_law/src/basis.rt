//! Bases: elements with a degree and a boundary.
ghost use Rattle.std.specs.Prelude.{◌≡◌, ◌≤◌, ◌+◌, ℕ, ℤ, pos, List, [], IfOk, All};
ghost use Rattle.std.specs.declared.cmp.Ordering.TheVariants.{Equal};
ghost use Rattle.signed_sum.specs.Names.{value_at, weight_of};
ghost use Rattle.operad_law.specs.FormalSums.{IsSameSum};

use crate::formal_sum::FormalSum;
use std::alloc::{AllocError, Global};

/// The elements of a basis, each with a degree and a boundary. The laws hold of the valid elements,
/// which all values of the type are: `degree` says so.
pub trait SignedBasis: Ord + Drop {
    ghost is_valid: { Self → Type 0 };

    ghost degree: { Self → ℕ };

    ghost boundary: { Self → List (Self × ℤ) };

    /// The degree.
    fn degree(&self) -> u32
        ensures value { result ≡ degree self.now }
        ensures valid { is_valid self.now };

    /// The boundary, as a formal sum.
    fn boundary(&self, alloc: Global) -> Result<FormalSum<Self>, AllocError>
        ensures { IfOk result (λ s. IsSameSum s (boundary self.now)) };

    /// An equal element.
    fn copy(&self, alloc: Global) -> Result<Self, AllocError>
        ensures { IfOk result (λ c. c ≡ self.now) };

    // Elements that compare equal are the same.
    ghost equal_is_same: { (x y : Self) → Self.cmp x y ≡ Equal → x ≡ y };

    // The terms of a boundary are valid, and of one degree less.
    ghost boundary_valid: { (x : Self) → is_valid x → All (λ t. is_valid t.0) (boundary x) };

    ghost boundary_degree: { (x : Self) → is_valid x → All (λ t. degree t.0 + 1 ≡ degree x) (boundary x) };

    // An element of degree 0 has the boundary zero.
    ghost no_boundary: { (x : Self) → is_valid x → degree x ≡ 0 → boundary x ≡ [] };

    // The boundary of a boundary is zero, at every function of the elements.
    ghost boundary_twice: { (phi : Self → ℤ) (x : Self) → is_valid x → value_at (λ y. value_at phi (boundary y)) (boundary x) ≡ pos 0 };

    ghost boundary_weight: { (x : Self) → is_valid x → weight_of (boundary x) ≤ 510 };
}

/// A basis whose elements have degrees up to 255 and boundaries of weight up to 255.
pub trait Narrow: SignedBasis {
    ghost narrow_boundary: { (x : Self) → Self.is_valid x → weight_of (Self.boundary x) ≤ 255 };

    ghost narrow_degree: { (x : Self) → Self.is_valid x → Self.degree x ≤ 255 };
}
