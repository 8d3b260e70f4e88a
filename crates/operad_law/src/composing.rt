//! Symmetric bases whose elements compose, and the Leibniz rule of compositions.
ghost use Rattle.std.specs.Prelude.{◌≡◌, ◌≤◌, ◌<◌, ◌+◌, ◌+ℤ◌, ◌^◌, ◌↔◌, ℕ, ℤ, List, IfOk, Err, All};
ghost use Rattle.signed_sum.specs.Names.{signed, value_at};
ghost use Rattle.operad_law.specs.FormalSums.{IsSameSum};

use crate::formal_sum::{FormalSum, SumEnd};
use crate::symmetric::Symmetric;
use std::alloc::Global;

/// A symmetric basis with compositions: the element at each place k of another.
pub trait Composing: Symmetric {
    // The composition at k, as a sum of candidates without those that are zero, and their number.
    ghost compose: { ℕ → Self → Self → List (Self × ℤ) };

    ghost candidate_count: { ℕ → Self → Self → ℕ };

    // Whether the terms of the compositions of two elements are within the limits of the type.
    ghost within_limits: { Self → Self → Type 0 };

    /// The composition of this element with another at k. `TooLarge` exactly where the candidates are
    /// more than 10^18.
    fn compose_at(&self, alloc: Global, k: u8, other: &Self) -> Result<FormalSum<Self>, SumEnd>
        requires some { 1 ≤ k }
        requires within { k ≤ Self.arity self.now }
        requires limits { within_limits self.now other.now }
        ensures ok { IfOk result (λ s. IsSameSum s (compose k self.now other.now)) }
        ensures too_large { (result ≡ Err SumEnd.TooLarge) ↔ (10 ^ 18 < candidate_count k self.now other.now) };

    // The terms are valid, their arity is r + s - 1, and their degrees sum.
    ghost compose_valid: { (k : ℕ) (x y : Self) → Self.is_valid x → Self.is_valid y → 1 ≤ k → k ≤ Self.arity x → within_limits x y → All (λ t. Self.is_valid t.0) (compose k x y) };

    ghost compose_arity: { (k : ℕ) (x y : Self) → Self.is_valid x → Self.is_valid y → 1 ≤ k → k ≤ Self.arity x → within_limits x y → All (λ t. Self.arity t.0 + 1 ≡ Self.arity x + Self.arity y) (compose k x y) };

    ghost compose_degree: { (k : ℕ) (x y : Self) → Self.is_valid x → Self.is_valid y → 1 ≤ k → k ≤ Self.arity x → within_limits x y → All (λ t. Self.degree t.0 ≡ Self.degree x + Self.degree y) (compose k x y) };
}

/// A basis with compositions of which the boundary follows the Leibniz rule: the boundary of x composed
/// with y is the boundary of x composed with y plus, with the sign of the degree of x, x composed with
/// the boundary of y.
pub trait Leibniz: Composing {
    ghost leibniz: { (phi : Self → ℤ) (k : ℕ) (x y : Self) → Self.is_valid x → Self.is_valid y → 1 ≤ k → k ≤ Self.arity x → value_at (λ z. value_at phi (Self.boundary z)) (Self.compose k x y) ≡ value_at (λ z. value_at phi (Self.compose k z y)) (Self.boundary x) +ℤ signed (Self.degree x) (value_at (λ z. value_at phi (Self.compose k x z)) (Self.boundary y)) };
}
