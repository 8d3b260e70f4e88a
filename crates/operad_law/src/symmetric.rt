//! Bases on which permutations act.
ghost use Rattle.std.specs.Prelude.{◌≡◌, ℕ, ℤ, List, IfOk, All, length};
ghost use Rattle.signed_sum.specs.Names.{value_at};
ghost use Rattle.operad_law.specs.Permutations.{IsPerm, composed, identity};

use crate::basis::Narrow;
use crate::perm::Perm;
use std::alloc::{AllocError, Global};

/// A basis of which each element has an arity, and on which the permutations of its length act
/// without a sign.
pub trait Symmetric: Narrow {
    ghost arity: { Self → ℕ };

    ghost act: { List ℕ → Self → Self };

    /// The arity.
    fn arity(&self) -> u8
        ensures { result ≡ arity self.now };

    /// The permuted element.
    fn act(&self, alloc: Global, tau: &Perm) -> Result<Self, AllocError>
        requires { length tau.now ≡ arity self.now }
        ensures { IfOk result (λ r. r ≡ act tau.now self.now) };

    // It is an action, on valid elements.
    ghost act_valid: { (s : List ℕ) (x : Self) → Self.is_valid x → IsPerm s → length s ≡ arity x → Self.is_valid (act s x) };

    ghost act_identity: { (x : Self) → Self.is_valid x → act (identity (arity x)) x ≡ x };

    ghost act_composed: { (s t : List ℕ) (x : Self) → Self.is_valid x → IsPerm s → IsPerm t → length s ≡ arity x → length t ≡ arity x → act s (act t x) ≡ act (composed s t) x };

    // It keeps the arity and the degree.
    ghost act_arity: { (s : List ℕ) (x : Self) → Self.is_valid x → IsPerm s → length s ≡ arity x → arity (act s x) ≡ arity x };

    ghost act_degree: { (s : List ℕ) (x : Self) → Self.is_valid x → IsPerm s → length s ≡ arity x → Self.degree (act s x) ≡ Self.degree x };

    // The terms of a boundary have the arity of the element.
    ghost boundary_arity: { (x : Self) → Self.is_valid x → All (λ t. arity t.0 ≡ arity x) (Self.boundary x) };

    // The action commutes with the boundary.
    ghost boundary_act: { (phi : Self → ℤ) (s : List ℕ) (x : Self) → Self.is_valid x → IsPerm s → length s ≡ arity x → value_at phi (Self.boundary (act s x)) ≡ value_at (λ y. phi (act s y)) (Self.boundary x) };
}
