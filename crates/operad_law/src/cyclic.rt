//! Bases with a turn of which a power is the identity.
ghost use Rattle.std.specs.Prelude.{◌≡◌, ◌≤◌, ◌<◌, ◌+◌, ◌*ℤ◌, ◌^◌, ℕ, ℤ, Bool, pos, List, IfOk, OnOk, All, IsTrue, nat_abs};
ghost use Rattle.signed_sum.specs.Names.{value_at, weight_of, IsSign, difference, power_sum, after_turns};
ghost use Rattle.signed_sum.proofs.Names.{turn_norm as turn_norm_law, norm_turn as norm_turn_law, boundary-difference, boundary-powers};
ghost use Rattle.operad_law.specs.FormalSums.{IsSameSum, plus_term};

use crate::basis::SignedBasis;
use crate::formal_sum::{FormalSum, SumEnd};
use std::alloc::{AllocError, Global};

/// A basis with a turn ρ, up to a sign, of the elements that fit; P turns are the identity.
/// `T = ρ - 1` and `N = 1 + ρ + .. + ρ^(P-1)` are defined from the turn alone, and their laws follow.
pub trait CyclicModel<const P: u32>: SignedBasis {
    ghost fits: { Self → Bool };

    ghost turn: { Self → Self × ℤ };

    /// Whether the element is one that turns.
    fn fits(&self) -> bool
        ensures { result ≡ fits self.now };

    /// The turned element, and a sign.
    fn turn(&self, alloc: Global) -> Result<(Self, i64), AllocError>
        requires { IsTrue (fits self.now) }
        ensures { IfOk result (λ r. r ≡ turn self.now) };

    /// `T = ρ - 1` of the element.
    fn t(&self, alloc: Global) -> Result<FormalSum<Self>, AllocError>
        requires { IsTrue (fits self.now) }
        ensures { IfOk result (λ s. IsSameSum s (difference turn self.now)) }
    {
        let _degree = self.degree();
        let mut sum = FormalSum::new(alloc);
        let whole = self.copy(alloc)?;
        let (next, sign) = self.turn(alloc)?;
        add_small(&mut sum, whole, -1)?;
        add_small(&mut sum, next, sign)?;
        Ok(sum)
    }

    /// `N = 1 + ρ + .. + ρ^(P-1)` of the element.
    fn norm(&self, alloc: Global) -> Result<FormalSum<Self>, AllocError>
        requires { IsTrue (fits self.now) }
        ensures { IfOk result (λ s. IsSameSum s (power_sum turn P self.now)) }
    {
        let _degree = self.degree();
        let mut sum = FormalSum::new(alloc);
        let mut element = self.copy(alloc)?;
        let mut sign: i64 = 1;
        for _power in 0..P {
            let (next, step) = element.turn(alloc)?;
            add_small(&mut sum, element, sign)?;
            element = next;
            sign *= step;
        }
        Ok(sum)
    }

    // The turn of an element that fits is valid, fits and has the same degree, and its sign is 1 or -1.
    ghost turn_valid: { (x : Self) → Self.is_valid x → IsTrue (fits x) → Self.is_valid (turn x).0 };

    ghost turn_fits: { (x : Self) → Self.is_valid x → IsTrue (fits x) → IsTrue (fits (turn x).0) };

    ghost turn_degree: { (x : Self) → Self.is_valid x → IsTrue (fits x) → Self.degree (turn x).0 ≡ Self.degree x };

    ghost turn_sign: { (x : Self) → Self.is_valid x → IsTrue (fits x) → IsSign (turn x).1 };

    // The terms of the boundary of an element that fits do too.
    ghost boundary_fits: { (x : Self) → Self.is_valid x → IsTrue (fits x) → All (λ t. IsTrue (fits t.0)) (Self.boundary x) };

    // P turns are the identity, and the turn commutes with the boundary.
    ghost turned_round: { (x : Self) → Self.is_valid x → IsTrue (fits x) → after_turns turn P x ≡ (x, pos 1) };

    ghost boundary_turn: { (phi : Self → ℤ) (x : Self) → Self.is_valid x → IsTrue (fits x) → (turn x).1 *ℤ value_at phi (Self.boundary (turn x).0) ≡ value_at (λ y. (turn y).1 *ℤ phi (turn y).0) (Self.boundary x) };

    // T N = 0 and N T = 0.
    ghost turn_norm: { (phi : Self → ℤ) (x : Self) → Self.is_valid x → IsTrue (fits x) → value_at (λ y. value_at phi (difference turn y)) (power_sum turn P x) ≡ pos 0 } = { λ phi x v f. turn_norm_law turn phi P x (turned_round x v f) };

    ghost norm_turn: { (phi : Self → ℤ) (x : Self) → Self.is_valid x → IsTrue (fits x) → value_at (λ y. value_at phi (power_sum turn P y)) (difference turn x) ≡ pos 0 } = { λ phi x v f. norm_turn_law turn phi P x (turned_round x v f) };

    // T and N commute with the boundary.
    ghost turn_boundary: { (phi : Self → ℤ) (x : Self) → Self.is_valid x → IsTrue (fits x) → value_at (λ y. value_at phi (Self.boundary y)) (difference turn x) ≡ value_at (λ y. value_at phi (difference turn y)) (Self.boundary x) } = { λ phi x v f. boundary-difference turn Self.boundary (λ y. Self.is_valid y × IsTrue (fits y)) (record { kept = λ y k. (turn_valid y k.0 k.1, turn_fits y k.0 k.1); commutes = λ psi y k. boundary_turn psi y k.0 k.1 }) phi x (v, f) };

    ghost norm_boundary: { (phi : Self → ℤ) (x : Self) → Self.is_valid x → IsTrue (fits x) → value_at (λ y. value_at phi (Self.boundary y)) (power_sum turn P x) ≡ value_at (λ y. value_at phi (power_sum turn P y)) (Self.boundary x) } = { λ phi x v f. boundary-powers turn Self.boundary (λ y. Self.is_valid y × IsTrue (fits y)) (record { kept = λ y k. (turn_valid y k.0 k.1, turn_fits y k.0 k.1); commutes = λ psi y k. boundary_turn psi y k.0 k.1 }) phi P x (v, f) };
}

// Adds a term to a sum that has room.
pub(crate) fn add_small<B: Ord + Drop>(
    sum: &mut FormalSum<B>,
    item: B,
    by: i64,
) -> Result<(), AllocError>
    requires { weight_of sum.old + nat_abs by ≤ 10 ^ 18 }
    ensures { OnOk result (sum.new ≡ plus_term B.cmp sum.old item by) }
{
    match sum.add_term(item, by) {
        Ok(()) => Ok(()),
        Err(_) => Err(AllocError),
    }
}
