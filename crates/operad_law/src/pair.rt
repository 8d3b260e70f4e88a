//! Pairs of elements of two bases.
ghost use Rattle.std.specs.Prelude.{◌≡◌, ◌≤◌, ◌+◌, ◌^◌, ◌==◌, ◌%◌, Bool, ℤ, pos, OnOk, All, IsTrue, nat_abs, ◌&&◌};
ghost use Rattle.signed_sum.specs.Names.{signed, weight_of, pair_boundary, pair_degree, pair_turn, paired_before, paired_behind, parity};
ghost use Rattle.std.proofs.lemmas.Map.Lookups.{exact_pairs};
ghost use Rattle.signed_sum.proofs.Names.{both-true, pair_boundary-all, pair_boundary-degree, pair_boundary-none, pair_boundary-turn, pair_boundary-twice, pair_boundary-weight, pair_turn-sign, pair_turned-round, sums-same, true-both};
ghost use Rattle.operad_law.specs.FormalSums.{IsPlusScaled};

use crate::basis::{Narrow, SignedBasis};
use crate::cyclic::{CyclicModel, add_small};
use crate::formal_sum::FormalSum;
use std::alloc::{AllocError, Global};
use std::marker::Model;

/// An element of one basis and one of another. In sums it stands for the tensor product of the two: its degree is the sum
/// of their degrees, and its boundary that of the first before the second and, with the sign of the degree of the first,
/// the first before that of the second.
#[derive(PartialEq, Eq, PartialOrd, Ord, Drop)]
pub struct Pair<A, B> {
    left: A,
    right: B,
}

impl<A, B> Model for Pair<A, B> {
    ghost Value = { A × B };

    ghost view = { λ p. (p.left, p.right) };

    ghost inverse = { λ x. record { left = x.0; right = x.1 } };
}

impl<A, B> Pair<A, B> {
    /// The pair of the two.
    pub fn new(left: A, right: B) -> Self
        ensures { result ≡ (left, right) }
    {
        Pair { left, right }
    }
}

// A coefficient, with the other sign if an odd number of exchanges is made.
fn exchanged(odd: bool, count: i64) -> i64
    requires { nat_abs count ≤ 10 ^ 18 }
    ensures { result ≡ signed (parity odd) count }
{
    if odd { -count } else { count }
}

// Adds the terms, each paired with the second element.
fn add_before<A: SignedBasis, B: SignedBasis>(
    alloc: Global,
    sum: &mut FormalSum<Pair<A, B>>,
    terms: &[(A, i64)],
    right: &B,
) -> Result<(), AllocError>
    requires { weight_of sum.old + weight_of terms.now ≤ 10 ^ 18 }
    ensures { OnOk result (IsPlusScaled sum.old (paired_before right.now terms.now) (pos 1) sum.new) }
{
    for (left, count) in terms {
        let pair = Pair::new(left.copy(alloc)?, right.copy(alloc)?);
        add_small(sum, pair, *count)?;
    }
    Ok(())
}

// Adds the terms, each paired with the first element, of odd degree or not.
fn add_behind<A: SignedBasis, B: SignedBasis>(
    alloc: Global,
    sum: &mut FormalSum<Pair<A, B>>,
    odd: bool,
    left: &A,
    terms: &[(B, i64)],
) -> Result<(), AllocError>
    requires { weight_of sum.old + weight_of terms.now ≤ 10 ^ 18 }
    ensures { OnOk result (IsPlusScaled sum.old (paired_behind (parity odd) left.now terms.now) (pos 1) sum.new) }
{
    for (right, count) in terms {
        let pair = Pair::new(left.copy(alloc)?, right.copy(alloc)?);
        add_small(sum, pair, exchanged(odd, *count))?;
    }
    Ok(())
}

impl<A: Narrow, B: Narrow> SignedBasis for Pair<A, B> {
    ghost is_valid = { λ p. A.is_valid p.0 × B.is_valid p.1 };

    ghost degree = { pair_degree A.degree B.degree };

    ghost boundary = { pair_boundary A.degree A.boundary B.boundary };

    fn degree(&self) -> u32 {
        self.left.degree() + self.right.degree()
    }

    fn boundary(&self, alloc: Global) -> Result<FormalSum<Self>, AllocError> {
        let odd = self.left.degree() % 2 == 1;
        let _degree = self.right.degree();
        let lefts = self.left.boundary(alloc)?;
        let rights = self.right.boundary(alloc)?;
        let mut sum = FormalSum::new(alloc);
        add_before(alloc, &mut sum, lefts.as_slice(), &self.right)?;
        add_behind(alloc, &mut sum, odd, &self.left, rights.as_slice())?;
        Ok(sum)
    }

    fn copy(&self, alloc: Global) -> Result<Self, AllocError> {
        Ok(Pair::new(self.left.copy(alloc)?, self.right.copy(alloc)?))
    }

    ghost equal_is_same = { exact_pairs A.cmp B.cmp A.equal_is_same B.equal_is_same };

    ghost boundary_valid = { λ p v. pair_boundary-all A.degree A.boundary B.boundary A.is_valid B.is_valid (λ q. A.is_valid q.0 × B.is_valid q.1) p.0 p.1 (λ z h. (h, v.1)) (λ z h. (v.0, h)) (A.boundary_valid p.0 v.0) (B.boundary_valid p.1 v.1) };

    ghost boundary_degree = { λ p v. pair_boundary-degree A.degree B.degree A.boundary B.boundary p.0 p.1 (A.boundary_degree p.0 v.0) (B.boundary_degree p.1 v.1) };

    ghost no_boundary = { λ p v. pair_boundary-none A.degree B.degree A.boundary B.boundary p.0 p.1 (A.no_boundary p.0 v.0) (B.no_boundary p.1 v.1) };

    ghost boundary_twice = { λ phi p v. pair_boundary-twice A.degree A.boundary B.boundary phi p.0 p.1 (A.boundary_degree p.0 v.0) (λ psi. A.boundary_twice psi p.0 v.0) (λ psi. B.boundary_twice psi p.1 v.1) };

    ghost boundary_weight = { λ p v. pair_boundary-weight A.degree A.boundary B.boundary p.0 p.1 (A.narrow_boundary p.0 v.0) (B.narrow_boundary p.1 v.1) };
}

impl<const P: u32, A: Narrow + CyclicModel<P>, B: Narrow + CyclicModel<P>> CyclicModel<P>
    for Pair<A, B> {
    ghost fits = { λ p. A.fits p.0 && B.fits p.1 };

    ghost turn = { pair_turn A.turn B.turn };

    fn fits(&self) -> bool {
        self.left.fits() && self.right.fits()
    }

    fn turn(&self, alloc: Global) -> Result<(Self, i64), AllocError> {
        let _degrees = self.degree();
        let (left, sign) = self.left.turn(alloc)?;
        let (right, other) = self.right.turn(alloc)?;
        Ok((Pair::new(left, right), sign * other))
    }

    ghost turn_valid = { λ p v f. (A.turn_valid p.0 v.0 (both-true (A.fits p.0) (B.fits p.1) f).0, B.turn_valid p.1 v.1 (both-true (A.fits p.0) (B.fits p.1) f).1) };

    ghost turn_fits = { λ p v f. true-both (A.fits (A.turn p.0).0) (B.fits (B.turn p.1).0) (A.turn_fits p.0 v.0 (both-true (A.fits p.0) (B.fits p.1) f).0) (B.turn_fits p.1 v.1 (both-true (A.fits p.0) (B.fits p.1) f).1) };

    ghost turn_degree = { λ p v f. sums-same (A.turn_degree p.0 v.0 (both-true (A.fits p.0) (B.fits p.1) f).0) (B.turn_degree p.1 v.1 (both-true (A.fits p.0) (B.fits p.1) f).1) };

    ghost turn_sign = { λ p v f. pair_turn-sign (A.turn p.0).1 (B.turn p.1).1 (A.turn_sign p.0 v.0 (both-true (A.fits p.0) (B.fits p.1) f).0) (B.turn_sign p.1 v.1 (both-true (A.fits p.0) (B.fits p.1) f).1) };

    ghost boundary_fits = { λ p v f. pair_boundary-all A.degree A.boundary B.boundary (λ z. IsTrue (A.fits z)) (λ z. IsTrue (B.fits z)) (λ q. IsTrue (A.fits q.0 && B.fits q.1)) p.0 p.1 (λ z h. true-both (A.fits z) (B.fits p.1) h (both-true (A.fits p.0) (B.fits p.1) f).1) (λ z h. true-both (A.fits p.0) (B.fits z) (both-true (A.fits p.0) (B.fits p.1) f).0 h) (A.boundary_fits p.0 v.0 (both-true (A.fits p.0) (B.fits p.1) f).0) (B.boundary_fits p.1 v.1 (both-true (A.fits p.0) (B.fits p.1) f).1) };

    ghost turned_round = { λ p v f. pair_turned-round A.turn B.turn P p.0 p.1 (A.turned_round p.0 v.0 (both-true (A.fits p.0) (B.fits p.1) f).0) (B.turned_round p.1 v.1 (both-true (A.fits p.0) (B.fits p.1) f).1) };

    ghost boundary_turn = { λ phi p v f. pair_boundary-turn A.degree A.boundary B.boundary A.turn B.turn phi p.0 p.1 (A.turn_degree p.0 v.0 (both-true (A.fits p.0) (B.fits p.1) f).0) (λ psi. A.boundary_turn psi p.0 v.0 (both-true (A.fits p.0) (B.fits p.1) f).0) (λ psi. B.boundary_turn psi p.1 v.1 (both-true (A.fits p.0) (B.fits p.1) f).1) };
}
