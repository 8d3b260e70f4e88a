ghost use Rattle.std.specs.Prelude.{◌≡◌, ℕ, ◌+◌, ◌*◌, ◌%◌, ◌^◌, ◌<◌, ◌≤◌, ◌≢◌, ◌↔◌, IsTrue, pos};
ghost use Rattle.std.specs.Int.{int_rem_euclid};
ghost use Rattle.linear_law.specs.Names.{negated};
ghost use Rattle.fp_field.specs.Served.{served};
ghost use Rattle.fp_field.specs.Element.{IsScale};

use crate::tables;
use std::marker::Model;

/// An element of the field with `P` elements: a number below `P`, in one byte.
#[derive(Clone, Copy, PartialEq, Eq, Debug)]
pub struct Fp<const P: u32>(u8);

impl<const P: u32> Model for Fp<P> {
    ghost Value = { ℕ };

    ghost view = { λ a. a.0 };

    ghost invariant = { λ a. a.0 < P };

    ghost inverse = { λ n. record { 0 = n } };
}

impl<const P: u32> Fp<P> {
    /// The remainder of `n`.
    pub fn new(n: u64) -> Fp<P>
        requires { IsTrue (served P) }
        ensures { result ≡ n % P }
    {
        Fp((n % P as u64) as u8)
    }

    /// The remainder of `n`, which is never negative.
    pub fn from_i64(n: i64) -> Fp<P>
        requires { IsTrue (served P) }
        ensures { pos result ≡ int_rem_euclid n (pos P) }
    {
        Fp(n.rem_euclid(P as i64) as u8)
    }

    /// The number.
    pub fn value(self) -> u32
        ensures same { result ≡ self.entry }
        ensures small { result < P }
    {
        self.0 as u32
    }

    /// Whether the number is 0.
    pub fn is_zero(self) -> bool
        ensures zero { IsTrue result ↔ (self.entry ≡ 0) }
        ensures small { self.entry < P }
    {
        self.0 == 0
    }

    /// The sum.
    pub fn add(self, other: Fp<P>) -> Fp<P>
        requires { IsTrue (served P) }
        ensures { result ≡ (self.entry + other.entry) % P }
    {
        let sum = self.0 + other.0;
        Fp(if sum < P as u8 { sum } else { sum - P as u8 })
    }

    /// The difference.
    pub fn sub(self, other: Fp<P>) -> Fp<P>
        requires { IsTrue (served P) }
        ensures { result ≡ (self.entry + negated P other.entry) % P }
    {
        self.add(other.neg())
    }

    /// The product.
    pub fn mul(self, other: Fp<P>) -> Fp<P>
        requires { IsTrue (served P) }
        ensures { result ≡ (self.entry * other.entry) % P }
    {
        Fp::new(self.0 as u64 * other.0 as u64)
    }

    /// Minus the number.
    pub fn neg(self) -> Fp<P>
        requires { IsTrue (served P) }
        ensures { result ≡ negated P self.entry % P }
    {
        Fp::new((P as u64 - 1) * self.0 as u64)
    }

    /// The power; `0^0` is 1.
    pub fn pow(self, e: u32) -> Fp<P>
        requires { IsTrue (served P) }
        ensures { result ≡ (self.entry ^ e) % P }
    {
        let mut power = Fp::new(1);
        let mut base = self;
        let mut left = e;
        while left > 0 {
            if left % 2 == 1 {
                power = power.mul(base);
            }
            base = base.mul(base);
            left /= 2;
        }
        power
    }

    /// The number whose product with this one is 1.
    pub fn inv(self) -> Fp<P>
        requires prime { IsTrue (served P) }
        requires nonzero { self ≢ 0 }
        ensures { (self.entry * result) % P ≡ 1 }
    {
        Fp(tables::inverse(P, self.0))
    }

    /// The constant of the odd power operations in degree `q`:
    /// `(-1)^(s + m*q(q-1)/2) * (m!)^(-q)` for `m = (P-1)/2`.
    pub fn scale(q: u32, s: u32) -> Fp<P>
        requires prime { IsTrue (served P) }
        requires odd { P % 2 ≡ 1 }
        requires low { q ≤ 15 }
        requires half { 2 * s ≤ q }
        ensures { IsScale P q s result }
    {
        let half = (P - 1) / 2;
        let size = Fp(tables::factorial(P, half as u8)).pow(q).inv();
        let sign = Fp::new(1)
            .neg()
            .pow(s + half * (q * q.saturating_sub(1) / 2));
        sign.mul(size)
    }
}
