ghost use Rattle.std.specs.Prelude.{◌≡◌, ◌↔◌, ℕ, ◌+◌, ◌≤◌, ◌∷◌, IfOk, IsSome, IsTrue, length, pos, slice_index};
ghost use Rattle.signed_sum.specs.Names.{rearrangement_sign, numbers_from, signed};
ghost use Rattle.surjection_law.specs.Names.{IsSurjection, arity};
ghost use Rattle.interval_cut_law.specs.Names.{cut_face, cut_faces, gap_word, sign_exponent, starting_word, is_live, operation_value};
ghost use Rattle.interval_cut.specs.Names.{cut_of, finish_of, next_walk, start_of, by_mask, signed_product};
ghost use Rattle.simplicial_law.specs.Names.{CongruentInt};
ghost use Rattle.fp_field.specs.Served.{served};

use crate::faces::{Faces, is_simplex, point_of};
use crate::signs::cut_sign;
use crate::stage::{Stage, step};
use crate::values::{Values, product, with_sign};
use crate::words::cut_word_sign;
use fp_field::Fp;
use std::alloc::{AllocError, Global};
use std::marker::Model;
use surjection::surj::Surj;

/// A walk over the interval cuts of the places 0 to n for a surjection, in the order of the lists of
/// their right ends. Each cut comes once.
#[derive(Drop)]
pub struct Cuts {
    pub(crate) values: Vec<u8>,
    pub(crate) most: u8,
    pub(crate) top: u32,
    pub(crate) inner: Vec<u32>,
    pub(crate) stage: Stage,
    pub(crate) faces: Faces,
    pub(crate) vertices: Vec<u32>,
}

impl Model for Cuts {
    ghost use Rattle.interval_cut.specs.Walking.{CutWalk};

    ghost Value = { CutWalk };

    ghost use Rattle.interval_cut.specs.Views.{view_of, IsSound};

    ghost view = { view_of };

    ghost invariant = { IsSound };
}

impl Cuts {
    /// The walk before the first cut of the places 0 to `top` for `surjection`.
    pub fn new(alloc: Global, surjection: &Surj, top: u32) -> Result<Cuts, AllocError>
        requires { top ≤ 255 }
        ensures { IfOk result (λ w. w ≡ start_of surjection.now top) }
    {
        Cuts::of(alloc, surjection.as_slice(), top)
    }

    fn of(alloc: Global, values: &[u8], top: u32) -> Result<Cuts, AllocError>
        requires surjection { IsSurjection values.now }
        requires low { top ≤ 255 }
        ensures { IfOk result (λ w. w ≡ start_of values.now top) }
    {
        let most = greatest(values);
        Ok(Cuts {
            values: values.to_vec(alloc)?,
            most,
            top,
            inner: vec![in alloc; 0; values.len() - 1]?,
            stage: Stage::Before,
            faces: Faces {
                places: vec![in alloc; 0; top as usize + values.len()]?,
                starts: vec![in alloc; 0; most as usize + 1]?,
            },
            vertices: vec![in alloc; 0; top as usize + values.len()]?,
        })
    }

    /// Goes back before the first cut.
    pub fn restart(&mut self)
        ensures { self.new ≡ start_of self.old.values self.old.top }
    {
        self.stage = Stage::Before;
    }

    /// Goes to the next cut; false where all were given.
    pub fn advance(&mut self) -> bool
        ensures walk { self.new ≡ next_walk self.old }
        ensures moved { IsTrue result ↔ IsSome self.new.here }
    {
        self.stage = step(self.stage, &mut self.inner, self.top);
        let moved = self.stage == Stage::At;
        if moved {
            self.faces.fill(
                self.values.as_slice(),
                self.inner.as_slice(),
                self.top,
                self.most,
            );
        }
        moved
    }

    /// Where the i-th interval ends; 0 for i = 0.
    pub fn point(&self, i: usize) -> u32
        requires at { IsSome self.now.here }
        requires inside { i ≤ length self.now.values }
        ensures { result ≡ slice_index (0 ∷ cut_of self.now) i }
    {
        point_of(self.inner.as_slice(), self.top, i)
    }

    /// The places of face `k`: the intervals with the value `k`, one after the other.
    pub fn face(&self, k: u8) -> &[u32]
        requires at { IsSome self.now.here }
        requires least { 1 ≤ k }
        requires most { k ≤ arity self.now.values }
        ensures { result.now ≡ cut_face k self.now.values 0 (cut_of self.now) }
    {
        self.faces.face(k - 1, self.most)
    }

    /// The sign of the cut by the exponents.
    pub fn sign(&self) -> i8
        requires { IsSome self.now.here }
        ensures { result ≡ signed (sign_exponent self.now.values 0 (cut_of self.now)) (pos 1) }
    {
        cut_sign(self.values.as_slice(), self.inner.as_slice(), self.top)
    }

    /// The sign of the cut by the word of its gaps: that of its rearrangement into the word of the caesuras and then the
    /// edges, in order. Both signs are the same.
    pub fn word_sign(&self) -> i8
        requires { IsSome self.now.here }
        ensures word { result ≡ rearrangement_sign (gap_word (numbers_from 1 (arity self.now.values)) self.now.values (cut_of self.now)) (starting_word self.now.values self.now.top) }
        ensures same { result ≡ signed (sign_exponent self.now.values 0 (cut_of self.now)) (pos 1) }
    {
        cut_word_sign(
            self.values.as_slice(),
            self.inner.as_slice(),
            self.top,
            self.most,
        )
    }

    /// Whether each face has `q + 1` places, none of them twice.
    pub fn live(&self, q: u32) -> bool
        requires { IsSome self.now.here }
        ensures { result ≡ is_live q (cut_faces (numbers_from 1 (arity self.now.values)) self.now.values (cut_of self.now)) }
    {
        for k in 0..self.most {
            if !is_simplex(self.face(k + 1), q) {
                return false;
            }
        }
        true
    }

    /// The sign of the cut times the product of the values on its faces at the vertices of a simplex,
    /// where face k takes `gamma` if bit k - 1 of the mask is set and `alpha` if not.
    pub(crate) fn term<const P: u32, V: Values<P>>(
        &mut self,
        alpha: &V,
        gamma: &V,
        mask: u32,
        simplex: &[u32],
    ) -> Fp<P>
        requires prime { IsTrue (served P) }
        requires at { IsSome self.old.here }
        requires simplex { length simplex.now ≡ self.old.top + 1 }
        ensures value { CongruentInt P (pos result)
            (signed_product (arity self.old.values) mask (λ f. pos (V.value_of alpha.now f)) (λ f. pos (V.value_of gamma.now f)) self.old.values simplex.now (cut_of self.old)) }
        ensures same { self.new ≡ self.old }
    {
        let product = product(
            &self.faces,
            self.vertices.as_mut_slice(),
            self.most,
            alpha,
            gamma,
            mask,
            simplex,
        );
        if product.is_zero() {
            return product;
        }
        let sign = cut_sign(self.values.as_slice(), self.inner.as_slice(), self.top);
        with_sign(product, sign)
    }
}

/// The value on a simplex of the operation of the surjection, where face k takes `gamma` if bit k - 1 of
/// the mask is set and `alpha` if not: the sum over all cuts of the sign times the product of the values on
/// the faces. It restarts the walk, gives all cuts, and takes no memory.
pub fn evaluate<const P: u32, V: Values<P>>(
    cuts: &mut Cuts,
    alpha: &V,
    gamma: &V,
    mask: u32,
    simplex: &[u32],
) -> Fp<P>
    requires prime { IsTrue (served P) }
    requires simplex { length simplex.now ≡ cuts.old.top + 1 }
    ensures value { CongruentInt P (pos result)
        (operation_value (arity cuts.old.values) cuts.old.values
        (by_mask (arity cuts.old.values) mask (λ f. pos (V.value_of alpha.now f)) (λ f. pos (V.value_of gamma.now f))) simplex.now) }
    ensures walk { cuts.new ≡ finish_of cuts.old.values cuts.old.top }
{
    cuts.restart();
    let mut sum = Fp::new(0);
    while cuts.advance() {
        sum = sum.add(cuts.term(alpha, gamma, mask, simplex));
    }
    sum
}

/// The greatest value.
pub(crate) fn greatest(values: &[u8]) -> u8
    ensures { result ≡ arity values.now }
{
    let mut most = 0;
    for value in values {
        if *value > most {
            most = *value;
        }
    }
    most
}
