ghost use Rattle.std.specs.{Prelude.{◌≡◌, ◌↔◌, ℕ, ◌+◌, ◌*◌, ◌-◌, ◌^◌, ◌≤◌, ◌∷◌, IfOk, IsSome, IsTrue, length, min, pos, slice_index}, List.filter};
ghost use Rattle.signed_sum.specs.Names.{signed};
ghost use Rattle.surjection_law.specs.Names.{caesura_count, arity};
ghost use Rattle.interval_cut_law.specs.Names.{cut_face, rising_lists, sign_exponent, operation_value};
ghost use Rattle.simplicial_law.specs.Names.{CongruentInt};
ghost use Rattle.fp_field.specs.Served.{served};
ghost use Rattle.interval_cut.specs.Names.{by_mask, signed_product, cut_of, IsListFor, IsReadyFor, is_live_list, capped_count, counted_live, live_finish, live_start, live_top, live_walk, next_live};

use crate::cuts::{Cuts, greatest};
use crate::live_lists::reached;
use crate::live_search::{INTERVALS, Search};
use crate::stage::Stage;
use crate::values::Values;
use crate::words::count_caesuras;
use fp_field::Fp;
use std::alloc::{AllocError, Global};
use std::marker::Model;
use surjection::surj::Surj;

/// Where a count of live cuts is cut off.
const MOST: u64 = 1_000_000_000_000_000;

/// A walk over the cuts that are live for a degree `q`: those of which each face has `q + 1` places,
/// none of them twice. They come in the order of the lists of their right ends, each once. Cuts that
/// are not live are passed over together as soon as a face repeats a place, is too long, or ends too
/// short.
#[derive(Drop)]
pub struct LiveCuts {
    cuts: Cuts,
    search: Search,
}

impl Model for LiveCuts {
    ghost use Rattle.interval_cut.specs.LiveWalking.{LiveWalk};

    ghost Value = { LiveWalk };

    ghost use Rattle.interval_cut.specs.LiveViews.{live_view, IsLiveSound};

    ghost view = { live_view };

    ghost invariant = { IsLiveSound };
}

impl Cuts {
    /// Goes to the next live cut; false where there is none.
    pub(crate) fn advance_live(&mut self, search: &mut Search) -> bool
        requires ready { IsReadyFor self.old.values search.old }
        ensures walk { live_walk search.old.degree self.new ≡ next_live (live_walk search.old.degree self.old) }
        ensures moved { IsTrue result ↔ IsSome self.new.here }
        ensures ready { IsReadyFor self.new.values search.new }
        ensures degree { search.new.degree ≡ search.old.degree }
    {
        let moved = search.next(
            self.stage,
            self.values.as_slice(),
            self.inner.as_mut_slice(),
            self.top,
        );
        self.stage = reached(moved);
        if moved {
            self.faces.fill(
                self.values.as_slice(),
                self.inner.as_slice(),
                self.top,
                self.most,
            );
        }
        moved
    }
}

/// The number of the lists of right ends of live cuts, cut off.
fn count_lists(search: &mut Search, values: &[u8], inner: &mut [u32], top: u32) -> u64
    requires ready { IsReadyFor values.now search.old }
    requires list { IsListFor values.now top inner.old }
    ensures { result ≡ min (length (filter (is_live_list search.old.degree values.now top) (rising_lists 0 top (length inner.old)))) (10 ^ 15) }
{
    let mut stage = Stage::Before;
    for count in 0..MOST {
        if !search.next(stage, values, inner, top) {
            return count;
        }
        stage = Stage::At;
    }
    MOST
}

impl LiveCuts {
    /// The walk before the first live cut. The cuts are those of the places 0 to `rq - d`, where r is
    /// the arity of the surjection and d the number of its caesuras.
    pub fn new(alloc: Global, surjection: &Surj, q: u32) -> Result<LiveCuts, AllocError>
        requires small { q ≤ 15 }
        requires some { caesura_count surjection.now ≤ arity surjection.now * q }
        requires low { arity surjection.now * q - caesura_count surjection.now ≤ 255 }
        ensures { IfOk result (λ w. w ≡ live_start q surjection.now) }
    {
        let values = surjection.as_slice();
        let most = greatest(values);
        let top = u32::from(most) * q - count_caesuras(values);
        Ok(LiveCuts {
            cuts: Cuts::new(alloc, surjection, top)?,
            search: Search::new(values, q),
        })
    }

    /// The number of live cuts, cut off at 10^15. It takes no memory.
    pub fn count(&self) -> u64
        ensures { result ≡ capped_count self.now.degree self.now.walk.values }
    {
        let values = self.cuts.values.as_slice();
        let mut search = self.search;
        let mut ends = [0; INTERVALS];
        let inner = &mut ends[..values.len() - 1];
        count_lists(&mut search, values, inner, self.cuts.top)
    }

    /// Goes back before the first live cut.
    pub fn restart(&mut self)
        ensures { self.new ≡ live_start self.old.degree self.old.walk.values }
    {
        self.cuts.restart();
    }

    /// Goes to the next live cut; false where all were given.
    pub fn advance(&mut self) -> bool
        ensures walk { self.new ≡ next_live self.old }
        ensures moved { IsTrue result ↔ IsSome self.new.walk.here }
        ensures values { self.new.walk.values ≡ self.old.walk.values }
    {
        self.cuts.advance_live(&mut self.search)
    }

    /// Where the i-th interval ends; 0 for i = 0.
    pub fn point(&self, i: usize) -> u32
        requires at { IsSome self.now.walk.here }
        requires inside { i ≤ length self.now.walk.values }
        ensures { result ≡ slice_index (0 ∷ cut_of self.now.walk) i }
    {
        self.cuts.point(i)
    }

    /// The sign of the cut by the exponents.
    pub fn sign(&self) -> i8
        requires { IsSome self.now.walk.here }
        ensures { result ≡ signed (sign_exponent self.now.walk.values 0 (cut_of self.now.walk)) (pos 1) }
    {
        self.cuts.sign()
    }

    /// The places of face `k`: the intervals with the value `k`, one after the other.
    pub fn face(&self, k: u8) -> &[u32]
        requires at { IsSome self.now.walk.here }
        requires least { 1 ≤ k }
        requires most { k ≤ arity self.now.walk.values }
        ensures { result.now ≡ cut_face k self.now.walk.values 0 (cut_of self.now.walk) }
    {
        self.cuts.face(k)
    }
}

impl LiveCuts {
    /// The sign of the cut times the product of the values on its faces at the vertices of a simplex,
    /// where face k takes `gamma` if bit k - 1 of the mask is set and `alpha` if not.
    fn term<const P: u32, V: Values<P>>(
        &mut self,
        alpha: &V,
        gamma: &V,
        mask: u32,
        simplex: &[u32],
    ) -> Fp<P>
        requires prime { IsTrue (served P) }
        requires at { IsSome self.old.walk.here }
        requires simplex { length simplex.now ≡ self.old.walk.top + 1 }
        ensures value { CongruentInt P (pos result)
            (signed_product (arity self.old.walk.values) mask (λ f. pos (V.value_of alpha.now f)) (λ f. pos (V.value_of gamma.now f)) self.old.walk.values simplex.now (cut_of self.old.walk)) }
        ensures same { self.new ≡ self.old }
    {
        self.cuts.term(alpha, gamma, mask, simplex)
    }
}

/// The value on a simplex of the operation of the surjection, as `evaluate` gives it, for cochains of
/// the degree of the walk: a cut that is not live has a face on which they are 0. It restarts the walk,
/// gives all live cuts, and takes no memory.
pub fn evaluate_live<const P: u32, V: Values<P>>(
    cuts: &mut LiveCuts,
    alpha: &V,
    gamma: &V,
    mask: u32,
    simplex: &[u32],
) -> Fp<P>
    requires prime { IsTrue (served P) }
    requires alpha { V.degree_of alpha.now ≡ cuts.old.degree }
    requires gamma { V.degree_of gamma.now ≡ cuts.old.degree }
    requires simplex { length simplex.now ≡ live_top cuts.old.degree cuts.old.walk.values + 1 }
    ensures value { CongruentInt P (pos result)
        (operation_value (arity cuts.old.walk.values) cuts.old.walk.values
        (by_mask (arity cuts.old.walk.values) mask (λ f. pos (V.value_of alpha.now f)) (λ f. pos (V.value_of gamma.now f))) simplex.now) }
    ensures walk { cuts.new ≡ live_finish cuts.old.degree cuts.old.walk.values }
{
    cuts.restart();
    let mut sum = Fp::new(0);
    while cuts.advance() {
        sum = sum.add(cuts.term(alpha, gamma, mask, simplex));
    }
    sum
}

/// The number of cuts of the places 0 to `rq - d` that are live for `q`, cut off at 10^15, where r is
/// the arity and d the number of caesuras; 0 where d is more than rq, or rq - d more than 255.
pub fn live_count(alloc: Global, surjection: &Surj, q: u32) -> Result<u64, AllocError>
    requires { q ≤ 15 }
    ensures { IfOk result (λ n. n ≡ counted_live q surjection.now) }
{
    let values = surjection.as_slice();
    let edges = u32::from(greatest(values)) * q;
    let degree = count_caesuras(values);
    if edges < degree || edges - degree > 255 {
        return Ok(0);
    }
    Ok(LiveCuts::new(alloc, surjection, q)?.count())
}
