//! The operation of a sum of surjections on cochains of one degree, as a sum of products of values on
//! faces. The live cuts are walked once, and not again for each simplex.
ghost use Rattle.std.specs.Prelude.{◌≡◌, ◌==◌, ◌&&◌, ◌<◌, ◌≤◌, ◌+◌, ◌-◌, ◌*◌, ◌%◌, ◌^◌, ◌∷◌, ℕ, ℤ, List, [], cond, length, get_or, map, pos, slice_index_or, suc, take, IfOk, IsSome, IsTrue, OnOk, ◌+ℤ◌, ◌*ℤ◌};
ghost use Rattle.linear_law.specs.Names.{sum_over, Each};
ghost use Rattle.signed_sum.specs.Names.{numbers_from, signed};
ghost use Rattle.surjection_law.specs.Names.{caesura_count, IsSurjection, arity, surjection_degree};
ghost use Rattle.simplicial_law.specs.Names.{CongruentInt};
ghost use Rattle.interval_cut_law.specs.Names.{cut_faces, operation_value};
ghost use Rattle.interval_cut.specs.Names.{cut_of, IsOfDegree};
ghost use Rattle.complex_index.specs.Names.{IsComplexIndex, list_at, level};
ghost use Rattle.fp_field.specs.Served.{served};
ghost use Rattle.operad_law.specs.FormalSums.{IsSameSum};
ghost use Rattle.table_reduction_law.specs.Names.{may_element};
ghost use Rattle.may_elements.specs.Live.{live_part};
ghost use Rattle.steenrod_law.specs.Names.{sum_value, copies};
ghost use Rattle.may_steenrod.specs.{Cochains.cochain_in, Elements.{AddsTo, tested_value}, FaceSums.{AreNumbered, Extends, face_product, face_sum, product_at, term_product, terms_in, value_on_face}};

use crate::on::On;
use fp_field::Fp;
use interval_cut::{LiveCuts, with_sign};
use operad_law::basis::SignedBasis;
use operad_law::formal_sum::FormalSum;
use operad_law::symmetric::Symmetric;
use std::alloc::{AllocError, Global};
use surjection::surj::Surj;

/// How many slots there are for faces: one for each set of places below 16.
const SLOTS: usize = 65536;

/// The number of the set of one place.
const POWERS: [usize; 16] = [
    1, 2, 4, 8, 16, 32, 64, 128, 256, 512, 1024, 2048, 4096, 8192, 16384, 32768,
];

/// A coefficient, and the numbers of the faces 1 to `P`.
#[derive(Clone, Copy)]
struct Term<const P: u32> {
    coefficient: Fp<P>,
    faces: [usize; 5],
}

/// A sum of products of values on faces.
#[derive(Drop)]
pub(crate) struct FaceSum<const P: u32> {
    /// The faces, each as the list of its places.
    faces: Vec<Vec<u32>>,
    /// Where the face of each set of places stands, if it does.
    slots: Vec<usize>,
    terms: Vec<Term<P>>,
}

/// The slot of a face.
fn slot_of(face: &[u32]) -> usize
    ensures { result < 65536 }
{
    let mut slot = 0;
    for place in face {
        slot = POWERS[*place as usize % 16].wrapping_add(slot) % SLOTS;
    }
    slot
}

/// The test of arity `P` and degree d.
fn test_form<const P: u32>(surjection: &Surj, d: u32) -> bool
    ensures { result ≡ ((arity surjection.now == P) && (surjection_degree surjection.now == d)) }
{
    u32::from(surjection.arity()) == P && surjection.degree() == d
}

/// Whether a surjection has arity `P` and degree d.
fn has_form<const P: u32>(surjection: &Surj, d: u32) -> bool
    ensures test { result ≡ ((arity surjection.now == P) && (surjection_degree surjection.now == d)) }
    ensures arity { IsTrue result → arity surjection.now ≡ P }
    ensures degree { IsTrue result → caesura_count surjection.now ≡ d }
{
    let _values = surjection.as_slice();
    test_form::<P>(surjection, d)
}

/// The product of the values with the first `P` numbers.
fn product<const P: u32>(values: &[Fp<P>], numbers: &[usize; 5]) -> Fp<P>
    requires prime { IsTrue (served P) }
    requires inside { Each (λ k. k < length values.now) (take P numbers.now) }
    ensures { result ≡ product_at values.now (take P numbers.now) % P }
{
    let mut product = Fp::new(1);
    for k in 0..P as usize {
        product = product.mul(values[numbers[k]]);
        if product.is_zero() {
            return product;
        }
    }
    product
}

impl<const P: u32> FaceSum<P> {
    /// The sum without terms.
    fn new(alloc: Global) -> Result<FaceSum<P>, AllocError>
        ensures terms { IfOk result (λ s. s.terms.items ≡ []) }
        ensures slots { IfOk result (λ s. length s.slots.items ≡ 65536) }
    {
        Ok(FaceSum {
            faces: Vec::new(alloc),
            slots: vec![in alloc; 0; SLOTS]?,
            terms: Vec::new(alloc),
        })
    }

    /// The number of a face, which is added if it is new.
    fn number_of(&mut self, alloc: Global, face: &[u32]) -> Result<usize, AllocError>
        requires slots { length self.old.slots.items ≡ 65536 }
        ensures slots { OnOk result (length self.new.slots.items ≡ 65536) }
        ensures terms { OnOk result (self.new.terms.items ≡ self.old.terms.items) }
        ensures grown { OnOk result (Extends self.old.faces.items self.new.faces.items) }
        ensures inside { IfOk result (λ k. k < length self.new.faces.items) }
        ensures face { IfOk result (λ k. list_at self.new.faces.items k ≡ face.now) }
    {
        let slot = slot_of(face);
        let number = self.slots[slot];
        if number < self.faces.len() && self.faces[number].as_slice() == face {
            return Ok(number);
        }
        let count = self.faces.len();
        self.faces.push(face.to_vec(alloc)?)?;
        self.slots[slot] = count;
        Ok(count)
    }

    /// The numbers of the faces of the cut that a walk is at.
    fn numbers_of(&mut self, alloc: Global, cuts: &LiveCuts) -> Result<[usize; 5], AllocError>
        requires prime { IsTrue (served P) }
        requires at { IsSome cuts.now.walk.here }
        requires arity { arity cuts.now.walk.values ≡ P }
        requires slots { length self.old.slots.items ≡ 65536 }
        ensures slots { OnOk result (length self.new.slots.items ≡ 65536) }
        ensures terms { OnOk result (self.new.terms.items ≡ self.old.terms.items) }
        ensures grown { OnOk result (Extends self.old.faces.items self.new.faces.items) }
        ensures inside { IfOk result (λ ks. Each (λ k. k < length self.new.faces.items) (take P ks)) }
        ensures faces { IfOk result (λ ks. map (list_at self.new.faces.items) (take P ks) ≡ cut_faces (numbers_from 1 P) cuts.now.walk.values (cut_of cuts.now.walk)) }
    {
        let mut numbers = [0; 5];
        for k in 0..P as u8 {
            numbers[k as usize] = self.number_of(alloc, cuts.face(k + 1))?;
        }
        Ok(numbers)
    }

    /// Adds a term with the faces of the cut that a walk is at.
    fn add_cut(
        &mut self,
        alloc: Global,
        cuts: &LiveCuts,
        coefficient: Fp<P>,
    ) -> Result<(), AllocError>
        requires prime { IsTrue (served P) }
        requires at { IsSome cuts.now.walk.here }
        requires arity { arity cuts.now.walk.values ≡ P }
        requires slots { length self.old.slots.items ≡ 65536 }
        requires numbered { AreNumbered self.old.faces.items self.old.terms.items }
        ensures slots { OnOk result (length self.new.slots.items ≡ 65536) }
        ensures numbered { OnOk result (AreNumbered self.new.faces.items self.new.terms.items) }
        ensures sum { OnOk result ((a : List ℕ → ℤ) (s : List ℕ) → CongruentInt P
            (face_sum a s (terms_in self.new.faces.items self.new.terms.items))
            (face_sum a s (terms_in self.old.faces.items self.old.terms.items) +ℤ pos coefficient.entry *ℤ face_product a s (cut_faces (numbers_from 1 P) cuts.now.walk.values (cut_of cuts.now.walk)))) }
    {
        let faces = self.numbers_of(alloc, cuts)?;
        self.terms.push(Term { coefficient, faces })?;
        Ok(())
    }

    /// Adds the operation of a surjection, with a coefficient.
    fn add_surjection(
        &mut self,
        alloc: Global,
        surjection: &Surj,
        q: u32,
        coefficient: Fp<P>,
    ) -> Result<(), AllocError>
        requires prime { IsTrue (served P) }
        requires small { q ≤ 15 }
        requires arity { arity surjection.now ≡ P }
        requires some { caesura_count surjection.now ≤ P * q }
        requires slots { length self.old.slots.items ≡ 65536 }
        requires numbered { AreNumbered self.old.faces.items self.old.terms.items }
        ensures slots { OnOk result (length self.new.slots.items ≡ 65536) }
        ensures numbered { OnOk result (AreNumbered self.new.faces.items self.new.terms.items) }
        ensures sum { OnOk result (AddsTo P q (P * q - caesura_count surjection.now)
            (terms_in self.old.faces.items self.old.terms.items) (terms_in self.new.faces.items self.new.terms.items)
            (λ a s. pos coefficient.entry *ℤ operation_value P surjection.now (copies P a) s)) }
    {
        let mut cuts = LiveCuts::new(alloc, surjection, q)?;
        'cuts: while cuts.advance() {
            let signed = with_sign(coefficient, cuts.sign());
            self.add_cut(alloc, &cuts, signed)?;
        }
        Ok(())
    }

    /// Adds the operation of a surjection, with a coefficient, if it has arity `P` and degree d.
    fn add_term(
        &mut self,
        alloc: Global,
        surjection: &Surj,
        q: u32,
        d: u32,
        coefficient: Fp<P>,
    ) -> Result<(), AllocError>
        requires prime { IsTrue (served P) }
        requires small { q ≤ 15 }
        requires some { d ≤ P * q }
        requires slots { length self.old.slots.items ≡ 65536 }
        requires numbered { AreNumbered self.old.faces.items self.old.terms.items }
        ensures slots { OnOk result (length self.new.slots.items ≡ 65536) }
        ensures numbered { OnOk result (AreNumbered self.new.faces.items self.new.terms.items) }
        ensures sum { OnOk result (AddsTo P q (P * q - d)
            (terms_in self.old.faces.items self.old.terms.items) (terms_in self.new.faces.items self.new.terms.items)
            (λ a s. pos coefficient.entry *ℤ tested_value P d a s surjection.now)) }
    {
        let _values = surjection.as_slice();
        if has_form::<P>(surjection, d) {
            return self.add_surjection(alloc, surjection, q, coefficient);
        }
        Ok(())
    }

    /// The operation of the May element of degree d on cochains of degree q, from its terms that have a cut live for q.
    /// The others have the value 0.
    pub(crate) fn of_part(
        alloc: Global,
        part: &FormalSum<Surj>,
        q: u32,
        d: u32,
    ) -> Result<FaceSum<P>, AllocError>
        requires prime { IsTrue (served P) }
        requires part { IsSameSum part.now (live_part P d q) }
        requires small { q ≤ 15 }
        requires some { d ≤ P * q }
        ensures numbered { IfOk result (λ t. AreNumbered t.faces.items t.terms.items) }
        ensures sum { IfOk result (λ t. (a : List ℕ → ℕ) (s : List ℕ) → IsOfDegree q a → length s ≡ suc (P * q - d) → CongruentInt P
            (face_sum (λ f. pos (a f)) s (terms_in t.faces.items t.terms.items))
            (sum_value P (may_element P d) (copies P (λ f. pos (a f))) s)) }
    {
        let mut sum = FaceSum::new(alloc)?;
        for k in 0..part.len() {
            let (surjection, by) = part.term(k);
            sum.add_term(alloc, surjection, q, d, Fp::from_i64(by))?;
        }
        Ok(sum)
    }

    /// Writes the values of a cochain on the faces of a simplex of degree `n`, at a place.
    fn write_values<'a>(
        &self,
        alpha: &On<'a, P>,
        n: u32,
        place: u32,
        vertices: &mut Vec<u32>,
        values: &mut Vec<Fp<P>>,
    ) -> Result<(), AllocError>
        requires complex { IsComplexIndex alpha.now.index.now }
        requires inside { place < length (level alpha.now.index.now n) }
        ensures { OnOk result (values.new.items ≡ map (value_on_face (cochain_in alpha.now.index.now alpha.now.cochain.now.degree alpha.now.cochain.now.row) (get_or (level alpha.now.index.now n) place [])) self.now.faces.items) }
    {
        values.clear();
        for face in self.faces.as_slice() {
            values.push(alpha.on_places(n, place, face, vertices)?)?;
        }
        Ok(())
    }

    /// The sum of the products, from the values on the faces.
    fn sum(&self, values: &[Fp<P>]) -> Fp<P>
        requires prime { IsTrue (served P) }
        requires values { length values.now ≡ length self.now.faces.items }
        requires numbered { AreNumbered self.now.faces.items self.now.terms.items }
        ensures { result ≡ sum_over (term_product values.now) self.now.terms.items % P }
    {
        let mut sum = Fp::new(0);
        for term in self.terms.as_slice() {
            sum = sum.add(term.coefficient.mul(product(values, &term.faces)));
        }
        sum
    }

    /// The value of the sum on a cochain, at a simplex of degree `n`.
    fn value<'a>(
        &self,
        alpha: &On<'a, P>,
        n: u32,
        place: u32,
        vertices: &mut Vec<u32>,
        values: &mut Vec<Fp<P>>,
    ) -> Result<Fp<P>, AllocError>
        requires prime { IsTrue (served P) }
        requires numbered { AreNumbered self.now.faces.items self.now.terms.items }
        requires complex { IsComplexIndex alpha.now.index.now }
        requires inside { place < length (level alpha.now.index.now n) }
        ensures { IfOk result (λ x. CongruentInt P (pos x) (face_sum (λ f. pos (cochain_in alpha.now.index.now alpha.now.cochain.now.degree alpha.now.cochain.now.row f)) (get_or (level alpha.now.index.now n) place []) (terms_in self.now.faces.items self.now.terms.items))) }
    {
        self.write_values(alpha, n, place, vertices, values)?;
        Ok(self.sum(values))
    }

    /// The values of a multiple of the sum on a cochain, at the simplices of degree `n`.
    pub(crate) fn values<'a>(
        &self,
        alloc: Global,
        alpha: &On<'a, P>,
        n: u32,
        by: Fp<P>,
    ) -> Result<Vec<Fp<P>>, AllocError>
        requires prime { IsTrue (served P) }
        requires numbered { AreNumbered self.now.faces.items self.now.terms.items }
        requires complex { IsComplexIndex alpha.now.index.now }
        ensures long { IfOk result (λ v. length v.items ≡ length (level alpha.now.index.now n)) }
        ensures few { IfOk result (λ v. length v.items < 2 ^ 32) }
        ensures values { IfOk result (λ v. (x : ℕ) → x < length (level alpha.now.index.now n) → CongruentInt P (pos (slice_index_or v.items x 0))
            (pos by.entry *ℤ face_sum (λ f. pos (cochain_in alpha.now.index.now alpha.now.cochain.now.degree alpha.now.cochain.now.row f)) (slice_index_or (level alpha.now.index.now n) x []) (terms_in self.now.faces.items self.now.terms.items))) }
    {
        let mut vertices = Vec::new(alloc);
        let mut on_faces = Vec::new(alloc);
        let mut values = Vec::new(alloc);
        for place in 0..alpha.index.count(n) {
            let value = self.value(alpha, n, place, &mut vertices, &mut on_faces)?;
            values.push(value.mul(by))?;
        }
        Ok(values)
    }
}
