ghost use Rattle.std.specs.Prelude.{◌≡◌, ℕ, ◌-◌, ◌≤◌, Bool, true, false, List, length, slice_get, Some, IfOk, IsTrue};
ghost use Rattle.fp_field.specs.Served.{served};
ghost use Rattle.complex_index.specs.declared.indexed.Cochain.{Cochain};
ghost use Rattle.cohomology.specs.Names.{AreCanonicalIn, AreClassesOf, IsCanonicalCycle, classes_in, IsClosedIn, IsCohomologyOf, IsColumnOf, canonical_of_classes, canonical_of_data};

use crate::classes::Classes;
use crate::data::Cohomology;
use complex_index::Cochain;
use fp_field::Fp;
use std::alloc::{AllocError, Global};

/// What is known of a cocycle by its class.
#[derive(Drop)]
pub struct Column<const P: u32> {
    /// The coefficient of each canonical class.
    pub values: Vec<Fp<P>>,
    /// The canonical primitive of the rest, where primitives are kept.
    pub primitive: Option<Cochain<P>>,
}

/// The canonical classes of a complex, with the coordinates of cocycles.
pub trait Basis<const P: u32> {
    // the classes of each degree
    ghost classes: { Self → ℕ → List (Cochain P) };

    // made from the complex with these levels
    ghost is_of: { List (List (List ℕ)) → Self → Type 0 };

    // whether columns have primitives
    ghost keeps: { Bool };

    /// The dimension of the cohomology of degree `n`, 0 past the dimension of the complex.
    fn rank(&self, n: u32) -> u32
        ensures { result ≡ length (classes self.now n) };

    /// The `i`-th canonical class of degree `n`, from 1 to the rank.
    fn class(&self, n: u32, i: u32) -> &Cochain<P>
        requires from_one { 1 ≤ i }
        requires inside { i ≤ length (classes self.now n) }
        ensures { slice_get (classes self.now n) (i - 1) ≡ Some result.now };

    /// The coordinates of a cocycle for the canonical classes of its degree, with the canonical primitive of the rest where
    /// primitives are kept. It is not looked at whether the cochain is a cocycle.
    fn column(&self, alloc: Global, cochain: &Cochain<P>) -> Result<Column<P>, AllocError>
        requires { IsTrue (served P) }
        ensures { IfOk result (λ c. (levels : List (List (List ℕ))) → is_of levels self.now → IsClosedIn P levels cochain.now → IsColumnOf P keeps levels (classes self.now cochain.now.degree) cochain.now c.values.items c.primitive) };

    /// The canonical cycle of the `i`-th class of degree `n`, from 1 to the rank, as a chain.
    fn cycle(&self, alloc: Global, n: u32, i: u32) -> Result<Cochain<P>, AllocError>
        requires prime { IsTrue (served P) }
        requires from_one { 1 ≤ i }
        requires inside { i ≤ length (classes self.now n) }
        ensures { IfOk result (λ y. (levels : List (List (List ℕ))) → is_of levels self.now → IsCanonicalCycle P levels n (classes self.now n) (i - 1) y) };

    // The classes of a complex are canonical bases of its cohomology.
    ghost canonical: { (levels : List (List (List ℕ))) (c : Self) → is_of levels c → (n : ℕ) → AreCanonicalIn P levels n (classes c n) };
}

impl<const P: u32> Basis<P> for Classes<P> {
    ghost classes = { λ c n. classes_in c n };

    ghost is_of = { λ levels c. AreClassesOf P levels c };

    ghost keeps = { false };

    ghost canonical = { λ levels c h n. canonical_of_classes P levels c h n };

    fn rank(&self, n: u32) -> u32 {
        Classes::rank(self, n)
    }

    fn class(&self, n: u32, i: u32) -> &Cochain<P> {
        Classes::class(self, n, i)
    }

    fn column(&self, alloc: Global, cochain: &Cochain<P>) -> Result<Column<P>, AllocError> {
        Ok(Column {
            values: self.values(alloc, cochain)?,
            primitive: None,
        })
    }

    fn cycle(&self, alloc: Global, n: u32, i: u32) -> Result<Cochain<P>, AllocError> {
        Classes::cycle(self, alloc, n, i)
    }
}

impl<const P: u32> Basis<P> for Cohomology<P> {
    ghost classes = { λ c n. classes_in c.light n };

    ghost is_of = { λ levels c. IsCohomologyOf P levels c };

    ghost keeps = { true };

    ghost canonical = { λ levels c h n. canonical_of_data P levels c h n };

    fn rank(&self, n: u32) -> u32 {
        Cohomology::rank(self, n)
    }

    fn class(&self, n: u32, i: u32) -> &Cochain<P> {
        Cohomology::class(self, n, i)
    }

    fn column(&self, alloc: Global, cochain: &Cochain<P>) -> Result<Column<P>, AllocError> {
        let found = self.relative_coordinates(alloc, cochain)?;
        Ok(Column {
            values: found.values,
            primitive: Some(found.primitive),
        })
    }

    fn cycle(&self, alloc: Global, n: u32, i: u32) -> Result<Cochain<P>, AllocError> {
        Cohomology::cycle(self, alloc, n, i)
    }
}
