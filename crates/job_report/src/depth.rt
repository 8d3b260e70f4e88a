ghost use Rattle.std.specs.Prelude.{◌≡◌, ◌≤◌, ◌+◌, ℕ, List, length, true, IfOk, IsTrue};
ghost use Rattle.fp_field.specs.Served.{served};
ghost use Rattle.simplicial_law.specs.Names.{terms_of};
ghost use Rattle.complex_index.specs.Names.{IsIndexOf, level};
ghost use Rattle.report_law.specs.Names.{ArePrimitives, cartan_op, is_defined};
ghost use Rattle.class_matrices.specs.Names.{class_counts, AreMatrices};
ghost use Rattle.line_difference.specs.Elements.{HasElements};
ghost use Rattle.cartan_check.specs.Verdicts.{IsVerdictOf, cycle_terms};
ghost use Rattle.job_report.specs.Listed.{IsInside};

use crate::chains::chain_of;
use cartan_check::{Verdict, cartan, cartan_by_matrices};
use class_matrices::Matrices;
use cohomology::{Basis, Classes, Cohomology};
use comch_io::Listed;
use complex_index::{Cochain, Indexed};
use may_elements::MayTable;
use report::{Chain, Line};
use std::alloc::{AllocError, Global};

/// The two depths of the cohomology of a complex: how each is made, and which chains are listed of it.
pub trait Depth<const P: u32>: Basis<P> + Drop {
    /// The basis of the complex with this index.
    fn of_index(alloc: Global, index: &Indexed) -> Result<Self, AllocError>
        requires { IsTrue (served P) }
        ensures { IfOk result (λ b. Self.is_of index.now b) };

    /// The canonical primitives of the canonical coboundaries of degree `n`, where they are kept.
    fn primitives(
        &self,
        alloc: Global,
        index: &Indexed,
        n: u32,
    ) -> Result<Listed<Chain>, AllocError>
        requires { Self.is_of index.now self.now }
        ensures { IfOk result (λ cs. IsTrue Self.keeps → (facets : List (List ℕ)) → IsIndexOf facets index.now → ArePrimitives facets n P cs) };

    /// The terms of a primitive or a cycle of degree `n`, where they are kept.
    fn kept_chain(
        alloc: Global,
        index: &Indexed,
        n: u32,
        kept: &Option<Cochain<P>>,
    ) -> Result<Chain, AllocError>
        requires { IsTrue Self.keeps → IsInside index.now n kept.now }
        ensures { IfOk result (λ c. IsTrue Self.keeps → c ≡ cycle_terms index.now n kept.now) };

    /// The verdict on a Cartan line of degree at most 15: by cochains where chains are kept, else by the matrices alone. At an
    /// odd prime its May elements are stored.
    fn verdict(
        &self,
        alloc: Global,
        index: &Indexed,
        table: &MayTable<P>,
        matrices: &Matrices<P>,
        line: Line,
    ) -> Result<Verdict<P>, AllocError>
        requires prime { IsTrue (served P) }
        requires of { Self.is_of index.now self.now }
        requires matrices { AreMatrices Self.keeps index.now (Self.classes self.now) (class_counts index.now (Self.classes self.now)) matrices.now }
        requires low { line.a + line.b ≤ 15 }
        requires defined { is_defined P (line.a + line.b) (cartan_op P line.n) ≡ true }
        requires stored { HasElements P table.now line }
        requires first { (1 ≤ line.i) × (line.i ≤ length (Self.classes self.now line.a)) }
        requires second { (1 ≤ line.j) × (line.j ≤ length (Self.classes self.now line.b)) }
        ensures { IfOk result (λ v. IsVerdictOf Self.keeps index.now (Self.classes self.now) line v) };
}

impl<const P: u32> Depth<P> for Classes<P> {
    fn of_index(alloc: Global, index: &Indexed) -> Result<Classes<P>, AllocError> {
        Classes::of(alloc, index)
    }

    fn primitives(
        &self,
        alloc: Global,
        _index: &Indexed,
        _n: u32,
    ) -> Result<Listed<Chain>, AllocError> {
        Ok(Listed::new(alloc))
    }

    fn kept_chain(
        alloc: Global,
        _index: &Indexed,
        _n: u32,
        _kept: &Option<Cochain<P>>,
    ) -> Result<Chain, AllocError> {
        Ok(Listed::new(alloc))
    }

    fn verdict(
        &self,
        alloc: Global,
        _index: &Indexed,
        _table: &MayTable<P>,
        matrices: &Matrices<P>,
        line: Line,
    ) -> Result<Verdict<P>, AllocError> {
        cartan_by_matrices(alloc, self, matrices, line)
    }
}

impl<const P: u32> Depth<P> for Cohomology<P> {
    fn of_index(alloc: Global, index: &Indexed) -> Result<Cohomology<P>, AllocError> {
        Cohomology::of(alloc, index)
    }

    fn primitives(
        &self,
        alloc: Global,
        index: &Indexed,
        n: u32,
    ) -> Result<Listed<Chain>, AllocError> {
        let mut chains = Vec::new(alloc);
        for t in 0..self.bounds(n) {
            chains.push(chain_of(alloc, index, n.saturating_sub(1), &self.below(n, t).row)?)?;
        }
        Ok(Listed::from(chains))
    }

    fn kept_chain(
        alloc: Global,
        index: &Indexed,
        n: u32,
        kept: &Option<Cochain<P>>,
    ) -> Result<Chain, AllocError> {
        match kept {
            Some(cochain) => chain_of(alloc, index, n, &cochain.row),
            None => Ok(Listed::new(alloc)),
        }
    }

    fn verdict(
        &self,
        alloc: Global,
        index: &Indexed,
        table: &MayTable<P>,
        _matrices: &Matrices<P>,
        line: Line,
    ) -> Result<Verdict<P>, AllocError> {
        cartan(alloc, self, index, table, line)
    }
}
