//! What is asked of a listed chain.
ghost use Rattle.std.specs.Prelude.{◌≡◌, ℕ, List, [], ◌∷◌, length, true, IfOk, IsTrue, MatchBool, MatchOption};
ghost use Rattle.linear_law.specs.Names.{Each};
ghost use Rattle.simplicial_law.specs.Names.{Chain as Terms, IsCocycle, cochain_of};
ghost use Rattle.fp_field.specs.Served.{served};
ghost use Rattle.sparse_rows.specs.Rows.{IsBelow};
ghost use Rattle.complex_index.specs.Names.{IsComplexIndex, IsIndexOf, level};
ghost use Rattle.report.specs.declared.complex.ComplexPart.{ComplexPart};
ghost use Rattle.report_text_law.specs.Names.{is_chain};
ghost use Rattle.certificate_law.specs.Names.{IsOn};
ghost use Rattle.class_check.specs.Questions.{AreLeads, AreReady, IsAnswerOf, IsLeadTaken, others_of, stands_in};

use complex_index::{Cochain, Indexed};
use listed_rows::{coboundary_of, row_of};
use report::Term;
use sparse_rows::Row;
use std::alloc::{AllocError, Global};

/// What is asked of a chain that is listed of a degree.
#[derive(Clone, Copy, Debug, PartialEq, Eq)]
pub(crate) enum Question {
    /// Of one under `below`: that its coboundary has a new least simplex.
    Below,
    /// Of a class: that it is a cocycle.
    Cocycle,
    /// Of a class: that it has a new least simplex.
    Class,
}

/// Whether the row has a least place that is not marked yet. It is marked.
fn is_new<const P: u32>(leads: &mut Vec<bool>, found: Option<Row<P>>) -> bool
    requires { MatchOption found (Unit {0}) (IsBelow (length leads.old.items)) }
    ensures taken { IsLeadTaken P leads.old.items found.entry leads.new.items result }
    ensures len { length leads.new.items ≡ length leads.old.items }
{
    let Some(row) = found else {
        return false;
    };
    let Some(place) = row.lead() else {
        return false;
    };
    let is_new = !leads[place as usize];
    leads[place as usize] = true;
    is_new
}

/// Whether a chain of degree `n` stands on simplices and is a cocycle.
fn is_cocycle<const P: u32>(
    alloc: Global,
    index: &Indexed,
    n: u32,
    chain: &[Term],
) -> Result<bool, AllocError>
    requires prime { IsTrue (served P) }
    requires complex { IsComplexIndex index.now }
    requires listed { is_chain P chain.now ≡ true }
    ensures { IfOk result (λ closed. (facets : List (List ℕ)) → IsIndexOf facets index.now → MatchBool closed (IsOn facets n chain.now × IsCocycle facets n P (cochain_of chain.now)) (IsOn facets n chain.now → IsCocycle facets n P (cochain_of chain.now) → ⊥)) }
{
    let Some(row) = row_of::<P>(alloc, index, n, chain)? else {
        return Ok(false);
    };
    if n >= index.degrees() {
        return Ok(true);
    }
    let coboundary = index.coboundary(alloc, &Cochain { degree: n, row })?;
    Ok(coboundary.row.lead().is_none())
}

/// Whether a chain that is listed of degree `n` is as asked. The places of least simplices are marked.
pub(crate) fn passes<const P: u32>(
    alloc: Global,
    index: &Indexed,
    n: u32,
    question: Question,
    chain: &[Term],
    leads: &mut Vec<bool>,
) -> Result<bool, AllocError>
    requires prime { IsTrue (served P) }
    requires complex { IsComplexIndex index.now }
    requires listed { is_chain P chain.now ≡ true }
    requires marks { length leads.old.items ≡ length (level index.now n) }
    ensures len { length leads.new.items ≡ length leads.old.items }
    ensures told { IfOk result (λ passed. (c : ComplexPart) (before : List Terms) → IsIndexOf c.facets index.now → AreReady P question (stands_in question c n before chain.now ∷ []) → AreLeads c.facets n P (level index.now n) (others_of P question c n before) leads.old.items → IsAnswerOf P question c n (level index.now n) before chain.now leads.new.items passed) }
{
    match question {
        Question::Below => Ok(is_new(leads, coboundary_of::<P>(alloc, index, n, chain)?)),
        Question::Cocycle => is_cocycle::<P>(alloc, index, n, chain),
        Question::Class => Ok(is_new(leads, row_of::<P>(alloc, index, n, chain)?)),
    }
}
