//! The counts of the degrees.
ghost use Rattle.std.specs.Prelude.{◌≡◌, ◌↔◌, ◌<◌, ◌≤◌, ◌+◌, ◌^◌, ℕ, [], length, map, get_or, sum_by, IfOk, IsTrue};
ghost use Rattle.complex_index.specs.Names.{level};
ghost use Rattle.report.specs.declared.complex.ComplexPart.{ComplexPart};
ghost use Rattle.report_law.specs.Names.{below_in};
ghost use Rattle.certificate_law.specs.Names.{Asks, degree_stated, numbered};
ghost use Rattle.certificate_walk.specs.Names.{degree_lines as degree_lines_of, IsWalk};
ghost use Rattle.count_check.specs.Totals.{IsIndexed};

use certificate_walk::{Stop, ask};
use complex_index::Indexed;
use report::DegreePart;

/// Whether the simplices of degree n are as many as what is listed of it and `next`.
fn is_counted(index: &Indexed, n: u32, degree: &DegreePart, next: usize) -> bool
    requires { length degree.now.below + length degree.now.classes + next < 2 ^ 64 }
    ensures { IsTrue result ↔ (length (level index.now n) ≡ length degree.now.below + length degree.now.classes + next) }
{
    index.count(n) as usize == degree.below.len() + degree.classes.len() + next
}

/// How many cochains are listed under `below` in degree n; none past the last.
fn below_count(degrees: &[DegreePart], n: usize) -> usize
    ensures { result ≡ length (get_or (map (λ d. d.below) degrees.now) n []) }
{
    match degrees.get(n) {
        Some(degree) => degree.below.len(),
        None => 0,
    }
}

/// The walk of degree n, where the next degree lists `next` cochains under `below`.
fn degree(
    index: &Indexed,
    n: u32,
    degree: &DegreePart,
    next: usize,
    before: u64,
) -> Result<u64, Stop>
    requires few { length degree.now.below + length degree.now.classes + next < 2 ^ 64 }
    requires room { before + degree_lines_of degree.now < 2 ^ 64 }
    ensures lines { IfOk result (λ last. last ≡ before + degree_lines_of degree.now) }
    ensures walk { (c : ComplexPart) (p : ℕ) → IsIndexed index.now c → length (below_in c (n + 1)) ≡ next → IsWalk (Asks p 5) before (degree_stated c n degree.now) result }
{
    let line = ask(is_counted(index, n, degree, next), before)?;
    Ok(line + degree.below.len() as u64 + degree.classes.len() as u64)
}

/// The walk of the degrees.
pub(crate) fn degrees(index: &Indexed, degrees: &[DegreePart], before: u64) -> Result<u64, Stop>
    requires few { length degrees.now ≤ 16 }
    requires room { before + sum_by degree_lines_of degrees.now < 2 ^ 64 }
    ensures { (c : ComplexPart) (p : ℕ) → IsIndexed index.now c → c.degrees ≡ degrees.now → IsWalk (Asks p 5) before (numbered (degree_stated c) 0 degrees.now) result }
{
    let mut at = before;
    for (n, part) in degrees.iter().enumerate() {
        at = degree(index, n as u32, part, below_count(degrees, n + 1), at)?;
    }
    Ok(at)
}
