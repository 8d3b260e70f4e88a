//! The Cartan lines.
ghost use Rattle.std.specs.{Prelude.{◌≡◌, ◌↔◌, ◌<◌, ◌≤◌, ◌+◌, ◌*◌, ◌++◌, ◌^◌, ℕ, List, flat_map, length, map, slice_get, Some, IfOk, IsTrue, OnOk}, List.filter};
ghost use Rattle.signed_sum.specs.Names.{numbers_from};
ghost use Rattle.linear_law.specs.Names.{Each};
ghost use Rattle.fp_field.specs.Served.{served};
ghost use Rattle.report.specs.declared.complex.ComplexPart.{ComplexPart};
ghost use Rattle.report_law.specs.Names.{lines as lines_of, lines_of_pair, line_of, ranks_of};
ghost use Rattle.certificate_law.specs.Names.{Asks, cartan_stated, numbered};
ghost use Rattle.certificate_walk.specs.Names.{IsWalk};
ghost use Rattle.count_check.specs.{Columns.AreSmall, LineGroups.{IsSmallGroup, group_lines, is_live_number, lines_from}};

use crate::columns::ask_first;
use crate::rank::rank_at;
use certificate_walk::Stop;
use report::{CartanPart, Line};
use std::alloc::{AllocError, Global};
use term_total::{cartan_op, target};

/// The live lines of the classes of two degrees: how many classes they have, and the numbers n for each two of them.
#[derive(Drop)]
pub(crate) struct LineGroup {
    a: u32,
    b: u32,
    first: u32,
    second: u32,
    numbers: Vec<u32>,
}

impl LineGroup {
    /// How many lines these are.
    fn size(&self) -> u64
        requires { IsSmallGroup self.now }
        ensures { result ≡ length (group_lines self.now) }
    {
        u64::from(self.first) * u64::from(self.second) * self.numbers.len() as u64
    }

    /// The line at a place.
    fn line(&self, place: u64) -> Line
        requires small { IsSmallGroup self.now }
        requires inside { place < length (group_lines self.now) }
        ensures { slice_get (group_lines self.now) place ≡ Some result }
    {
        let count = self.numbers.len() as u64;
        let row = u64::from(self.second) * count;
        let rest = place % row;
        Line {
            a: self.a,
            i: (place / row) as u32 + 1,
            b: self.b,
            j: (rest / count) as u32 + 1,
            n: self.numbers[(rest % count) as usize],
        }
    }
}

/// Whether the lines of degrees a and b for this n are live.
fn is_live(p: u32, ranks: &[u32], a: u32, b: u32, n: u32) -> bool
    requires prime { IsTrue (served p) }
    requires low { a + b ≤ 30 }
    ensures { result ≡ is_live_number p ranks.now a b n }
{
    match target(p, cartan_op(p, n), a + b) {
        Some(degree) => rank_at(ranks, u64::from(degree)) > 0,
        None => false,
    }
}

/// The n for which the lines of degrees a and b are live.
fn live_numbers(
    alloc: Global,
    p: u32,
    ranks: &[u32],
    a: u32,
    b: u32,
) -> Result<Vec<u32>, AllocError>
    requires prime { IsTrue (served p) }
    requires low { a + b ≤ 30 }
    ensures { IfOk result (λ v. v.items ≡ filter (is_live_number p ranks.now a b) (numbers_from 0 (a + b + 1))) }
{
    let mut found = Vec::new(alloc);
    for n in 0..a + b + 1 {
        if is_live(p, ranks, a, b, n) {
            found.push(n)?;
        }
    }
    Ok(found)
}

/// Adds the live lines of degree a and each degree.
fn add_groups(
    alloc: Global,
    groups: &mut Vec<LineGroup>,
    p: u32,
    ranks: &[u32],
    a: u32,
) -> Result<(), AllocError>
    requires prime { IsTrue (served p) }
    requires few { length ranks.now ≤ 16 }
    requires small { AreSmall ranks.now }
    requires inside { a < length ranks.now }
    requires counted { Each IsSmallGroup groups.old.items }
    ensures counted { OnOk result (Each IsSmallGroup groups.new.items) }
    ensures lines { OnOk result (flat_map group_lines groups.new.items ≡ flat_map group_lines groups.old.items ++ lines_from p ranks.now a) }
{
    for b in 0..ranks.len() as u32 {
        let numbers = live_numbers(alloc, p, ranks, a, b)?;
        groups.push(LineGroup {
            a,
            b,
            first: rank_at(ranks, u64::from(a)),
            second: rank_at(ranks, u64::from(b)),
            numbers,
        })?;
    }
    Ok(())
}

/// The live lines, by the degrees of their classes.
pub(crate) fn line_groups(
    alloc: Global,
    p: u32,
    ranks: &[u32],
) -> Result<Vec<LineGroup>, AllocError>
    requires prime { IsTrue (served p) }
    requires few { length ranks.now ≤ 16 }
    requires small { AreSmall ranks.now }
    ensures counted { IfOk result (λ v. Each IsSmallGroup v.items) }
    ensures lines { IfOk result (λ v. flat_map group_lines v.items ≡ lines_of p ranks.now) }
{
    let mut groups = Vec::new(alloc);
    for a in 0..ranks.len() as u32 {
        add_groups(alloc, &mut groups, p, ranks, a)?;
    }
    Ok(groups)
}

/// The line at a place; `None` past the last.
pub(crate) fn line_at(groups: &[LineGroup], place: u64) -> Option<Line>
    requires { Each IsSmallGroup groups.now }
    ensures { result ≡ slice_get (flat_map group_lines groups.now) place }
{
    let mut left = place;
    for group in groups {
        let size = group.size();
        if left < size {
            return Some(group.line(left));
        }
        left -= size;
    }
    None
}

/// Whether a Cartan line is the live one at its place.
fn is_line(groups: &[LineGroup], place: usize, line: &CartanPart) -> bool
    requires { Each IsSmallGroup groups.now }
    ensures { IsTrue result ↔ (slice_get (flat_map group_lines groups.now) place ≡ Some (line_of line.now)) }
{
    match line_at(groups, place as u64) {
        Some(live) => {
            live.a == line.a
                && live.i == line.i
                && live.b == line.b
                && live.j == line.j
                && live.n == line.n
        }
        None => false,
    }
}

/// The walk of the Cartan lines.
pub(crate) fn cartans(groups: &[LineGroup], listed: &[CartanPart], before: u64) -> Result<u64, Stop>
    requires counted { Each IsSmallGroup groups.now }
    requires room { before + 2 * length listed.now < 2 ^ 64 }
    ensures { (c : ComplexPart) (p : ℕ) → lines_of p (ranks_of c) ≡ flat_map group_lines groups.now → IsWalk (Asks p 5) before (numbered (cartan_stated c) 0 listed.now) result }
{
    let mut at = before;
    for (place, line) in listed.iter().enumerate() {
        at = ask_first(is_line(groups, place, line), at)?;
    }
    Ok(at)
}
