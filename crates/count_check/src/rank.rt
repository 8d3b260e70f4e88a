//! The ranks that a certificate prints.
ghost use Rattle.std.specs.Prelude.{◌≡◌, length, map, get_or, IfOk};
ghost use Rattle.count_check.specs.Columns.{AreFew};

use report::DegreePart;
use std::alloc::{AllocError, Global};

/// The numbers of the classes that are listed in each degree, each below 2^28.
pub fn ranks(alloc: Global, degrees: &[DegreePart]) -> Result<Vec<u32>, AllocError>
    requires { AreFew degrees.now }
    ensures { IfOk result (λ v. v.items ≡ map (λ d. length d.classes) degrees.now) }
{
    let mut ranks = Vec::new(alloc);
    for degree in degrees {
        ranks.push(degree.classes.len() as u32)?;
    }
    Ok(ranks)
}

/// The rank of degree n; 0 where none is listed.
pub(crate) fn rank_at(ranks: &[u32], n: u64) -> u32
    ensures { result ≡ get_or ranks.now n 0 }
{
    match ranks.get(n as usize) {
        Some(rank) => *rank,
        None => 0,
    }
}
