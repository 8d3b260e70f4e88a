//! Which simplices lie in others.
ghost use Rattle.std.specs.Prelude.{◌<◌, ◌+◌, length, IfOk};
ghost use Rattle.linear_law.specs.Names.{Each};
ghost use Rattle.complex_index.specs.Names.{IsComplexIndex, level};
ghost use Rattle.facet_list.specs.Covered.{AreMarked, Covers};

use complex_index::Indexed;
use std::alloc::{AllocError, Global};

/// Marks these places.
fn mark(covered: &mut [bool], places: &[u32])
    requires { Each (λ x. x < length covered.old) places.now }
    ensures { AreMarked covered.old places.now covered.new }
{
    for place in places {
        covered[*place as usize] = true;
    }
}

/// For each simplex of degree n whether it is a face of one of degree n + 1.
pub(crate) fn covered(alloc: Global, index: &Indexed, n: u32) -> Result<Vec<bool>, AllocError>
    requires complex { IsComplexIndex index.now }
    requires low { n < 16 }
    ensures { IfOk result (λ v. Covers (level index.now n) (level index.now (n + 1)) v.items) }
{
    let mut covered = vec![in alloc; false; index.count(n) as usize]?;
    for place in 0..index.count(n + 1) {
        mark(covered.as_mut_slice(), index.faces(n + 1, place));
    }
    Ok(covered)
}
