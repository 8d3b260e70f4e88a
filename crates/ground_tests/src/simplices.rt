use simplex_set::{OpenComplex, Simplex};
use std::test::Fail;

// The torus with seven vertices: 7 + 21 + 14 simplices.
#[test]
fn a_torus_is_listed_by_degree(rt: HostRuntime) -> Result<(), Fail> {
    let mut open = OpenComplex::new(rt.alloc());
    for first in 0u32..7 {
        for step in [1u32, 2] {
            let mut vertices = [first, (first + step) % 7, (first + 3) % 7];
            vertices.sort_unstable();
            let facet = Simplex::new(rt.alloc(), &vertices)?;
            open = open.with_facet(rt.alloc(), facet, 42)?;
        }
    }
    let torus = open.into_complex(rt.alloc())?;
    for (vertices, is_there) in [([0u32, 1, 3], true), ([0, 1, 2], false)] {
        assert_eq!(rt; torus.contains(&vertices), is_there);
    }
    assert_eq!(rt; torus.facets().len(), 14);
    let mut counts = Vec::new(rt.alloc());
    for level in torus.levels() {
        counts.push(level.len())?;
    }
    assert_eq!(rt; counts.as_slice(), [7usize, 21, 14].as_slice());
    Ok(())
}
