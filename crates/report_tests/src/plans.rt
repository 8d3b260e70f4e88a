ghost use Rattle.std.specs.Prelude.{◌≡◌, ◌≤◌, ◌^◌, IsTrue, length};
ghost use Rattle.fp_field.specs.Served.{served};

use comch_io::Listed;
use may_elements::terms::Terms;
use may_elements::{MayRefused, MayTable};
use report::{Block, Line, Op, Product, Sizes};
use std::alloc::{AllocError, Global};
use std::test::Fail;
use term_total::{blocks, cartan_pairs, lines, may_degree, products, target, total};

fn line(a: u32, b: u32, n: u32) -> Line {
    Line {
        a,
        i: 1,
        b,
        j: 1,
        n,
    }
}

#[test]
fn plan_of_a_circle_at_three(rt: HostRuntime) -> Result<(), Fail> {
    let alloc = rt.alloc();
    let ranks: [u32; 2] = [1, 1];
    let first = Product { a: 0, b: 0 };
    let want = [first, Product { a: 0, b: 1 }, Product { a: 1, b: 0 }];
    assert_eq!(rt; products(alloc, &ranks)?.as_slice(), want.as_slice());
    let op = Op::Power { s: 0 };
    let want = [Block { op, from: 0, to: 0 }, Block { op, from: 1, to: 1 }];
    assert_eq!(rt; blocks(alloc, 3, &ranks)?.as_slice(), want.as_slice());
    let want = [line(0, 0, 0), line(0, 1, 0), line(1, 0, 0)];
    assert_eq!(rt; lines(alloc, 3, &ranks)?.as_slice(), want.as_slice());
    let want = [(0u32, 1u32), (1, 0)];
    assert_eq!(rt;
        cartan_pairs(alloc, 3, 2, 2, 1)?.as_slice(),
        want.as_slice()
    );
    assert_eq!(rt;
        (may_degree(3, op, 2), target(3, op, 2)),
        (Some(4), Some(2))
    );
    Ok(())
}

// The sum that passes the limit, for one complex.
fn passing<const P: u32>(
    alloc: Global,
    simplices: &[u32],
    ranks: &[u32],
    limit: u64,
) -> Result<Option<u64>, AllocError>
    requires prime { IsTrue (served P) }
    requires same { length simplices.now ≡ length ranks.now }
    requires few { length ranks.now ≤ 16 }
    requires limit { limit ≤ 10 ^ 12 }
{
    let part = Sizes {
        simplices: Listed::from(simplices.to_vec(alloc)?),
        ranks: Listed::from(ranks.to_vec(alloc)?),
    };
    let mut table = MayTable::<P>::new(alloc);
    let mut terms = Terms::new(limit);
    match total(alloc, &[part], &mut table, &mut terms) {
        Ok(()) => Ok(None),
        Err(MayRefused::TooManyTerms(over)) => Ok(Some(over.count)),
        Err(MayRefused::OutOfMemory) => Err(AllocError),
    }
}

#[test]
fn sums_that_pass(rt: HostRuntime) -> Result<(), Fail> {
    let alloc = rt.alloc();
    let tetrahedron = [4, 6, 4];
    let sphere = [6, 15, 20, 15, 6];
    let found = [
        passing::<3>(alloc, &tetrahedron, &[1, 0, 1], 180)?,
        passing::<3>(alloc, &tetrahedron, &[1, 0, 1], 179)?,
        passing::<3>(alloc, &[500, 1500, 1000], &[1, 2, 1], 43_156)?,
        passing::<5>(alloc, &sphere, &[1, 0, 0, 0, 1], 100_000_000)?,
    ];
    let want = [None, Some(180), Some(43_157), Some(1_892_578_126)];
    assert_eq!(rt; found.as_slice(), want.as_slice());
    Ok(())
}
