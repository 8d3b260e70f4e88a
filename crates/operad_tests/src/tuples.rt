use crate::generic::{boundary_and_copy, composed, moved, turn_and_sums};
use crate::spelled::{surjections, tuple, tuples};
use barratt_eccles::tuple::{Tuple, TupleRefused};
use operad_law::basis::SignedBasis;
use operad_law::cyclic::CyclicModel;
use operad_law::perm::Perm;
use operad_law::symmetric::Symmetric;
use std::alloc::Global;
use std::test::Fail;
use table_reduction::reduction::reduce;

const POINT: &[u8] = &[1, 2];

fn tuple_of(alloc: Global, lists: &[&[u8]]) -> Result<Result<Tuple, TupleRefused>, Fail> {
    let mut entries = Vec::new(alloc);
    for values in lists {
        entries.push(Perm::new(alloc, values)?)?;
    }
    Ok(Tuple::new(entries))
}

#[test]
fn refused_lists_have_places(rt: HostRuntime) -> Result<(), Fail> {
    let alloc = rt.alloc();
    let cases: [(&[&[u8]], &str); 4] = [
        (&[], "Some(Empty)"),
        (&[&[1, 2], &[1]], "Some(MixedArity { place: 1 })"),
        (
            &[&[1, 2], &[2, 1], &[2, 1]],
            "Some(EqualNeighbours { place: 2 })",
        ),
        (&[POINT; 202], "Some(TooLong)"),
    ];
    for (lists, want) in cases {
        let refused = tuple_of(alloc, lists)?.err();
        assert_eq!(rt; format!(in alloc; "{refused:?}")?.as_str(), want);
    }
    Ok(())
}

#[test]
fn a_pair_has_two_ends(rt: HostRuntime) -> Result<(), Fail> {
    let alloc = rt.alloc();
    let pair = tuple_of(alloc, &[&[1, 2, 3], &[2, 3, 1]])??;
    let (ends, same) = boundary_and_copy(alloc, &pair)?;
    assert_eq!(rt; tuples(alloc, &ends)?.as_str(), "-1 [1, 2, 3];1 [2, 3, 1];");
    assert_eq!(rt; tuple(alloc, &same)?.as_str(), " [1, 2, 3] [2, 3, 1]");
    assert_eq!(rt; pair.degree(), 1);
    assert_eq!(rt; pair.entry(1).as_slice(), [2, 3, 1].as_slice());
    let swap = Perm::new(alloc, &[2, 1, 3])?;
    assert_eq!(rt; pair.arity(), swap.len());
    let swapped = moved(alloc, &pair, &swap)?;
    assert_eq!(rt; tuple(alloc, &swapped)?.as_str(), " [2, 1, 3] [1, 3, 2]");
    Ok(())
}

#[test]
fn two_turns_go_round(rt: HostRuntime) -> Result<(), Fail> {
    let alloc = rt.alloc();
    let pair = tuple_of(alloc, &[&[1, 2], &[2, 1]])??;
    assert!(rt; CyclicModel::<2>::fits(&pair));
    let ((next, sign), difference, sum) = turn_and_sums::<2, Tuple>(alloc, &pair)?;
    assert_eq!(rt; tuple(alloc, &next)?.as_str(), " [2, 1] [1, 2]");
    assert_eq!(rt; sign, 1);
    assert_eq!(rt;
        tuples(alloc, &difference)?.as_str(),
        "-1 [1, 2] [2, 1];1 [2, 1] [1, 2];"
    );
    assert_eq!(rt;
        tuples(alloc, &sum)?.as_str(),
        "1 [1, 2] [2, 1];1 [2, 1] [1, 2];"
    );
    Ok(())
}

#[test]
fn composition_goes_along_the_paths(rt: HostRuntime) -> Result<(), Fail> {
    let alloc = rt.alloc();
    let pair = tuple_of(alloc, &[&[1, 2], &[2, 1]])??;
    let point = tuple_of(alloc, &[&[1, 2]])??;
    assert_eq!(rt; (pair.arity(), point.arity()), (2, 2));
    assert_eq!(rt; (pair.degree(), point.degree()), (1, 0));
    for (inner, want) in [
        (&point, "1 [1, 2, 3] [3, 1, 2];"),
        (
            &pair,
            "-1 [1, 2, 3] [2, 1, 3] [3, 2, 1];1 [1, 2, 3] [3, 1, 2] [3, 2, 1];",
        ),
    ] {
        let sum = composed(alloc, &pair, 1, inner)?;
        assert_eq!(rt; tuples(alloc, &sum)?.as_str(), want);
    }
    Ok(())
}

#[test]
fn a_tuple_of_degree_two_has_two_lists(rt: HostRuntime) -> Result<(), Fail> {
    let alloc = rt.alloc();
    let triple = tuple_of(alloc, &[&[1, 2, 3], &[3, 1, 2], &[1, 2, 3]])??;
    let sum = reduce(alloc, &triple)?;
    assert_eq!(rt;
        surjections(alloc, &sum)?.as_str(),
        "1 [1, 2, 3, 2, 3];1 [1, 3, 1, 2, 3];"
    );
    Ok(())
}
