use crate::generic::{boundary_and_copy, composed, moved, turn_and_sums};
use crate::spelled::surjections;
use operad_law::boundary::boundary_of;
use operad_law::cyclic::CyclicModel;
use operad_law::formal_sum::FormalSum;
use operad_law::perm::Perm;
use operad_law::symmetric::Symmetric;
use std::test::Fail;
use surjection::surj::Surj;

#[test]
fn refused_lists_have_values_and_places(rt: HostRuntime) -> Result<(), Fail> {
    let alloc = rt.alloc();
    let cases: [(&[u8], &str); 6] = [
        (&[], "Some(Empty)"),
        (&[1, 33], "Some(TooLong)"),
        (&[1, 3], "Some(Gap { value: 2 })"),
        (&[4, 2], "Some(Gap { value: 1 })"),
        (&[1, 0], "Some(Gap { value: 0 })"),
        (&[1, 1], "Some(EqualNeighbours { place: 2 })"),
    ];
    for (values, want) in cases {
        let refused = Surj::new(alloc, values).err();
        assert_eq!(rt; format!(in alloc; "{refused:?}")?.as_str(), want);
    }
    Ok(())
}

#[test]
fn an_arc_has_two_ends(rt: HostRuntime) -> Result<(), Fail> {
    let alloc = rt.alloc();
    let arc = Surj::new(alloc, &[1, 2, 1])?;
    let (ends, same) = boundary_and_copy(alloc, &arc)?;
    assert_eq!(rt; surjections(alloc, &ends)?.as_str(), "-1 [1, 2];1 [2, 1];");
    assert_eq!(rt; same.as_slice(), [1, 2, 1].as_slice());
    assert!(rt; boundary_of(alloc, &ends)?.is_empty());
    let swap = Perm::new(alloc, &[2, 1])?;
    assert_eq!(rt; arc.arity(), swap.len());
    assert_eq!(rt; moved(alloc, &arc, &swap)?.as_slice(), [2, 1, 2].as_slice());
    Ok(())
}

#[test]
fn two_turns_go_round(rt: HostRuntime) -> Result<(), Fail> {
    let alloc = rt.alloc();
    let point = Surj::new(alloc, &[1, 2])?;
    assert!(rt; CyclicModel::<2>::fits(&point));
    let ((next, sign), difference, mut sum) = turn_and_sums::<2, Surj>(alloc, &point)?;
    assert_eq!(rt; (next.as_slice(), sign), ([2, 1].as_slice(), 1));
    assert_eq!(rt;
        surjections(alloc, &difference)?.as_str(),
        "-1 [1, 2];1 [2, 1];"
    );
    assert_eq!(rt; surjections(alloc, &sum)?.as_str(), "1 [1, 2];1 [2, 1];");
    sum.plus_scaled(&difference, 2)?;
    assert_eq!(rt; surjections(alloc, &sum)?.as_str(), "-1 [1, 2];3 [2, 1];");
    Ok(())
}

#[test]
fn an_arc_is_put_into_an_arc(rt: HostRuntime) -> Result<(), Fail> {
    let alloc = rt.alloc();
    let arc = Surj::new(alloc, &[1, 2, 1])?;
    let sum = composed(alloc, &arc, 1, &arc)?;
    assert_eq!(rt;
        surjections(alloc, &sum)?.as_str(),
        "-1 [1, 2, 1, 3, 1];-1 [1, 2, 3, 2, 1];1 [1, 3, 1, 2, 1];"
    );
    Ok(())
}
