use crate::generic::{boundary_and_copy, turn_and_sums};
use counting::binomial_up_to;
use operad_law::formal_sum::{FormalSum, MOST_WEIGHT, SumEnd};
use operad_law::odd_word::{OddWord, WordRefused, sign_of};
use operad_law::perm::{Perm, PermRefused};
use operad_law::word::Word;
use std::test::Fail;

#[test]
fn sets_are_counted(rt: HostRuntime) {
    assert_eq!(rt; binomial_up_to(5, 2, 1000), 10);
    assert_eq!(rt; binomial_up_to(7, 0, 1000), 1);
    assert_eq!(rt; binomial_up_to(16, 12, 1000), 1000);
    assert_eq!(rt; binomial_up_to(231, 200, u64::MAX), u64::MAX);
}

#[test]
fn permutations_compose_and_faults_have_places(rt: HostRuntime) -> Result<(), Fail> {
    let alloc = rt.alloc();
    let cycle = Perm::cycle(alloc, 3, 7)?;
    assert_eq!(rt; cycle.copy(alloc)?.as_slice(), [2, 3, 1].as_slice());
    assert_eq!(rt;
        cycle.compose(alloc, &cycle)?.as_slice(),
        [3, 1, 2].as_slice()
    );
    assert_eq!(rt; (cycle.len(), cycle.at(3)), (3, 1));
    let cases: [(&[u8], usize); 6] = [
        (&[2, 1, 3], 9),
        (&[2, 2], 2),
        (&[], 0),
        (&[1; 33], 0),
        (&[1, 3], 2),
        (&[2, 1, 0], 3),
    ];
    for (values, want) in cases {
        match Perm::new(alloc, values) {
            Ok(permutation) => assert_eq!(rt; permutation.as_slice(), values),
            Err(PermRefused::NotAPermutation { place }) => assert_eq!(rt; place, want),
            _ => panic!(rt; "out of memory"),
        }
    }
    Ok(())
}

#[test]
fn exchanged_symbols_have_the_sign_minus_one(rt: HostRuntime) -> Result<(), Fail> {
    let alloc = rt.alloc();
    let word = OddWord::new(alloc, &[1, 2, 3])?;
    for (symbols, sign) in [
        ([2, 1, 3], -1),
        ([3, 1, 2], 1),
        ([3, 2, 1], -1),
        ([1, 2, 3], 1),
    ] {
        assert_eq!(rt; sign_of(&word, &OddWord::new(alloc, &symbols)?), sign);
    }
    match OddWord::new(alloc, &[5, 7, 5]) {
        Err(WordRefused::Repeated { place }) => assert_eq!(rt; place, 3),
        _ => panic!(rt; "a repeated symbol was taken"),
    }
    Ok(())
}

#[test]
fn sums_are_in_order_and_keep_no_zero(rt: HostRuntime) -> Result<(), Fail> {
    let alloc = rt.alloc();
    let mut sum = FormalSum::new(alloc);
    for (times, by) in [(2, 5), (1, -3), (0, 4), (2, -5)] {
        sum.add_term(Perm::cycle(alloc, 3, times)?, by)?;
    }
    assert_eq!(rt; (sum.len(), sum.weight(), sum.is_empty()), (2, 7, false));
    assert_eq!(rt; sum.coefficient(&Perm::cycle(alloc, 3, 1)?), -3);
    assert_eq!(rt; sum.coefficient(&Perm::cycle(alloc, 3, 2)?), 0);
    sum.add_term(Perm::cycle(alloc, 3, 2)?, (MOST_WEIGHT - 7) as i64)?;
    match sum.add_term(Perm::cycle(alloc, 3, 2)?, -1) {
        Err(SumEnd::TooLarge) => assert_eq!(rt; sum.weight(), MOST_WEIGHT),
        _ => panic!(rt; "a weight past the limit was taken"),
    }
    Ok(())
}

#[test]
fn words_turn_and_have_boundaries(rt: HostRuntime) -> Result<(), Fail> {
    let alloc = rt.alloc();
    let (faces, same) = boundary_and_copy(alloc, &Word::<3>::new(0, true))?;
    assert!(rt; same == Word::new(0, true));
    assert_eq!(rt; (faces.len(), faces.weight()), (3, 3));
    for (mask, sign) in [(1, 1), (2, -1), (4, 1)] {
        assert_eq!(rt; faces.coefficient(&Word::new(mask, true)), sign);
    }
    let ((turned, sign), _, _) = turn_and_sums(alloc, &Word::<3>::new(1, true))?;
    assert!(rt; turned == Word::new(2, true) && sign == -1);
    let full = Word::<3>::new(7, true);
    let (_, difference, norm) = turn_and_sums(alloc, &full)?;
    assert!(rt; difference.is_empty());
    assert_eq!(rt; (norm.len(), norm.coefficient(&full)), (1, 3));
    Ok(())
}
