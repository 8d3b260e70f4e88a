use fp_field::{Fp, NormOrbits, served};

#[test]
fn the_primes_up_to_five_are_served(rt: HostRuntime) {
    for (p, want) in [
        (0, false),
        (1, false),
        (2, true),
        (3, true),
        (4, false),
        (5, true),
    ] {
        assert_eq!(rt; served(p), want, "at {p}");
    }
}

#[test]
fn fields_have_their_operations(rt: HostRuntime) {
    let three = Fp::<5>::new(13);
    let four = Fp::<5>::from_i64(-11);
    for (found, want) in [
        (three, 3),
        (four, 4),
        (three.add(four), 2),
        (three.sub(four), 4),
        (three.mul(four), 2),
        (three.neg(), 2),
        (three.pow(3), 2),
        (Fp::new(0).pow(0), 1),
        (Fp::new(2).inv(), 3),
        (Fp::scale(1, 0), 3),
    ] {
        assert_eq!(rt; found.value(), want);
        assert!(rt; !found.is_zero());
    }
    for (i, want) in [(1, 1), (2, 2)] {
        assert_eq!(rt; Fp::<3>::scale(i, 0).value(), want);
    }
}

#[test]
fn orbits_are_listed(rt: HostRuntime) {
    assert_eq!(rt; NormOrbits::<2>::orbit_count(), 1);
    assert_eq!(rt; NormOrbits::<2>::orbit_mask(0), 1);
    assert_eq!(rt; NormOrbits::<3>::orbit_count(), 2);
    for (at, want) in [(0, 1), (1, 3)] {
        assert_eq!(rt; NormOrbits::<3>::orbit_mask(at), want);
    }
    assert_eq!(rt; NormOrbits::<5>::orbit_count(), 6);
    for (at, want) in [(0, 1), (1, 3), (2, 5), (3, 7), (4, 11), (5, 15)] {
        assert_eq!(rt; NormOrbits::<5>::orbit_mask(at), want);
    }
}
