use crate::spelled::surjections;
use may_elements::MayTable;
use std::test::Fail;

#[test]
fn the_element_of_degree_two_at_three(rt: HostRuntime) -> Result<(), Fail> {
    let alloc = rt.alloc();
    assert_eq!(rt; MayTable::<3>::candidates(2), 18);
    let element = MayTable::<3>::build(alloc, 2)?;
    assert_eq!(rt;
        surjections(alloc, &element)?.as_str(),
        "1 [1, 2, 3, 1, 2];1 [1, 2, 3, 2, 3];1 [1, 3, 1, 2, 3];"
    );
    Ok(())
}

#[test]
fn terms_with_live_cuts(rt: HostRuntime) -> Result<(), Fail> {
    let alloc = rt.alloc();
    let mut table = MayTable::<3>::new(alloc);
    table.store(2, 2)?;
    table.store(2, 2)?;
    table.store(2, 1)?;
    let wide = table.part(2, 2).ok_or("not stored")?;
    assert_eq!(rt;
        surjections(alloc, wide)?.as_str(),
        "1 [1, 2, 3, 1, 2];1 [1, 2, 3, 2, 3];1 [1, 3, 1, 2, 3];"
    );
    let narrow = table.part(2, 1).ok_or("not stored")?;
    assert_eq!(rt; surjections(alloc, narrow)?.as_str(), "1 [1, 2, 3, 1, 2];");
    assert!(rt; table.part(2, 3).is_none());
    Ok(())
}

#[test]
fn at_two_there_is_one_list(rt: HostRuntime) -> Result<(), Fail> {
    let alloc = rt.alloc();
    assert_eq!(rt; MayTable::<5>::candidates(16), 1_892_578_125);
    assert_eq!(rt; MayTable::<5>::candidates(60), 1_000_000_000_000_000);
    let element = MayTable::<2>::build(alloc, 3)?;
    assert_eq!(rt;
        surjections(alloc, &element)?.as_str(),
        "1 [1, 2, 1, 2, 1];"
    );
    Ok(())
}
