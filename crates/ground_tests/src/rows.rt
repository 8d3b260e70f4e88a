use fp_field::Fp;
use row_reduce::{Space, kernel};
use sparse_rows::Row;
use std::alloc::{AllocError, Global};
use std::test::Fail;

const LAST: u32 = 4_294_967_295;

// The row over the field with three elements that is the sum of these pairs.
fn row(alloc: Global, pairs: &[(u32, u64)]) -> Result<Row<3>, AllocError> {
    let mut values = Vec::new(alloc);
    for pair in pairs {
        values.push((pair.0, Fp::new(pair.1)))?;
    }
    Row::from_pairs(alloc, values.as_slice())
}

#[test]
fn rows_add_and_pair(rt: HostRuntime) -> Result<(), Fail> {
    let alloc = rt.alloc();
    let first = row(alloc, &[(0, 1), (2, 2)])?;
    let mut sum = first.copy()?;
    sum.add_scaled(&row(alloc, &[(0, 1)])?, Fp::new(2))?;
    assert_eq!(rt;
        format!(in alloc; "{sum:?}")?.as_str(),
        "Row { pairs: [(2, Fp(2))] }"
    );
    assert_eq!(rt;
        (first.lead(), sum.at(2).value(), first.dot(&sum).value()),
        (Some(0), 2, 1)
    );
    let sorted = row(alloc, &[(7, 1), (2, 1), (7, 2), (2, 1), (0, 0)])?;
    assert_eq!(rt;
        format!(in alloc; "{sorted:?}")?.as_str(),
        "Row { pairs: [(2, Fp(2))] }"
    );
    let mut pushed = Row::<3>::new(alloc);
    assert!(rt; pushed.is_zero());
    pushed.push_last(9, Fp::new(1))?;
    assert_eq!(rt; (pushed.len(), pushed.at(9).value()), (1, 1));
    Ok(())
}

#[test]
fn rows_are_reduced(rt: HostRuntime) -> Result<(), Fail> {
    let alloc = rt.alloc();
    let rows = [
        row(alloc, &[(0, 1), (LAST, 1)])?,
        row(alloc, &[(0, 1), (LAST, 2)])?,
    ];
    let mut space = Space::new(alloc);
    space.reduce_all(alloc, &rows)?;
    assert_eq!(rt; space.rank(), 2);
    assert_eq!(rt; space.pivot(1), LAST);
    let (rest, combination) = space.remainder(alloc, &row(alloc, &[(0, 2), (2, 1)])?)?;
    assert_eq!(rt;
        format!(in alloc;
            "{:?} {:?} {rest:?} {combination:?}",
            space.row(0),
            space.combination(0)
        )?
        .as_str(),
        "Row { pairs: [(0, Fp(1))] } Row { pairs: [(0, Fp(2)), (1, Fp(2))] } \
         Row { pairs: [(2, Fp(1))] } Row { pairs: [(0, Fp(1)), (1, Fp(1))] }"
    );
    Ok(())
}

#[test]
fn rows_have_a_kernel(rt: HostRuntime) -> Result<(), Fail> {
    let alloc = rt.alloc();
    let rows = [
        row(alloc, &[(LAST, 1)])?,
        row(alloc, &[(LAST, 2)])?,
        Row::new(alloc),
    ];
    let space = kernel(alloc, &rows)?;
    assert_eq!(rt; space.rank(), 2);
    assert_eq!(rt;
        format!(in alloc; "{:?} {:?}", space.row(0), space.row(1))?.as_str(),
        "Row { pairs: [(0, Fp(1)), (1, Fp(1))] } Row { pairs: [(2, Fp(1))] }"
    );
    Ok(())
}
