use crate::fixtures::{cochain, index_of, job_of, part};
use crate::spelled::{chain, columns};
use crate::texts::{CIRCLE, CONSTANT_MAP, DISC, MOORE, PLANE, TORUS, TWO_POINTS};
use bockstein::{BocksteinRefused, bockstein};
use cartan_check::{Verdict, verdict_of_column};
use cohomology::{Basis, Classes, Cohomology, CoordinatesRefused};
use comch_io::Bytes;
use complex_file::Job;
use complex_index::{MapOn, pull};
use job_report::make_report;
use line_difference::operation;
use may_elements::MayTable;
use may_steenrod::{bp_op, cup, d_op, p_op, sq};
use op_matrix::{matrix, ring};
use report::{Block, Form, Op, Product};
use report_text::print;
use std::alloc::Global;
use std::test::Fail;

// The short text of the report that is made for a form: over the deep cohomology for the certificate, else over the light one.
fn short_text(alloc: Global, job: &Job, form: Form) -> Result<Bytes, Fail> {
    let report = make_report(alloc, job, form, 1_000_000)
        .ok()
        .ok_or("refused")?;
    Ok(print(alloc, &report, Form::Short)?)
}

#[test]
fn both_depths_have_one_report(rt: HostRuntime) -> Result<(), Fail> {
    let alloc = rt.alloc();
    for (prime, blocks, end) in [
        (5, TWO_POINTS, "cartan 0 2 0 2 0 yes\nend\ndone\n"),
        (2, PLANE, "cartan 2 1 0 1 0 yes\nend\ndone\n"),
        (3, TORUS, "cartan 2 1 0 1 0 yes\nend\ndone\n"),
        (3, MOORE, "cartan 2 1 0 1 0 yes\nend\ndone\n"),
        (
            3,
            CONSTANT_MAP,
            "induced 0\ncolumn 1 is 1\ninduced 1\ncolumn 1 is 0\nend\ndone\n",
        ),
    ] {
        let job = job_of(alloc, prime, blocks)?;
        let light = short_text(alloc, &job, Form::Short)?;
        let deep = short_text(alloc, &job, Form::Certificate)?;
        assert_eq!(rt; light.as_slice(), deep.as_slice());
        assert!(rt; deep.as_slice().ends_with(end.as_bytes()), "{blocks}");
    }
    Ok(())
}

#[test]
fn the_circle_has_places_and_chains(rt: HostRuntime) -> Result<(), Fail> {
    let alloc = rt.alloc();
    let circle = index_of(alloc, CIRCLE)?;
    assert_eq!(rt; (circle.degrees(), circle.count(2)), (2, 0));
    let cases: [(&[u32], Option<u32>); 3] = [(&[0, 2], Some(1)), (&[0, 1, 2], None), (&[3], None)];
    for (vertices, place) in cases {
        assert_eq!(rt; circle.place_of(vertices), place);
    }
    assert!(rt; circle.count(1) == 3);
    assert_eq!(rt; circle.faces(1, 2), [2, 1].as_slice());
    assert_eq!(rt; circle.coboundary_rows::<3>(alloc, 0)?.len(), 3);
    let point = cochain::<3>(alloc, &circle, 0, &[(1, &[1])])?;
    let edges = circle.coboundary(alloc, &point)?;
    assert_eq!(rt; chain(alloc, &circle, &edges)?.as_str(), " 1:0.1 2:1.2");
    let way = cochain::<3>(
        alloc,
        &circle,
        1,
        &[(1, &[0, 1]), (2, &[0, 2]), (1, &[1, 2])],
    )?;
    assert!(rt; circle.boundary(alloc, &way)?.row.is_zero());
    Ok(())
}

#[test]
fn maps_of_the_circle_pull_back(rt: HostRuntime) -> Result<(), Fail> {
    let alloc = rt.alloc();
    let circle = index_of(alloc, CIRCLE)?;
    let edge = cochain::<3>(alloc, &circle, 1, &[(1, &[1, 2])])?;
    for (images, want) in [
        ([(0, 0), (1, 0), (2, 0)], ""),
        ([(0, 0), (1, 1), (2, 2)], " 1:1.2"),
    ] {
        let map = MapOn::of(alloc, &images)?;
        let pulled = pull(alloc, &map, &circle, &circle, &edge)?;
        assert_eq!(rt; chain(alloc, &circle, &pulled)?.as_str(), want);
    }
    Ok(())
}

#[test]
fn cochains_at_three_have_operations(rt: HostRuntime) -> Result<(), Fail> {
    let alloc = rt.alloc();
    let circle = index_of(alloc, CIRCLE)?;
    let edge = cochain::<3>(alloc, &circle, 1, &[(1, &[1, 2])])?;
    let table = part(alloc, 2, 1)?;
    let found = [
        d_op(alloc, &table, &circle, &edge, 2)?,
        p_op(alloc, &table, &circle, &edge, 0)?,
        operation(alloc, &table, &circle, Op::Power { s: 0 }, &edge)?,
    ];
    for same in found.as_slice() {
        assert_eq!(rt; chain(alloc, &circle, same)?.as_str(), " 1:1.2");
    }
    let table = part(alloc, 1, 1)?;
    let disc = index_of(alloc, DISC)?;
    let edges = cochain::<3>(alloc, &disc, 1, &[(1, &[0, 1]), (1, &[0, 2]), (1, &[1, 2])])?;
    let found = bp_op(alloc, &table, &disc, &edges, 0)?;
    assert_eq!(rt; chain(alloc, &disc, &found)?.as_str(), " 2:0.1.2");
    Ok(())
}

#[test]
fn the_plane_at_two_has_a_product(rt: HostRuntime) -> Result<(), Fail> {
    let alloc = rt.alloc();
    let plane = index_of(alloc, PLANE)?;
    let terms: [(u64, &[u32]); 5] = [
        (1, &[2, 3]),
        (1, &[2, 4]),
        (1, &[3, 5]),
        (1, &[4, 6]),
        (1, &[5, 6]),
    ];
    let class = cochain::<2>(alloc, &plane, 1, &terms)?;
    let found = [
        sq(alloc, &plane, &class, 1)?,
        cup(alloc, &plane, &class, &class)?,
    ];
    for same in found.as_slice() {
        assert_eq!(rt;
            chain(alloc, &plane, same)?.as_str(),
            " 1:2.3.5 1:2.4.6 1:3.5.6"
        );
    }
    Ok(())
}

#[test]
fn empty_groups_have_empty_matrices(rt: HostRuntime) -> Result<(), Fail> {
    let alloc = rt.alloc();
    let plane = index_of(alloc, PLANE)?;
    let light = Classes::<2>::of(alloc, &plane)?;
    let block = Block {
        op: Op::Square { k: 1 },
        from: 2,
        to: 3,
    };
    let found = matrix(alloc, &light, &plane, &MayTable::new(alloc), block)?;
    assert_eq!(rt; columns(alloc, &found)?.as_str(), " is");
    for (a, b, text) in [(0, 3, ""), (1, 2, " is"), (3, 3, "")] {
        let found = ring(alloc, &light, &plane, Product { a, b })?;
        assert_eq!(rt; columns(alloc, &found)?.as_str(), text);
    }
    Ok(())
}

#[test]
fn the_circle_at_three_has_coboundaries_and_a_cycle(rt: HostRuntime) -> Result<(), Fail> {
    let alloc = rt.alloc();
    let circle = index_of(alloc, CIRCLE)?;
    let deep = Cohomology::<3>::of(alloc, &circle)?;
    let mut text = String::new(alloc);
    for t in 0..deep.bounds(1) {
        let below = chain(alloc, &circle, deep.below(1, t))?;
        let bound = chain(alloc, &circle, deep.bound(1, t))?;
        text = format!(in alloc; "{text}{below} to{bound};")?;
    }
    assert_eq!(rt; text.as_str(), " 1:1 to 1:0.1 2:1.2; 1:2 to 1:0.2 1:1.2;");
    let light = Classes::<3>::of(alloc, &circle)?;
    assert!(rt; light.rank(1) == 1);
    assert!(rt; deep.rank(1) == 1);
    for cycle in [light.cycle(alloc, 1, 1)?, deep.cycle(alloc, 1, 1)?].as_slice() {
        assert_eq!(rt;
            chain(alloc, &circle, cycle)?.as_str(),
            " 1:0.1 2:0.2 1:1.2"
        );
    }
    Ok(())
}

#[test]
fn cocycles_have_coordinates_and_primitives(rt: HostRuntime) -> Result<(), Fail> {
    let alloc = rt.alloc();
    let circle = index_of(alloc, CIRCLE)?;
    let deep = Cohomology::<3>::of(alloc, &circle)?;
    let edge = cochain::<3>(alloc, &circle, 1, &[(1, &[0, 1])])?;
    let found = deep
        .coordinates(alloc, &circle, &edge)
        .ok()
        .ok_or("not closed")?;
    for value in found.values.as_slice() {
        assert_eq!(rt; value.value(), 1);
    }
    assert_eq!(rt; chain(alloc, &circle, &found.primitive)?.as_str(), " 1:1");
    assert!(rt; deep.primitive(alloc, &circle, &edge)?.is_none());
    let bound = cochain::<3>(alloc, &circle, 1, &[(1, &[0, 2]), (1, &[1, 2])])?;
    let primitive = deep
        .primitive(alloc, &circle, &bound)?
        .ok_or("no primitive")?;
    assert_eq!(rt; chain(alloc, &circle, &primitive)?.as_str(), " 1:2");
    Ok(())
}

#[test]
fn an_edge_of_a_disc_is_not_closed(rt: HostRuntime) -> Result<(), Fail> {
    let alloc = rt.alloc();
    let disc = index_of(alloc, DISC)?;
    let deep = Cohomology::<3>::of(alloc, &disc)?;
    let edge = cochain::<3>(alloc, &disc, 1, &[(1, &[0, 1])])?;
    assert_eq!(rt; disc.place_of(&[0, 1, 2]), Some(0));
    match deep.coordinates(alloc, &disc, &edge) {
        Err(CoordinatesRefused::NotClosed { place, value }) => assert_eq!(rt;
            (place, value),
            (0, 1)
        ),
        _ => assert!(rt; false),
    }
    match bockstein(alloc, &disc, &edge) {
        Err(BocksteinRefused::NotClosed { place, value }) => assert_eq!(rt; (place, value), (0, 1)),
        _ => assert!(rt; false),
    }
    assert!(rt; deep.primitive(alloc, &disc, &edge)?.is_none());
    Ok(())
}

#[test]
fn a_class_is_no_coboundary(rt: HostRuntime) -> Result<(), Fail> {
    let alloc = rt.alloc();
    let circle = index_of(alloc, CIRCLE)?;
    let deep = Cohomology::<3>::of(alloc, &circle)?;
    let edges = cochain::<3>(alloc, &circle, 1, &[(2, &[0, 1]), (2, &[1, 2])])?;
    let column = deep.column(alloc, &edges)?;
    match verdict_of_column(alloc, &deep, 1, column)? {
        Verdict::No { value, cycle } => {
            assert_eq!(rt; value.value(), 1);
            let cycle = cycle.ok_or("no cycle")?;
            assert_eq!(rt;
                chain(alloc, &circle, &cycle)?.as_str(),
                " 1:0.1 2:0.2 1:1.2"
            );
        }
        Verdict::Yes { .. } => assert!(rt; false),
    }
    Ok(())
}
