use comch_io::Listed;
use complex_file::{
    BlockFault, Complex, ComplexBlock, InputKind, Job, JobRefused, MapBlock, Name, Sent, Simplex,
    complex_fault, map_fault, read_job,
};
use std::alloc::{AllocError, Global};
use std::process::Abort;
use std::test::Fail;

// The prime, the facets of each complex, and the complexes and the sends of each map.
fn spelled(alloc: Global, job: &Job) -> Result<String, AllocError> {
    let mut text = format!(in alloc; "{}", job.prime)?;
    for block in job.complexes.as_slice() {
        text = format!(in alloc; "{text} {:?}", block.facets.facets())?;
    }
    for map in job.maps.as_slice() {
        text = format!(in alloc; "{text} {} {} {:?}", map.from, map.to, map.sends.as_slice())?;
    }
    Ok(text)
}

// What a job spells, or the number of the kind and the line of the first fault.
fn answer(alloc: Global, bytes: &[u8]) -> Result<String, AllocError> {
    match read_job(alloc, bytes) {
        Ok(job) => spelled(alloc, &job),
        Err(JobRefused::OutOfMemory) => Err(AllocError),
        Err(JobRefused::InputRefused { kind, line }) => {
            format!(in alloc; "{} {line}", kind.number())
        }
    }
}

// Tries rows: an answer, and from the next line on the text behind `before` that has it. Each row but the first stands
// behind an equals sign.
fn try_rows(rt: &impl Abort, alloc: Global, before: &str, rows: &str) -> Result<(), Fail> {
    for row in rows.split("= ") {
        let (wanted, behind) = row.split_once('\n').ok_or("no row")?;
        let text = format!(in alloc; "{before}{behind}")?;
        assert_eq!(rt; answer(alloc, text.as_bytes())?.as_str(), wanted, "{row}");
    }
    Ok(())
}

const HEADS: &str = "\
15 1
= 15 2
comch 1
= 3 1
comch 01
= 3 2
comch 1
prime
= 3 2
comch 1
prime 7 x
= 4 2
comch 1
prime 0000002
= 17 2
comch 1
prime 7
= 2 3
comch 1
prime 2
# \x07
= 2 3
comch 1
prime 2
bogus \x7f
= 3 3
comch 1
prime 2
facet x
= 2 [Simplex { vertices: [0] }]
# a point\r
comch 1\r
prime 2\r

 complex\tpt\r
facet 000\r
end\r
= 3 [Simplex { vertices: [2, 7] }, Simplex { vertices: [7] }] []
comch 1
prime 3
complex e
facet 7 2
facet 7
end
complex none
end
";

const OPEN: &str = "\
comch 1
prime 2
complex a
";

// 3 before 4, 4 before 5 and 6, 5 before 6.
const FACETS: &str = "\
3 4
facet
= 3 4
complex a
= 3 4
send x 0
= 4 4
facet 0 x 0
= 4 4
facet 0 1 2 3 4 5 6 7 8 9 10 11 12 13 14 15 -16
= 5 4
facet 0 1 2 3 4 5 6 7 8 9 10 11 12 13 14 15 15
= 6 4
facet 0 1 2 3 4 5 6 7 8 9 10 11 12 13 14 15 16
= 15 5
facet 16
";

const WIDE: &str = "\
comch 1
prime 2
complex a
facet 15 14 13 12 11 10 9 8 7 6 5 4 3 2 1 0
";

// 5 and 6 before 7.
const LARGE: &str = "\
5 5
facet 16 17 18 19 20 21 22 23 24 25 26 27 28 29 30 30
= 6 5
facet 16 17 18 19 20 21 22 23 24 25 26 27 28 29 30 31 32
= 7 5
facet 16 17 18 19 20 21 22 23 24 25 26 27 28 29 30 31
";

const EIGHT_COMPLEXES: &str = "\
comch 1
prime 2
complex a
end
complex b
end
complex c
end
complex d
end
complex e
end
complex f
end
complex g
end
complex h
end
";

// 3 before 16, 16 before 8.
const NINTH_COMPLEX: &str = "\
3 19
complex 1
= 16 19
complex i
= 16 19
complex a
";

const EIGHT_MAPS: &str = "\
comch 1
prime 2
complex a
end
map i a a
end
map j a a
end
map k a a
end
map l a a
end
map m a a
end
map n a a
end
map o a a
end
map p a a
end
";

// 3 before 16, 16 before 8 and 9.
const NINTH_MAP: &str = "\
3 21
map a a 1
= 16 21
map i x x
";

const BLOCKS: &str = "\
comch 1
prime 2
complex e
facet 1 2 0
end
complex t
facet 3
facet 2
end
";

// 8 before 9; 4 before 11 and 12; 12 before 11; 10 before 13 and 14; 13 before 14.
const MAPS: &str = "\
8 10
complex t
= 8 10
map e x x
= 9 10
map f e x
= 9 10
map f f e
= 4 11
map f e e
send 9 1000000
= 4 12
map f e e
send 0 0
send 0 x
= 12 11
map f e e
send 3 0
= 12 12
map f e e
send 0 0
send 0 3
= 11 12
map f e e
send 0 0
send 0 1
= 10 13
map f e t
send 0 3
send 1 2
end
= 13 14
map f e t
send 0 3
send 1 2
send 2 2
end
= 13 14
map f e e
send 0 1
send 1 0
send 2 2
end
= 14 14
map f e t
send 0 2
send 1 2
send 2 3
end
= 2 [Simplex { vertices: [0, 1, 2] }] [Simplex { vertices: [3] }, Simplex { vertices: [2] }] 0 1 [Sent { from: 2, to: 3 }, Sent { from: 0, to: 3 }, Sent { from: 1, to: 3 }]
map f e t
send 2 3
send 0 3
send 1 3
end
= 15 12
map f e t
send 2 3
= 8 15
map f e e
send 0 0
send 1 0
send 2 0
end
complex f
";

#[test]
fn the_first_fault_decides(rt: HostRuntime) -> Result<(), Fail> {
    let alloc = rt.alloc();
    try_rows(&rt, alloc, "", HEADS)?;
    try_rows(&rt, alloc, OPEN, FACETS)?;
    try_rows(&rt, alloc, WIDE, LARGE)?;
    try_rows(&rt, alloc, EIGHT_COMPLEXES, NINTH_COMPLEX)?;
    try_rows(&rt, alloc, EIGHT_MAPS, NINTH_MAP)?;
    try_rows(&rt, alloc, BLOCKS, MAPS)
}

#[test]
fn a_long_text_is_refused_unread(rt: HostRuntime) -> Result<(), Fail> {
    let long = vec![in rt.alloc(); 7u8; 1_048_577]?;
    assert_eq!(rt; answer(rt.alloc(), &long)?.as_str(), "1 0");
    assert_eq!(rt; answer(rt.alloc(), &long[1..])?.as_str(), "2 1");
    Ok(())
}

// The complex with one facet.
fn one_facet(alloc: Global, vertices: &[u32]) -> Result<ComplexBlock, AllocError> {
    let facet = Simplex::new(alloc, vertices)?;
    Ok(ComplexBlock {
        name: Name::new(alloc, b"a")?,
        facets: Complex::of(alloc, vec![in alloc; facet]?)?,
    })
}

#[test]
fn a_block_of_its_own_has_its_fault(rt: HostRuntime) -> Result<(), Fail> {
    let vertices = [0, 1, 2, 3, 4, 5, 6, 7, 8, 9, 10, 11, 12, 13, 14, 15, 16];
    let block = one_facet(rt.alloc(), vertices.as_slice())?;
    let wanted = BlockFault {
        kind: InputKind::FacetTooWide,
        at: 0,
    };
    assert_eq!(rt; complex_fault(rt.alloc(), &block)?, Some(wanted));
    Ok(())
}

// The map that lets the vertices 0 and 1 change places.
fn exchange(alloc: Global) -> Result<MapBlock, AllocError> {
    let sends = vec![in alloc; Sent { from: 0, to: 1 }, Sent { from: 1, to: 0 }]?;
    Ok(MapBlock {
        name: Name::new(alloc, b"f")?,
        from: 0,
        to: 0,
        sends: Listed::from(sends),
    })
}

#[test]
fn a_map_of_its_own_has_its_fault(rt: HostRuntime) -> Result<(), Fail> {
    let edge = one_facet(rt.alloc(), &[0, 1])?;
    let map = exchange(rt.alloc())?;
    let wanted = BlockFault {
        kind: InputKind::NotOrderPreserving,
        at: 2,
    };
    assert_eq!(rt; map_fault(rt.alloc(), &map, &edge, &edge)?, Some(wanted));
    Ok(())
}
