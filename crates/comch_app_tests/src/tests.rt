use crate::rows::{
    BALL, BALL_REPORT, CIRCLE, CIRCLE_AT_5, CIRCLE_CERTIFIED, EDGE_CERTIFIED, EMPTY_MAPS_CERTIFIED,
    LARGE, MAPS, MAPS_REPORT, MOORE, MOORE_REPORT, PLANE, PLANE_REPORT, POINT_REPORT, SPHERE,
    TORUS, TORUS_REPORT, TWO_POINTS, WIDE,
};
use comch_app::run;
use comch_io::{MemSink, MemSource, Source};
use std::alloc::{AllocError, Global};
use std::process::Abort;
use std::test::Fail;

fn words_of(alloc: Global, line: &str) -> Result<Vec<String>, AllocError> {
    let mut words = Vec::new(alloc);
    for word in line.split_whitespace() {
        words.push(String::from_str(alloc, word)?)?;
    }
    Ok(words)
}

// A text in which a semicolon stands for the end of a line, and a comma begins a facet.
fn spelled(alloc: Global, text: &str) -> Result<String, AllocError> {
    let lines = text.replace(alloc, ",", ";facet ")?;
    lines.replace(alloc, ";", "\n")
}

// The words are answered to a job with this exit code and this text.
fn try_row(
    rt: &impl Abort,
    alloc: Global,
    line: &str,
    prime: u32,
    blocks: &str,
    code: u8,
    text: &str,
) -> Result<(), Fail> {
    let words = words_of(alloc, line)?;
    let job = format!(in alloc; "comch 1;prime {prime};{blocks}")?;
    let input = spelled(alloc, job.as_str())?;
    let wanted = spelled(alloc, text)?;
    let mut source = MemSource::new(alloc, input.as_bytes(), [].as_slice())?;
    let mut sink = MemSink::new(alloc, 9_999, [].as_slice())?;
    let status = run(alloc, words.as_slice(), &mut source, &mut sink);
    assert_eq!(rt; status.code(), code, "{job}");
    assert_eq!(rt; sink.text(), wanted.as_bytes(), "{job}");
    Ok(())
}

#[test]
fn jobs_are_answered(rt: HostRuntime) -> Result<(), Fail> {
    let alloc = rt.alloc();
    let rows: [(&str, u32, &str, u8, &str); 29] = [
        ("basis", 5, "", 0, "comch basis 1;prime 5;done;"),
        (
            "basis",
            2,
            "complex none;end;",
            0,
            "comch basis 1;prime 2;complex none;end;done;",
        ),
        (
            "basis",
            2,
            "complex pt,000;end;",
            0,
            "comch basis 1;prime 2;complex pt;degree 0 rank 1;class 1:0;end;done;",
        ),
        (
            "basis",
            2,
            PLANE,
            0,
            "comch basis 1;prime 2;complex rp2;degree 0 rank 1;class 1:1 1:2 1:3 1:4 1:5 1:6;\
            degree 1 rank 1;class 1:2.3 1:2.4 1:3.5 1:4.6 1:5.6;degree 2 rank 1;class 1:4.5.6;end;done;",
        ),
        (
            "basis",
            3,
            PLANE,
            0,
            "comch basis 1;prime 3;complex rp2;degree 0 rank 1;class 1:1 1:2 1:3 1:4 1:5 1:6;\
            degree 1 rank 0;degree 2 rank 0;end;done;",
        ),
        (
            "basis",
            2,
            MOORE,
            0,
            "comch basis 1;prime 2;complex moore;degree 0 rank 1;\
            class 1:0 1:1 1:2 1:3 1:4 1:5 1:6 1:7 1:8 1:9 1:10 1:11 1:12;\
            degree 1 rank 0;degree 2 rank 0;end;done;",
        ),
        ("basis", 7, "", 3, "refused input 17 line 2;"),
        ("certify", 2, "complex a,0 0;", 3, "refused input 5 line 4;"),
        ("report", 2, "complex a,0 1", 3, "refused input 15 line 4;"),
        (
            "report --terms 1",
            2,
            "complex e,0 1;end;map f e e;send 0 1;send 1 0;end;",
            3,
            "refused input 13 line 9;",
        ),
        ("basis", 2, WIDE, 3, "refused input 6 line 4;"),
        ("basis", 2, LARGE, 3, "refused input 7 line 5;"),
        ("report", 5, "", 0, "comch report 1;prime 5;done;"),
        (
            "certify",
            3,
            "complex none;end;",
            0,
            "comch certificate 1;prime 3;complex none;end;done;",
        ),
        ("report", 2, "complex pt,0;end;", 0, POINT_REPORT),
        ("report", 5, "complex two,0,1;end;", 0, TWO_POINTS),
        ("certify", 3, CIRCLE, 0, CIRCLE_CERTIFIED),
        ("report", 5, CIRCLE, 0, CIRCLE_AT_5),
        ("report", 3, TORUS, 0, TORUS_REPORT),
        ("report", 3, MOORE, 0, MOORE_REPORT),
        ("report --terms 180", 3, BALL, 0, BALL_REPORT),
        ("--terms=0000000000180 report", 3, BALL, 0, BALL_REPORT),
        (
            "report --terms 179",
            3,
            BALL,
            4,
            "refused terms 180 limit 179;",
        ),
        (
            "certify --terms 179",
            3,
            BALL,
            4,
            "refused terms 180 limit 179;",
        ),
        (
            "report",
            5,
            SPHERE,
            4,
            "refused terms 1892578126 limit 100000000;",
        ),
        (
            "certify",
            2,
            "complex edge,1 0,0,0 1;end;map id edge edge;send 1 1;send 0 0;end;",
            0,
            EDGE_CERTIFIED,
        ),
        (
            "certify",
            3,
            "complex none;end;complex pt,0;end;map f none pt;end;map g none none;end;",
            0,
            EMPTY_MAPS_CERTIFIED,
        ),
        (
            "bockstein",
            3,
            MOORE,
            0,
            "comch bockstein 1;prime 3;complex moore;bockstein 0 to 1;column 1 is 0;\
            bockstein 1 to 2;column 1 is 1;end;done;",
        ),
        (
            "bockstein",
            3,
            TORUS,
            0,
            "comch bockstein 1;prime 3;complex torus;bockstein 0 to 1;column 1 is 0 0;\
            bockstein 1 to 2;column 1 is 0;column 2 is 0;end;done;",
        ),
    ];
    for (line, prime, blocks, code, text) in rows {
        try_row(&rt, alloc, line, prime, blocks, code, text)?;
    }
    Ok(())
}

#[test]
fn maps_follow_the_complexes(rt: HostRuntime) -> Result<(), Fail> {
    let alloc = rt.alloc();
    for (maps, report) in [("", "done;"), (MAPS, MAPS_REPORT)] {
        let blocks = format!(in alloc; "{PLANE}{maps}")?;
        let text = format!(in alloc; "{PLANE_REPORT}{report}")?;
        try_row(&rt, alloc, "report", 2, blocks.as_str(), 0, text.as_str())?;
    }
    Ok(())
}

#[test]
fn faults_have_their_codes(rt: HostRuntime) -> Result<(), Fail> {
    let alloc = rt.alloc();
    let point = b"# a point\r\ncomch 1\r\nprime 2\r\ncomplex pt\r\nfacet 000\r\nend\r\n".as_slice();
    let cases: [(&[u8], &[u64], usize, u8, &str); 6] = [
        (b"", &[], 99, 3, "refused input 15 line 1\n"),
        (b"", &[], 3, 7, "ref"),
        (point, &[0], 99, 6, "refused read\n"),
        (point, &[0], 7, 7, "refused"),
        (point, &[], 5, 7, "comch"),
        (
            point,
            &[],
            99,
            0,
            "comch basis 1\nprime 2\ncomplex pt\ndegree 0 rank 1\nclass 1:0\nend\ndone\n",
        ),
    ];
    let words = words_of(alloc, "basis")?;
    for (input, failing, room, code, text) in cases {
        let mut source = MemSource::new(alloc, input, failing)?;
        let mut sink = MemSink::new(alloc, room, [].as_slice())?;
        let status = run(alloc, words.as_slice(), &mut source, &mut sink);
        assert_eq!(rt; status.code(), code);
        assert_eq!(rt; sink.text(), text.as_bytes());
    }
    Ok(())
}

#[test]
fn other_words_are_refused_unread(rt: HostRuntime) -> Result<(), Fail> {
    let alloc = rt.alloc();
    let lines = [
        "",
        "Basis",
        "basis extra",
        "basis 2",
        "basis -- 2 3",
        "basis --terms 5",
        "report 2",
        "certify 2 3",
        "report --terms",
        "report --terms 0",
        "report --terms x",
        "report --terms 1000000000001",
        "certify --terms 10000000000000",
        "certify --terms 00000000000001",
        "report --terms 5 --terms 5",
        "--help",
        "--version",
        "basis --help",
        "may 3",
        "may 7 2",
        "may 3 61",
        "may +3 2",
        "may 3 00000000000002",
        "may 3 2 --terms 5",
        "bockstein 2",
        "check 2",
        "check --terms 5",
        "sample 3",
        "sample 0 3",
        "sample 995 3",
        "sample 3 7",
    ];
    for line in lines {
        let words = words_of(alloc, line)?;
        let mut source = MemSource::new(alloc, b"comch", [].as_slice())?;
        let mut sink = MemSink::new(alloc, 99, [].as_slice())?;
        let status = run(alloc, words.as_slice(), &mut source, &mut sink);
        assert_eq!(rt; status.code(), 2, "{line}");
        assert_eq!(rt; sink.text(), b"refused words\n".as_slice());
        let mut piece = [0u8; 9];
        let left = source.read(&mut piece).expect(&rt, "a read");
        assert_eq!(rt; left, 5);
    }
    Ok(())
}

#[test]
fn elements_are_printed_unread(rt: HostRuntime) -> Result<(), Fail> {
    let alloc = rt.alloc();
    let cases: [(&str, u8, &str); 5] = [
        (
            "sample 994 2",
            0,
            "sample 994 2\nsimplices 1000 3000 2000\nranks 1 2 1\nterms 106009\ncheck yes\ndone\n",
        ),
        (
            "sample 494 3",
            0,
            "sample 494 3\nsimplices 500 1500 1000\nranks 1 2 1\nterms 43157\ncheck yes\ndone\n",
        ),
        (
            "may 3 2",
            0,
            "may 3 2\n1 : 1 2 3 1 2\n1 : 1 2 3 2 3\n1 : 1 3 1 2 3\ndone\n",
        ),
        ("may 2 03", 0, "may 2 3\n1 : 1 2 1 2 1\ndone\n"),
        ("may 5 16", 4, "refused terms 1892578125 limit 100000000\n"),
    ];
    for (line, code, text) in cases {
        let words = words_of(alloc, line)?;
        let mut source = MemSource::new(alloc, b"comch", [0].as_slice())?;
        let mut sink = MemSink::new(alloc, 99, [].as_slice())?;
        let status = run(alloc, words.as_slice(), &mut source, &mut sink);
        assert_eq!(rt; status.code(), code);
        assert_eq!(rt; sink.text(), text.as_bytes());
    }
    Ok(())
}

// The certificate of the circle, with a part of it put in the place of another.
#[test]
fn certificates_are_checked(rt: HostRuntime) -> Result<(), Fail> {
    let alloc = rt.alloc();
    let rows: [(&str, &str, u8, &str); 17] = [
        ("done;", "done;", 0, "yes\n"),
        ("below 1:1;", "below 1:0;", 0, "yes\n"),
        ("certificate", "report", 1, "no 0 line 1\n"),
        ("facet 0 1;", "facet 00 1;", 1, "no 0 line 4\n"),
        ("done;", "", 1, "no 0 line 35\n"),
        (
            "facet 1 2;",
            "facet 1 2 3 4 5 6 7 8 9 10 11 12 13 14 15 16 17;",
            1,
            "no 1 line 6\n",
        ),
        ("below 1:2;", "below 1:1;", 1, "no 2 line 11\n"),
        ("1:0 1:1 1:2;", "1:0;", 1, "no 3 line 8\n"),
        ("facet 1 2;", "", 1, "no 3 line 11\n"),
        ("class 1:1.2;", "class 1:0.1;", 1, "no 4 line 12\n"),
        (
            "rank 1;below 1:1;below 1:2;class 1:1.2;",
            "rank 0;below 1:1;below 1:2;",
            1,
            "no 5 line 9\n",
        ),
        ("product 1 0;", "product 1 1;", 1, "no 5 line 19\n"),
        ("prime 3;", "prime 2;", 1, "no 5 line 22\n"),
        ("prime 3;", "prime 5;", 0, "yes\n"),
        (
            "0 to 0;column 1 is 1;with 0;",
            "0 to 0;column 1 is 1;with 1:0;",
            1,
            "no 6 line 23\n",
        ),
        (
            "1 to 1;column 1 is 1;",
            "1 to 1;column 1 is 2;",
            1,
            "no 6 line 26\n",
        ),
        (
            "1 1 1 0 yes;with 0;",
            "1 1 1 0 yes;with 1:2;",
            1,
            "no 8 line 30\n",
        ),
    ];
    let words = words_of(alloc, "check")?;
    for (part, other, code, text) in rows {
        let altered = String::from_str(alloc, CIRCLE_CERTIFIED)?.replace(alloc, part, other)?;
        let input = spelled(alloc, altered.as_str())?;
        let mut source = MemSource::new(alloc, input.as_bytes(), [].as_slice())?;
        let mut sink = MemSink::new(alloc, 99, [].as_slice())?;
        let status = run(alloc, words.as_slice(), &mut source, &mut sink);
        assert_eq!(rt; status.code(), code, "{other}");
        assert_eq!(rt; sink.text(), text.as_bytes(), "{other}");
    }
    Ok(())
}

const POINT: &str = "comch 1\nprime 2\ncomplex pt\nfacet 0\nend\n";

const POINT_BASIS: &str =
    "comch basis 1\nprime 2\ncomplex pt\ndegree 0 rank 1\nclass 1:0\nend\ndone\n";

// The exit code and what was written, where one call gives or takes one byte and the calls with these numbers fail.
fn in_steps(
    alloc: Global,
    line: &str,
    input: &[u8],
    reads: &[u64],
    writes: &[u64],
) -> Result<(u8, MemSink), AllocError> {
    let words = words_of(alloc, line)?;
    let mut source = MemSource::in_steps(alloc, input, 1, reads)?;
    let mut sink = MemSink::in_steps(alloc, 99, 1, writes)?;
    let status = run(alloc, words.as_slice(), &mut source, &mut sink);
    Ok((status.code(), sink))
}

#[test]
fn each_call_may_fail(rt: HostRuntime) -> Result<(), Fail> {
    let alloc = rt.alloc();
    let input = POINT.as_bytes();
    let text = POINT_BASIS.as_bytes();
    let (code, sink) = in_steps(alloc, "basis", input, &[], &[])?;
    assert_eq!(rt; code, 0);
    assert_eq!(rt; sink.text(), text);
    for call in 0..input.len() + 1 {
        let (code, sink) = in_steps(alloc, "basis", input, [call as u64].as_slice(), &[])?;
        assert_eq!(rt; code, 6);
        assert_eq!(rt; sink.text(), b"refused read\n".as_slice());
    }
    for call in 0..text.len() {
        let (code, sink) = in_steps(alloc, "basis", input, &[], [call as u64].as_slice())?;
        assert_eq!(rt; code, 7);
        assert_eq!(rt; sink.text(), &text[..call]);
    }
    Ok(())
}

// A job ends behind its prime or behind a block, with or without a byte 10.
#[test]
fn only_whole_jobs_are_answered(rt: HostRuntime) -> Result<(), Fail> {
    let alloc = rt.alloc();
    let input = POINT.as_bytes();
    for end in 0..input.len() + 1 {
        let (code, _sink) = in_steps(alloc, "basis", &input[..end], &[], &[])?;
        let whole = [15, 16, 38, 39].contains(&end);
        assert_eq!(rt; code, if whole { 0 } else { 3 }, "{end}");
    }
    Ok(())
}

#[test]
fn only_whole_certificates_are_read(rt: HostRuntime) -> Result<(), Fail> {
    let alloc = rt.alloc();
    let text = spelled(alloc, CIRCLE_CERTIFIED)?;
    let bytes = text.as_bytes();
    for end in 0..bytes.len() {
        let front = &bytes[..end];
        let line = front.split(|b| *b == b'\n').count();
        let (code, sink) = in_steps(alloc, "check", front, &[], &[])?;
        let wanted = format!(in alloc; "no 0 line {line}\n")?;
        assert_eq!(rt; code, 1);
        assert_eq!(rt; sink.text(), wanted.as_bytes(), "{end}");
    }
    Ok(())
}

#[test]
fn a_long_input_is_refused(rt: HostRuntime) -> Result<(), Fail> {
    let alloc = rt.alloc();
    let input = vec![in alloc; b'#'; 1_048_577]?;
    let words = words_of(alloc, "basis")?;
    let mut source = MemSource::new(alloc, &input, [].as_slice())?;
    let mut sink = MemSink::new(alloc, 99, [].as_slice())?;
    let status = run(alloc, words.as_slice(), &mut source, &mut sink);
    assert_eq!(rt; status.code(), 3);
    assert_eq!(rt; sink.text(), b"refused input 1 line 0\n".as_slice());
    Ok(())
}
