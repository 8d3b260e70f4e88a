use comch_io::Bytes;
use report_reader::{ReadRefused, read_report};
use report_text::{Form, print};
use std::alloc::{AllocError, Global};
use std::test::Fail;

// The certificate of a circle at the prime 3.
const CIRCLE: [&str; 35] = [
    "comch certificate 1",
    "prime 3",
    "complex circle",
    "facet 0 1",
    "facet 0 2",
    "facet 1 2",
    "degree 0 rank 1",
    "class 1:0 1:1 1:2",
    "degree 1 rank 1",
    "below 1:1",
    "below 1:2",
    "class 1:1.2",
    "product 0 0",
    "column 1 1 is 1",
    "with 0",
    "product 0 1",
    "column 1 1 is 1",
    "with 0",
    "product 1 0",
    "column 1 1 is 1",
    "with 0",
    "operation P 0 from 0 to 0",
    "column 1 is 1",
    "with 0",
    "operation P 0 from 1 to 1",
    "column 1 is 1",
    "with 0",
    "cartan 0 1 0 1 0 yes",
    "with 0",
    "cartan 0 1 1 1 0 yes",
    "with 0",
    "cartan 1 1 0 1 0 yes",
    "with 0",
    "end",
    "done",
];

// The circle's certificate with another text in place of one line, counted from 1, and of its byte 10.
fn changed(alloc: Global, number: usize, other: &str) -> Result<Bytes, AllocError> {
    let mut text = Bytes::new(alloc);
    for (i, line) in CIRCLE.iter().enumerate() {
        if i + 1 == number {
            text.extend(other.as_bytes())?;
        } else {
            text.extend(line.as_bytes())?;
            text.push(b'\n')?;
        }
    }
    Ok(text)
}

#[test]
fn certificates_are_printed_again(rt: HostRuntime) -> Result<(), Fail> {
    let alloc = rt.alloc();
    let cases = [
        (35, "done\n"),
        (4, "facet 0 1\nfacet 0 1\n"),
        (31, "with 1:2\n"),
        (
            30,
            "cartan 0 1 1 1 0 no 2\ncycle 1:0.1\ncartan 1 1 1 1 0 yes\n",
        ),
        (
            35,
            "map f circle circle\nsend 0 0\ninduced 1\ncolumn 1 is 1\nwith 0\nend\ndone\n",
        ),
    ];
    for (number, other) in cases {
        let text = changed(alloc, number, other)?;
        let report = read_report(alloc, text.as_slice())?;
        let again = print(alloc, &report, Form::Certificate)?;
        assert_eq!(rt; again.as_slice(), text.as_slice());
    }
    Ok(())
}

#[test]
fn a_point_is_printed_in_three_forms(rt: HostRuntime) -> Result<(), Fail> {
    let alloc = rt.alloc();
    let text =
        "comch certificate 1\nprime 3\ncomplex pt\nfacet 7\ndegree 0 rank 1\nclass 1:7\nend\ndone\n";
    let report = read_report(alloc, text.as_bytes())?;
    let cases = [
        (Form::Certificate, text),
        (
            Form::Short,
            "comch report 1\nprime 3\ncomplex pt\ndegree 0 rank 1\nclass 1:7\nend\ndone\n",
        ),
        (
            Form::Basis,
            "comch basis 1\nprime 3\ncomplex pt\ndegree 0 rank 1\nclass 1:7\nend\ndone\n",
        ),
    ];
    for (form, wanted) in cases {
        let text = print(alloc, &report, form)?;
        assert_eq!(rt; text.as_slice(), wanted.as_bytes());
    }
    Ok(())
}

#[test]
fn other_texts_are_refused_at_a_line(rt: HostRuntime) -> Result<(), Fail> {
    let alloc = rt.alloc();
    let cases = [
        (1, "comch report 1\n", 1),
        (2, "prime 03\n", 2),
        (2, "prime 7\n", 2),
        (2, "prime 3\nprime 3\n", 3),
        (4, "facet 00 1\n", 4),
        (7, "degree  0 rank 1\n", 7),
        (7, "degree 1 rank 1\n", 7),
        (7, "degree 0 rank 2\n", 9),
        (8, "class 3:0\n", 8),
        (8, "class 1:0\nclass 1:0\n", 9),
        (10, "class 1:1\n", 11),
        (26, "column 2 is 1\n", 26),
        (29, "cycle 0\n", 29),
        (35, "", 35),
        (35, "done", 35),
        (35, "done\n\n", 36),
        (35, "done\nend", 36),
    ];
    for (number, other, wanted) in cases {
        let text = changed(alloc, number, other)?;
        match read_report(alloc, text.as_slice()) {
            Err(ReadRefused::ReportRefused { line }) => assert_eq!(rt; line, wanted, "{other}"),
            _ => panic!(rt; "{other}"),
        }
    }
    Ok(())
}
