use report_lines::{is_line, line_of};
use std::alloc::{AllocError, Global};
use std::test::Fail;

const LINES: [&str; 20] = [
    "comch certificate 1",
    "prime 3",
    "complex pt",
    "facet 0 1 12",
    "degree 0 rank 1",
    "below 0",
    "class 1:7",
    "product 1 2",
    "column 1 2 is 0 1",
    "with 2:0.1 1:0.2",
    "operation bP 1 from 2 to 7",
    "column 1 is",
    "cartan 1 1 2 1 3 yes",
    "cartan 1 1 2 1 3 no 2",
    "cycle 1:0.1",
    "end",
    "map f a b",
    "send 7 999999",
    "induced 2",
    "done",
];

const OTHERS: [&str; 9] = [
    "",
    "prime 03",
    "prime 4294967296",
    "prime  3",
    "prime",
    "prime 3 ",
    "comch report 1",
    "with 1:0.1:2",
    "cartan 1 1 2 1 3 no",
];

// Whether the line that is read is well formed at 3; none where there is no line.
fn judged(alloc: Global, text: &str) -> Result<Option<bool>, AllocError> {
    match line_of(alloc, text.as_bytes())? {
        Some(line) => Ok(Some(is_line(3, &line))),
        None => Ok(None),
    }
}

#[test]
fn lines_are_read_back(rt: HostRuntime) -> Result<(), Fail> {
    for text in LINES {
        assert_eq!(rt; judged(rt.alloc(), text)?, Some(true), "{text}");
    }
    for text in OTHERS {
        assert_eq!(rt; judged(rt.alloc(), text)?, None, "{text}");
    }
    Ok(())
}
