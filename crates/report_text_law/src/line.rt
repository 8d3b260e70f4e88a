use comch_io::Listed;
use complex_file::Name;
use report::{Chain, OpWord};
use simplex_set::Simplex;

/// A line of a certificate.
#[derive(Drop)]
pub enum Line {
    Heading,
    Prime(u32),
    Complex(Name),
    Facet(Simplex),
    Degree {
        n: u32,
        rank: u32,
    },
    Below(Chain),
    Class(Chain),
    Product {
        a: u32,
        b: u32,
    },
    /// A column of a product.
    Pair {
        i: u32,
        j: u32,
        values: Listed<u32>,
    },
    With(Chain),
    Operation {
        word: OpWord,
        number: u32,
        from: u32,
        to: u32,
    },
    /// A column of an operation or of an induced block.
    Column {
        j: u32,
        values: Listed<u32>,
    },
    CartanYes {
        a: u32,
        i: u32,
        b: u32,
        j: u32,
        n: u32,
    },
    CartanNo {
        a: u32,
        i: u32,
        b: u32,
        j: u32,
        n: u32,
        value: u32,
    },
    Cycle(Chain),
    End,
    Map {
        name: Name,
        from: Name,
        to: Name,
    },
    Send {
        from: u32,
        to: u32,
    },
    Induced {
        q: u32,
    },
    Done,
}
