use comch_io::Listed;

/// An operation: the square `Sq^k`, or, at an odd prime, the power `P^s` or the Bockstein power `bP^s`.
#[derive(Clone, Copy, Debug, PartialEq, Eq)]
pub enum Op {
    Square { k: u32 },
    Power { s: u32 },
    BocksteinPower { s: u32 },
}

/// The products of the classes of degree a with those of degree b.
#[derive(Clone, Copy, Debug, PartialEq, Eq)]
pub struct Product {
    pub a: u32,
    pub b: u32,
}

/// An operation on the classes of one degree, with its target degree.
#[derive(Clone, Copy, Debug, PartialEq, Eq)]
pub struct Block {
    pub op: Op,
    pub from: u32,
    pub to: u32,
}

/// The operation n on the product of class i of degree a and class j of degree b. Classes are numbered from 1.
#[derive(Clone, Copy, Debug, PartialEq, Eq)]
pub struct Line {
    pub a: u32,
    pub i: u32,
    pub b: u32,
    pub j: u32,
    pub n: u32,
}

/// One number for each degree from 0 on.
pub type Ranks = Listed<u32>;

/// How many simplices a complex has in each degree from 0 on, and the ranks of its cohomology.
#[derive(Debug, Drop)]
pub struct Sizes {
    pub simplices: Ranks,
    pub ranks: Ranks,
}
