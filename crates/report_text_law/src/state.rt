use comch_io::Listed;
use complex_file::{Name, Sent};
use report::{
    CartanPart, Chain, ComplexPart, DegreePart, InducedPart, MapPart, OperationPart, ProductPart,
};
use simplex_set::Simplex;

/// A complex that is read to the end of its facets.
#[derive(Drop)]
pub struct ComplexHead {
    pub name: Name,
    pub facets: Listed<Simplex>,
}

/// A complex that is read to the end of its degrees.
#[derive(Drop)]
pub struct Graded {
    pub block: ComplexHead,
    pub degrees: Listed<DegreePart>,
}

/// A complex that is read to the end of its products.
#[derive(Drop)]
pub struct Multiplied {
    pub graded: Graded,
    pub products: Listed<ProductPart>,
}

/// A complex that is read to the end of its operations.
#[derive(Drop)]
pub struct Operated {
    pub multiplied: Multiplied,
    pub operations: Listed<OperationPart>,
}

/// A complex that is read to the end of its Cartan lines.
#[derive(Drop)]
pub struct Judged {
    pub operated: Operated,
    pub cartans: Listed<CartanPart>,
}

/// Which line of a complex was read last: a facet; a line of a degree of which so many classes are still to come; the
/// first line of a product or a chain under it; a column of it; the same of an operation; a Cartan yes; a Cartan no; or
/// the chain under one of them.
#[derive(Drop)]
pub enum ComplexStage {
    Facets(ComplexHead),
    Degree(Graded, u32, Listed<Chain>, Listed<Chain>),
    Product(Multiplied, ProductPart),
    Pair(Multiplied, ProductPart, u32, u32, Listed<u32>),
    Operation(Operated, OperationPart),
    Values(Operated, OperationPart, Listed<u32>),
    Yes(Judged, u32, u32, u32, u32, u32),
    No(Judged, u32, u32, u32, u32, u32, u32),
    Cartans(Judged),
}

/// A map that is read to the end of its sends.
#[derive(Drop)]
pub struct MapHead {
    pub name: Name,
    pub from: Name,
    pub to: Name,
    pub sends: Listed<Sent>,
}

/// A map that is read to the end of its blocks.
#[derive(Drop)]
pub struct Mapped {
    pub head: MapHead,
    pub induced: Listed<InducedPart>,
}

/// Which line of a map was read last: a send; the first line of a block or a chain under it; or a column of it.
#[derive(Drop)]
pub enum MapStage {
    Sends(MapHead),
    Induced(Mapped, InducedPart),
    InducedValues(Mapped, InducedPart, Listed<u32>),
}

/// The prime, and the complexes that are read.
#[derive(Drop)]
pub struct Finding {
    pub prime: u32,
    pub complexes: Listed<ComplexPart>,
}

/// What was read.
#[derive(Drop)]
pub enum State {
    AtStart,
    AtPrime,
    Between(Finding),
    InComplex(Finding, ComplexStage),
    BetweenMaps(Finding, Listed<MapPart>),
    InMap(Finding, Listed<MapPart>, MapStage),
    Finished(Finding, Listed<MapPart>),
}
