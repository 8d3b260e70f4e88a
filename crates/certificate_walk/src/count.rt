//! How many lines the sections of a certificate have.
ghost use Rattle.std.specs.Prelude.{◌≡◌, ◌+◌, ◌*◌, ◌<◌, ◌^◌, length, sum_by};
ghost use Rattle.certificate_walk.specs.Names.{complex_lines as complex_lines_of, degree_lines as degree_lines_of, induced_lines as induced_lines_of, map_lines as map_lines_of, matrix_lines as matrix_lines_of, operation_lines, product_lines};

use report::{ComplexPart, DegreePart, InducedPart, MapPart, OperationPart, ProductPart};

/// The lines of a degree: its own, those under `below`, and those of its classes.
pub fn degree_lines(degree: &DegreePart) -> u64
    requires { degree_lines_of degree.now < 2 ^ 64 }
    ensures { result ≡ degree_lines_of degree.now }
{
    degree.below.len() as u64 + degree.classes.len() as u64 + 1
}

/// The lines of a block with this many columns: its own, and two for each column.
pub fn matrix_lines(columns: usize) -> u64
    requires { matrix_lines_of columns < 2 ^ 64 }
    ensures { result ≡ matrix_lines_of columns }
{
    2 * columns as u64 + 1
}

/// The lines of degrees.
pub fn degrees_lines(degrees: &[DegreePart]) -> u64
    requires { sum_by degree_lines_of degrees.now < 2 ^ 64 }
    ensures { result ≡ sum_by degree_lines_of degrees.now }
{
    let mut lines = 0;
    for degree in degrees {
        lines += degree_lines(degree);
    }
    lines
}

/// The lines of products.
pub fn products_lines(products: &[ProductPart]) -> u64
    requires { sum_by product_lines products.now < 2 ^ 64 }
    ensures { result ≡ sum_by product_lines products.now }
{
    let mut lines = 0;
    for product in products {
        lines += matrix_lines(product.columns.len());
    }
    lines
}

/// The lines of operation blocks.
pub fn operations_lines(operations: &[OperationPart]) -> u64
    requires { sum_by operation_lines operations.now < 2 ^ 64 }
    ensures { result ≡ sum_by operation_lines operations.now }
{
    let mut lines = 0;
    for operation in operations {
        lines += matrix_lines(operation.columns.len());
    }
    lines
}

/// The lines of induced blocks.
pub fn induced_lines(blocks: &[InducedPart]) -> u64
    requires { sum_by induced_lines_of blocks.now < 2 ^ 64 }
    ensures { result ≡ sum_by induced_lines_of blocks.now }
{
    let mut lines = 0;
    for block in blocks {
        lines += matrix_lines(block.columns.len());
    }
    lines
}

/// The lines of a complex.
pub fn complex_lines(part: &ComplexPart) -> u64
    requires { complex_lines_of part.now < 2 ^ 64 }
    ensures { result ≡ complex_lines_of part.now }
{
    let listed = part.facets.len() as u64 + degrees_lines(part.degrees.as_slice());
    let blocks = products_lines(part.products.as_slice())
        + operations_lines(part.operations.as_slice());
    listed + blocks + 2 * part.cartans.len() as u64 + 2
}

/// The lines of complexes.
pub fn complexes_lines(parts: &[ComplexPart]) -> u64
    requires { sum_by complex_lines_of parts.now < 2 ^ 64 }
    ensures { result ≡ sum_by complex_lines_of parts.now }
{
    let mut lines = 0;
    for part in parts {
        lines += complex_lines(part);
    }
    lines
}

/// The lines of a map.
pub fn map_lines(part: &MapPart) -> u64
    requires { map_lines_of part.now < 2 ^ 64 }
    ensures { result ≡ map_lines_of part.now }
{
    part.sends.len() as u64 + induced_lines(part.induced.as_slice()) + 2
}
