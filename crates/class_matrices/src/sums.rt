ghost use Rattle.std.specs.Prelude.{◌≡◌, ◌*◌, ◌<◌, length, map, IfOk, IsTrue};
ghost use Rattle.fp_field.specs.Served.{served};
ghost use Rattle.linear_law.specs.Names.{Each, copies, plus_scaled as plus_scaled_of};
ghost use Rattle.steenrod_law.specs.Names.{coefficient_products};
ghost use Rattle.op_matrix.specs.Columns.{values_of};
ghost use Rattle.class_matrices.specs.Names.{Fits, sum_onto, unit_coordinates};

use cohomology::Column;
use fp_field::Fp;
use std::alloc::{AllocError, Global};

/// As many zeros.
pub(crate) fn zeros<const P: u32>(alloc: Global, count: u32) -> Result<Vec<Fp<P>>, AllocError>
    requires { IsTrue (served P) }
    ensures { IfOk result (λ v. v.items ≡ copies count 0) }
{
    let mut values = Vec::new(alloc);
    for _ in 0..count {
        values.push(Fp::new(0))?;
    }
    Ok(values)
}

/// A one at a place among zeros.
pub(crate) fn unit<const P: u32>(
    alloc: Global,
    count: u32,
    place: u32,
) -> Result<Vec<Fp<P>>, AllocError>
    requires { IsTrue (served P) }
    ensures { IfOk result (λ v. v.items ≡ unit_coordinates count place) }
{
    let mut values = Vec::new(alloc);
    for k in 0..count {
        values.push(Fp::new(u64::from(k == place)))?;
    }
    Ok(values)
}

/// A number times the first list, plus the second, place by place.
pub(crate) fn plus_scaled<const P: u32>(
    alloc: Global,
    by: Fp<P>,
    first: &[Fp<P>],
    second: &[Fp<P>],
) -> Result<Vec<Fp<P>>, AllocError>
    requires { IsTrue (served P) }
    ensures { IfOk result (λ v. v.items ≡ plus_scaled_of P by.entry first.now second.now) }
{
    let mut sum = Vec::new(alloc);
    for (x, y) in first.iter().zip(second) {
        sum.push(by.mul(*x).add(*y))?;
    }
    Ok(sum)
}

/// A sum with a number times a column more.
fn with_column<const P: u32>(
    alloc: Global,
    by: Fp<P>,
    column: &Column<P>,
    sum: Vec<Fp<P>>,
) -> Result<Vec<Fp<P>>, AllocError>
    requires { IsTrue (served P) }
    ensures { IfOk result (λ v. length column.now.values.items ≡ length sum.entry.items → Each (λ x. x < P) sum.entry.items → v.items ≡ plus_scaled_of P by.entry column.now.values.items sum.entry.items) }
{
    if by.is_zero() {
        return Ok(sum);
    }
    plus_scaled(alloc, by, &column.values, &sum)
}

/// A sum with more columns, each times the number and its coefficient. Each has as many values as the sum.
pub(crate) fn with_columns<const P: u32>(
    alloc: Global,
    by: Fp<P>,
    columns: &[Column<P>],
    coefficients: &[Fp<P>],
    mut sum: Vec<Fp<P>>,
) -> Result<Vec<Fp<P>>, AllocError>
    requires { IsTrue (served P) }
    ensures { IfOk result (λ v. Fits P (values_of columns.now) sum.entry.items → v.items ≡ sum_onto P sum.entry.items (values_of columns.now) (map (λ c. by.entry * c) coefficients.now)) }
{
    if by.is_zero() {
        return Ok(sum);
    }
    for (column, coefficient) in columns.iter().zip(coefficients) {
        sum = with_column(alloc, by.mul(*coefficient), column, sum)?;
    }
    Ok(sum)
}

/// A sum with more columns, each times its product of a first and a second coefficient, by the first and then the second. Each
/// has as many values as the sum.
pub(crate) fn with_products<const P: u32>(
    alloc: Global,
    columns: &[Column<P>],
    first: &[Fp<P>],
    second: &[Fp<P>],
    mut sum: Vec<Fp<P>>,
) -> Result<Vec<Fp<P>>, AllocError>
    requires { IsTrue (served P) }
    ensures { IfOk result (λ v. Fits P (values_of columns.now) sum.entry.items → v.items ≡ sum_onto P sum.entry.items (values_of columns.now) (coefficient_products first.now second.now)) }
{
    let mut rest = columns;
    for by in first {
        let (row, others) = rest.split_at(second.len().min(rest.len()));
        sum = with_columns(alloc, *by, row, second, sum)?;
        rest = others;
    }
    Ok(sum)
}
