//! The products, the operations and the Cartan lines of a complex.
ghost use Rattle.report_reader.specs.Names.{AreItems, IsItem, any, counted, cartans as cartans_of, columns as columns_of, operations as operations_of, pairs as pairs_of, products as products_of};

use crate::ReadRefused;
use crate::chain::{cycle, with_chain};
use crate::list::listed;
use crate::reader::Reader;
use comch_io::Listed;
use report::{CartanAnswer, CartanPart, Column, OperationPart, PairColumn, ProductPart};
use report_text_law::Line;
use std::alloc::Global;

fn pair(
    alloc: Global,
    prime: u32,
    reader: &mut Reader<'_>,
) -> Result<Option<PairColumn>, ReadRefused>
    ensures { IsItem (pairs_of prime) any reader.old reader.new result }
{
    let Some(line) = reader.take() else {
        return Ok(None);
    };
    match line {
        Line::Pair { i, j, values } => {
            reader.next_line(alloc, prime)?;
            let primitive = with_chain(alloc, prime, reader)?;
            Ok(Some(PairColumn {
                i,
                j,
                values,
                primitive,
            }))
        }
        other => {
            reader.put_back(other);
            Ok(None)
        }
    }
}

fn pairs(
    alloc: Global,
    prime: u32,
    reader: &mut Reader<'_>,
) -> Result<Listed<PairColumn>, ReadRefused>
    ensures { AreItems (pairs_of prime) reader.old reader.new result }
{
    listed(alloc, reader, |reader, _| pair(alloc, prime, reader))
}

fn product(
    alloc: Global,
    prime: u32,
    reader: &mut Reader<'_>,
) -> Result<Option<ProductPart>, ReadRefused>
    ensures { IsItem (products_of prime) any reader.old reader.new result }
{
    let Some(line) = reader.take() else {
        return Ok(None);
    };
    match line {
        Line::Product { a, b } => {
            reader.next_line(alloc, prime)?;
            let columns = pairs(alloc, prime, reader)?;
            Ok(Some(ProductPart { a, b, columns }))
        }
        other => {
            reader.put_back(other);
            Ok(None)
        }
    }
}

/// The products that stand next.
pub fn products(
    alloc: Global,
    prime: u32,
    reader: &mut Reader<'_>,
) -> Result<Listed<ProductPart>, ReadRefused>
    ensures { AreItems (products_of prime) reader.old reader.new result }
{
    listed(alloc, reader, |reader, _| product(alloc, prime, reader))
}

// The column with the number that is next after so many.
fn column(
    alloc: Global,
    prime: u32,
    reader: &mut Reader<'_>,
    count: usize,
) -> Result<Option<Column>, ReadRefused>
    ensures { IsItem (columns_of prime) (counted count) reader.old reader.new result }
{
    let Some(line) = reader.take() else {
        return Ok(None);
    };
    match line {
        Line::Column { j, values } => {
            if j == 0 || j as usize - 1 != count {
                return Err(reader.refused());
            }
            reader.next_line(alloc, prime)?;
            let primitive = with_chain(alloc, prime, reader)?;
            Ok(Some(Column { values, primitive }))
        }
        other => {
            reader.put_back(other);
            Ok(None)
        }
    }
}

/// The columns of an operation or of a map that stand next, numbered from 1.
pub fn columns(
    alloc: Global,
    prime: u32,
    reader: &mut Reader<'_>,
) -> Result<Listed<Column>, ReadRefused>
    ensures { AreItems (columns_of prime) reader.old reader.new result }
{
    listed(
        alloc,
        reader,
        |reader, count| column(alloc, prime, reader, count),
    )
}

fn operation(
    alloc: Global,
    prime: u32,
    reader: &mut Reader<'_>,
) -> Result<Option<OperationPart>, ReadRefused>
    ensures { IsItem (operations_of prime) any reader.old reader.new result }
{
    let Some(line) = reader.take() else {
        return Ok(None);
    };
    match line {
        Line::Operation {
            word,
            number,
            from,
            to,
        } => {
            reader.next_line(alloc, prime)?;
            let columns = columns(alloc, prime, reader)?;
            Ok(Some(OperationPart {
                word,
                number,
                from,
                to,
                columns,
            }))
        }
        other => {
            reader.put_back(other);
            Ok(None)
        }
    }
}

/// The operations that stand next.
pub fn operations(
    alloc: Global,
    prime: u32,
    reader: &mut Reader<'_>,
) -> Result<Listed<OperationPart>, ReadRefused>
    ensures { AreItems (operations_of prime) reader.old reader.new result }
{
    listed(alloc, reader, |reader, _| operation(alloc, prime, reader))
}

fn cartan(
    alloc: Global,
    prime: u32,
    reader: &mut Reader<'_>,
) -> Result<Option<CartanPart>, ReadRefused>
    ensures { IsItem (cartans_of prime) any reader.old reader.new result }
{
    let Some(line) = reader.take() else {
        return Ok(None);
    };
    match line {
        Line::CartanYes { a, i, b, j, n } => {
            reader.next_line(alloc, prime)?;
            let primitive = with_chain(alloc, prime, reader)?;
            let answer = CartanAnswer::Yes { primitive };
            Ok(Some(CartanPart {
                a,
                i,
                b,
                j,
                n,
                answer,
            }))
        }
        Line::CartanNo {
            a,
            i,
            b,
            j,
            n,
            value,
        } => {
            reader.next_line(alloc, prime)?;
            let cycle = cycle(alloc, prime, reader)?;
            let answer = CartanAnswer::No { value, cycle };
            Ok(Some(CartanPart {
                a,
                i,
                b,
                j,
                n,
                answer,
            }))
        }
        other => {
            reader.put_back(other);
            Ok(None)
        }
    }
}

/// The Cartan lines that stand next.
pub fn cartans(
    alloc: Global,
    prime: u32,
    reader: &mut Reader<'_>,
) -> Result<Listed<CartanPart>, ReadRefused>
    ensures { AreItems (cartans_of prime) reader.old reader.new result }
{
    listed(alloc, reader, |reader, _| cartan(alloc, prime, reader))
}
