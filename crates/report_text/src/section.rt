ghost use Rattle.std.specs.Prelude.{◌≡◌, ◌++◌, ◌∷◌, [], OnOk, map, flat_map};
ghost use Rattle.report_text_law.specs.{Names.{columns_from, degree_lines, degrees_from, pair_lines, product_lines, operation_lines, cartan_lines, complex_lines, table_lines, send_of, induced_lines, map_lines, printed}, declared.line.Line.TheVariants.{Facet as facet_line, Below as below_line, Class as class_line}};

use crate::line::{
    add_below, add_class, add_column, add_cycle, add_degree, add_end, add_facet, add_induced,
    add_map, add_name, add_no, add_operation, add_pair, add_product, add_send, add_with, add_yes,
};
use comch_io::Bytes;
use complex_file::Sent;
use report::{
    CartanAnswer, CartanPart, Chain, Column, ComplexPart, DegreePart, Form, InducedPart,
    Line as CartanLine, MapPart, OperationPart, PairColumn, ProductPart,
};
use simplex_set::Simplex;
use std::alloc::{AllocError, Global};

#[tactic(auto, using(crate::proofs::Flat::flat_more_map))]
fn add_facets(
    alloc: Global,
    text: &mut Bytes,
    form: Form,
    facets: &[Simplex],
) -> Result<(), AllocError>
    ensures { OnOk result (text.new ≡ text.old ++ printed form (map facet_line facets.now)) }
{
    for facet in facets {
        add_facet(alloc, text, form, facet)?;
    }
    Ok(())
}

#[tactic(auto, using(crate::proofs::Flat::flat_more_map))]
fn add_belows(
    alloc: Global,
    text: &mut Bytes,
    form: Form,
    chains: &[Chain],
) -> Result<(), AllocError>
    ensures { OnOk result (text.new ≡ text.old ++ printed form (map below_line chains.now)) }
{
    for chain in chains {
        add_below(alloc, text, form, chain)?;
    }
    Ok(())
}

#[tactic(auto, using(crate::proofs::Flat::flat_more_map))]
fn add_classes(
    alloc: Global,
    text: &mut Bytes,
    form: Form,
    chains: &[Chain],
) -> Result<(), AllocError>
    ensures { OnOk result (text.new ≡ text.old ++ printed form (map class_line chains.now)) }
{
    for chain in chains {
        add_class(alloc, text, form, chain)?;
    }
    Ok(())
}

#[tactic(auto, using(crate::proofs::Flat::flat_map_two))]
fn add_one_degree(
    alloc: Global,
    text: &mut Bytes,
    form: Form,
    n: u64,
    part: &DegreePart,
) -> Result<(), AllocError>
    ensures { OnOk result (text.new ≡ text.old ++ printed form (degree_lines n part.now)) }
{
    add_degree(alloc, text, form, n, part.classes.len() as u64)?;
    add_belows(alloc, text, form, part.below.as_slice())?;
    add_classes(alloc, text, form, part.classes.as_slice())
}

#[tactic(auto, using(crate::proofs::Flat::degrees_more))]
fn add_degrees(
    alloc: Global,
    text: &mut Bytes,
    form: Form,
    parts: &[DegreePart],
) -> Result<(), AllocError>
    ensures { OnOk result (text.new ≡ text.old ++ printed form (degrees_from 0 parts.now)) }
{
    for (n, part) in parts.iter().enumerate() {
        add_one_degree(alloc, text, form, n as u64, part)?;
    }
    Ok(())
}

#[tactic(auto, using(crate::proofs::Flat::columns_more))]
fn add_columns(
    alloc: Global,
    text: &mut Bytes,
    form: Form,
    columns: &[Column],
) -> Result<(), AllocError>
    ensures { OnOk result (text.new ≡ text.old ++ printed form (columns_from 1 columns.now)) }
{
    for (at, column) in columns.iter().enumerate() {
        add_column(alloc, text, form, at as u64 + 1, column.values.as_slice())?;
        add_with(alloc, text, form, &column.primitive)?;
    }
    Ok(())
}

#[tactic(auto, using(crate::proofs::Flat::flat_more_flat))]
fn add_pairs(
    alloc: Global,
    text: &mut Bytes,
    form: Form,
    columns: &[PairColumn],
) -> Result<(), AllocError>
    ensures { OnOk result (text.new ≡ text.old ++ printed form (flat_map pair_lines columns.now)) }
{
    for column in columns {
        add_pair(
            alloc,
            text,
            form,
            column.i,
            column.j,
            column.values.as_slice(),
        )?;
        add_with(alloc, text, form, &column.primitive)?;
    }
    Ok(())
}

#[tactic(auto, using(crate::proofs::Flat::flat_more_flat))]
fn add_products(
    alloc: Global,
    text: &mut Bytes,
    form: Form,
    parts: &[ProductPart],
) -> Result<(), AllocError>
    ensures { OnOk result (text.new ≡ text.old ++ printed form (flat_map product_lines parts.now)) }
{
    for part in parts {
        add_product(alloc, text, form, part.a, part.b)?;
        add_pairs(alloc, text, form, part.columns.as_slice())?;
    }
    Ok(())
}

#[tactic(auto, using(crate::proofs::Flat::flat_more_flat))]
fn add_operations(
    alloc: Global,
    text: &mut Bytes,
    form: Form,
    parts: &[OperationPart],
) -> Result<(), AllocError>
    ensures { OnOk result (text.new ≡ text.old ++ printed form (flat_map operation_lines parts.now)) }
{
    for part in parts {
        add_operation(
            alloc,
            text,
            form,
            part.word,
            part.number,
            part.from,
            part.to,
        )?;
        add_columns(alloc, text, form, part.columns.as_slice())?;
    }
    Ok(())
}

fn add_verdict(
    alloc: Global,
    text: &mut Bytes,
    form: Form,
    part: &CartanPart,
) -> Result<(), AllocError>
    ensures { OnOk result (text.new ≡ text.old ++ printed form (cartan_lines part.now)) }
{
    let line = CartanLine {
        a: part.a,
        i: part.i,
        b: part.b,
        j: part.j,
        n: part.n,
    };
    match &part.answer {
        CartanAnswer::Yes { primitive } => {
            add_yes(alloc, text, form, line)?;
            add_with(alloc, text, form, primitive)
        }
        CartanAnswer::No { value, cycle } => {
            add_no(alloc, text, form, line, *value)?;
            add_cycle(alloc, text, form, cycle)
        }
    }
}

#[tactic(auto, using(crate::proofs::Flat::flat_more_flat))]
fn add_verdicts(
    alloc: Global,
    text: &mut Bytes,
    form: Form,
    parts: &[CartanPart],
) -> Result<(), AllocError>
    ensures { OnOk result (text.new ≡ text.old ++ printed form (flat_map cartan_lines parts.now)) }
{
    for part in parts {
        add_verdict(alloc, text, form, part)?;
    }
    Ok(())
}

// The tables of a complex, and its end.
#[tactic(auto, using(crate::proofs::Flat::flat_map_two))]
fn add_tables(
    alloc: Global,
    text: &mut Bytes,
    form: Form,
    part: &ComplexPart,
) -> Result<(), AllocError>
    ensures { OnOk result (text.new ≡ text.old ++ printed form (table_lines part.now)) }
{
    add_products(alloc, text, form, part.products.as_slice())?;
    add_operations(alloc, text, form, part.operations.as_slice())?;
    add_verdicts(alloc, text, form, part.cartans.as_slice())?;
    add_end(text, form)
}

#[tactic(auto, using(crate::proofs::Flat::flat_map_two))]
fn add_complex(
    alloc: Global,
    text: &mut Bytes,
    form: Form,
    part: &ComplexPart,
) -> Result<(), AllocError>
    ensures { OnOk result (text.new ≡ text.old ++ printed form (complex_lines part.now)) }
{
    add_name(text, form, &part.name)?;
    add_facets(alloc, text, form, part.facets.as_slice())?;
    add_degrees(alloc, text, form, part.degrees.as_slice())?;
    add_tables(alloc, text, form, part)
}

#[tactic(auto, using(crate::proofs::Flat::flat_more_flat))]
pub fn add_complexes(
    alloc: Global,
    text: &mut Bytes,
    form: Form,
    parts: &[ComplexPart],
) -> Result<(), AllocError>
    ensures { OnOk result (text.new ≡ text.old ++ printed form (flat_map complex_lines parts.now)) }
{
    for part in parts {
        add_complex(alloc, text, form, part)?;
    }
    Ok(())
}

#[tactic(auto, using(crate::proofs::Flat::flat_more_map))]
fn add_sends(alloc: Global, text: &mut Bytes, form: Form, sends: &[Sent]) -> Result<(), AllocError>
    ensures { OnOk result (text.new ≡ text.old ++ printed form (map send_of sends.now)) }
{
    for sent in sends {
        add_send(alloc, text, form, sent.from, sent.to)?;
    }
    Ok(())
}

#[tactic(auto, using(crate::proofs::Flat::flat_more_flat))]
fn add_induceds(
    alloc: Global,
    text: &mut Bytes,
    form: Form,
    parts: &[InducedPart],
) -> Result<(), AllocError>
    ensures { OnOk result (text.new ≡ text.old ++ printed form (flat_map induced_lines parts.now)) }
{
    for part in parts {
        add_induced(alloc, text, form, part.q)?;
        add_columns(alloc, text, form, part.columns.as_slice())?;
    }
    Ok(())
}

#[tactic(auto, using(crate::proofs::Flat::flat_map_two))]
fn add_one_map(
    alloc: Global,
    text: &mut Bytes,
    form: Form,
    part: &MapPart,
) -> Result<(), AllocError>
    ensures { OnOk result (text.new ≡ text.old ++ printed form (map_lines part.now)) }
{
    add_map(text, form, &part.name, &part.from, &part.to)?;
    add_sends(alloc, text, form, part.sends.as_slice())?;
    add_induceds(alloc, text, form, part.induced.as_slice())?;
    add_end(text, form)
}

#[tactic(auto, using(crate::proofs::Flat::flat_more_flat))]
pub fn add_maps(
    alloc: Global,
    text: &mut Bytes,
    form: Form,
    parts: &[MapPart],
) -> Result<(), AllocError>
    ensures { OnOk result (text.new ≡ text.old ++ printed form (flat_map map_lines parts.now)) }
{
    for part in parts {
        add_one_map(alloc, text, form, part)?;
    }
    Ok(())
}
