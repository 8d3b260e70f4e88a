ghost use Rattle.std.specs.Prelude.{◌≡◌, ◌++◌, ◌∷◌, [], OnOk};
ghost use Rattle.report_text_law.specs.{Names.{shown, cartan_front}, declared.line.Line.TheVariants.{Heading as heading_line, Prime as prime_line, Complex as complex_line, Facet as facet_line, Below as below_line, Class as class_line, With as with_line, Column as column_line, CartanYes as cartan_yes, CartanNo as cartan_no, Cycle as cycle_line, End as end_line, Map as map_line, Send as send_line, Done as done_line, Degree as degree_line, Product as product_line, Pair as pair_line, Operation as operation_line, Induced as induced_line}};

use crate::form::{has_details, has_tables};
use crate::word::{add_chain, add_next, add_number, add_numbers, add_op};
use comch_io::Bytes;
use complex_file::Name;
use report::{Chain, Form, Line as CartanLine, OpWord};
use simplex_set::Simplex;
use std::alloc::{AllocError, Global};

pub fn add_heading(text: &mut Bytes, form: Form) -> Result<(), AllocError>
    ensures { OnOk result (text.new ≡ text.old ++ shown form heading_line) }
{
    match form {
        Form::Basis => text.extend(b"comch basis 1\n"),
        Form::Short => text.extend(b"comch report 1\n"),
        Form::Certificate => text.extend(b"comch certificate 1\n"),
    }
}

pub fn add_prime(alloc: Global, text: &mut Bytes, form: Form, p: u32) -> Result<(), AllocError>
    ensures { OnOk result (text.new ≡ text.old ++ shown form (prime_line p)) }
{
    text.extend(b"prime ")?;
    add_number(alloc, text, u64::from(p))?;
    text.push(b'\n')
}

pub fn add_name(text: &mut Bytes, form: Form, name: &Name) -> Result<(), AllocError>
    ensures { OnOk result (text.new ≡ text.old ++ shown form (complex_line name.now)) }
{
    text.extend(b"complex ")?;
    text.extend(name.bytes())?;
    text.push(b'\n')
}

pub fn add_facet(
    alloc: Global,
    text: &mut Bytes,
    form: Form,
    facet: &Simplex,
) -> Result<(), AllocError>
    ensures { OnOk result (text.new ≡ text.old ++ shown form (facet_line facet.now)) }
{
    if !has_details(form) {
        return Ok(());
    }
    text.extend(b"facet")?;
    add_numbers(alloc, text, b' ', facet.vertices())?;
    text.push(b'\n')
}

pub fn add_degree(
    alloc: Global,
    text: &mut Bytes,
    form: Form,
    n: u64,
    h: u64,
) -> Result<(), AllocError>
    ensures { OnOk result (text.new ≡ text.old ++ shown form (degree_line n h)) }
{
    text.extend(b"degree ")?;
    add_number(alloc, text, n)?;
    text.extend(b" rank ")?;
    add_number(alloc, text, h)?;
    text.push(b'\n')
}

pub fn add_below(
    alloc: Global,
    text: &mut Bytes,
    form: Form,
    chain: &Chain,
) -> Result<(), AllocError>
    ensures { OnOk result (text.new ≡ text.old ++ shown form (below_line chain.now)) }
{
    if !has_details(form) {
        return Ok(());
    }
    add_chain(alloc, text, b"below", chain)
}

pub fn add_class(
    alloc: Global,
    text: &mut Bytes,
    form: Form,
    chain: &Chain,
) -> Result<(), AllocError>
    ensures { OnOk result (text.new ≡ text.old ++ shown form (class_line chain.now)) }
{
    add_chain(alloc, text, b"class", chain)
}

pub fn add_with(
    alloc: Global,
    text: &mut Bytes,
    form: Form,
    chain: &Chain,
) -> Result<(), AllocError>
    ensures { OnOk result (text.new ≡ text.old ++ shown form (with_line chain.now)) }
{
    if !has_details(form) {
        return Ok(());
    }
    add_chain(alloc, text, b"with", chain)
}

pub fn add_cycle(
    alloc: Global,
    text: &mut Bytes,
    form: Form,
    chain: &Chain,
) -> Result<(), AllocError>
    ensures { OnOk result (text.new ≡ text.old ++ shown form (cycle_line chain.now)) }
{
    if !has_details(form) {
        return Ok(());
    }
    add_chain(alloc, text, b"cycle", chain)
}

pub fn add_product(
    alloc: Global,
    text: &mut Bytes,
    form: Form,
    a: u32,
    b: u32,
) -> Result<(), AllocError>
    ensures { OnOk result (text.new ≡ text.old ++ shown form (product_line a b)) }
{
    if !has_tables(form) {
        return Ok(());
    }
    text.extend(b"product")?;
    add_next(alloc, text, a)?;
    add_next(alloc, text, b)?;
    text.push(b'\n')
}

pub fn add_pair(
    alloc: Global,
    text: &mut Bytes,
    form: Form,
    i: u32,
    j: u32,
    values: &[u32],
) -> Result<(), AllocError>
    ensures { OnOk result (text.new ≡ text.old ++ shown form (pair_line i j values.now)) }
{
    if !has_tables(form) {
        return Ok(());
    }
    text.extend(b"column")?;
    add_next(alloc, text, i)?;
    add_next(alloc, text, j)?;
    text.extend(b" is")?;
    add_numbers(alloc, text, b' ', values)?;
    text.push(b'\n')
}

pub fn add_column(
    alloc: Global,
    text: &mut Bytes,
    form: Form,
    j: u64,
    values: &[u32],
) -> Result<(), AllocError>
    ensures { OnOk result (text.new ≡ text.old ++ shown form (column_line j values.now)) }
{
    if !has_tables(form) {
        return Ok(());
    }
    text.extend(b"column ")?;
    add_number(alloc, text, j)?;
    text.extend(b" is")?;
    add_numbers(alloc, text, b' ', values)?;
    text.push(b'\n')
}

pub fn add_operation(
    alloc: Global,
    text: &mut Bytes,
    form: Form,
    word: OpWord,
    k: u32,
    from: u32,
    to: u32,
) -> Result<(), AllocError>
    ensures { OnOk result (text.new ≡ text.old ++ shown form (operation_line word k from to)) }
{
    if !has_tables(form) {
        return Ok(());
    }
    text.extend(b"operation ")?;
    add_op(text, word)?;
    add_next(alloc, text, k)?;
    text.extend(b" from")?;
    add_next(alloc, text, from)?;
    text.extend(b" to")?;
    add_next(alloc, text, to)?;
    text.push(b'\n')
}

pub fn add_map(
    text: &mut Bytes,
    form: Form,
    name: &Name,
    from: &Name,
    to: &Name,
) -> Result<(), AllocError>
    ensures { OnOk result (text.new ≡ text.old ++ shown form (map_line name.now from.now to.now)) }
{
    text.extend(b"map ")?;
    text.extend(name.bytes())?;
    text.push(b' ')?;
    text.extend(from.bytes())?;
    text.push(b' ')?;
    text.extend(to.bytes())?;
    text.push(b'\n')
}

pub fn add_send(
    alloc: Global,
    text: &mut Bytes,
    form: Form,
    v: u32,
    w: u32,
) -> Result<(), AllocError>
    ensures { OnOk result (text.new ≡ text.old ++ shown form (send_line v w)) }
{
    if !has_details(form) {
        return Ok(());
    }
    text.extend(b"send")?;
    add_next(alloc, text, v)?;
    add_next(alloc, text, w)?;
    text.push(b'\n')
}

pub fn add_induced(alloc: Global, text: &mut Bytes, form: Form, q: u32) -> Result<(), AllocError>
    ensures { OnOk result (text.new ≡ text.old ++ shown form (induced_line q)) }
{
    if !has_tables(form) {
        return Ok(());
    }
    text.extend(b"induced")?;
    add_next(alloc, text, q)?;
    text.push(b'\n')
}

// The words of a Cartan line before its answer.
fn add_cartan(alloc: Global, text: &mut Bytes, line: CartanLine) -> Result<(), AllocError>
    ensures { OnOk result (text.new ≡ text.old ++ cartan_front line.a line.i line.b line.j line.n) }
{
    text.extend(b"cartan")?;
    add_next(alloc, text, line.a)?;
    add_next(alloc, text, line.i)?;
    add_next(alloc, text, line.b)?;
    add_next(alloc, text, line.j)?;
    add_next(alloc, text, line.n)
}

pub fn add_yes(
    alloc: Global,
    text: &mut Bytes,
    form: Form,
    line: CartanLine,
) -> Result<(), AllocError>
    ensures { OnOk result (text.new ≡ text.old ++ shown form (cartan_yes line.a line.i line.b line.j line.n)) }
{
    if !has_tables(form) {
        return Ok(());
    }
    add_cartan(alloc, text, line)?;
    text.extend(b" yes\n")
}

pub fn add_no(
    alloc: Global,
    text: &mut Bytes,
    form: Form,
    line: CartanLine,
    value: u32,
) -> Result<(), AllocError>
    ensures { OnOk result (text.new ≡ text.old ++ shown form (cartan_no line.a line.i line.b line.j line.n value)) }
{
    if !has_tables(form) {
        return Ok(());
    }
    add_cartan(alloc, text, line)?;
    text.extend(b" no")?;
    add_next(alloc, text, value)?;
    text.push(b'\n')
}

pub fn add_end(text: &mut Bytes, form: Form) -> Result<(), AllocError>
    ensures { OnOk result (text.new ≡ text.old ++ shown form end_line) }
{
    text.extend(b"end\n")
}

pub fn add_done(text: &mut Bytes, form: Form) -> Result<(), AllocError>
    ensures { OnOk result (text.new ≡ text.old ++ shown form done_line) }
{
    text.extend(b"done\n")
}
