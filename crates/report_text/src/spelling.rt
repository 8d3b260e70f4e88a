ghost use Rattle.std.specs.Prelude.{◌≡◌, ◌++◌, OnOk};
ghost use Rattle.report.specs.declared.form.Form.TheVariants.{Certificate};
ghost use Rattle.report_text_law.specs.Names.{shown};

use crate::line::{
    add_below, add_class, add_column, add_cycle, add_degree, add_done, add_end, add_facet,
    add_heading, add_induced, add_map, add_name, add_no, add_operation, add_pair, add_prime,
    add_product, add_send, add_with, add_yes,
};
use comch_io::Bytes;
use report::{Form, Line as CartanLine};
use report_text_law::Line;
use std::alloc::{AllocError, Global};

/// Adds a line of a certificate at the end of a text, with its byte 10. It fails for want of memory alone.
pub fn spell(alloc: Global, text: &mut Bytes, line: &Line) -> Result<(), AllocError>
    ensures { OnOk result (text.new ≡ text.old ++ shown Certificate line.now) }
{
    let form = Form::Certificate;
    match line {
        Line::Heading => add_heading(text, form),
        Line::Prime(p) => add_prime(alloc, text, form, *p),
        Line::Complex(name) => add_name(text, form, name),
        Line::Facet(facet) => add_facet(alloc, text, form, facet),
        Line::Degree { n, rank } => add_degree(alloc, text, form, u64::from(*n), u64::from(*rank)),
        Line::Below(chain) => add_below(alloc, text, form, chain),
        Line::Class(chain) => add_class(alloc, text, form, chain),
        Line::Product { a, b } => add_product(alloc, text, form, *a, *b),
        Line::Pair { i, j, values } => add_pair(alloc, text, form, *i, *j, values.as_slice()),
        Line::With(chain) => add_with(alloc, text, form, chain),
        Line::Operation {
            word,
            number,
            from,
            to,
        } => add_operation(alloc, text, form, *word, *number, *from, *to),
        Line::Column { j, values } => {
            add_column(alloc, text, form, u64::from(*j), values.as_slice())
        }
        Line::CartanYes { a, i, b, j, n } => {
            let cartan = CartanLine {
                a: *a,
                i: *i,
                b: *b,
                j: *j,
                n: *n,
            };
            add_yes(alloc, text, form, cartan)
        }
        Line::CartanNo {
            a,
            i,
            b,
            j,
            n,
            value,
        } => {
            let cartan = CartanLine {
                a: *a,
                i: *i,
                b: *b,
                j: *j,
                n: *n,
            };
            add_no(alloc, text, form, cartan, *value)
        }
        Line::Cycle(chain) => add_cycle(alloc, text, form, chain),
        Line::End => add_end(text, form),
        Line::Map { name, from, to } => add_map(text, form, name, from, to),
        Line::Send { from, to } => add_send(alloc, text, form, *from, *to),
        Line::Induced { q } => add_induced(alloc, text, form, *q),
        Line::Done => add_done(text, form),
    }
}
