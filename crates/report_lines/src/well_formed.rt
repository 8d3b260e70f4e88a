ghost use Rattle.std.specs.{Prelude.{◌≡◌}, List.list_all};
ghost use Rattle.report_text_law.specs.Names.{are_values, ascends, is_chain, is_line, is_simplex, is_term, is_unit, is_vertex, terms_ascend};

use complex_file::is_name;
use fp_field::served;
use report::Term;
use report_text_law::Line;
use simplex_set::compare;

fn is_vertex(v: u32) -> bool
    ensures { result ≡ is_vertex v }
{
    v <= 999_999
}

fn are_vertices(vertices: &[u32]) -> bool
    ensures { result ≡ list_all is_vertex vertices.now }
{
    vertices.iter().all(|v| is_vertex(*v))
}

fn ascends(vertices: &[u32]) -> bool
    ensures { result ≡ ascends vertices.now }
{
    vertices.is_sorted_by(|v, w| v < w)
}

fn is_simplex(vertices: &[u32]) -> bool
    ensures { result ≡ is_simplex vertices.now }
{
    match vertices {
        [] => false,
        _ => are_vertices(vertices) && ascends(vertices),
    }
}

// Whether a coefficient is from 1 to p - 1.
fn is_unit(p: u32, c: u32) -> bool
    ensures { result ≡ is_unit p c }
{
    0 < c && c < p
}

fn is_term(p: u32, term: &Term) -> bool
    ensures { result ≡ is_term p term.now }
{
    is_unit(p, term.coefficient()) && is_simplex(term.vertices())
}

fn terms_ascend(terms: &[Term]) -> bool
    ensures { result ≡ terms_ascend terms.now }
{
    terms.is_sorted_by(|t, u| compare(t.vertices(), u.vertices()).is_lt())
}

fn are_terms(p: u32, terms: &[Term]) -> bool
    ensures { result ≡ list_all (is_term p) terms.now }
{
    terms.iter().all(|term| is_term(p, term))
}

fn is_chain(p: u32, terms: &[Term]) -> bool
    ensures { result ≡ is_chain p terms.now }
{
    are_terms(p, terms) && terms_ascend(terms)
}

fn are_values(p: u32, values: &[u32]) -> bool
    ensures { result ≡ are_values p values.now }
{
    values.iter().all(|v| *v < p)
}

/// Whether the line is well formed at the prime: names are names, simplices ascend strictly with vertices up to
/// 999,999, the terms of a chain ascend with coefficients from 1 to p - 1, the values of a column are below p, and the
/// number of a degree is below 2^32 - 1.
pub fn is_line(prime: u32, line: &Line) -> bool
    ensures { result ≡ is_line prime line.now }
{
    // A number with a name that begins with `_` is below 2^32 by its type, and no more is asked of it.
    match *line {
        Line::Heading | Line::End | Line::Done => true,
        Line::Prime(q) => served(q),
        Line::Complex(ref name) => is_name(name.bytes()),
        Line::Facet(ref facet) => is_simplex(facet.vertices()),
        Line::Degree { n, rank: _rank } => n < u32::MAX,
        Line::Below(ref chain)
        | Line::Class(ref chain)
        | Line::With(ref chain)
        | Line::Cycle(ref chain) => is_chain(prime, chain.as_slice()),
        Line::Product { a: _a, b: _b } => true,
        Line::Pair {
            i: _i,
            j: _j,
            ref values,
        } => are_values(prime, values.as_slice()),
        Line::Operation {
            number: _number,
            from: _from,
            to: _to,
            ..
        } => true,
        Line::Column { j: _j, ref values } => are_values(prime, values.as_slice()),
        Line::CartanYes {
            a: _a,
            i: _i,
            b: _b,
            j: _j,
            n: _n,
        } => true,
        Line::CartanNo {
            a: _a,
            i: _i,
            b: _b,
            j: _j,
            n: _n,
            value,
        } => is_unit(prime, value),
        Line::Map {
            ref name,
            ref from,
            ref to,
        } => is_name(name.bytes()) && is_name(from.bytes()) && is_name(to.bytes()),
        Line::Send { from, to } => is_vertex(from) && is_vertex(to),
        Line::Induced { q: _q } => true,
    }
}
