ghost use Rattle.std.specs.Prelude.{◌≡◌, Ok, option_map};
ghost use Rattle.complex_file.specs.Names.{Gives, after, after_complex, after_map, after_map_end, after_prime, at_start, between, complex_seen, line_seen, map_seen, place_seen, with_complex, with_vertices};
ghost use Rattle.complex_file.specs.declared.place.Place.TheVariants.{InComplex, InMap};

use crate::blocks::Blocks;
use crate::complexes::{add_facet, facet_of};
use crate::fault::LineFault;
use crate::line::Line;
use crate::place::{Place, Reader};
use crate::sends::Sends;
use crate::{ComplexBlock, InputKind, MapBlock, Name};
use simplex_set::OpenComplex;
use std::alloc::Global;
use std::mem;

// Adds the facet with these vertices, or gives the fault of its line.
fn read_facet(
    alloc: Global,
    complex: &mut OpenComplex,
    vertices: Option<Vec<u32>>,
) -> Result<(), LineFault>
    ensures { Gives (λ _. complex.new) result (with_vertices complex.old (option_map (λ v. v.items) vertices)) }
{
    let facet = facet_of(alloc, vertices)?;
    add_facet(alloc, complex, facet)
}

impl Reader {
    /// Nothing is read yet.
    pub fn new(alloc: Global) -> Reader
        ensures { place_seen result ≡ at_start }
    {
        Reader {
            place: Place::AtStart,
            blocks: Blocks::new(alloc, 0),
            name: Name::empty(alloc),
            complex: OpenComplex::new(alloc),
            sends: Sends::new(alloc),
        }
    }

    fn read_prime(&mut self, alloc: Global, number: Option<u32>) -> Result<(), LineFault>
        ensures { Gives (λ _. place_seen self.new) result (after_prime number) }
    {
        match number {
            None => Err(LineFault::Kind(InputKind::BadNumber)),
            Some(prime) if fp_field::served(prime) => {
                self.place = Place::Between;
                self.blocks = Blocks::new(alloc, prime);
                Ok(())
            }
            Some(_) => Err(LineFault::Kind(InputKind::OtherPrime)),
        }
    }

    fn open_complex(&mut self, alloc: Global, name: &[u8]) -> Result<(), LineFault>
        ensures { Gives (λ _. place_seen self.new) result (after_complex self.old.blocks name.now) }
    {
        if self.blocks.complexes.len() >= 8 {
            return Err(LineFault::Kind(InputKind::TooManyBlocks));
        }
        if self.blocks.has_name(name) {
            return Err(LineFault::Kind(InputKind::RepeatedName));
        }
        self.name = Name::new(alloc, name)?;
        self.complex = OpenComplex::new(alloc);
        self.place = Place::InComplex;
        Ok(())
    }

    fn end_complex(&mut self, alloc: Global) -> Result<(), LineFault>
        requires { self.old.place ≡ InComplex }
        ensures { Gives (λ _. place_seen self.new) result (Ok (between (with_complex self.old.blocks (complex_seen self.old)))) }
    {
        self.place = Place::Between;
        let complex = mem::replace(&mut self.complex, OpenComplex::new(alloc));
        let facets = complex.into_complex(alloc)?;
        let name = mem::replace(&mut self.name, Name::empty(alloc));
        self.blocks.add_complex(ComplexBlock { name, facets })?;
        Ok(())
    }

    fn open_map(
        &mut self,
        alloc: Global,
        name: &[u8],
        from: &[u8],
        to: &[u8],
    ) -> Result<(), LineFault>
        ensures { Gives (λ _. place_seen self.new) result (after_map self.old.blocks name.now from.now to.now) }
    {
        if self.blocks.maps.len() >= 8 {
            return Err(LineFault::Kind(InputKind::TooManyBlocks));
        }
        if self.blocks.has_name(name) {
            return Err(LineFault::Kind(InputKind::RepeatedName));
        }
        let (Some(from), Some(to)) = (
            self.blocks.place_of_name(from),
            self.blocks.place_of_name(to),
        ) else {
            return Err(LineFault::Kind(InputKind::UnknownName));
        };
        self.name = Name::new(alloc, name)?;
        self.sends = Sends::new(alloc);
        self.place = Place::InMap { from, to };
        Ok(())
    }

    fn end_map(&mut self, alloc: Global, from: u32, to: u32) -> Result<(), LineFault>
        requires { self.old.place ≡ InMap from to }
        ensures { Gives (λ _. place_seen self.new) result (after_map_end self.old.blocks (map_seen from to self.old)) }
    {
        let source = self.blocks.complex_at(from);
        let target = self.blocks.complex_at(to);
        if let Some(kind) = self.sends.end_fault(alloc, source, target)? {
            return Err(LineFault::Kind(kind));
        }
        self.place = Place::Between;
        let sends = self.sends.listed(alloc)?;
        let name = mem::replace(&mut self.name, Name::empty(alloc));
        self.blocks.add_map(MapBlock {
            name,
            from,
            to,
            sends,
        })?;
        Ok(())
    }

    /// Reads a line, or gives the kind of its fault.
    pub fn read(&mut self, alloc: Global, line: Line<'_>) -> Result<(), LineFault>
        ensures { Gives (λ _. place_seen self.new) result (after (place_seen self.old) (line_seen line.entry)) }
    {
        match (self.place, line) {
            (Place::AtStart, Line::Heading) => {
                self.place = Place::AtPrime;
                Ok(())
            }
            (Place::AtPrime, Line::Prime(number)) => self.read_prime(alloc, number),
            (Place::Between, Line::Complex(name)) => self.open_complex(alloc, name),
            (Place::Between, Line::Map(name, from, to)) => self.open_map(alloc, name, from, to),
            (Place::InComplex, Line::Facet(vertices)) => read_facet(
                alloc,
                &mut self.complex,
                vertices,
            ),
            (Place::InComplex, Line::End) => self.end_complex(alloc),
            (Place::InMap { from, to }, Line::Send(Some(sent))) => {
                let source = self.blocks.complex_at(from);
                self.sends.add(source, self.blocks.complex_at(to), sent)
            }
            (Place::InMap { .. }, Line::Send(None)) => Err(LineFault::Kind(InputKind::BadNumber)),
            (Place::InMap { from, to }, Line::End) => self.end_map(alloc, from, to),
            _ => Err(LineFault::Kind(InputKind::BadLine)),
        }
    }
}
