ghost use Rattle.std.specs.{Prelude.{◌≡◌, [], IfOk}, List.list_all};
ghost use Rattle.simplicial_law.specs.Names.{subsets};
ghost use Rattle.complex_file.specs.Names.{has_vertex, end_fault, image, image_of_facet, is_sent, is_vertex, keeps_edge, keeps_order, keeps_simplices, send_fault, sends_each, with_send, Gives};

use crate::complexes::ascending_of;
use crate::fault::LineFault;
use crate::{InputKind, Sent};
use comch_io::Listed;
use indexmap::IndexMap;
use simplex_set::{Complex, Simplex};
use std::alloc::{AllocError, Global};
use std::marker::Model;

/// The sends of a map, each vertex once, in the order of the file.
#[derive(Drop)]
pub struct Sends {
    images: IndexMap<u32, u32>,
}

impl Model for Sends {
    ghost use Rattle.std.specs.Prelude.{List};
    ghost use Rattle.complex_file.specs.declared.block.Sent.{Sent};
    ghost use Rattle.complex_file.specs.Sends.{sends_in};

    ghost Value = { List Sent };

    ghost view = { λ s. sends_in s.images.entries };
}

fn has_vertex(complex: &Complex, v: u32) -> bool
    ensures { result ≡ is_vertex complex.now v }
{
    complex.contains(&[v])
}

impl Sends {
    /// No sends yet.
    pub fn new(alloc: Global) -> Sends
        ensures { result ≡ [] }
    {
        Sends {
            images: IndexMap::new(alloc),
        }
    }

    fn is_sent(&self, v: u32) -> bool
        ensures { result ≡ is_sent self.now v }
    {
        self.images.contains_key(&v)
    }

    // The vertex to which v is sent; 0 where it is not sent.
    fn image(&self, v: u32) -> u32
        ensures { result ≡ image self.now v }
    {
        self.images.get(&v).copied().unwrap_or(0)
    }

    // The fault of one more send.
    fn send_fault(&self, from: &Complex, to: &Complex, sent: Sent) -> Option<InputKind>
        ensures { result ≡ send_fault from.now to.now self.now sent }
    {
        if !has_vertex(from, sent.from) || !has_vertex(to, sent.to) {
            Some(InputKind::VertexUnknown)
        } else if self.is_sent(sent.from) {
            Some(InputKind::VertexSentTwice)
        } else {
            None
        }
    }

    /// Adds a send, or gives its fault.
    pub fn add(&mut self, from: &Complex, to: &Complex, sent: Sent) -> Result<(), LineFault>
        ensures { Gives (λ _. self.new) result (with_send from.now to.now self.old sent) }
    {
        if let Some(kind) = self.send_fault(from, to, sent) {
            return Err(LineFault::Kind(kind));
        }
        self.images.insert(sent.from, sent.to)?;
        Ok(())
    }

    // Each vertex of a facet is sent.
    fn sends_facet(&self, facet: &Simplex) -> bool
        ensures { result ≡ list_all (is_sent self.now) facet.now }
    {
        facet.vertices().iter().all(|v| self.is_sent(*v))
    }

    fn sends_each(&self, from: &[Simplex]) -> bool
        ensures { result ≡ sends_each from.now self.now }
    {
        from.iter().all(|facet| self.sends_facet(facet))
    }

    // Each edge of a facet is kept. The vertices ascend in their images if each does to the next.
    fn keeps_facet(&self, facet: &Simplex) -> bool
        ensures { result ≡ list_all (keeps_edge self.now) (subsets 2 facet.now) }
    {
        let mut last = 0;
        for v in facet.vertices() {
            let image = self.image(*v);
            if image < last {
                return false;
            }
            last = image;
        }
        true
    }

    fn keeps_order(&self, from: &[Simplex]) -> bool
        ensures { result ≡ keeps_order from.now self.now }
    {
        from.iter().all(|facet| self.keeps_facet(facet))
    }

    fn image_of_facet(&self, alloc: Global, facet: &Simplex) -> Result<Simplex, AllocError>
        ensures { IfOk result (λ s. s ≡ image_of_facet self.now facet.now) }
    {
        let images: Vec<u32> = facet
            .vertices()
            .iter()
            .map(|v| self.image(*v))
            .collect(alloc)?;
        ascending_of(alloc, &images)
    }

    fn keeps_simplices(
        &self,
        alloc: Global,
        from: &[Simplex],
        to: &Complex,
    ) -> Result<bool, AllocError>
        ensures { IfOk result (λ b. b ≡ keeps_simplices from.now to.now self.now) }
    {
        for facet in from {
            let image = self.image_of_facet(alloc, facet)?;
            if !to.contains(image.vertices()) {
                return Ok(false);
            }
        }
        Ok(true)
    }

    /// The fault of the map's end.
    pub fn end_fault(
        &self,
        alloc: Global,
        from: &Complex,
        to: &Complex,
    ) -> Result<Option<InputKind>, AllocError>
        ensures { IfOk result (λ r. r ≡ end_fault from.now to.now self.now) }
    {
        if !self.sends_each(from.facets()) {
            return Ok(Some(InputKind::VertexNotSent));
        }
        if !self.keeps_order(from.facets()) {
            return Ok(Some(InputKind::NotOrderPreserving));
        }
        if !self.keeps_simplices(alloc, from.facets(), to)? {
            return Ok(Some(InputKind::ImageNotASimplex));
        }
        Ok(None)
    }

    /// The sends, in the order of the file.
    pub fn listed(&self, alloc: Global) -> Result<Listed<Sent>, AllocError>
        ensures { IfOk result (λ l. l ≡ self.now) }
    {
        let mut sends = Vec::new(alloc);
        for (from, to) in self.images.iter() {
            sends.push(Sent {
                from: *from,
                to: *to,
            })?;
        }
        Ok(Listed::from(sends))
    }
}
