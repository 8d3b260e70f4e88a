ghost use Rattle.std.specs.{Prelude.{◌≡◌, ◌<◌, [], length, IfSome, OnOk}, List.list_any, Str.bytes_eq};
ghost use Rattle.complex_file.specs.Names.{with_complex, with_map, block_names, facets_at, has_name, place_of_name};

use crate::{ComplexBlock, MapBlock};
use comch_io::Listed;
use simplex_set::Complex;
use std::alloc::{AllocError, Global};
use std::marker::Model;

/// The blocks that were read, at most eight of each kind. Contracts see what their lines spell.
#[derive(Drop)]
pub struct Blocks {
    pub prime: u32,
    pub complexes: Listed<ComplexBlock>,
    pub maps: Listed<MapBlock>,
}

impl Model for Blocks {
    ghost use Rattle.std.specs.Prelude.{◌≤◌, length};
    ghost use Rattle.complex_file.specs.Input.{Spelled};

    ghost Value = { Spelled };

    ghost view = { λ b. record { prime = b.prime; complexes = b.complexes; maps = b.maps } };

    ghost invariant = { λ b. length b.complexes ≤ 8 };
}

fn is_map_name(maps: &[MapBlock], name: &[u8]) -> bool
    ensures { result ≡ list_any (λ m. bytes_eq name.now m.name) maps.now }
{
    maps.iter().any(|m| name == m.name.bytes())
}

fn place_in(complexes: &[ComplexBlock], name: &[u8]) -> Option<usize>
    ensures place { result ≡ place_of_name complexes.now name.now }
    ensures there { IfSome result (λ k. k < length complexes.now) }
{
    complexes.iter().position(|c| name == c.name.bytes())
}

impl Blocks {
    /// No blocks yet.
    pub fn new(alloc: Global, prime: u32) -> Blocks
        ensures { result ≡ record { prime = prime; complexes = []; maps = [] } }
    {
        Blocks {
            prime,
            complexes: Listed::new(alloc),
            maps: Listed::new(alloc),
        }
    }

    /// Whether a block has this name.
    pub fn has_name(&self, name: &[u8]) -> bool
        ensures { result ≡ has_name (block_names self.now.complexes self.now.maps) name.now }
    {
        self.place_of_name(name).is_some() || is_map_name(self.maps.as_slice(), name)
    }

    /// The place of the complex with this name.
    pub fn place_of_name(&self, name: &[u8]) -> Option<u32>
        ensures place { result ≡ place_of_name self.now.complexes name.now }
        ensures there { IfSome result (λ k. k < length self.now.complexes) }
    {
        match place_in(self.complexes.as_slice(), name) {
            Some(place) => Some(place as u32),
            None => None,
        }
    }

    /// The complex at a place.
    pub fn complex_at(&self, place: u32) -> &Complex
        requires { place < length self.now.complexes }
        ensures { result.now ≡ facets_at self.now.complexes place }
    {
        &self.complexes.as_slice()[place as usize].facets
    }

    /// Adds a complex behind the others.
    pub fn add_complex(&mut self, block: ComplexBlock) -> Result<(), AllocError>
        requires room { length self.old.complexes < 8 }
        ensures { OnOk result (self.new ≡ with_complex self.old block) }
    {
        match self.complexes.push(block) {
            Ok(()) => Ok(()),
            Err(_) => Err(AllocError),
        }
    }

    /// Adds a map behind the others.
    pub fn add_map(&mut self, block: MapBlock) -> Result<(), AllocError>
        ensures { OnOk result (self.new ≡ with_map self.old block) }
    {
        match self.maps.push(block) {
            Ok(()) => Ok(()),
            Err(_) => Err(AllocError),
        }
    }
}
