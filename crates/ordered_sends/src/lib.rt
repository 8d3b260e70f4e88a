//! The sends of a map in the order of the vertices that are sent, and the map that they give.
#![tactic(auto)]

ghost use Rattle.std.specs.Prelude.{◌≡◌, ℕ, IfOk, get_or, map as list_map};
ghost use Rattle.complex_file.specs.Names.{image};
ghost use Rattle.report_law.specs.Names.{AreOrderedSends};
ghost use Rattle.ordered_sends.specs.Sends.{IsOnce, entries_of, pair_of, sent_of};

use comch_io::Listed;
use complex_file::Sent;
use complex_index::MapOn;
use std::alloc::{AllocError, Global};
use std::collections::BTreeMap;

/// The sends as pairs, ascending by the vertex that is sent.
fn ordered_pairs(alloc: Global, sends: &[Sent]) -> Result<Vec<(u32, u32)>, AllocError>
    ensures { IfOk result (λ v. v.items ≡ entries_of sends.now) }
{
    let mut images = BTreeMap::new(alloc);
    for sent in sends {
        images.insert(sent.from, sent.to)?;
    }
    images.into_iter().collect(alloc)
}

/// The sends with these pairs.
fn sends_of(alloc: Global, pairs: &[(u32, u32)]) -> Result<Vec<Sent>, AllocError>
    ensures { IfOk result (λ v. v.items ≡ list_map sent_of pairs.now) }
{
    pairs
        .iter()
        .map(|pair| Sent {
            from: pair.0,
            to: pair.1,
        })
        .collect(alloc)
}

/// The pairs of the vertices that are sent and their images.
fn pairs_of(alloc: Global, sends: &[Sent]) -> Result<Vec<(u32, u32)>, AllocError>
    ensures { IfOk result (λ v. v.items ≡ list_map pair_of sends.now) }
{
    sends.iter().map(|sent| (sent.from, sent.to)).collect(alloc)
}

/// The sends of a map, ascending by the vertex that is sent. No vertex is sent twice.
pub fn ordered_sends(alloc: Global, sends: &[Sent]) -> Result<Listed<Sent>, AllocError>
    requires { IsOnce sends.now }
    ensures { IfOk result (λ v. AreOrderedSends sends.now v) }
{
    let pairs = ordered_pairs(alloc, sends)?;
    Ok(Listed::from(sends_of(alloc, &pairs)?))
}

/// The map with these sends. No vertex is sent twice.
pub fn map_of(alloc: Global, sends: &[Sent]) -> Result<MapOn, AllocError>
    requires { IsOnce sends.now }
    ensures { IfOk result (λ m. (v : ℕ) → get_or m v 0 ≡ image sends.now v) }
{
    let pairs = pairs_of(alloc, sends)?;
    MapOn::of(alloc, &pairs)
}
