ghost use Rattle.std.specs.Prelude.{◌≡◌, IfOk};
ghost use Rattle.complex_file.specs.Names.{first_send_fault, map_fault};

use crate::fault::LineFault;
use crate::sends::Sends;
use crate::{BlockFault, ComplexBlock, MapBlock, Sent};
use simplex_set::Complex;
use std::alloc::{AllocError, Global};

/// The first send of the map of which a vertex is unknown, or whose vertex was sent before, with that kind and its place.
/// Where there is none, and at the map's end a vertex is not sent, an edge is turned, or the image of a facet is no
/// simplex, that kind with the number of sends as its place. `None` exactly where there is no fault.
pub fn map_fault(
    alloc: Global,
    map: &MapBlock,
    from: &ComplexBlock,
    to: &ComplexBlock,
) -> Result<Option<BlockFault>, AllocError>
    ensures { IfOk result (λ r. r ≡ map_fault from.now.facets to.now.facets map.now.sends) }
{
    let mut sends = Sends::new(alloc);
    first_fault(
        alloc,
        &mut sends,
        map.sends.as_slice(),
        &from.facets,
        &to.facets,
    )
}

// The first fault of a list of sends behind those before it, or else that of the end.
fn first_fault(
    alloc: Global,
    sends: &mut Sends,
    list: &[Sent],
    from: &Complex,
    to: &Complex,
) -> Result<Option<BlockFault>, AllocError>
    ensures { IfOk result (λ r. r ≡ first_send_fault from.now to.now sends.old 0 list.now) }
{
    for (at, sent) in list.iter().enumerate() {
        match sends.add(from, to, *sent) {
            Ok(()) => {}
            Err(LineFault::Memory) => return Err(AllocError),
            Err(LineFault::Kind(kind)) => {
                return Ok(Some(BlockFault {
                    kind,
                    at: at as u64,
                }));
            }
        }
    }
    match sends.end_fault(alloc, from, to)? {
        Some(kind) => Ok(Some(BlockFault {
            kind,
            at: list.len() as u64,
        })),
        None => Ok(None),
    }
}
