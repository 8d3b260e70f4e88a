ghost use Rattle.std.specs.Prelude.{◌≡◌, length, true};
ghost use Rattle.complex_file.specs.Open.{is_open};

use crate::Name;
use crate::blocks::Blocks;
use crate::sends::Sends;
use simplex_set::OpenComplex;

/// What may stand on the next line. An open map goes from the complex at one place to that at another.
#[derive(Clone, Copy)]
pub enum Place {
    AtStart,
    AtPrime,
    Between,
    InComplex,
    InMap { from: u32, to: u32 },
}

/// What was read of an input: the blocks, and of the block that is open its name and its facets or sends.
#[derive(Drop)]
pub struct Reader {
    pub place: Place,
    pub blocks: Blocks,
    pub name: Name,
    pub complex: OpenComplex,
    pub sends: Sends,
    ghost open: { is_open place (length blocks.complexes) ≡ true },
}
