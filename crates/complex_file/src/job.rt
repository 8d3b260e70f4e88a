ghost use Rattle.std.specs.Prelude.{◌≡◌, true};
ghost use Rattle.complex_file.specs.Jobs.{is_job};

use crate::{ComplexBlock, MapBlock};
use comch_io::Listed;

/// What an input spells: a prime, and the complexes and the maps in the order of the file.
/// Each job keeps that its prime is served and its blocks, written as lines of the input, have no fault.
#[derive(Drop)]
pub struct Job {
    pub prime: u32,
    pub complexes: Listed<ComplexBlock>,
    pub maps: Listed<MapBlock>,
    pub ghost kept: { is_job prime complexes maps ≡ true },
}
