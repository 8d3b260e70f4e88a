//! The turn of surjections: the cycle is applied to each value.
ghost use Rattle.std.specs.Prelude.{◌≡◌, ◌==◌, ◌<◌, IfOk, map};
ghost use Rattle.signed_sum.specs.Names.{cycle};
ghost use Rattle.surjection_law.specs.Names.{IsSurjection, arity};
ghost use Rattle.table_reduction_law.specs.Names.{turned_values};
ghost use Rattle.surjection.specs.Names.{boundary_fits as boundary_fits_law, boundary_turn as boundary_turn_law, turn_degree as turn_degree_law, turn_fits as turn_fits_law, turn_sign as turn_sign_law, turn_valid as turn_valid_law, turned_round as turned_round_law};

use crate::surj::Surj;
use operad_law::cyclic::CyclicModel;
use smallvec::SmallVec;
use std::alloc::{AllocError, Global};

impl<const P: u32> CyclicModel<P> for Surj {
    ghost fits = { λ u. arity u == P };

    ghost turn = { turned_values P };

    fn fits(&self) -> bool {
        u32::from(self.greatest_value()) == P
    }

    fn turn(&self, alloc: Global) -> Result<(Self, i64), AllocError> {
        let most = self.greatest_value();
        Ok((
            Surj::from_values(cycled_values(alloc, most, self.as_slice())?),
            1,
        ))
    }

    ghost turn_valid = { turn_valid_law P };

    ghost turn_fits = { turn_fits_law P };

    ghost turn_degree = { turn_degree_law P };

    ghost turn_sign = { turn_sign_law P };

    ghost boundary_fits = { boundary_fits_law P };

    ghost turned_round = { turned_round_law P };

    ghost boundary_turn = { boundary_turn_law P };
}

// The values, each moved on along the cycle of 1 to the greatest.
fn cycled_values(alloc: Global, most: u8, values: &[u8]) -> Result<SmallVec<u8, 16>, AllocError>
    requires surjection { IsSurjection values.now }
    requires greatest { most ≡ arity values.now }
    ensures { IfOk result (λ moved. moved.items ≡ map (cycle most) values.now) }
{
    let mut moved = SmallVec::new(alloc);
    for value in values {
        moved.push(cycled(*value, most))?;
    }
    Ok(moved)
}

// The value moved on along the cycle of 1 to the greatest.
fn cycled(value: u8, most: u8) -> u8
    requires { value < 255 }
    ensures { result ≡ cycle most value }
{
    if value == most { 1 } else { value + 1 }
}
