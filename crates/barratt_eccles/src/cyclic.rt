//! The turn of tuples: the cycle acts.
ghost use Rattle.std.specs.Prelude.{◌==◌};
ghost use Rattle.table_reduction_law.specs.Names.{tuple_arity};
ghost use Rattle.barratt_eccles.specs.{Generators.turned_tuple, CycleLaws.{boundary_fits as boundary_fits_law, boundary_turn as boundary_turn_law, turn_degree as turn_degree_law, turn_fits as turn_fits_law, turn_sign as turn_sign_law, turn_valid as turn_valid_law, turned_round as turned_round_law}};

use crate::symmetric::permuted_entries;
use crate::tuple::Tuple;
use operad_law::cyclic::CyclicModel;
use operad_law::perm::Perm;
use operad_law::symmetric::Symmetric;
use std::alloc::{AllocError, Global};

impl<const P: u32> CyclicModel<P> for Tuple {
    ghost fits = { λ w. tuple_arity w == P };

    ghost turn = { turned_tuple P };

    fn fits(&self) -> bool {
        u32::from(self.arity()) == P
    }

    fn turn(&self, alloc: Global) -> Result<(Self, i64), AllocError> {
        let entries = self.as_slice();
        let cycle = Perm::cycle(alloc, self.arity(), 1)?;
        let turned = permuted_entries(alloc, &cycle, entries)?;
        Ok((Tuple::from_entries(turned), 1))
    }

    ghost turn_valid = { turn_valid_law P };

    ghost turn_fits = { turn_fits_law P };

    ghost turn_degree = { turn_degree_law P };

    ghost turn_sign = { turn_sign_law P };

    ghost boundary_fits = { boundary_fits_law P };

    ghost turned_round = { turned_round_law P };

    ghost boundary_turn = { boundary_turn_law P };
}
