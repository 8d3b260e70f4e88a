//! The action of permutations on tuples.
ghost use Rattle.std.specs.Prelude.{◌≡◌, IfOk, length};
ghost use Rattle.table_reduction_law.specs.Names.{IsTuple, permuted_tuple, tuple_arity};
ghost use Rattle.barratt_eccles.specs.{ActionLaws.{act_arity as act_arity_law, act_composed as act_composed_law, act_degree as act_degree_law, act_identity as act_identity_law, act_valid as act_valid_law, boundary_act as boundary_act_law}, BoundaryLaws.{boundary_arity as boundary_arity_law}};

use crate::tuple::Tuple;
use operad_law::perm::Perm;
use operad_law::symmetric::Symmetric;
use std::alloc::{AllocError, Global};

impl Symmetric for Tuple {
    ghost arity = { tuple_arity };

    ghost act = { permuted_tuple };

    fn arity(&self) -> u8 {
        self.as_slice()[0].len()
    }

    fn act(&self, alloc: Global, tau: &Perm) -> Result<Self, AllocError> {
        let _length = tau.len();
        Ok(Tuple::from_entries(permuted_entries(alloc, tau, self.as_slice())?))
    }

    ghost act_valid = { act_valid_law };

    ghost act_identity = { act_identity_law };

    ghost act_composed = { act_composed_law };

    ghost act_arity = { act_arity_law };

    ghost act_degree = { act_degree_law };

    ghost boundary_arity = { boundary_arity_law };

    ghost boundary_act = { boundary_act_law };
}

// The entries, on each of which the permutation acts from the left.
pub(crate) fn permuted_entries(
    alloc: Global,
    tau: &Perm,
    entries: &[Perm],
) -> Result<Vec<Perm>, AllocError>
    requires { IsTuple (length tau.now) entries.now }
    ensures { IfOk result (λ moved. moved.items ≡ permuted_tuple tau.now entries.now) }
{
    let mut moved = Vec::new(alloc);
    for entry in entries {
        moved.push(tau.compose(alloc, entry)?)?;
    }
    Ok(moved)
}
