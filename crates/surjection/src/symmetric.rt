//! The action of permutations on surjections.
ghost use Rattle.std.specs.Prelude.{◌≡◌, IfOk, length};
ghost use Rattle.surjection_law.{specs.Names.{IsSurjection, arity}, proofs.SurjectionTerms.arity-boundary};
ghost use Rattle.operad_law.specs.Permutations.{composed};
ghost use Rattle.surjection.specs.Names.{act_arity as act_arity_law, act_composed as act_composed_law, act_degree as act_degree_law, act_identity as act_identity_law, act_valid as act_valid_law, boundary_act as boundary_act_law};

use crate::surj::Surj;
use operad_law::perm::Perm;
use operad_law::symmetric::Symmetric;
use smallvec::SmallVec;
use std::alloc::{AllocError, Global};

impl Symmetric for Surj {
    ghost arity = { arity };

    ghost act = { composed };

    fn arity(&self) -> u8 {
        self.greatest_value()
    }

    fn act(&self, alloc: Global, tau: &Perm) -> Result<Self, AllocError> {
        let _length = tau.len();
        Ok(Surj::from_values(permuted_values(alloc, tau, self.as_slice())?))
    }

    ghost act_valid = { act_valid_law };

    ghost act_identity = { act_identity_law };

    ghost act_composed = { act_composed_law };

    ghost act_arity = { act_arity_law };

    ghost act_degree = { act_degree_law };

    ghost boundary_arity = { arity-boundary };

    ghost boundary_act = { boundary_act_law };
}

// The values, each permuted.
fn permuted_values(alloc: Global, tau: &Perm, values: &[u8]) -> Result<SmallVec<u8, 16>, AllocError>
    requires surjection { IsSurjection values.now }
    requires same { length tau.now ≡ arity values.now }
    ensures { IfOk result (λ moved. moved.items ≡ composed tau.now values.now) }
{
    let mut moved = SmallVec::new(alloc);
    for value in values {
        moved.push(tau.at(*value))?;
    }
    Ok(moved)
}
