//! Each call of the traits of an operad, through its bound.
ghost use Rattle.std.specs.Prelude.{◌≤◌, ◌≡◌, IsTrue, length};

use operad_law::basis::Narrow;
use operad_law::composing::Composing;
use operad_law::cyclic::CyclicModel;
use operad_law::formal_sum::{FormalSum, SumEnd};
use operad_law::perm::Perm;
use operad_law::symmetric::Symmetric;
use std::alloc::{AllocError, Global};

/// The boundary, and an equal element.
pub fn boundary_and_copy<B: Narrow>(
    alloc: Global,
    element: &B,
) -> Result<(FormalSum<B>, B), AllocError> {
    Ok((element.boundary(alloc)?, element.copy(alloc)?))
}

/// The permuted element.
pub fn moved<B: Symmetric>(alloc: Global, element: &B, by: &Perm) -> Result<B, AllocError>
    requires { length by.now ≡ B.arity element.now }
{
    element.act(alloc, by)
}

/// The turned element and its sign, the turn minus the element, and the sum over all turns.
pub fn turn_and_sums<const P: u32, B: CyclicModel<P>>(
    alloc: Global,
    element: &B,
) -> Result<((B, i64), FormalSum<B>, FormalSum<B>), AllocError>
    requires { IsTrue (B.fits element.now) }
{
    Ok((
        element.turn(alloc)?,
        element.t(alloc)?,
        element.norm(alloc)?,
    ))
}

/// The composition at k.
pub fn composed<B: Composing>(
    alloc: Global,
    outer: &B,
    k: u8,
    inner: &B,
) -> Result<FormalSum<B>, SumEnd>
    requires some { 1 ≤ k }
    requires within { k ≤ B.arity outer.now }
    requires limits { B.within_limits outer.now inner.now }
{
    outer.compose_at(alloc, k, inner)
}
