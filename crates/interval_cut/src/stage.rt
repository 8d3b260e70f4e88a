//! The stages of a walk over cuts.
ghost use Rattle.std.specs.Prelude.{◌≡◌, ℕ, ◌+◌, List, [], ◌∷◌, ◌++◌, length};
ghost use Rattle.interval_cut_law.specs.Names.{IsCutFrom};
ghost use Rattle.interval_cut.specs.Names.{next_walk, shown};

use crate::lists::next_list;

/// Where a walk over cuts stands.
#[derive(Clone, Copy, PartialEq, Eq)]
pub(crate) enum Stage {
    Before,
    At,
    Done,
}

/// Changes the right ends to those of the next cut, and answers where the walk stands then.
pub(crate) fn step(stage: Stage, inner: &mut Vec<u32>, top: u32) -> Stage
    ensures walk { (u : List ℕ) → length inner.old.items + 1 ≡ length u → shown u top result inner.new.items ≡ next_walk (shown u top stage inner.old.items) }
    ensures cut { (u : List ℕ) → IsCutFrom u 0 (inner.old.items ++ top ∷ []) → IsCutFrom u 0 (inner.new.items ++ top ∷ []) }
    ensures long { length inner.new.items ≡ length inner.old.items }
{
    match stage {
        Stage::Before => {
            inner.as_mut_slice().fill(0);
            Stage::At
        }
        Stage::At => {
            if next_list(inner.as_mut_slice(), top) {
                Stage::At
            } else {
                Stage::Done
            }
        }
        Stage::Done => Stage::Done,
    }
}
