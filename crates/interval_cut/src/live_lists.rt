//! From one list of right ends to the next, past lists that are known not to be live.
ghost use Rattle.std.specs.Prelude.{◌≡◌, ℕ, ◌+◌, ◌≤◌, ◌<◌, List, [], ◌∷◌, ◌++◌, length, slice_index};
ghost use Rattle.interval_cut_law.specs.Names.{IsCutFrom};
ghost use Rattle.interval_cut.specs.Names.{lists_after, IsDeadEnd, KeepsLive, is_live_list, lists_from, lists_left, passed_list, stage_after};

use crate::lists::next_list;
use crate::stage::Stage;

/// An interval that no live cut has after those before it, if it ends where it does or later, up to
/// `last`.
#[derive(Clone, Copy)]
pub(crate) struct DeadEnd {
    pub(crate) interval: usize,
    pub(crate) last: u32,
}

/// Changes a list to the last one with the same numbers before `i` and with `last` at `i`.
fn pass_over(inner: &mut [u32], top: u32, i: usize, last: u32)
    requires { i < length inner.old }
    ensures { inner.new ≡ passed_list top inner.old i last }
{
    inner[i] = last;
    inner[i + 1..].fill(top);
}

/// Changes a list to the next one that is not known to be dead; false where there is none.
pub(crate) fn leave(inner: &mut [u32], top: u32, dead: DeadEnd) -> bool
    ensures lists { (q : ℕ) (u : List ℕ) → length u ≡ length inner.old + 1 → IsDeadEnd q u top (inner.old ++ top ∷ []) dead.interval dead.last → KeepsLive (is_live_list q u top) (lists_after top inner.old) (lists_from result top inner.new) }
    ensures cut { (q : ℕ) (u : List ℕ) → length u ≡ length inner.old + 1 → IsDeadEnd q u top (inner.old ++ top ∷ []) dead.interval dead.last → IsCutFrom u 0 (inner.old ++ top ∷ []) → IsCutFrom u 0 (inner.new ++ top ∷ []) }
{
    if dead.interval < inner.len() {
        pass_over(inner, top, dead.interval, dead.last);
    }
    next_list(inner, top)
}

/// Changes a list to the first one that is to come; false where there is none.
pub(crate) fn first_left(stage: Stage, inner: &mut [u32], top: u32) -> bool
    ensures lists { lists_from result top inner.new ≡ lists_left stage top inner.old }
    ensures cut { (u : List ℕ) → length u ≡ length inner.old + 1 → IsCutFrom u 0 (inner.old ++ top ∷ []) → IsCutFrom u 0 (inner.new ++ top ∷ []) }
{
    match stage {
        Stage::Before => {
            inner.fill(0);
            true
        }
        Stage::At => next_list(inner, top),
        Stage::Done => false,
    }
}

/// At a cut, where a list was found, and else past the last.
pub(crate) fn reached(found: bool) -> Stage
    ensures { result ≡ stage_after found }
{
    if found { Stage::At } else { Stage::Done }
}
