//! Lists of numbers in which no number is below the one before it.
ghost use Rattle.std.specs.Prelude.{ℕ, ◌<◌, ◌≤◌, length, MatchOption, slice_index};
ghost use Rattle.interval_cut.specs.Names.{IsNextList, IsFullFrom, IsLastBelow};

/// The last place whose number is below `top`.
fn last_below(list: &[u32], top: u32) -> Option<usize>
    ensures { MatchOption result (IsFullFrom top list.now 0) (λ i. IsLastBelow top list.now i) }
{
    let mut i = list.len();
    while i > 0 {
        i -= 1;
        if list[i] < top {
            return Some(i);
        }
    }
    None
}

/// Changes a list to the next one among those of numbers up to `top`; false where it is the last.
pub(crate) fn next_list(list: &mut [u32], top: u32) -> bool
    ensures { IsNextList result top list.old list.new }
{
    match last_below(list, top) {
        Some(i) => {
            let next = list[i] + 1;
            list[i..].fill(next);
            true
        }
        None => false,
    }
}
