//! The search for live cuts, from one list of right ends to the next.
ghost use Rattle.std.specs.Prelude.{◌≡◌, ℕ, ◌+◌, ◌≤◌, [], ◌∷◌, ◌++◌, MatchOption, length, take, true};
ghost use Rattle.surjection_law.specs.Names.{IsSurjection};
ghost use Rattle.interval_cut.specs.Names.{FindsLive, IsDeadEnd, IsFitting, IsListFor, IsSearchReady, IsReadyFor, IsUnfit, is_live_list, later_times, lists_left, times};

use crate::faces::end_of;
use crate::live_lists::{DeadEnd, first_left, leave};
use crate::signs::VALUES;
use crate::stage::Stage;

/// The most intervals that there are.
pub(crate) const INTERVALS: usize = 255;

/// What the search for the cuts live for a degree keeps: for each interval how many later ones have
/// its value, and for each value the number of places of its face so far and the place after them.
#[derive(Clone, Copy)]
pub(crate) struct Search {
    pub(crate) degree: u32,
    pub(crate) later: [u32; INTERVALS],
    pub(crate) counts: [u32; VALUES],
    pub(crate) nexts: [u32; VALUES],
}

/// How often a value comes.
fn count_of(value: u8, values: &[u8]) -> u32
    requires { length values.now ≤ 255 }
    ensures { result ≡ times value values.now }
{
    values.iter().filter(|other| **other == value).count() as u32
}

/// Of each place, how often its value comes later.
fn later_counts(values: &[u8]) -> [u32; INTERVALS]
    requires { length values.now ≤ 255 }
    ensures { take (length values.now) result ≡ later_times values.now }
{
    let mut later = [0; INTERVALS];
    for (i, value) in values.iter().enumerate() {
        later[i] = count_of(*value, &values[i + 1..]);
    }
    later
}

/// The last end for which the interval from `start` is in no live cut, if that is so for `end`. Its
/// face has `count` places before it, and `next` is the place after them.
fn last_unfit(
    degree: u32,
    top: u32,
    count: u32,
    next: u32,
    later: u32,
    start: u32,
    end: u32,
) -> Option<u32>
    requires order { start ≤ end }
    requires inside { end ≤ top }
    requires low { top ≤ 255 }
    requires small { degree ≤ 15 }
    requires short { count ≤ degree + 1 }
    requires few { later ≤ 255 }
    ensures { MatchOption result (IsFitting degree count next later start end) (λ x. IsUnfit degree top count next later start end x) }
{
    let least = count + (end - start + 1) + later;
    if next == start + 1 {
        return Some(top);
    }
    if least > degree + 1 {
        return Some(top);
    }
    if later == 0 && least <= degree {
        return Some(top.min(end + (degree - least)));
    }
    None
}

/// The first interval that no live cut has after those before it.
fn dead_end(
    values: &[u8],
    inner: &[u32],
    top: u32,
    degree: u32,
    later: &[u32],
    counts: &mut [u32],
    nexts: &mut [u32],
) -> Option<DeadEnd>
    requires ready { IsSearchReady degree values.now later.now counts.old nexts.old }
    requires list { IsListFor values.now top inner.now }
    ensures dead { MatchOption result (is_live_list degree values.now top inner.now ≡ true) (λ d. IsDeadEnd degree values.now top (inner.now ++ top ∷ []) d.interval d.last) }
    ensures counts { length counts.new ≡ length counts.old }
    ensures nexts { length nexts.new ≡ length nexts.old }
{
    counts.fill(0);
    nexts.fill(0);
    let mut start = 0;
    for (i, value) in values.iter().enumerate() {
        let end = end_of(inner, top, i);
        let k = *value as usize;
        match last_unfit(degree, top, counts[k], nexts[k], later[i], start, end) {
            Some(last) => return Some(DeadEnd { interval: i, last }),
            None => {
                counts[k] += end - start + 1;
                nexts[k] = end + 1;
                start = end;
            }
        }
    }
    None
}

impl Search {
    /// The search for the cuts of these values that are live for `degree`.
    pub(crate) fn new(values: &[u8], degree: u32) -> Search
        requires surjection { IsSurjection values.now }
        requires small { degree ≤ 15 }
        ensures degree { result.degree ≡ degree }
        ensures ready { IsReadyFor values.now result }
    {
        Search {
            degree,
            later: later_counts(values),
            counts: [0; VALUES],
            nexts: [0; VALUES],
        }
    }

    /// The first interval of a list that no live cut has after those before it.
    fn dead_end(&mut self, values: &[u8], inner: &[u32], top: u32) -> Option<DeadEnd>
        requires ready { IsReadyFor values.now self.old }
        requires list { IsListFor values.now top inner.now }
        ensures dead { MatchOption result (is_live_list self.old.degree values.now top inner.now ≡ true) (λ d. IsDeadEnd self.old.degree values.now top (inner.now ++ top ∷ []) d.interval d.last) }
        ensures ready { IsReadyFor values.now self.new }
        ensures degree { self.new.degree ≡ self.old.degree }
    {
        dead_end(
            values,
            inner,
            top,
            self.degree,
            &self.later[..values.len()],
            &mut self.counts,
            &mut self.nexts,
        )
    }

    /// Changes a list to the next one of a live cut; false where there is none.
    pub(crate) fn next(&mut self, stage: Stage, values: &[u8], inner: &mut [u32], top: u32) -> bool
        requires ready { IsReadyFor values.now self.old }
        requires list { IsListFor values.now top inner.old }
        ensures first { FindsLive (is_live_list self.old.degree values.now top) (lists_left stage top inner.old) result top inner.new }
        ensures list { IsListFor values.now top inner.new }
        ensures ready { IsReadyFor values.now self.new }
        ensures degree { self.new.degree ≡ self.old.degree }
    {
        let mut more = first_left(stage, inner, top);
        while more {
            match self.dead_end(values, inner, top) {
                Some(dead) => more = leave(inner, top, dead),
                None => return true,
            }
        }
        false
    }
}
