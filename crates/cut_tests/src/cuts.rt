ghost use Rattle.std.specs.Prelude.{◌*◌, ◌-◌, ◌≤◌, IsSome, length};
ghost use Rattle.surjection_law.specs.Names.{arity, caesura_count};

use interval_cut::{Cuts, LiveCuts, live_count};
use std::alloc::{AllocError, Global};
use std::test::Fail;
use surjection::surj::Surj;

// Both signs of the cut that a walk is at, and its points.
fn spelled(alloc: Global, cuts: &Cuts, last: usize) -> Result<String, AllocError>
    requires at { IsSome cuts.now.here }
    requires points { last ≤ length cuts.now.values }
{
    let mut text = format!(in alloc; "{} {} at", cuts.sign(), cuts.word_sign())?;
    for i in 0..last {
        text = format!(in alloc; "{text} {}", cuts.point(i))?;
    }
    format!(in alloc; "{text} {}", cuts.point(last))
}

// The cuts that are live for `top`, and the number of all cuts.
fn cuts_of(alloc: Global, values: &[u8], top: u32) -> Result<String, Fail>
    requires { top ≤ 255 }
{
    let surjection = Surj::new(alloc, values)?;
    let last = surjection.len();
    let mut cuts = Cuts::new(alloc, &surjection, top)?;
    let mut count: u64 = 0;
    let mut text = String::new(alloc);
    'cuts: while cuts.advance() {
        count = count.wrapping_add(1);
        if cuts.live(top) {
            let cut = spelled(alloc, &cuts, last)?;
            text = format!(in alloc; "{text}{cut} of ")?;
        }
    }
    Ok(format!(in alloc; "{text}{count}")?)
}

#[test]
fn cuts_have_points_and_signs(rt: HostRuntime) -> Result<(), Fail> {
    let cases: [(&[u8], u32, &str); 2] = [
        (&[1, 2, 1], 1, "1 1 at 0 0 1 1 of 3"),
        (&[1, 2, 3, 1, 2, 3, 1], 2, "-1 -1 at 0 0 0 1 1 2 2 2 of 28"),
    ];
    for (values, top, want) in cases {
        assert!(rt; top <= 255);
        assert_eq!(rt; cuts_of(rt.alloc(), values, top)?.as_str(), want);
    }
    Ok(())
}

// Whether the cut that a walk is at ends at these places so.
fn has_points(cuts: &LiveCuts, last: usize, points: &[(usize, u32)]) -> bool
    requires at { IsSome cuts.now.walk.here }
    requires inside { last ≤ length cuts.now.walk.values }
{
    for (i, point) in points {
        if *i > last || cuts.point(*i) != *point {
            return false;
        }
    }
    true
}

// The number of live cuts, counted twice, and the sum of their signs, if each has these points.
fn live_cuts(
    alloc: Global,
    values: &[u8],
    q: u32,
    points: &[(usize, u32)],
) -> Result<Option<(u64, u64, i32)>, Fail>
    requires small { q ≤ 15 }
    requires some { caesura_count values.now ≤ arity values.now * q }
    requires low { arity values.now * q - caesura_count values.now ≤ 255 }
{
    let surjection = Surj::new(alloc, values)?;
    let last = surjection.len();
    let mut cuts = LiveCuts::new(alloc, &surjection, q)?;
    let count = cuts.count();
    let mut signs: i32 = 0;
    for _ in 0..count {
        if !cuts.advance() {
            return Ok(None);
        }
        if !has_points(&cuts, last, points) {
            return Ok(None);
        }
        signs = signs.wrapping_add(i32::from(cuts.sign()));
    }
    if cuts.advance() {
        return Ok(None);
    }
    Ok(Some((live_count(alloc, &surjection, q)?, count, signs)))
}

#[test]
fn live_cuts_have_points_and_signs(rt: HostRuntime) -> Result<(), Fail> {
    let alloc = rt.alloc();
    let long = [1, 2, 1, 2, 1, 2, 1, 2, 1, 2, 1, 2, 1, 2, 1, 2, 3];
    let found = [
        live_cuts(alloc, &[1, 2, 1], 1, &[(0, 0), (1, 0), (2, 1), (3, 1)])?,
        live_cuts(alloc, &[1, 3, 1, 2, 3], 1, &[])?,
        live_cuts(
            alloc,
            &[1, 2, 3, 1, 2, 3, 1],
            2,
            &[(1, 0), (2, 0), (3, 1), (4, 1), (5, 2), (6, 2), (7, 2)],
        )?,
        live_cuts(alloc, &long, 15, &[(16, 16)])?,
    ];
    let want = [
        Some((1, 1, 1)),
        Some((0, 0, 0)),
        Some((1, 1, -1)),
        Some((64, 64, -8)),
    ];
    assert_eq!(rt; found.as_slice(), want.as_slice());
    Ok(())
}
