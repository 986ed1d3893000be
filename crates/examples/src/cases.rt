// Further cases: a restart, the budget in each phase, settled, a ring, a base and its companions, and dark frames.
use super::openings::{opening, ring, search, with_second};
use super::play::{play_each, repeat};
use rules::{MAX_COST, Method, Opening, Rule};
use std::io;

// No rule named, spread 4: three equal costs meet it. The third probe is lower: a restart builds around it, its own
// cost known.
fn restarting(rt: &impl Print) -> io::Result<()> {
    println!(rt; "a restart")?;
    let s = search(2, 2.0, 8.0, None, 100);
    play_each(
        rt,
        s,
        &[&[10, 10, 10, 10, 10, 9], &[10, 10, 10, 10, 10, 9, 12]],
    )
}

// The budget is spent with a build, with r, with e, with an outside and with an inside point.
fn spent_early(rt: &impl Print) -> io::Result<()> {
    println!(rt; "the budget in each phase")?;
    let three = search(2, 0.0, 8.0, None, 3);
    play_each(rt, three, &[&[30, 20, 10]])?;
    let four = search(2, 0.0, 8.0, None, 4);
    play_each(
        rt,
        four,
        &[&[30, 20, 10, 5], &[30, 20, 10, 20], &[30, 20, 10, 30]],
    )?;
    let five = search(2, 0.0, 8.0, None, 5);
    play_each(rt, five, &[&[30, 20, 10, 5, 4]])
}

// The budget is spent amid a shrink, a probe round, at a lower probe and amid a restart's build.
fn spent_late(rt: &impl Print) -> io::Result<()> {
    let six = search(2, 0.0, 8.0, None, 6);
    play_each(rt, six, &[&[30, 20, 10, 30, 30, 9]])?;
    let five = search(2, 2.0, 8.0, None, 5);
    play_each(rt, five, &[&[10, 10, 10, 10, 10], &[10, 10, 10, 10, 9]])?;
    let seven = search(2, 2.0, 8.0, None, 7);
    play_each(rt, seven, &[&[10, 10, 10, 10, 10, 9, 12]])
}

// The last probe of a full round settles the search, at the budget too.
fn settled(rt: &impl Print) -> io::Result<()> {
    println!(rt; "settled, and settled at the budget")?;
    for budget in [100, 4] {
        let s = search(1, 0.0, 8.0, None, budget);
        play_each(rt, s, &[&[5, 5, 5, 5]])?;
    }
    let three = search(1, 0.0, 8.0, None, 3);
    play_each(rt, three, &[&[5, 5, 5]])
}

// Axis 2 is a ring from -8 to 8, started half a step below hi: the build steps over hi, r is brought round, and e and the outside point go from
// there. Started at lo, a probe steps below it.
fn going_round(rt: &impl Print) -> io::Result<()> {
    println!(rt; "a ring")?;
    let near = with_second(opening(2, 0.0, 8.0, None, 100), ring(7.5, 8.0));
    let s = engine::open_search(&near).search;
    play_each(
        rt,
        s,
        &[
            &[10, 20, 30, 5, 6],
            &[10, 20, 30, 25, 24],
            &[10, 20, 30, 35, 29],
        ],
    )?;
    let at_lo = with_second(opening(2, 0.0, 8.0, None, 100), ring(-8.0, 8.0));
    let s = engine::open_search(&at_lo).search;
    play_each(rt, s, &[&[10, 10, 10, 10, 10, 10, 9]])
}

// The multidirectional search: a reflection is lower, and then a companion; none is, so that the companions are halved; for dark frames it settles.
fn turning(rt: &impl Print) -> io::Result<()> {
    println!(rt; "a base and its companions")?;
    let turned = Opening {
        method: Method::Multidirectional,
        ..opening(2, 0.0, 8.0, Some(Rule::Size(0.5)), 100)
    };
    let s = engine::open_search(&turned).search;
    play_each(
        rt,
        s,
        &[
            &[30, 20, 20, 25, 10, 15],
            &[30, 30, 40, 20, 25],
            &[30, 30, 40, 30, 35, 29],
        ],
    )?;
    repeat(rt, s, MAX_COST, 61)
}

// Dark frames for ever: with spread the search settles, and with a small size it shrinks and never folds.
fn dark(rt: &impl Print, n: usize) -> io::Result<()> {
    println!(rt; "dark frames, axes {n}")?;
    let spread = search(n, 0.0, 8.0, None, 60);
    repeat(rt, spread, MAX_COST, 61)?;
    let size = search(n, 0.0, 8.0, Some(Rule::Size(0.0625)), 60);
    repeat(rt, size, MAX_COST, 61)
}

// The further cases.
pub(super) fn all(rt: &impl Print) -> io::Result<()> {
    restarting(rt)?;
    spent_early(rt)?;
    spent_late(rt)?;
    settled(rt)?;
    going_round(rt)?;
    turning(rt)?;
    for n in [1, 2, 3, 8] {
        dark(rt, n)?;
    }
    Ok(())
}
