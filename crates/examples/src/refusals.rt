// Openings and later calls that are refused, for every number of the table.
use super::openings::{axis, opening, paper_search, ring, search, with_second};
use super::play::play;
use super::show;
use rules::{Coefficients, MAX_COST, Opening, Rule, Search, USUAL};
use std::io;

// Shows the verdicts on these openings, one after the other.
fn show_each(rt: &impl Print, openings: &[Opening]) -> io::Result<()> {
    for given in openings {
        show::verdict(rt, engine::open_search(given).verdict)?;
    }
    Ok(())
}

// Openings accepted, and refused by checks 1 to 3.
fn openings(rt: &impl Print) -> io::Result<()> {
    println!(rt; "openings refused")?;
    let good = opening(2, 0.0, 8.0, None, 100);
    let nan = axis(f64::NAN, 8.0);
    let low = opening(2, 0.0, -9.0, None, 100);
    show_each(
        rt,
        &[
            good,
            Opening { n: 0, ..good },
            Opening { n: 9, ..good },
            with_second(good, nan),
            with_second(low, nan),
            with_second(Opening { n: 1, ..good }, nan),
        ],
    )
}

// A ring that starts at hi: refused by 13, after axis 1 by 4, and not read past n. Openings refused by checks 5 to 7.
fn later_checks(rt: &impl Print) -> io::Result<()> {
    let good = opening(2, 0.0, 8.0, None, 100);
    let tight = opening(2, -8.0, -7.0, None, 100);
    let seam = ring(-7.0, -7.0);
    let flat = Coefficients { chi: 1.0, ..USUAL };
    let zero = Some(Rule::Spread(0));
    show_each(
        rt,
        &[
            with_second(good, seam),
            with_second(tight, seam),
            with_second(Opening { n: 1, ..good }, seam),
            Opening {
                coefficients: flat,
                ..good
            },
            Opening { rule: zero, ..good },
            Opening { budget: 2, ..good },
        ],
    )
}

// Later calls refused: a wrong number, a cost too high, nothing read yet, an ended search, a damaged one.
fn later_calls(rt: &impl Print) -> io::Result<()> {
    println!(rt; "calls refused")?;
    let mut s = paper_search();
    show::verdict(rt, engine::tell(&mut s, 2, 30))?;
    show::verdict(rt, engine::tell(&mut s, 1, MAX_COST + 1))?;
    show::verdict(rt, engine::best(&s))?;
    let three = search(2, 0.0, 8.0, None, 3);
    let ended = play(rt, three, &[30, 20, 10])?;
    show::verdict(rt, engine::ask(&ended))?;
    let damaged = Search { readings: 100, ..s };
    show::verdict(rt, engine::ask(&damaged))
}

// Runs through every number of the refusal table.
pub(super) fn all(rt: &impl Print) -> io::Result<()> {
    openings(rt)?;
    later_checks(rt)?;
    later_calls(rt)
}
