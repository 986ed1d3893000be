// P1 to P12 of document 01.
use super::openings::{paper_search, search};
use super::play::play_each;
use rules::Rule;
use std::io;

// P1: trials (0,0), (1,0), (0,1); told 30, 20, 10. P2: next trial (1,1).
fn building(rt: &impl Print) -> io::Result<()> {
    println!(rt; "P1, P2")?;
    play_each(rt, paper_search(), &[&[], &[30], &[30, 20], &[30, 20, 10]])
}

// P3: after 5 is told, expansion at (1.5,1.5). P4: 5 again takes (1,1). P5: told 10 instead of 5, (1,1) enters at
// place 2.
fn expanding(rt: &impl Print) -> io::Result<()> {
    println!(rt; "P3, P4, P5")?;
    play_each(
        rt,
        paper_search(),
        &[&[30, 20, 10, 5], &[30, 20, 10, 5, 5], &[30, 20, 10, 10]],
    )
}

// P6: told 20, outside at (0.75,0.75). P7: 20 is taken at place 3. P8: 21 shrinks, asking (0.5,0.5) and (0,0.5).
fn outside(rt: &impl Print) -> io::Result<()> {
    println!(rt; "P6, P7, P8")?;
    play_each(
        rt,
        paper_search(),
        &[
            &[30, 20, 10, 20],
            &[30, 20, 10, 20, 20],
            &[30, 20, 10, 20, 21],
            &[30, 20, 10, 20, 21, 9],
        ],
    )
}

// P9: told 30, inside at (0.25,0.25); 29 is taken. P10: 30 shrinks.
fn inside(rt: &impl Print) -> io::Result<()> {
    println!(rt; "P9, P10")?;
    play_each(
        rt,
        paper_search(),
        &[
            &[30, 20, 10, 30],
            &[30, 20, 10, 30, 29],
            &[30, 20, 10, 30, 30],
        ],
    )
}

// P11: costs 10, 20, 30: spread 100 isn't met, 101 is, and a probe round starts. P12: hi 1.25 on both axes: the P3
// trial is (1.25,1.25).
fn stopping(rt: &impl Print) -> io::Result<()> {
    println!(rt; "P11, P12")?;
    for spread in [100, 101] {
        let s = search(2, 0.0, 8.0, Some(Rule::Spread(spread)), 100);
        play_each(rt, s, &[&[30, 20, 10]])?;
    }
    let narrow = search(2, 0.0, 1.25, Some(Rule::Spread(4)), 100);
    play_each(rt, narrow, &[&[30, 20, 10, 5]])
}

// Runs P1 to P12.
pub(super) fn all(rt: &impl Print) -> io::Result<()> {
    building(rt)?;
    expanding(rt)?;
    outside(rt)?;
    inside(rt)?;
    stopping(rt)
}
