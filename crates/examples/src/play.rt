// Costs told to a search one after the other, each trial asked for and shown before.
use super::show;
use rules::{Refusal, Search};
use std::io;

// One reading: the trial is asked for and shown, and this cost is told for it.
fn reading(rt: &impl Print, s: &mut Search, cost: u64) -> io::Result<Result<(), Refusal>> {
    let asked = match engine::ask(s) {
        Ok(asked) => asked,
        Err(refusal) => return Ok(Err(refusal)),
    };
    show::trial(rt, s.setup.n, &asked, cost)?;
    Ok(engine::tell(s, asked.number, cost))
}

// The search after these costs, told one after the other. A refusal is shown.
pub(super) fn play(rt: &impl Print, mut s: Search, costs: &[u64]) -> io::Result<Search> {
    for cost in costs {
        if let Err(refusal) = reading(rt, &mut s, *cost)? {
            show::refused(rt, refusal)?;
        }
    }
    Ok(s)
}

// For each of these lists of costs: tells them to the search and shows where it stands then.
pub(super) fn play_each(rt: &impl Print, s: Search, lists: &[&[u64]]) -> io::Result<()> {
    for costs in lists {
        show::state(rt, &play(rt, s, costs)?)?;
    }
    Ok(())
}

// One cost told until the search refuses to ask, at most this many times; it shows the refusal and where the search stands then.
pub(super) fn repeat(rt: &impl Print, mut s: Search, cost: u64, times: u64) -> io::Result<()> {
    for _ in 0..times {
        if let Err(refusal) = reading(rt, &mut s, cost)? {
            show::refused(rt, refusal)?;
            break;
        }
    }
    show::state(rt, &s)
}
