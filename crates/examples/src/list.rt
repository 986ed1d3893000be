// Any list of calls on a newly opened search, by the engine, and demand 3 as the promise of it.
ghost use Rattle.std.specs.Prelude.{◌≡◌};
ghost use Rattle.rules.specs.History.{after1, after};
ghost use Rattle.examples.specs.List.{call_of, calls_of, Claimed};

use super::{openings, show};
use rules::{Opened, Opening, Search};
use std::io;

// One call on a search.
#[derive(Clone, Copy)]
pub(super) enum Call {
    Ask,
    Tell { number: u64, cost: u64 },
    Best,
}

// Makes one call, whatever it answers.
fn one(s: &mut Search, call: Call)
    ensures { s.new ≡ after1 s.old (call_of call) }
{
    match call {
        Call::Ask => {
            let _ = engine::ask(s);
        }
        Call::Tell { number, cost } => {
            let _ = engine::tell(s, number, cost);
        }
        Call::Best => {
            let _ = engine::best(s);
        }
    }
}

// Makes a list of calls, each on the search that the call before left.
#[tactic(auto, unfolding(rules::specs::History::after))]
fn calls(s: &mut Search, list: &[Call])
    ensures { s.new ≡ after s.old (calls_of list.now) }
{
    for call in list {
        one(s, *call);
    }
}

// Demand 3 of the engine: an opening and any list of calls, and of the search that the last call returned the whole
// record of claims, where the opening is not refused.
#[tactic(auto, using(rules::proofs::Claim::claim))]
pub(super) fn listed(given: &Opening, list: &[Call]) -> Opened
    ensures { Claimed given.now (calls_of list.now) result }
{
    let Opened {
        verdict,
        mut search,
    } = engine::open_search(given);
    calls(&mut search, list);
    Opened { verdict, search }
}

// A list with a doubled tell, one of a number that is not due and two queries among it: the search is that of the
// three costs 30, 20 and 10.
pub(super) fn all(rt: &impl Print) -> io::Result<()> {
    println!(rt; "a list of calls")?;
    let list = [
        Call::Ask,
        Call::Tell {
            number: 1,
            cost: 30,
        },
        Call::Tell {
            number: 1,
            cost: 30,
        },
        Call::Best,
        Call::Tell {
            number: 2,
            cost: 20,
        },
        Call::Tell { number: 5, cost: 7 },
        Call::Tell {
            number: 3,
            cost: 10,
        },
        Call::Ask,
    ];
    let opened = listed(&openings::opening(2, 0.0, 8.0, None, 100), &list);
    show::state(rt, &opened.search)
}
