// The calls of the engine. Each promise equates the whole answer with the rules' definition of that call, for
// every argument: refused calls too, and searches that no opening made.

#![tactic(auto)]

use rules::{Asked, Opened, Opening, Refusal, Search, Vertex};

mod accept;
mod centroid;
mod companion;
mod count;
mod decide;
mod float;
mod insert;
mod opening;
mod phase;
mod place;
mod point;
mod sound;
mod stop;
mod trial;
mod vertices;
mod view;

ghost use Rattle.std.specs.Prelude.{◌≡◌};
ghost use Rattle.rules.specs.Refusals.{number_of, axis_of};
ghost use Rattle.rules.specs.Opening.{opening};
ghost use Rattle.rules.specs.Calls.{asking, telling, showing};

// Opens a search. Where it is refused, the search is the closed one.
#[tactic(auto, unfolding(rules::specs::Opening::opening))]
pub fn open_search(given: &Opening) -> Opened
    ensures { result ≡ opening given.now.method given.now.n given.now.axes given.now.rule given.now.coefficients given.now.budget }
{
    let verdict = opening::open_verdict(given);
    let search = match verdict {
        Ok(()) => opening::fresh(given),
        Err(_) => opening::closed(),
    };
    Opened { verdict, search }
}

// The trial to measure next, with its reading number.
#[tactic(auto, using(crate::proofs::Laws::Checking::exit, crate::proofs::Laws::Sounding::ask_takes), unfolding(rules::specs::Calls::asking, rules::specs::Trial::trial))]
pub fn ask(search: &Search) -> Result<Asked, Refusal>
    ensures { result ≡ asking search.now }
{
    sound::ask_verdict(search)?;
    Ok(Asked {
        number: search.readings + 1,
        trial: trial::trial(search, search.phase),
    })
}

// Takes the reading of that number: the trial's cost. A refused one leaves the search as it is.
#[tactic(auto, using(crate::proofs::Laws::Checking::exit, crate::proofs::Laws::Sounding::tell_takes), unfolding(rules::specs::Calls::telling))]
pub fn tell(search: &mut Search, number: u64, cost: u64) -> Result<(), Refusal>
    ensures verdict { result ≡ (telling search.old number cost).verdict }
    ensures search { search.new ≡ (telling search.old number cost).search }
{
    sound::tell_verdict(search, number, cost)?;
    accept::accept(search, cost);
    Ok(())
}

// The earliest reading of least cost.
#[tactic(auto, using(crate::proofs::Laws::Checking::exit), unfolding(rules::specs::Calls::showing))]
pub fn best(search: &Search) -> Result<Vertex, Refusal>
    ensures { result ≡ showing search.now }
{
    sound::best_verdict(search)?;
    Ok(Vertex {
        point: point::shown(search.setup.n, search.best.point),
        cost: search.best.cost,
        number: search.best.number,
    })
}

// The refusal's number in document 01's table, and 13 and 14 of document 02. A call and no From: a u64 would not say of which table, and `rules`,
// where Refusal stands, has no function.
pub fn refusal_number(refusal: Refusal) -> u64
    ensures { result ≡ number_of refusal }
{
    match refusal {
        Refusal::AxisCount => 1,
        Refusal::OutOfRange(_) => 2,
        Refusal::BadLimits(_) => 3,
        Refusal::BadStep(_) => 4,
        Refusal::BadCoefficient => 5,
        Refusal::BadThreshold => 6,
        Refusal::BadBudget => 7,
        Refusal::SearchEnded => 8,
        Refusal::CostTooHigh => 9,
        Refusal::WrongNumber => 10,
        Refusal::NoReading => 11,
        Refusal::Damaged => 12,
        Refusal::RingAtHi(_) => 13,
        Refusal::RuleOfMethod => 14,
    }
}

// The axis that comes with refusals 2 to 4 and 13, counted from 1.
pub fn refusal_axis(refusal: Refusal) -> Option<usize>
    ensures { result ≡ axis_of refusal }
{
    match refusal {
        Refusal::OutOfRange(axis)
        | Refusal::BadLimits(axis)
        | Refusal::BadStep(axis)
        | Refusal::RingAtHi(axis) => Some(axis),
        _ => None,
    }
}
