// The verdicts of the later calls: refusal 12, then 8 to 11. Where n ≤ 8 is asked for, `intact` has just tested it: no type holds it of a
// search that may be made up.
ghost use Rattle.std.specs.Prelude.{◌≡◌, true, ◌&&◌, suc, ◌≤◌};
ghost use Rattle.rules.specs.Stop.{suits};
ghost use Rattle.rules.specs.Calls.{sound_phase, standing_in, ordered_in, in_order, all_costs, sound_rule, sound_counts, every, companion_within, sound_companions, intact, undamaged, ask_verdict, tell_verdict, best_verdict};

use super::float::within;
use super::stop::suits;
use super::view::{gathered_in, is_ended};
use rules::{
    Counts, MAX_BUDGET, MAX_COST, MAX_SPREAD, Method, Phase, Refusal, Rule, Search, Setup, Simplex,
};

// Whether a phase's vertex or probe number is one of its trials; a companion is asked only where it is unread.
fn sound_phase(n: usize, readings: u64, numbers: &[u64; 9], phase: Phase) -> bool
    requires { n ≤ 8 }
    ensures { result ≡ sound_phase n readings numbers.now phase }
{
    match phase {
        Phase::Building(i) => i <= n && (readings == 0 || 1 <= i),
        Phase::Shrinking(j) => 1 <= j && j <= n,
        Phase::Mirroring(i) => 1 <= i && i <= n,
        Phase::Checking(i) => 1 <= i && i <= n && numbers[i] == 0,
        Phase::Probing(p) => p < 2 * n,
        Phase::Reflecting
        | Phase::Expanding
        | Phase::Contracting(_)
        | Phase::Basing
        | Phase::Ended(_) => true,
    }
}

// Whether a spread threshold is in range.
fn sound_rule(rule: Rule) -> bool
    ensures { result ≡ sound_rule rule }
{
    match rule {
        Rule::Spread(e) => e <= MAX_SPREAD,
        _ => true,
    }
}

// Whether no count is above the budget.
fn sound_counts(budget: u64, c: &Counts) -> bool
    ensures { result ≡ sound_counts budget c.now }
{
    c.builds <= budget
        && c.reflections <= budget
        && c.expansions <= budget
        && c.contractions <= budget
        && c.shrinks <= budget
        && c.patterns <= budget
        && c.probes <= budget
        && c.unfinished <= budget
        && c.directed <= budget
}

// Whether no cost is above the largest. A pass of its own beside that of `in_order`: one loop for both was tried, and took twice the
// instructions.
fn all_costs(costs: &[u64]) -> bool
    ensures { result ≡ all_costs costs.now }
{
    costs.iter().all(|&c| c <= MAX_COST)
}

// Whether the costs are in order.
#[tactic(auto, using(crate::proofs::Laws::Sounding::orders))]
fn in_order(costs: &[u64]) -> bool
    ensures { result ≡ in_order costs.now }
{
    costs.is_sorted()
}

// How many vertices stand: none where place 1 has no reading, and none in the multidirectional method.
fn standing_in(method: Method, n: usize, places: &Simplex) -> usize
    requires { n ≤ 8 }
    ensures { result ≡ standing_in method n places.now }
{
    match method {
        Method::Multidirectional => 0,
        Method::NelderMead => { if places.numbers[0] == 0 { 0 } else { n + 1 } }
    }
}

// How many gathered vertices are held to cost order: those of Nelder-Mead.
fn ordered_in(method: Method, phase: Phase) -> usize
    ensures { result ≡ ordered_in method phase }
{
    match method {
        Method::Multidirectional => 0,
        Method::NelderMead => gathered_in(phase),
    }
}

// Whether companion i lies within the first n axes.
#[tactic(auto, unfolding(rules::specs::Calls::every))]
fn companion_within(setup: &Setup, points: &[f64; 72], i: usize) -> bool
    requires { (setup.now.n ≤ 8) × (i ≤ 8) }
    ensures { result ≡ companion_within setup.now points.now i }
{
    let mut inside = true;
    for a in 0..setup.n {
        inside = inside && within(&setup.axes[a], points[8 * i + a]);
    }
    inside
}

// Whether every companion does.
#[tactic(auto, unfolding(rules::specs::Calls::every))]
fn companions_within(setup: &Setup, points: &[f64; 72]) -> bool
    requires { setup.now.n ≤ 8 }
    ensures { result ≡ every (λ k. companion_within setup.now points.now (suc k)) setup.now.n }
{
    let mut inside = true;
    for k in 0..setup.n {
        inside = inside && companion_within(setup, points, k + 1);
    }
    inside
}

// Whether clamping changes no companion; none stands while the base is asked, and none in Nelder-Mead.
fn sound_companions(method: Method, phase: Phase, setup: &Setup, points: &[f64; 72]) -> bool
    requires { setup.now.n ≤ 8 }
    ensures { result ≡ sound_companions method phase setup.now points.now }
{
    match method {
        Method::NelderMead => true,
        Method::Multidirectional => {
            matches!(phase, Phase::Basing) || companions_within(setup, points)
        }
    }
}

// None of the causes of refusal 12 but the last two, the rule and the companions of a method, for a search that has not ended. Apart from
// `intact`, since of one chain of all fourteen tests the last goal stayed open.
#[tactic(auto, unfolding(rules::specs::Calls::sound))]
fn in_bounds(s: &Search) -> bool
    ensures sounds { intact s.now ≡ (result && suits s.now.method s.now.setup.rule && sound_companions s.now.method s.now.phase s.now.setup s.now.standing.points) }
    ensures high { result ≡ true → s.now.setup.n ≤ 8 }
{
    1 <= s.setup.n
        && s.setup.n <= 8
        && s.readings < s.setup.budget
        && sound_counts(s.setup.budget, &s.counts)
        && s.setup.budget <= MAX_BUDGET
        && sound_rule(s.setup.rule)
        && sound_phase(s.setup.n, s.readings, &s.standing.numbers, s.phase)
        && in_order(&s.standing.costs[..standing_in(s.method, s.setup.n, &s.standing)])
        && in_order(&s.gathered.costs[..ordered_in(s.method, s.phase)])
        && all_costs(&s.standing.costs)
        && all_costs(&s.gathered.costs)
        && s.best.cost <= MAX_COST
}

// None of the causes of refusal 12, for a search that has not ended.
fn intact(s: &Search) -> bool
    ensures { result ≡ intact s.now }
{
    in_bounds(s)
        && suits(s.method, s.setup.rule)
        && sound_companions(s.method, s.phase, &s.setup, &s.standing.points)
}

// Whether refusal 12 lets a search through, as it does each that has ended.
fn undamaged(s: &Search) -> bool
    ensures { result ≡ undamaged s.now }
{
    is_ended(s.phase) || intact(s)
}

// The refusals of ask: 12, 8.
#[tactic(auto, unfolding(rules::specs::Calls::ask_verdict))]
pub(super) fn ask_verdict(s: &Search) -> Result<(), Refusal>
    ensures { result ≡ ask_verdict s.now }
{
    if !undamaged(s) {
        return Err(Refusal::Damaged);
    }
    if is_ended(s.phase) {
        return Err(Refusal::SearchEnded);
    }
    Ok(())
}

// The refusals of tell: those of ask, then 10, 9.
#[tactic(auto, using(crate::proofs::Laws::Checking::exit, crate::proofs::Laws::Sounding::ask_takes, crate::proofs::Laws::Checking::tell_after_ask))]
pub(super) fn tell_verdict(s: &Search, number: u64, cost: u64) -> Result<(), Refusal>
    ensures { result ≡ tell_verdict s.now number cost }
{
    ask_verdict(s)?;
    if number != s.readings + 1 {
        return Err(Refusal::WrongNumber);
    }
    if MAX_COST < cost {
        return Err(Refusal::CostTooHigh);
    }
    Ok(())
}

// The refusals of best: 12, 11.
#[tactic(auto, unfolding(rules::specs::Calls::best_verdict))]
pub(super) fn best_verdict(s: &Search) -> Result<(), Refusal>
    ensures { result ≡ best_verdict s.now }
{
    if !undamaged(s) {
        return Err(Refusal::Damaged);
    }
    if s.readings == 0 {
        return Err(Refusal::NoReading);
    }
    Ok(())
}
