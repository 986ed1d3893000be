// The opening: its refusals, 1 to 7, 13 and 14, in their order, and the search that it gives, open or closed.
ghost use Rattle.std.specs.Prelude.{◌≡◌, map, ◌≤◌};
ghost use Rattle.rules.specs.Stop.{suits};
ghost use Rattle.rules.specs.Opening.{in_range, all_in_range, in_limits, in_ring, in_step, axis_checks, axes_checks, in_coefficients, in_threshold, rule_of, open_verdict, start_of, keep, first_phase, fresh, unread, closed};

use super::place::blank;
use super::stop::suits;
use rules::{
    Axis, Cause, Coefficients, Counts, MAX_BUDGET, MAX_SPREAD, Method, Opening, Phase, Refusal,
    Rule, Search, Setup, Vertex,
};

// Whether -1,048,576 ≤ v ≤ 1,048,576. Written out, since a NaN must fail it.
fn in_range(v: f64) -> bool
    ensures { result ≡ in_range v }
{
    -1048576.0 <= v && v <= 1048576.0
}

// Whether an axis record passes check 2: each of its four numbers is in range.
fn all_in_range(x: Axis) -> bool
    ensures { result ≡ all_in_range x }
{
    in_range(x.lo) && in_range(x.hi) && in_range(x.start) && in_range(x.step)
}

// Whether an axis record passes check 3: its limits, start and step fit each other.
fn in_limits(x: Axis) -> bool
    ensures { result ≡ in_limits x }
{
    x.lo < x.hi && x.lo <= x.start && x.start <= x.hi && 0.0 < x.step
}

// Whether an axis record passes check 13: a ring does not start at hi, which is the same position as lo.
fn in_ring(x: Axis) -> bool
    ensures { result ≡ in_ring x }
{
    !(x.ring && x.start == x.hi)
}

// Whether an axis record passes check 4: its step moves the start and is at most half the range.
fn in_step(x: Axis) -> bool
    ensures { result ≡ in_step x }
{
    !(x.start + x.step == x.start) && !((x.hi - x.lo) / 2.0 < x.step)
}

// Checks 2, 3, 13 and 4 on the i-th axis, counted from 1.
fn axis_verdict(i: usize, x: Axis) -> Result<(), Refusal>
    ensures { result ≡ axis_checks i x (Ok tt) }
{
    if !all_in_range(x) {
        return Err(Refusal::OutOfRange(i));
    }
    if !in_limits(x) {
        return Err(Refusal::BadLimits(i));
    }
    if !in_ring(x) {
        return Err(Refusal::RingAtHi(i));
    }
    if !in_step(x) {
        return Err(Refusal::BadStep(i));
    }
    Ok(())
}

// Checks 2, 3, 13 and 4 on the first n axes, lowest axis first. By the index, which the refusal tells; n ≤ 8 is what `open_verdict`
// has just tested, and no type holds it of an n that may be any.
#[tactic(auto, using(crate::proofs::Laws::Checking::exit, crate::proofs::Laws::Opening::axes_first), unfolding(rules::specs::Opening::axes_checks))]
fn axes_verdict(n: usize, axes: &[Axis; 8]) -> Result<(), Refusal>
    requires { n ≤ 8 }
    ensures { result ≡ axes_checks n 0 axes.now (Ok tt) }
{
    for i in 0..n {
        axis_verdict(i + 1, axes[i])?;
    }
    Ok(())
}

// Whether the coefficients pass check 5: each is in its range.
fn in_coefficients(c: Coefficients) -> bool
    ensures { result ≡ in_coefficients c }
{
    0.0 < c.alpha
        && c.alpha <= 4.0
        && 1.0 < c.chi
        && c.alpha < c.chi
        && c.chi <= 8.0
        && 0.0 < c.beta
        && c.beta < 1.0
        && 0.0 < c.sigma
        && c.sigma < 1.0
}

// Whether a rule passes check 6: its threshold is in range.
fn in_threshold(rule: Rule) -> bool
    ensures { result ≡ in_threshold rule }
{
    match rule {
        Rule::Spread(e) => 1 <= e && e <= MAX_SPREAD,
        Rule::Moved(e) | Rule::Size(e) => 0.0 < e && e <= 1048576.0,
    }
}

// The rule of an opening: spread 4 where it names none.
fn rule_of(choice: Option<Rule>) -> Rule
    ensures { result ≡ rule_of choice }
{
    choice.unwrap_or(Rule::Spread(4))
}

// Checks 1 to 7, 13 and 14, in their order.
#[tactic(auto, using(crate::proofs::Laws::Checking::exit, crate::proofs::Laws::Opening::opens, std::proofs::lemmas::Bool::Decides::nat_tests))]
pub(super) fn open_verdict(given: &Opening) -> Result<(), Refusal>
    ensures { result ≡ open_verdict given.now.method given.now.n given.now.axes given.now.rule given.now.coefficients given.now.budget }
{
    let n = given.n;
    if n < 1 || 8 < n {
        return Err(Refusal::AxisCount);
    }
    axes_verdict(n, &given.axes)?;
    if !in_coefficients(given.coefficients) {
        return Err(Refusal::BadCoefficient);
    }
    if !in_threshold(rule_of(given.rule)) {
        return Err(Refusal::BadThreshold);
    }
    if !suits(given.method, rule_of(given.rule)) {
        return Err(Refusal::RuleOfMethod);
    }
    if given.budget <= n as u64 || MAX_BUDGET < given.budget {
        return Err(Refusal::BadBudget);
    }
    Ok(())
}

// The first n records, zero records after them. `shown` does the same for floats: each is one call of the library. One function for both
// was tried, and over an array of a type parameter it is not covered by the automatic part of a proof.
fn keep(n: usize, axes: &[Axis; 8]) -> [Axis; 8]
    ensures { result ≡ keep n axes.now }
{
    let mut kept = *axes;
    kept[n.min(8)..].fill(Axis::default());
    kept
}

// The start of each record.
fn starts(axes: [Axis; 8]) -> [f64; 8]
    ensures { result ≡ map start_of axes }
{
    axes.map(|x| x.start)
}

// The search with nothing read.
fn unread(setup: Setup, method: Method, phase: Phase, center: [f64; 8]) -> Search
    ensures { result ≡ unread setup method phase center }
{
    Search {
        setup,
        method,
        phase,
        standing: blank(),
        gathered: blank(),
        stops: [0; 9],
        center,
        readings: 0,
        best: Vertex::default(),
        counts: Counts::default(),
    }
}

// The phase of a first trial.
fn first_phase(method: Method) -> Phase
    ensures { result ≡ first_phase method }
{
    match method {
        Method::NelderMead => Phase::Building(0),
        Method::Multidirectional => Phase::Basing,
    }
}

// The search of an opening that is not refused.
#[tactic(auto, unfolding(rules::specs::Opening::fresh))]
pub(super) fn fresh(given: &Opening) -> Search
    ensures { result ≡ fresh given.now.method given.now.n given.now.axes given.now.rule given.now.coefficients given.now.budget }
{
    let axes = keep(given.n, &given.axes);
    let setup = Setup {
        n: given.n,
        axes,
        coefficients: given.coefficients,
        rule: rule_of(given.rule),
        budget: given.budget,
    };
    unread(setup, given.method, first_phase(given.method), starts(axes))
}

// The search of a refused opening. Its method, phase and rule are no defaults, so none is derived.
#[tactic(auto, unfolding(rules::specs::Opening::closed))]
pub(super) fn closed() -> Search
    ensures { result ≡ closed }
{
    let setup = Setup {
        n: 0,
        axes: [Axis::default(); 8],
        coefficients: Coefficients::default(),
        rule: Rule::Spread(0),
        budget: 0,
    };
    unread(
        setup,
        Method::NelderMead,
        Phase::Ended(Cause::Budget),
        [0.0; 8],
    )
}
