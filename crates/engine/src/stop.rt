// The three stopping rules, spread, moved and size, tested where a build or an iteration ends. Why `Ready` stands in the contracts is said in
// accept.rt.
ghost use Rattle.std.specs.Prelude.{◌≡◌, true, map, ◌+◌, ◌*◌, ◌≤◌, length, drop};
ghost use Rattle.rules.specs.Numbers.{max_cost, max_spread};
ghost use Rattle.rules.specs.Simplex.{place, unpack, cost_of};
ghost use Rattle.rules.specs.Stop.{total, square, spread_met, apart, norm, scale, all_within, size_met, met, suits};
ghost use Rattle.rules.specs.Calls.{all_costs};
ghost use Rattle.engine.specs.Ready.{Ready};

use super::place::point_at;
use rules::{Method, Piece, Rule, Search, Simplex};

// A sum of costs, and the sum of their squares.
#[derive(Clone, Copy)]
struct Sums {
    plain: u64,
    squares: u64,
}

// from + (x - y)² over the axes, in axis order. By place: tried over x.iter().zip(y), where the loop's goal stayed open.
#[tactic(auto, unfolding(rules::specs::Stop::apart))]
pub(super) fn distance(x: &[f64], y: &[f64], from: f64) -> f64
    requires { length x.now ≡ length y.now }
    ensures { result ≡ apart x.now y.now from (length x.now) }
{
    let mut sum = from;
    for (a, u) in x.iter().enumerate() {
        let d = *u - y[a];
        sum += d * d;
    }
    sum
}

// The sum of squared coordinates.
#[tactic(auto, unfolding(rules::specs::Stop::norm))]
fn norm(x: &[f64]) -> f64
    ensures { result ≡ norm x.now (length x.now) }
{
    let mut sum = 0.0;
    for u in x {
        sum += *u * *u;
    }
    sum
}

// The sums of the costs at the first m places. One loop: tried by costs.iter().sum(), where the goals stayed open, since std's
// sum is not the rules' total.
#[tactic(auto, using(crate::proofs::Laws::Stopping::sums), unfolding(rules::specs::Stop::total))]
fn sums_of(s: &Simplex, m: usize) -> Sums
    requires { (m ≤ 9) × (all_costs s.now.costs ≡ true) }
    ensures sums { let costs = map cost_of (unpack m s.now) in (result.plain ≡ total costs) × (result.squares ≡ total (map square costs)) }
    ensures low { (result.plain ≤ 9 * max_cost) × (result.squares ≤ 9 * square max_cost) }
{
    let mut plain = 0u64;
    let mut squares = 0u64;
    for cost in &s.costs[..m] {
        plain += *cost;
        squares += *cost * *cost;
    }
    Sums { plain, squares }
}

// The rule spread, in whole numbers.
#[tactic(auto, unfolding(rules::specs::Stop::spread_met))]
fn spread_met(s: &Search, e: u64) -> bool
    requires { (Ready s.now) × (e ≤ max_spread) }
    ensures { result ≡ spread_met s.now.setup.n e (unpack (s.now.setup.n + 1) s.now.standing) }
{
    let k = s.setup.n as u64;
    let both = sums_of(&s.standing, s.setup.n + 1);
    ((k + 1) * both.squares).saturating_sub(both.plain * both.plain) < e * k * (k + 1)
}

// Whether every place from 2 to n + 1 lies within the limit of place 1.
#[tactic(auto, using(crate::proofs::Laws::Stopping::within_next, crate::proofs::Laws::Placing::rest_none), unfolding(rules::specs::Stop::all_within))]
fn all_within(s: &Search, limit: f64) -> bool
    requires { Ready s.now }
    ensures { result ≡ all_within s.now.setup.n limit (place s.now.standing 0).point (drop 1 (unpack (s.now.setup.n + 1) s.now.standing)) }
{
    let n = s.setup.n;
    let first = point_at(&s.standing, 0);
    for i in 1..n + 1 {
        let other = point_at(&s.standing, i);
        if !(distance(&other[..n], &first[..n], 0.0) <= limit) {
            return false;
        }
    }
    true
}

// D of the rule size, by document 01's test.
fn scale(q: f64) -> f64
    ensures { result ≡ scale q }
{
    if 1.0 < q { q } else { 1.0 }
}

// The rule size.
#[tactic(auto, using(crate::proofs::Laws::Stopping::norm_take, crate::proofs::Laws::Stopping::size_at))]
fn size_met(s: &Search, e: f64) -> bool
    requires { Ready s.now }
    ensures { result ≡ size_met s.now.setup.n e (unpack (s.now.setup.n + 1) s.now.standing) }
{
    let first = point_at(&s.standing, 0);
    let q = norm(&first[..s.setup.n]);
    all_within(s, e * e * scale(q))
}

// Whether the rule is met at the end of the piece, by the vertices that stand then, the points having moved so far.
#[tactic(auto, unfolding(rules::specs::Stop::met))]
pub(super) fn met(s: &Search, piece: Piece, movement: f64) -> bool
    requires { Ready s.now }
    ensures { result ≡ met s.now.setup.rule s.now.setup.n piece movement (unpack (s.now.setup.n + 1) s.now.standing) }
{
    match s.setup.rule {
        Rule::Spread(e) => spread_met(s, e),
        Rule::Moved(e) => !matches!(piece, Piece::Build) && movement < e * s.setup.n as f64,
        Rule::Size(e) => size_met(s, e),
    }
}

// Whether the rule is one of the method's.
pub(super) fn suits(method: Method, rule: Rule) -> bool
    ensures { result ≡ suits method rule }
{
    match method {
        Method::NelderMead => true,
        Method::Multidirectional => matches!(rule, Rule::Size(_)),
    }
}
