// The phase after a decision: the rule is tested where a piece ends, then the budget. Why `Ready` stands in each contract is said in
// accept.rt.
ghost use Rattle.std.specs.Prelude.{◌≡◌, map, ◌+◌, drop};
ghost use Rattle.rules.specs.Binary64.{0ᶠ};
ghost use Rattle.rules.specs.Simplex.{point_of, unpack};
ghost use Rattle.rules.specs.Stop.{movement, tested};
ghost use Rattle.rules.specs.Accept.{shrunk_points, moved, opens, tested_phase, next_phase, spent_phase};
ghost use Rattle.engine.specs.Ready.{Ready};

use super::place::point_at;
use super::stop::{distance, met};
use super::trial::trial;
use super::view::is_ended;
use rules::{Cause, Decision, Method, Phase, Piece, Search, Vertex};

// How far the vertices at places 2 to n + 1 move by a shrink.
#[tactic(auto, unfolding(rules::specs::Simplex::up_to, rules::specs::Stop::movement))]
fn shrink_movement(s: &Search) -> f64
    requires { Ready s.now }
    ensures { result ≡ movement s.now.setup.n (map point_of (drop 1 (unpack (s.now.setup.n + 1) s.now.standing))) (shrunk_points s.now) 0ᶠ }
{
    let n = s.setup.n;
    let mut sum = 0.0;
    for k in 0..n {
        let old = point_at(&s.standing, k + 1);
        let new = trial(s, Phase::Shrinking(k + 1)).point;
        sum = distance(&old[..n], &new[..n], sum);
    }
    sum
}

// How far the replaced vertices move, u being the one that enters: the vertex at place n + 1 where u is taken, all but the first at the end
// of a shrink.
#[tactic(auto, using(crate::proofs::Laws::Stopping::apart_take))]
pub(super) fn moved(s: &Search, decision: Decision, u: &Vertex) -> f64
    requires { Ready s.now }
    ensures { result ≡ moved decision u.now s.now }
{
    match decision {
        Decision::Take(_, _) => {
            let n = s.setup.n;
            let old = point_at(&s.standing, n);
            distance(&old[..n], &u.point[..n], 0.0)
        }
        Decision::Stand(Piece::Shrink) => shrink_movement(s),
        _ => 0.0,
    }
}

// Whether the rule is met by the vertices that stand, at the end of the piece, if one ended.
pub(super) fn is_met(s: &Search, piece: Option<Piece>, movement: f64) -> bool
    requires { Ready s.now }
    ensures { result ≡ tested s.now.setup.rule s.now.setup.n piece movement (unpack (s.now.setup.n + 1) s.now.standing) }
{
    match piece {
        Some(p) => met(s, p, movement),
        None => false,
    }
}

// The phase that opens an iteration.
fn opens(method: Method) -> Phase
    ensures { result ≡ opens method }
{
    match method {
        Method::NelderMead => Phase::Reflecting,
        Method::Multidirectional => Phase::Mirroring(1),
    }
}

// A probe round where the rule is met, else the next iteration.
fn tested_phase(met: bool, method: Method) -> Phase
    ensures { result ≡ tested_phase met method }
{
    if met {
        Phase::Probing(0)
    } else {
        opens(method)
    }
}

// The phase that the decision leads to.
pub(super) fn next_phase(decision: Decision, met: bool, method: Method) -> Phase
    ensures { result ≡ next_phase decision met method }
{
    match decision {
        Decision::Go(_, next) => next,
        Decision::Take(_, _) | Decision::Stand(_) | Decision::Regroup(_) => {
            tested_phase(met, method)
        }
        Decision::Restart => Phase::Building(1),
    }
}

// A spent budget ends the search, unless the reading settled it.
pub(super) fn spent_phase(spent: bool, phase: Phase) -> Phase
    ensures { result ≡ spent_phase spent phase }
{
    if spent && !is_ended(phase) {
        Phase::Ended(Cause::Budget)
    } else {
        phase
    }
}
