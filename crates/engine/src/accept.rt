// The search after an accepted reading: what it decides, then each part by the decision. `Ready` stands in each contract and in no type of
// ours: a search is the caller's own plain struct, made up or not, and a step may break the fact, since a count that stands at its bound
// passes it by one.
ghost use Rattle.std.specs.Prelude.{◌≡◌, ◌+◌, ◌≤◌, ◌<◌};
ghost use Rattle.rules.specs.Numbers.{max_cost, max_budget};
ghost use Rattle.rules.specs.Accept.{center_after, best_after, is_spent, spent_phase, accept};
ghost use Rattle.engine.specs.Ready.{Ready};

use super::count::count;
use super::decide::{decided, finished_by};
use super::phase::{is_met, moved, next_phase, spent_phase};
use super::trial::trial;
use super::vertices::{entrant, gather, stand};
use rules::{Change, Decision, Phase, Search, Vertex};

// The point that the next build goes around, or that companions are built around.
fn center(s: &mut Search, decision: Decision, u: &Vertex)
    ensures { s.new ≡ record s.old { center = center_after decision u.now s.old } }
{
    match decision {
        Decision::Restart | Decision::Regroup(Change::Built) => s.center = u.point,
        _ => {}
    }
}

// One reading more, with the best after it: replaced only by a lower one.
fn note(s: &mut Search, v: Vertex)
    requires { s.old.readings < max_budget }
    ensures { s.new ≡ record s.old { readings = s.old.readings + 1; best = best_after s.old.readings v s.old.best } }
{
    if s.readings == 0 || v.cost < s.best.cost {
        s.best = v;
    }
    s.readings += 1;
}

// The phase that comes next, or the end where this reading spends the budget.
fn advance(s: &mut Search, next: Phase)
    requires { s.old.readings < max_budget }
    ensures { s.new ≡ record s.old { phase = spent_phase (is_spent s.old) next } }
{
    s.phase = spent_phase(s.readings + 1 == s.setup.budget, next);
}

// The search after an accepted reading of this cost.
#[tactic(auto, using(crate::proofs::Laws::Accepting::gathered_then, crate::proofs::Laws::Accepting::entrant_low, crate::proofs::Laws::Accepting::placed), unfolding(rules::specs::Accept::accept, rules::specs::Trial::trial))]
pub(super) fn accept(s: &mut Search, cost: u64)
    requires { (Ready s.old) × (s.old.readings < max_budget) × (cost ≤ max_cost) }
    ensures { s.new ≡ accept s.old cost }
{
    let point = trial(s, s.phase).point;
    let number = s.readings + 1;
    let v = Vertex {
        point,
        cost,
        number,
    };
    let decision = decided(s, cost);
    let piece = finished_by(decision);
    let u = entrant(s, decision, v);
    let movement = moved(s, decision, &u);
    stand(s, decision, &u);
    gather(s, decision, &u);
    let met = is_met(s, piece, movement);
    center(s, decision, &u);
    count(&mut s.counts, s.phase, piece);
    advance(s, next_phase(decision, met, s.method));
    note(s, v);
}
