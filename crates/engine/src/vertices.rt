// The vertices after a decision: the one that enters, the standing and the gathered places, and the stops of companions. Why `Ready` stands in the
// contracts is said in accept.rt.
ghost use Rattle.std.specs.Prelude.{◌≡◌, ◌≤◌};
ghost use Rattle.rules.specs.Numbers.{max_cost};
ghost use Rattle.rules.specs.Accept.{entrant, standing_with, standing_after, stops_after, gathered_with, gathered_after};
ghost use Rattle.engine.specs.Ready.{Ready, Kept, Placed};

use super::companion::regroup;
use super::insert::{append, insert};
use super::place::{blank, place_at, replace};
use super::view::gathered_in;
use rules::{Decision, Keeping, Newcomer, Search, Vertex};

// The vertex that a decision lets in: the reading v, or r as it was gathered, where e is told and not lower than r.
pub(super) fn entrant(s: &Search, decision: Decision, v: Vertex) -> Vertex
    ensures { result ≡ entrant decision v s.now }
{
    match decision {
        Decision::Take(_, Newcomer::Reflected) => place_at(&s.gathered, 0),
        _ => v,
    }
}

// The standing places where a piece or a probe round goes on: a companion stands as read.
#[tactic(auto, using(crate::proofs::Laws::Accepting::places, crate::proofs::Laws::Turning::reads))]
fn stand_with(s: &mut Search, keeping: Keeping, u: &Vertex)
    requires { (Ready s.old) × (Kept s.old.setup.n keeping) × (u.now.cost ≤ max_cost) }
    ensures stands { s.new ≡ record s.old { standing = standing_with keeping u.now s.old } }
    ensures ready { Ready s.new }
{
    match keeping {
        Keeping::Read(i) => replace(&mut s.standing, i, s.setup.n + 1, *u),
        Keeping::Nothing | Keeping::Joined | Keeping::First | Keeping::Told(_) => {}
    }
}

// The standing places and the stops: u replaces the vertex at place n + 1, or the gathered ones stand with u among them, or a base and its
// companions stand anew.
#[tactic(auto, using(crate::proofs::Laws::Accepting::places))]
pub(super) fn stand(s: &mut Search, decision: Decision, u: &Vertex)
    requires { (Ready s.old) × (Placed s.old.setup.n decision) × (u.now.cost ≤ max_cost) }
    ensures stands { s.new ≡ record s.old { standing = standing_after decision u.now s.old; stops = stops_after decision u.now s.old } }
    ensures ready { Ready s.new }
{
    match decision {
        Decision::Take(_, _) => insert(&mut s.standing, s.setup.n, *u),
        Decision::Stand(_) => {
            s.standing = s.gathered;
            insert(&mut s.standing, gathered_in(s.phase), *u);
        }
        Decision::Regroup(change) => regroup(s, change, u),
        Decision::Go(keeping, _) => stand_with(s, keeping, u),
        Decision::Restart => {}
    }
}

// The gathered places where a piece or a probe round goes on.
#[tactic(auto, using(crate::proofs::Laws::Accepting::places))]
fn gather_with(s: &mut Search, keeping: Keeping, u: &Vertex)
    requires { (Ready s.old) × (Kept s.old.setup.n keeping) × (u.now.cost ≤ max_cost) }
    ensures gathers { s.new ≡ record s.old { gathered = gathered_with keeping u.now s.old } }
    ensures ready { Ready s.new }
{
    match keeping {
        Keeping::Nothing | Keeping::Read(_) => {}
        Keeping::Joined => insert(&mut s.gathered, gathered_in(s.phase), *u),
        Keeping::First => {
            let first = place_at(&s.standing, 0);
            insert(&mut s.gathered, 0, first);
        }
        Keeping::Told(i) => append(&mut s.gathered, i - 1, *u),
    }
}

// The gathered places: none after the end of a piece, the probe alone after a lower one.
#[tactic(auto, using(crate::proofs::Laws::Accepting::places))]
pub(super) fn gather(s: &mut Search, decision: Decision, u: &Vertex)
    requires { (Ready s.old) × (Placed s.old.setup.n decision) × (u.now.cost ≤ max_cost) }
    ensures gathers { s.new ≡ record s.old { gathered = gathered_after decision u.now s.old } }
    ensures ready { Ready s.new }
{
    match decision {
        Decision::Go(keeping, _) => gather_with(s, keeping, u),
        Decision::Take(_, _) | Decision::Stand(_) | Decision::Regroup(_) => s.gathered = blank(),
        Decision::Restart => insert(&mut s.gathered, 0, *u),
    }
}
